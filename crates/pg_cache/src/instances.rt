//! Small caches. A function without a body says that the instances hold, or don't, as they are listed.
ghost use Rattle.pg_cache.specs.InstancesOfCaches.{InstancesOfKeysKept, InstancesOfLookUps, InstancesOfPlansKept};

/// What is kept, in which order, and what look-ups count.
pub fn instances_of_caches()
    ensures plans { InstancesOfPlansKept }
    ensures keys { InstancesOfKeysKept }
    ensures look_ups { InstancesOfLookUps }
{}
