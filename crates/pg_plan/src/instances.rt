//! Small queries and texts. A function without a body says that the instances hold.
ghost use Rattle.pg_plan.specs.InstancesOfPlans.{InstancesOfLengths, InstancesOfUpdates};

/// Which queries may change a graph, and how long a text may be.
pub fn instances_of_plans()
    ensures updates { InstancesOfUpdates }
    ensures lengths { InstancesOfLengths }
{}
