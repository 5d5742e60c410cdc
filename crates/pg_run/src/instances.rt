//! Small values. A function without a body says that the instances hold.
ghost use Rattle.pg_run.specs.InstancesOfPrinted.{InstancesOfPrinted};

/// Values as replies print them.
pub fn instances_of_values()
    ensures { InstancesOfPrinted }
{}
