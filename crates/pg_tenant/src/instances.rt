//! Small requests. A function without a body says that the instances hold, or don't, as they are listed.
ghost use Rattle.pg_tenant.specs.InstancesOfTenants.{InstancesOfChanges, InstancesOfEarlyTests, InstancesOfIndexes, InstancesOfReplies, InstancesOfRights, InstancesOfTexts};
ghost use Rattle.pg_tenant.specs.InstancesOfPages.{InstancesOfHeldRows, InstancesOfPulls};
ghost use Rattle.pg_tenant.specs.InstancesOfTransactions.{InstancesOfTransactions, InstancesOfWaiting};

/// What a tenant answers, and in which order it tests.
pub fn instances_of_tenants()
    ensures rights { InstancesOfRights }
    ensures indexes { InstancesOfIndexes }
    ensures early { InstancesOfEarlyTests }
    ensures texts { InstancesOfTexts }
    ensures replies { InstancesOfReplies }
    ensures changes { InstancesOfChanges }
{}

/// What a tenant answers while a transaction is open, and while none is.
pub fn instances_of_transactions()
    ensures transactions { InstancesOfTransactions }
    ensures waiting { InstancesOfWaiting }
{}

/// What a tenant holds of rows, and what it answers to those who pull them.
pub fn instances_of_pages()
    ensures pulls { InstancesOfPulls }
    ensures held { InstancesOfHeldRows }
{}
