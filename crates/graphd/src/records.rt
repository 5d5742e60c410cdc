//! What a server keeps in the pool of its tables' records.
ghost use Rattle.graphd.specs.Records.{TenantsHoldRecords, UnusedIsEmpty};

/// Where tenants hold their graphs over a pool, each has exactly the records of its place there; and a pool that no
/// owner uses has none.
pub fn law_of_pooled_records()
    ensures tenants { TenantsHoldRecords }
    ensures unused { UnusedIsEmpty }
{}
