//! What all tenants share.
use pg_cache::PlanCache;
use pg_graph::Tables;
use std::hash::RandomState;

/// The plans of all tenants' queries, their names, and what is shared of their tables.
#[derive(Drop)]
pub struct Shared<'a, T: Tables> {
    pub cache: &'a PlanCache<RandomState>,
    pub stores: &'a pg_store::Shared<T::Shared>,
}
