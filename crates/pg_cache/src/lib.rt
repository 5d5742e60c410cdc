//! Plans of query texts, shared by all tenants.
#![tactic(auto)]

mod cache;
mod digested;
mod instances;
mod key;

pub use cache::PlanCache;
pub use digested::DigestedCatalogue;
pub use instances::instances_of_caches;
