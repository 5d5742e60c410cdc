//! Tables whose records are all in one pool, which the tables of all owners share.
#![tactic(auto)]

mod chunks;
mod ids;
mod links;
mod pages;
mod pool;
mod pooled_tables;
mod slab;
mod slots;

pub use pool::Pool;
pub use pooled_tables::PooledTables;
