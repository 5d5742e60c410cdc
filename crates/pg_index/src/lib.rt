//! Sets of ids by key: what finds elements without visiting the others.
#![tactic(auto)]

mod index;
mod properties;
mod valued_ids;

pub use index::Index;
pub use properties::{PropertyIndex, index_of, insert_in_each, position_of, remove_valued};
