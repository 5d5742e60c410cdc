//! From tokens to the trees of the whole language.
#![tactic(auto)]

mod clauses;
mod patterns;
mod projections;
mod query;

pub use query::{law_one_reading, parse};
