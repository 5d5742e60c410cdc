//! From tokens to the trees of expressions.
#![tactic(auto)]

mod atoms;
mod chains;
mod levels;
mod nesting;

pub use atoms::map_pairs;
pub use nesting::{ExpressionParser, expression};
