//! When two expressions are one tree, and the items that have an expression.
#![tactic(auto)]

mod codes;
mod index;
mod trees;

pub use index::{ItemIndex, index_of, is_item};
pub use trees::same_expression;
