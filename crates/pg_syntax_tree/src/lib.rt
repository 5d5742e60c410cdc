//! The syntax tree of a query: every optional token, all parentheses, and the places that faults
//! and columns name. What its conditions say by their form alone.
#![tactic(auto)]

mod clauses;
mod conjuncts;
mod expression;
mod fixing;
mod laws;
mod patterns;

pub use clauses::{Clause, Item, On, Projection, Query, RemoveItem, SetItem, SortItem};
pub use conjuncts::{conjunction, conjuncts_of};
pub use expression::{Expression, Literal, Name, Suffix, Test};
pub use fixing::{Fixed, fixed_by};
pub use laws::law_of_views;
pub use patterns::{
    Detail, NodePattern, PathPattern, Properties, Range, RelationshipPattern, TypeName,
};
