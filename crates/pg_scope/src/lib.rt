//! The static faults of a query.
#![tactic(auto)]

mod behind;
mod calls;
mod clauses;
mod columns;
mod expressions;
mod found;
mod items;
mod modes;
mod names;
mod paths;
mod patterns;
mod projections;
mod properties;
mod query;
mod relationships;
mod scoped;
mod scopes;
mod steps;
mod used;

pub use behind::names_behind;
pub use calls::{AggregateFunction, Function, function_named, summary_named};
pub use columns::{Naming, column_name};
pub use names::{ScopeNames, add, is_among};
pub use query::check;
pub use scoped::Scoped;
pub use scopes::add_path;
pub use used::add_variable;
