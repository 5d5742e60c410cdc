//! The value or the fault of an expression of the query language at a row.
#![tactic(auto)]

mod atoms;
mod calls;
mod conditions;
mod counts;
mod elements;
mod evaluation;
mod known_conjuncts;
mod lent;
mod lone_columns;
mod made;
mod operators;
mod plain_operands;
mod prepared;
mod prepared_condition;
mod query_context;
mod ranges;
mod reads;
mod row_context;
mod scalar;
mod scalar_evaluation;
mod scalar_operators;
mod scalar_trees;
mod sides;
mod value_ref;

pub use conditions::{condition, prepare_condition};
pub use evaluation::{evaluate, evaluate_at, evaluate_once, find_at};
pub use lent::{lent_at, push_at};
pub use lone_columns::{lone_column, read_column};
pub use prepared::{Prepared, prepare};
pub use prepared_condition::PreparedCondition;
pub use query_context::QueryContext;
pub use row_context::RowContext;
pub use value_ref::ValueRef;
