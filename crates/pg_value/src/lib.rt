//! What can be asked of values: equality and comparison of three answers, membership, logic,
//! weight and depth.
#![tactic(auto)]

mod comparison;
mod equality;
mod logic;
mod measures;
mod membership;
mod texts;

pub use comparison::less3;
pub use equality::eq3;
pub use logic::{and, not, or, truth, truth_of, value_of_truth, xor};
pub use measures::{depth, weight};
pub use membership::is_in;
pub use pg_value_core::{Fault, NodeId, Out, Path, RelId, Tri, Value, equivalent, order};
pub use texts::has_duplicate;
