//! What the operators, the tests and the functions of the query language give at values.
#![tactic(auto)]

mod arithmetic;
mod chains;
mod functions;
mod joined;
mod limits;
mod parts;
mod ranges;
mod texts;

pub use arithmetic::{divide, minus, modulo, negative, positive, times};
pub use chains::{compared, conjunction, disjunction, exclusive};
pub use functions::{absolute, length, size, to_integer, to_text};
pub use joined::{plus, sum};
pub use limits::{is_within_limits, made};
pub use parts::{keys, nodes, relationships};
pub use ranges::{integers_from, range, range_size};
pub use texts::{begins_with, contains, finishes_with, is_not_null, is_null};
