//! The tokens that are left, rules that read them and rows of such rules, and how deep tokens nest.
#![tactic(auto)]

mod cursor;
mod depth;
mod error;
mod names;
mod rules;
mod whole;

pub use cursor::{Tokens, start_of};
pub use depth::is_too_deep;
pub use error::ParseError;
pub use names::{labels, labels_if_any, variable};
pub use rules::{Row, Rule, further, many, pieces, separated};
pub use whole::{Each, Expressions};
