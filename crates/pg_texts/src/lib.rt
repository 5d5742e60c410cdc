//! Whether two texts are the same, told quickly where they are short.
#![tactic(auto)]

mod texts;

pub use texts::{is_short, same_short, same_text};
