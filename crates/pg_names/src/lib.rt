//! The names of labels, types and keys: each text is kept once and known by a number.
#![tactic(auto)]

mod indexed_texts;
mod name_id;
mod names;
mod recent;
mod text_set;

pub use indexed_texts::IndexedTexts;
pub use name_id::NameId;
pub use names::{Names, law_of_names};
pub use text_set::TextSet;
