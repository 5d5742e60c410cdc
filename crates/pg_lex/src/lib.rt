//! From text to tokens.
#![tactic(auto)]

mod characters;
mod class;
mod gaps;
mod keywords;
mod laws;
mod lexer;
mod names;
mod numbers;
mod strings;
mod symbols;
mod text;
mod token;
mod words;

pub use laws::{law_lexes_exactly, law_one_lexing};
pub use lexer::tokens;
pub use token::{Lexeme, Natural, Token};
