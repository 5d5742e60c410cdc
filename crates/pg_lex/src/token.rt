ghost use Rattle.std.specs.Prelude.{◌≤◌};

use pg_meaning::{Keyword, Symbol};

/// A whole number as a text can spell it.
#[derive(Clone, Copy)]
pub struct Natural {
    pub value: u64,
    ghost within: { value ≤ 9223372036854775807 },
}

/// A lexeme with its decoded content. Where nothing is decoded, that is a part of the text.
pub enum Lexeme<'a> {
    /// No keyword.
    Word(&'a str),
    /// As it is spelled, since a keyword may be a name.
    Keyword(Keyword, &'a str),
    QuotedName(String),
    Integer(Natural),
    Text(String),
    Parameter(&'a str),
    QuotedParameter(String),
    Symbol(Symbol),
}

// Written out, since a derived one is proved anew in each function that may let such a value go.
impl<'a> Drop for Lexeme<'a> {
    fn drop(self) {
        match self {
            Lexeme::Word(_) => {}
            Lexeme::Keyword(_, _) => {}
            Lexeme::QuotedName(_) => {}
            Lexeme::Integer(_) => {}
            Lexeme::Text(_) => {}
            Lexeme::Parameter(_) => {}
            Lexeme::QuotedParameter(_) => {}
            Lexeme::Symbol(_) => {}
        }
    }
}

/// A lexeme and the bytes of the text that spell it, from `start` up to `finish`.
#[derive(Drop)]
pub struct Token<'a> {
    pub lexeme: Lexeme<'a>,
    pub start: usize,
    pub finish: usize,
}

/// What stands at a place, and the text behind it.
#[derive(Drop)]
pub(crate) enum Next<'a> {
    /// Whitespace or a comment.
    Gap(&'a str),
    Found(Lexeme<'a>, &'a str),
    /// No lexeme.
    Bad,
}

/// What the first character of a lexeme tells of it.
#[derive(Drop)]
pub(crate) enum Class {
    Letter,
    Digit,
    Backquote,
    Quotation,
    Dollar,
    Other,
}
