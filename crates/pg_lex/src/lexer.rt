//! From a text to its tokens.

ghost use Rattle.std.specs.Prelude.{◌≡◌, ◌⊎◌, List, Some, None, IfOk, IfErr, IsErrOf, option_map};
ghost use Rattle.pg_meaning.specs.Tokens as spec;
ghost use Rattle.pg_lex.specs.Scans as scan;
ghost use Rattle.pg_lex.specs.View.{next_view, lexeme_view, tokens_view};

use crate::class::class;
use crate::gaps::slash;
use crate::keywords::keyword_of;
use crate::names::name;
use crate::numbers::{after_digits, integer};
use crate::strings::content;
use crate::symbols::symbol;
use crate::text::{before, split_first};
use crate::token::{Class, Lexeme, Next, Token};
use crate::words::after_word;
use pg_meaning::Fault;
use std::alloc::{AllocError, Global};

/// The parameter behind a dollar.
#[tactic(auto, using(crate::proofs::Backquotes::named_some, crate::proofs::Backquotes::named_none))]
fn parameter(alloc: Global, text: &str) -> Result<Option<(Lexeme<'_>, &str)>, AllocError>
    ensures { IfOk result
        (λ o. scan.Fronts lexeme_view (spec.parameter_at (spec.characters text.now)) o) }
{
    let Some((first, behind)) = split_first(text) else {
        return Ok(None);
    };
    match class(first) {
        Class::Letter => {
            let rest = after_word(behind);
            let word = before(text, rest);
            Ok(Some((Lexeme::Parameter(word), rest)))
        }
        Class::Digit => {
            let rest = after_digits(behind);
            let digits = before(text, rest);
            Ok(Some((Lexeme::Parameter(digits), rest)))
        }
        Class::Backquote => match name(alloc, behind)? {
            Some((name, rest)) => Ok(Some((Lexeme::QuotedParameter(name), rest))),
            None => Ok(None),
        },
        _ => Ok(None),
    }
}

/// The lexeme at the front of a text.
#[tactic(auto, using(crate::proofs::Backquotes::named_some, crate::proofs::Backquotes::named_none))]
fn lexeme(alloc: Global, text: &str) -> Result<Option<(Lexeme<'_>, &str)>, AllocError>
    ensures { IfOk result
        (λ o. scan.Fronts lexeme_view (spec.lexeme_at (spec.characters text.now)) o) }
{
    let Some((first, behind)) = split_first(text) else {
        return Ok(None);
    };
    match class(first) {
        Class::Letter => {
            let rest = after_word(behind);
            let word = before(text, rest);
            match keyword_of(word) {
                Some(keyword) => Ok(Some((Lexeme::Keyword(keyword, word), rest))),
                None => Ok(Some((Lexeme::Word(word), rest))),
            }
        }
        Class::Digit => Ok(integer(text)),
        Class::Backquote => match name(alloc, behind)? {
            Some((name, rest)) => Ok(Some((Lexeme::QuotedName(name), rest))),
            None => Ok(None),
        },
        Class::Quotation => match content(alloc, first, behind)? {
            Some((content, rest)) => Ok(Some((Lexeme::Text(content), rest))),
            None => Ok(None),
        },
        Class::Dollar => parameter(alloc, behind),
        Class::Other => Ok(symbol(text)),
    }
}

/// What stands at the front of a text.
fn next(alloc: Global, text: &str) -> Result<Next<'_>, AllocError>
    ensures { IfOk result (λ x. next_view x ≡ scan.next_at (spec.characters text.now)) }
{
    let Some((first, behind)) = split_first(text) else {
        return Ok(Next::Bad);
    };
    if first.is_whitespace() {
        return Ok(Next::Gap(behind));
    }
    if first == '/' {
        return Ok(slash(behind));
    }
    Ok(match lexeme(alloc, text)? {
        Some((lexeme, rest)) => Next::Found(lexeme, rest),
        None => Next::Bad,
    })
}

/// All tokens of a text; None where some place has no lexeme.
fn lexed(alloc: Global, text: &str) -> Result<Option<Vec<Token<'_>>>, AllocError>
    ensures { IfOk result
        (λ o. option_map (λ ts. tokens_view ts.items) o ≡ spec.tokens_of text.now) }
{
    let mut found = Vec::new(alloc);
    let mut rest = text;
    while !rest.is_empty() {
        match next(alloc, rest)? {
            Next::Gap(more) => rest = more,
            Next::Found(lexeme, more) => {
                found.push(Token {
                    lexeme,
                    start: text.len() - rest.len(),
                    finish: text.len() - more.len(),
                })?;
                rest = more;
            }
            Next::Bad => return Ok(None),
        }
    }
    Ok(Some(found))
}

/// The tokens of a text, in their order.
pub fn tokens(alloc: Global, text: &str) -> Result<Vec<Token<'_>>, Fault>
    // They are those that the function of the definitions finds.
    ensures found { IfOk result (λ ts. spec.tokens_of text.now ≡ Some (tokens_view ts.items)) }
    // Out of memory says nothing of the text. The other refusal says that some place has no lexeme.
    ensures refused { IfErr result (λ e. (e ≡ Fault.OutOfMemory)
        ⊎ ((e ≡ Fault.BadLexeme) × (spec.tokens_of text.now ≡ None))) }
    // The text is whitespace, comments and these lexemes, each the longest at its place.
    ensures lexes { IfOk result (λ ts. spec.Lexes text.now (tokens_view ts.items)) }
    // It lexes in no other way.
    ensures only { (ts : List spec.Token)
        → spec.Lexes text.now ts → IfOk result (λ r. tokens_view r.items ≡ ts) }
    // A text that lexes is no bad one.
    ensures none { IsErrOf result Fault.BadLexeme
        → (ts : List spec.Token) → ¬ (spec.Lexes text.now ts) }
{
    lexed(alloc, text)?.ok_or(Fault::BadLexeme)
}
