//! How deep tokens nest.

ghost use Rattle.std.specs.Prelude.{◌≡◌};
ghost use Rattle.pg_lex.specs.View.{lexeme_view, tokens_view};
ghost use Rattle.pg_meaning.specs.Depth as spec;
ghost use Rattle.pg_syntax_tokens.specs.Turns.{turn_view, beside, is_beside, case_by};

use crate::cursor::{Tokens, is_symbol};
use pg_lex::{Lexeme, Token};
use pg_meaning::{Keyword, Symbol};

const GREATEST_DEPTH: usize = 64;

/// What a token does to the nesting.
#[derive(Drop)]
enum Turn {
    Opens,
    Closes,
    Stays,
}

/// Whether the symbol stands there.
fn is_at(token: Option<&Token<'_>>, symbol: Symbol) -> bool
    ensures { result ≡ is_beside symbol (beside token.entry) }
{
    match token {
        Some(token) => is_symbol(&token.lexeme, symbol),
        None => false,
    }
}

/// CASE is a name directly behind a dot and directly before a colon.
fn case_turn(before: Option<&Token<'_>>, after: Option<&Token<'_>>) -> Turn
    ensures { turn_view result
        ≡ case_by
        (is_beside Symbol.Dot (beside before.entry)) (is_beside Symbol.Colon (beside after.entry)) }
{
    if is_at(before, Symbol::Dot) || is_at(after, Symbol::Colon) {
        Turn::Stays
    } else {
        Turn::Opens
    }
}

/// END is a name directly behind what may stand before a name.
fn end_turn(before: Option<&Token<'_>>) -> Turn
    ensures { turn_view result ≡ spec.end_turn (beside before.entry) }
{
    let Some(token) = before else {
        return Turn::Closes;
    };
    match token.lexeme {
        Lexeme::Symbol(
            Symbol::Dot | Symbol::Colon | Symbol::Comma | Symbol::OpenBrace | Symbol::Bar,
        ) => Turn::Stays,
        _ => Turn::Closes,
    }
}

#[tactic(auto, using(crate::proofs::Turns::case_is))]
fn turn_of(before: Option<&Token<'_>>, token: &Token<'_>, after: Option<&Token<'_>>) -> Turn
    ensures { turn_view result
        ≡ spec.turn_of (beside before.entry) (lexeme_view token.now.lexeme) (beside after.entry) }
{
    match token.lexeme {
        Lexeme::Symbol(Symbol::OpenParenthesis | Symbol::OpenBracket | Symbol::OpenBrace) =>
            Turn::Opens,
        Lexeme::Symbol(Symbol::CloseParenthesis | Symbol::CloseBracket | Symbol::CloseBrace) =>
            Turn::Closes,
        Lexeme::Keyword(Keyword::Case, _) => case_turn(before, after),
        Lexeme::Keyword(Keyword::End, _) => end_turn(before),
        _ => Turn::Stays,
    }
}

fn is_sign(lexeme: &Lexeme<'_>) -> bool
    ensures { result ≡ spec.is_sign (lexeme_view lexeme.now) }
{
    matches!(
        lexeme,
        Lexeme::Symbol(Symbol::Plus | Symbol::Minus) | Lexeme::Keyword(Keyword::Not, _)
    )
}

/// Whether at some place more openers than closers stand before it, by more than the greatest depth.
fn is_nested(tokens: &[Token<'_>]) -> bool
    ensures { result ≡ spec.is_nested_from 0 0 (spec.turns (tokens_view tokens.now)) }
{
    let mut left = Tokens { rest: tokens };
    let mut before = None;
    let mut opened = 0;
    let mut closed = 0;
    // closers before any opener make room, so both are counted and neither is taken from the other
    while let Some(token) = left.take() {
        let after = left.rest.first();
        match turn_of(before, token, after) {
            Turn::Opens => {
                opened += 1;
                if closed + GREATEST_DEPTH < opened {
                    return true;
                }
            }
            Turn::Closes => closed += 1,
            Turn::Stays => {}
        }
        before = Some(token);
    }
    false
}

/// Whether more signs and NOTs than the greatest depth stand in a row.
fn has_long_row(tokens: &[Token<'_>]) -> bool
    ensures { result ≡ spec.has_long_row_from 0 (tokens_view tokens.now) }
{
    let mut row = 0;
    for token in tokens {
        if is_sign(&token.lexeme) {
            row += 1;
            if GREATEST_DEPTH < row {
                return true;
            }
        } else {
            row = 0;
        }
    }
    false
}

/// Whether a text nests deeper than the rule on nesting lets a parser recurse. It is asked before
/// anything is parsed.
#[tactic(auto, unfolding(pg_meaning::specs::Depth::is_too_deep))]
pub fn is_too_deep(tokens: &[Token<'_>]) -> bool
    ensures { result ≡ spec.is_too_deep (tokens_view tokens.now) }
{
    is_nested(tokens) || has_long_row(tokens)
}
