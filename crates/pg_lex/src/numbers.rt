//! Integers.

ghost use Rattle.std.specs.Prelude.{◌≡◌, true, option_map};
ghost use Rattle.pg_meaning.specs.Tokens as spec;
ghost use Rattle.pg_lex.specs.Scans as scan;
ghost use Rattle.pg_lex.specs.View.{lexeme_view};

use crate::characters::{begins_word, is_digit};
use crate::text::{before, split_first};
use crate::token::{Lexeme, Natural};

const GREATEST: u64 = 9223372036854775807;

/// The text behind the digits at its front.
pub(crate) fn after_digits(text: &str) -> &str
    ensures { spec.characters result.now ≡ spec.after spec.is_digit (spec.characters text.now) }
{
    let mut rest = text;
    while let Some((first, behind)) = split_first(rest) {
        if !is_digit(first) {
            return rest;
        }
        rest = behind;
    }
    rest
}

/// The value of digits, unless it is too large.
fn value_of(digits: &[u8]) -> Option<Natural>
    ensures { option_map scan.value result ≡ scan.small_value digits.now }
{
    let mut value: u64 = 0;
    for b in digits {
        let digit = u64::from(b.saturating_sub(b'0'));
        if value > (GREATEST - digit) / 10 {
            return None;
        }
        value = 10 * value + digit;
    }
    Some(Natural { value })
}

/// The value of a numeral: of digits with no 0 in front of others.
fn numeral(digits: &[u8]) -> Option<Natural>
    ensures { option_map scan.value result ≡ scan.natural_of digits.now }
{
    match digits {
        [] | [b'0', _, ..] => None,
        _ => value_of(digits),
    }
}

fn word_follows(rest: &str) -> bool
    ensures { result ≡ spec.Starts spec.begins_word (spec.characters rest.now) }
{
    match split_first(rest) {
        Some((first, _)) => begins_word(first),
        None => false,
    }
}

/// The integer that begins with the text's first character, a digit.
pub(crate) fn integer(text: &str) -> Option<(Lexeme<'_>, &str)>
    requires { spec.Starts spec.is_digit (spec.characters text.now) ≡ true }
    ensures { scan.Fronts lexeme_view (scan.integer_front (spec.characters text.now)) result }
{
    let (_first, behind) = split_first(text)?;
    let rest = after_digits(behind);
    if word_follows(rest) {
        return None;
    }
    let digits = before(text, rest);
    Some((Lexeme::Integer(numeral(digits.as_bytes())?), rest))
}
