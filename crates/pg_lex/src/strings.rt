//! Strings and what is escaped in them.

ghost use Rattle.std.specs.Prelude.{◌≡◌, ◌<◌, ◌≤◌, IfOk, IfSome, [], length};
ghost use Rattle.pg_meaning.specs.Tokens as spec;
ghost use Rattle.pg_lex.specs.Scans as scan;

use crate::text::split_first;
use std::alloc::{AllocError, Global};

fn hexadecimal(text: &str) -> Option<(u32, &str)>
    ensures digit { scan.Fronts scan.same
        (scan.hexadecimal_front (spec.characters text.now)) result }
    ensures small { IfSome result (λ p. p.0 < 16) }
    ensures no_longer { IfSome result (λ p. length p.1.now ≤ length text.now) }
{
    let (first, behind) = split_first(text)?;
    Some((first.to_digit(16)?, behind))
}

/// The character whose code is four hexadecimal digits.
fn coded(text: &str) -> Option<(char, &str)>
    ensures front { scan.Fronts scan.same (scan.coded_front (spec.characters text.now)) result }
    ensures no_longer { IfSome result (λ p. length p.1.now ≤ length text.now) }
{
    let Some((a, text)) = hexadecimal(text) else {
        return None;
    };
    let Some((b, text)) = hexadecimal(text) else {
        return None;
    };
    let Some((c, text)) = hexadecimal(text) else {
        return None;
    };
    let Some((d, rest)) = hexadecimal(text) else {
        return None;
    };
    let code = ((a * 16 + b) * 16 + c) * 16 + d;
    Some((char::from_u32(code)?, rest))
}

fn escape_of(c: char) -> Option<char>
    ensures { result ≡ spec.escape_of c }
{
    match c {
        '\\' | '\'' | '"' => Some(c),
        'b' => Some('\u{8}'),
        'f' => Some('\u{c}'),
        'n' => Some('\n'),
        'r' => Some('\r'),
        't' => Some('\t'),
        _ => None,
    }
}

/// What is meant behind a backslash.
fn escaped(text: &str) -> Option<(char, &str)>
    ensures front { scan.Fronts scan.same (scan.escaped (spec.characters text.now)) result }
    ensures no_longer { IfSome result (λ p. length p.1.now ≤ length text.now) }
{
    let (first, behind) = split_first(text)?;
    if first == 'u' {
        return coded(behind);
    }
    Some((escape_of(first)?, behind))
}

/// The character that is meant in a string, and the text behind it.
fn meant(first: char, behind: &str) -> Option<(char, &str)>
    ensures front { scan.Fronts scan.same
        (scan.meant_front first (spec.characters behind.now)) result }
    ensures no_longer { IfSome result (λ p. length p.1.now ≤ length behind.now) }
{
    if first == '\\' {
        escaped(behind)
    } else {
        Some((first, behind))
    }
}

/// The content of a string behind its first quote, and the text behind its last.
pub(crate) fn content(
    alloc: Global,
    quote: char,
    text: &str,
) -> Result<Option<(String, &str)>, AllocError>
    ensures { IfOk result (λ o. scan.Fronts scan.content
        (scan.behind_text [] (spec.string_from quote spec.outside (spec.characters text.now))) o) }
{
    let mut content = String::new(alloc);
    let mut rest = text;
    while let Some((first, behind)) = split_first(rest) {
        if first == quote {
            return Ok(Some((content, behind)));
        }
        let Some((meant, more)) = meant(first, behind) else {
            return Ok(None);
        };
        content.push(meant)?;
        rest = more;
    }
    Ok(None)
}
