//! Comments.

ghost use Rattle.std.specs.Prelude.{◌≡◌, false};
ghost use Rattle.pg_meaning.specs.Tokens as spec;
ghost use Rattle.pg_lex.specs.Scans as scan;
ghost use Rattle.pg_lex.specs.View.{next_view};

use crate::characters::is_line_end;
use crate::text::split_first;
use crate::token::{Lexeme, Next};
use pg_meaning::Symbol;

/// The text from the line's end on.
fn after_line(text: &str) -> &str
    ensures { spec.characters result.now ≡ spec.after scan.is_in_line (spec.characters text.now) }
{
    let mut rest = text;
    while let Some((first, behind)) = split_first(rest) {
        if is_line_end(first) {
            return rest;
        }
        rest = behind;
    }
    rest
}

/// The text behind the comment that was opened.
fn after_comment(text: &str) -> Option<&str>
    ensures { scan.Leaves (spec.comment_from false (spec.characters text.now)) result }
{
    let mut is_star_before = false;
    let mut rest = text;
    while let Some((first, behind)) = split_first(rest) {
        if is_star_before && first == '/' {
            return Some(behind);
        }
        is_star_before = first == '*';
        rest = behind;
    }
    None
}

/// What stands at a slash, given the text behind it.
pub(crate) fn slash(text: &str) -> Next<'_>
    ensures { next_view result ≡ spec.next_slash (spec.characters text.now) }
{
    match split_first(text) {
        Some(('/', behind)) => Next::Gap(after_line(behind)),
        Some(('*', behind)) => match after_comment(behind) {
            Some(rest) => Next::Gap(rest),
            None => Next::Bad,
        },
        _ => Next::Found(Lexeme::Symbol(Symbol::Slash), text),
    }
}
