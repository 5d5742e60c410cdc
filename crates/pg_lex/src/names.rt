//! Quoted names.

ghost use Rattle.std.specs.Prelude.{◌≡◌, ◌≤◌, IfOk, IfSome, [], length, false, true};
ghost use Rattle.pg_meaning.specs.Tokens as spec;
ghost use Rattle.pg_lex.specs.Scans as scan;

use crate::text::split_first;
use std::alloc::{AllocError, Global};

/// The text behind a character in backquotes, of which a backquote is written twice. None is the end of the name.
fn past(first: char, behind: &str) -> Option<&str>
    ensures rest { scan.Leaves (scan.past_front first (spec.characters behind.now)) result }
    ensures no_longer { IfSome result (λ more. length more.now ≤ length behind.now) }
{
    if first != '`' {
        return Some(behind);
    }
    match split_first(behind) {
        Some(('`', more)) => Some(more),
        _ => None,
    }
}

/// What stands in backquotes, behind the first of them, and the text behind the last, where it is at least one character.
#[tactic(auto, using(crate::proofs::Backquotes::unended))]
pub(crate) fn name(alloc: Global, text: &str) -> Result<Option<(String, &str)>, AllocError>
    ensures { IfOk result (λ o. scan.Fronts scan.content (scan.behind_text
        [] (scan.nonempty (spec.quoted_from false (spec.characters text.now)))) o) }
{
    let mut name = String::new(alloc);
    let mut rest = text;
    while let Some((first, behind)) = split_first(rest) {
        let Some(more) = past(first, behind) else {
            if name.is_empty() {
                return Ok(None);
            }
            return Ok(Some((name, behind)));
        };
        name.push(first)?;
        rest = more;
    }
    Ok(None)
}
