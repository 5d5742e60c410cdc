//! Words.

ghost use Rattle.std.specs.Prelude.{◌≡◌};
ghost use Rattle.pg_meaning.specs.Tokens as spec;

use crate::characters::continues_word;
use crate::text::split_first;

/// The text behind the characters at its front that continue a word.
pub(crate) fn after_word(text: &str) -> &str
    ensures { spec.characters result.now
        ≡ spec.after spec.continues_word (spec.characters text.now) }
{
    let mut rest = text;
    while let Some((first, behind)) = split_first(rest) {
        if !continues_word(first) {
            return rest;
        }
        rest = behind;
    }
    rest
}
