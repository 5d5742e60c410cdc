//! Texts taken apart at characters.

ghost use Rattle.std.specs.Prelude.{◌≡◌, ◌<◌, ◌-◌, ℕ, List, ◌++◌, length, IfSome};
ghost use Rattle.pg_meaning.specs.Tokens as spec;
ghost use Rattle.pg_lex.specs.Scans.{Splits, EndsWith};

/// The first character and the text behind it.
pub(crate) fn split_first(text: &str) -> Option<(char, &str)>
    ensures parts { Splits text.now result }
    ensures shorter { IfSome result (λ p. length p.1.now < length text.now) }
{
    let mut chars = text.chars();
    let first = chars.next()?;
    Some((first, chars.as_str()))
}

/// What stands in the text before its end `rest`.
pub(crate) fn before<'a>(text: &'a str, rest: &str) -> &'a str
    requires { EndsWith text.now rest.now }
    ensures { (front : List ℕ) → spec.characters text.now ≡ front ++ spec.characters rest.now
        → result.now ≡ spec.utf8 front }
{
    &text[..text.len() - rest.len()]
}
