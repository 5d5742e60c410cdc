//! What a character may begin or continue.

ghost use Rattle.std.specs.Prelude.{◌≡◌};
ghost use Rattle.pg_meaning.specs.Tokens as spec;

use unicode_ident::{is_xid_continue, is_xid_start};

pub(crate) fn begins_word(c: char) -> bool
    ensures { result ≡ spec.begins_word c }
{
    if c.is_ascii() {
        c.is_ascii_alphabetic() || c == '_'
    } else {
        is_xid_start(c)
    }
}

pub(crate) fn continues_word(c: char) -> bool
    ensures { result ≡ spec.continues_word c }
{
    if c.is_ascii() {
        c.is_ascii_alphanumeric() || c == '_'
    } else {
        is_xid_continue(c)
    }
}

pub(crate) fn is_digit(c: char) -> bool
    ensures { result ≡ spec.is_digit c }
{
    c.is_ascii_digit()
}

pub(crate) fn is_line_end(c: char) -> bool
    ensures { result ≡ spec.is_line_end c }
{
    c == '\n' || c == '\r'
}
