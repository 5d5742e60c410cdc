//! What a lexeme begins with.

ghost use Rattle.std.specs.Prelude.{◌≡◌};
ghost use Rattle.pg_meaning.specs.Tokens as spec;
ghost use Rattle.pg_lex.specs.View.{class_view};

use crate::characters::{begins_word, is_digit};
use crate::token::Class;

pub(crate) fn class(c: char) -> Class
    ensures { class_view result ≡ spec.class c }
{
    if begins_word(c) {
        Class::Letter
    } else if is_digit(c) {
        Class::Digit
    } else if c == '`' {
        Class::Backquote
    } else if c == '\'' || c == '"' {
        Class::Quotation
    } else if c == '$' {
        Class::Dollar
    } else {
        Class::Other
    }
}
