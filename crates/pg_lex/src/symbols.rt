//! Signs and pairs of signs.

ghost use Rattle.std.specs.Prelude.{◌≡◌};
ghost use Rattle.pg_meaning.specs.Tokens as spec;
ghost use Rattle.pg_lex.specs.Scans as scan;
ghost use Rattle.pg_lex.specs.View.{lexeme_view};

use crate::text::split_first;
use crate::token::Lexeme;
use pg_meaning::Symbol;

fn sign_of(c: char) -> Option<Symbol>
    ensures { result ≡ scan.sign_of c }
{
    match c {
        '(' => Some(Symbol::OpenParenthesis),
        ')' => Some(Symbol::CloseParenthesis),
        '[' => Some(Symbol::OpenBracket),
        ']' => Some(Symbol::CloseBracket),
        '{' => Some(Symbol::OpenBrace),
        '}' => Some(Symbol::CloseBrace),
        ',' => Some(Symbol::Comma),
        '.' => Some(Symbol::Dot),
        ':' => Some(Symbol::Colon),
        ';' => Some(Symbol::Semicolon),
        '+' => Some(Symbol::Plus),
        '-' => Some(Symbol::Minus),
        '*' => Some(Symbol::Star),
        '/' => Some(Symbol::Slash),
        '%' => Some(Symbol::Percent),
        '=' => Some(Symbol::Equal),
        '<' => Some(Symbol::Less),
        '>' => Some(Symbol::Greater),
        '|' => Some(Symbol::Bar),
        _ => None,
    }
}

fn pair_of(c: char, d: char) -> Option<Symbol>
    ensures { result ≡ scan.pair_of c d }
{
    match (c, d) {
        ('.', '.') => Some(Symbol::TwoDots),
        ('<', '>') => Some(Symbol::NotEqual),
        ('<', '=') => Some(Symbol::LessOrEqual),
        ('>', '=') => Some(Symbol::GreaterOrEqual),
        ('+', '=') => Some(Symbol::PlusEqual),
        _ => None,
    }
}

/// The longest symbol at the front.
pub(crate) fn symbol(text: &str) -> Option<(Lexeme<'_>, &str)>
    ensures { scan.Fronts lexeme_view
        (spec.symbol_among spec.symbols (spec.characters text.now)) result }
{
    let (first, behind) = split_first(text)?;
    if let Some((second, rest)) = split_first(behind) {
        if let Some(symbol) = pair_of(first, second) {
            return Some((Lexeme::Symbol(symbol), rest));
        }
    }
    Some((Lexeme::Symbol(sign_of(first)?), behind))
}
