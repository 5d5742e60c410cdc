//! The parameters that a text names.
ghost use Rattle.std.specs.Prelude.{◌≡◌, IfOk, map, option_map, option_to_list, string_bytes};
ghost use Rattle.pg_lex.specs.View.{lexeme_view, tokens_view};
ghost use Rattle.pg_plan.specs.Parameters.{lexeme_parameter, named_in_tokens};

use pg_lex::{Lexeme, Token};
use std::alloc::{AllocError, Global};

/// The names of the parameters among the tokens, in text order, each as often as it stands there.
pub(crate) fn parameter_names(
    alloc: Global,
    tokens: &Vec<Token<'_>>,
) -> Result<Vec<String>, AllocError>
    ensures { IfOk result
        (λ names. map string_bytes names.items ≡ named_in_tokens (tokens_view tokens.now.items)) }
{
    let mut names = Vec::new(alloc);
    for token in tokens {
        if let Some(name) = parameter_name(&token.lexeme) {
            let copied = String::from_str(alloc, name)?;
            names.push(copied)?;
        }
    }
    Ok(names)
}

fn parameter_name<'a>(lexeme: &'a Lexeme<'_>) -> Option<&'a str>
    ensures { option_to_list (option_map (λ name. name.now) result)
        ≡ lexeme_parameter (lexeme_view lexeme.now) }
{
    match lexeme {
        Lexeme::Parameter(name) => Some(*name),
        Lexeme::QuotedParameter(name) => Some(name.as_str()),
        _ => None,
    }
}
