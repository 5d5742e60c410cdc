//! What reads the expressions inside of others, so that each rule is proved by itself.

ghost use Rattle.pg_lex.specs.View.{tokens_view};
ghost use Rattle.pg_meaning.specs.Parse.{Parser};
ghost use Rattle.pg_meaning.specs.Tree as tree;
ghost use Rattle.pg_syntax_tokens.specs.Gives.{Gives};
ghost use Rattle.pg_syntax_tokens.specs.Shrinks.{Shrinks};
ghost use Rattle.pg_syntax_tree.specs.View.{expression_view};

use crate::cursor::Tokens;
use crate::error::ParseError;
use crate::rules::Rule;
use pg_syntax_tree::Expression;
use std::alloc::Global;

/// Reads expressions as a function of the grammar says.
pub trait Expressions {
    ghost parser: { Self → Parser tree.Expression };

    ghost ready: { Self → Type 0 } = { λ _. Unit {0} };

    fn alloc(&self) -> Global;

    fn expression(&self, tokens: &mut Tokens<'_, '_>) -> Result<Expression, ParseError>
        requires { ready self.now }
        ensures { Gives expression_view
            (parser self.now (tokens_view tokens.old.rest.now)) result tokens.new.rest.now };

    ghost shrinks: { (whole : Self) → Shrinks (parser whole) };
}

/// Expressions as the pieces of a row.
#[derive(Drop)]
pub struct Each<'w, W>(pub &'w W);

impl<'w, W: Expressions> Rule for Each<'w, W> {
    type Tree = Expression;

    ghost Datum = { tree.Expression };

    ghost view = { expression_view };

    ghost parser = { λ e. W.parser e.0.now };

    ghost ready = { λ e. W.ready e.0.now };

    ghost shrinks = { λ e. W.shrinks e.0.now };

    fn read(&self, tokens: &mut Tokens<'_, '_>) -> Result<Expression, ParseError> {
        self.0.expression(tokens)
    }
}
