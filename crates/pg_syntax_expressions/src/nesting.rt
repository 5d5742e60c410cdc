//! Expressions, to any depth.

ghost use Rattle.pg_lex.specs.View.{tokens_view};
ghost use Rattle.pg_meaning.specs.Parse as parse;
ghost use Rattle.pg_meaning.specs.Tree as tree;
ghost use Rattle.pg_syntax_tokens.specs.Gives.{Gives};
ghost use Rattle.pg_syntax_expressions.specs.Nests.{Nests};
ghost use Rattle.pg_syntax_expressions.specs.ShrinksExpressions.{expr_shrinks};
ghost use Rattle.pg_syntax_tree.specs.View.{expression_view};

use crate::chains::Chain;
use crate::levels::Negation;
use pg_syntax_tokens::{Expressions, ParseError, Rule, Tokens};
use pg_syntax_tree::Expression;
use std::alloc::Global;

/// A function that reads expressions, at a depth.
#[derive(Drop)]
struct Nesting<F> {
    alloc: Global,
    depth: usize,
    read: F,
}

impl<F: Fn(Global, &mut Tokens<'_, '_>, usize) -> Result<Expression, ParseError>> Expressions
    for Nesting<F> {
    ghost parser = { λ n. parse.expr n.depth };

    ghost ready = { λ n. Nests n.depth (F.pre n.read) (F.post n.read) };

    ghost shrinks = { λ n. expr_shrinks n.depth };

    fn alloc(&self) -> Global {
        self.alloc
    }

    fn expression(&self, tokens: &mut Tokens<'_, '_>) -> Result<Expression, ParseError> {
        (self.read)(self.alloc, tokens, self.depth)
    }
}

/// An expression with brackets nested less deep than the number.
#[tactic(auto, unfolding(pg_meaning::specs::Parse::expr, pg_meaning::specs::Parse::disjunction, pg_meaning::specs::Parse::exclusion, pg_meaning::specs::Parse::conjunction))]
pub fn expression(
    alloc: Global,
    tokens: &mut Tokens<'_, '_>,
    depth: usize,
) -> Result<Expression, ParseError>
    ensures { Gives expression_view
        (parse.expr depth (tokens_view tokens.old.rest.now)) result tokens.new.rest.now }
{
    if depth == 0 {
        return Err(ParseError::BadSyntax);
    }
    let nesting = Nesting {
        alloc,
        depth: depth - 1,
        read: expression,
    };
    let conjunction = Chain {
        level: 3,
        operand: Negation(&nesting),
    };
    let exclusion = Chain {
        level: 2,
        operand: conjunction,
    };
    let disjunction = Chain {
        level: 1,
        operand: exclusion,
    };
    disjunction.expression(tokens)
}

/// Expressions to a depth.
#[derive(Drop)]
pub struct ExpressionParser {
    pub alloc: Global,
    pub depth: usize,
}

impl Rule for ExpressionParser {
    type Tree = Expression;

    ghost Datum = { tree.Expression };

    ghost view = { expression_view };

    ghost parser = { λ w. parse.expr w.depth };

    ghost shrinks = { λ w. expr_shrinks w.depth };

    fn read(&self, tokens: &mut Tokens<'_, '_>) -> Result<Expression, ParseError> {
        expression(self.alloc, tokens, self.depth)
    }
}

impl Expressions for ExpressionParser {
    ghost parser = { λ w. parse.expr w.depth };

    ghost shrinks = { λ w. expr_shrinks w.depth };

    fn alloc(&self) -> Global {
        self.alloc
    }

    fn expression(&self, tokens: &mut Tokens<'_, '_>) -> Result<Expression, ParseError> {
        expression(self.alloc, tokens, self.depth)
    }
}
