//! Chains of operands with operators of one level between.

ghost use Rattle.std.specs.Prelude.{◌≡◌, Some, refl, map};
ghost use Rattle.pg_lex.specs.View.{lexeme_view, tokens_view};
ghost use Rattle.pg_meaning.specs.declared.operators.Operator.{Operator};
ghost use Rattle.pg_meaning.specs.Grammar.{operator_level};
ghost use Rattle.pg_meaning.specs.Parse as parse;
ghost use Rattle.pg_meaning.specs.Tree as tree;
ghost use Rattle.pg_syntax_tokens.specs.Gives.{GivesValue};
ghost use Rattle.pg_syntax_tokens.specs.ShrinksLaws.{eats_shrinks};
ghost use Rattle.pg_syntax_expressions.specs.ShrinksExpressions.{chain_shrinks, link_eats};
ghost use Rattle.pg_syntax_tree.specs.View.{expression_view, operand_view};

use pg_lex::Lexeme;
use pg_meaning::{Keyword, Operator, Symbol};
use pg_syntax_tokens::{Expressions, ParseError, Row, Rule, Tokens, pieces};
use pg_syntax_tree::Expression;
use std::alloc::Global;

fn level_of(operator: Operator) -> u8
    ensures { result ≡ operator_level operator }
{
    match operator {
        Operator::Or => 1,
        Operator::Xor => 2,
        Operator::And => 3,
        Operator::Plus | Operator::Minus => 7,
        Operator::Times | Operator::Divide | Operator::Modulo => 8,
        _ => 5,
    }
}

fn operator_of(lexeme: &Lexeme<'_>) -> Option<Operator>
    ensures { result ≡ parse.operator_of (lexeme_view lexeme.now) }
{
    match lexeme {
        Lexeme::Keyword(Keyword::Or, _) => Some(Operator::Or),
        Lexeme::Keyword(Keyword::Xor, _) => Some(Operator::Xor),
        Lexeme::Keyword(Keyword::And, _) => Some(Operator::And),
        Lexeme::Symbol(Symbol::Equal) => Some(Operator::Equal),
        Lexeme::Symbol(Symbol::NotEqual) => Some(Operator::NotEqual),
        Lexeme::Symbol(Symbol::Less) => Some(Operator::Less),
        Lexeme::Symbol(Symbol::LessOrEqual) => Some(Operator::LessOrEqual),
        Lexeme::Symbol(Symbol::Greater) => Some(Operator::Greater),
        Lexeme::Symbol(Symbol::GreaterOrEqual) => Some(Operator::GreaterOrEqual),
        Lexeme::Symbol(Symbol::Plus) => Some(Operator::Plus),
        Lexeme::Symbol(Symbol::Minus) => Some(Operator::Minus),
        Lexeme::Symbol(Symbol::Star) => Some(Operator::Times),
        Lexeme::Symbol(Symbol::Slash) => Some(Operator::Divide),
        Lexeme::Symbol(Symbol::Percent) => Some(Operator::Modulo),
        _ => None,
    }
}

/// The operator of that level that the lexeme is, if it is one.
fn operator_at(lexeme: &Lexeme<'_>, level: u8) -> Option<Operator>
    ensures { result ≡ parse.at_level level (parse.operator_of (lexeme_view lexeme.now)) }
{
    match operator_of(lexeme) {
        Some(operator) => if level_of(operator) == level {
            Some(operator)
        } else {
            None
        },
        None => None,
    }
}

/// An operator and the operand behind it.
#[derive(Drop)]
struct Link<'o, O> {
    level: u8,
    operand: &'o O,
}

impl<'o, O: Expressions> Rule for Link<'o, O> {
    type Tree = (Operator, Expression);

    ghost Datum = { Operator × tree.Expression };

    ghost view = { operand_view };

    ghost parser = { λ l. parse.link l.level (O.parser l.operand.now) };

    ghost ready = { λ l. O.ready l.operand.now };

    ghost shrinks = { λ l. eats_shrinks (link_eats l.level (O.shrinks l.operand.now)) };

    #[tactic(auto, unfolding(pg_meaning::specs::Parse::operator))]
    fn read(&self, tokens: &mut Tokens<'_, '_>) -> Result<(Operator, Expression), ParseError> {
        let [token, rest @ ..] = tokens.rest else {
            return Err(ParseError::BadSyntax);
        };
        let Some(operator) = operator_at(&token.lexeme, self.level) else {
            return Err(ParseError::BadSyntax);
        };
        tokens.rest = rest;
        let operand = self.operand.expression(tokens)?;
        Ok((operator, operand))
    }
}

impl<'o, O: Expressions> Row for Link<'o, O> {
    ghost begins = { λ l. parse.begins_operator l.level };

    ghost none = { λ _. refl };

    ghost takes = { λ l. link_eats l.level (O.shrinks l.operand.now) };

    fn begins(&self, tokens: &Tokens<'_, '_>) -> bool {
        match tokens.rest {
            [] => false,
            [token, ..] => operator_at(&token.lexeme, self.level).is_some(),
        }
    }
}

/// The operands together, where there are several.
fn chained(
    alloc: Global,
    first: Expression,
    operands: Vec<(Operator, Expression)>,
) -> Result<Expression, ParseError>
    ensures { GivesValue expression_view
        (Some (parse.chained (expression_view first) (map operand_view operands.items))) result }
{
    if operands.is_empty() {
        return Ok(first);
    }
    Ok(Expression::Chain(Box::new(alloc, first)?, operands))
}

/// Operands with operators of one level between.
#[derive(Drop)]
pub(crate) struct Chain<O: Drop> {
    pub level: u8,
    pub operand: O,
}

impl<O: Expressions + Drop> Expressions for Chain<O> {
    ghost parser = { λ c. parse.chain c.level (O.parser c.operand) };

    ghost ready = { λ c. O.ready c.operand };

    ghost shrinks = { λ c. chain_shrinks c.level (O.shrinks c.operand) };

    fn alloc(&self) -> Global {
        self.operand.alloc()
    }

    #[tactic(auto, unfolding(pg_meaning::specs::Parse::chain))]
    fn expression(&self, tokens: &mut Tokens<'_, '_>) -> Result<Expression, ParseError> {
        let first = self.operand.expression(tokens)?;
        let link = Link {
            level: self.level,
            operand: &self.operand,
        };
        let operands = pieces(self.alloc(), &link, tokens)?;
        chained(self.alloc(), first, operands)
    }
}
