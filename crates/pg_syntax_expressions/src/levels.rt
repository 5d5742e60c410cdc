//! Expressions, from the loosest operators to the tightest.

ghost use Rattle.std.specs.Prelude.{◌≡◌, ◌⊎◌, Some, Bool, refl, map, length};
ghost use Rattle.pg_lex.specs.View.{tokens_view};
ghost use Rattle.pg_meaning.specs.declared.lexemes.Keyword.TheVariants as k;
ghost use Rattle.pg_meaning.specs.declared.operators.TextTest.TheVariants as test;
ghost use Rattle.pg_meaning.specs.Parse as parse;
ghost use Rattle.pg_meaning.specs.Tree as tree;
ghost use Rattle.pg_syntax_tokens.specs.Gives.{Gives, GivesValue, same};
ghost use Rattle.pg_syntax_expressions.specs.Parts.{test_view, words_of};
ghost use Rattle.pg_syntax_tokens.specs.ShrinksLaws.{eats_shrinks, keyword_eats};
ghost use Rattle.pg_syntax_expressions.specs.ShrinksExpressions.{sign_eats, test_eats, unary_shrinks, predicate_shrinks, negation_shrinks};
ghost use Rattle.pg_syntax_tree.specs.View.{expression_view};

use crate::atoms::post;
use crate::chains::Chain;
use pg_meaning::{Keyword, Symbol, TextTest};
use pg_syntax_tokens::{Expressions, ParseError, Row, Rule, Tokens, pieces};
use pg_syntax_tree::{Expression, Test};
use std::alloc::Global;

/// A sign, true for a minus.
#[derive(Drop)]
struct Sign;

impl Rule for Sign {
    type Tree = bool;

    ghost Datum = { Bool };

    ghost view = { same };

    ghost parser = { λ _. parse.one_sign };

    ghost shrinks = { λ _. eats_shrinks sign_eats };

    fn read(&self, tokens: &mut Tokens<'_, '_>) -> Result<bool, ParseError> {
        if tokens.sees(Symbol::Minus) {
            tokens.expect(Symbol::Minus)?;
            return Ok(true);
        }
        tokens.expect(Symbol::Plus)?;
        Ok(false)
    }
}

impl Row for Sign {
    ghost begins = { λ _. parse.begins_sign };

    ghost none = { λ _. refl };

    ghost takes = { λ _. sign_eats };

    fn begins(&self, tokens: &Tokens<'_, '_>) -> bool {
        tokens.sees(Symbol::Plus) || tokens.sees(Symbol::Minus)
    }
}

#[tactic(auto, using(pg_syntax_tree::proofs::Views::signs_is))]
fn signed(alloc: Global, signs: Vec<bool>, operand: Expression) -> Result<Expression, ParseError>
    ensures { GivesValue expression_view
        (Some (parse.signed signs.items (expression_view operand))) result }
{
    if signs.is_empty() {
        return Ok(operand);
    }
    Ok(Expression::Signs(signs, Box::new(alloc, operand)?))
}

/// Signs before a postfix expression.
#[derive(Drop)]
struct Unary<'w, W>(&'w W);

impl<'w, W: Expressions> Expressions for Unary<'w, W> {
    ghost parser = { λ u. parse.unary (W.parser u.0.now) };

    ghost ready = { λ u. W.ready u.0.now };

    ghost shrinks = { λ u. unary_shrinks (W.shrinks u.0.now) };

    fn alloc(&self) -> Global {
        self.0.alloc()
    }

    fn expression(&self, tokens: &mut Tokens<'_, '_>) -> Result<Expression, ParseError> {
        let signs = pieces(self.alloc(), &Sign, tokens)?;
        let operand = post(self.0, tokens)?;
        signed(self.alloc(), signs, operand)
    }
}

fn null_test(tokens: &mut Tokens<'_, '_>) -> Result<Test<Expression>, ParseError>
    ensures { Gives test_view
        (parse.null_test (tokens_view tokens.old.rest.now)) result tokens.new.rest.now }
{
    tokens.expect_keyword(Keyword::Is)?;
    let negated = tokens.eat_keyword(Keyword::Not);
    tokens.expect_keyword(Keyword::Null)?;
    Ok(Test::IsNull(negated))
}

/// A test with a right side, behind a keyword, and behind WITH where that belongs to it.
fn test_by<O: Expressions>(
    word: Keyword,
    with: bool,
    test: TextTest,
    right: &O,
    tokens: &mut Tokens<'_, '_>,
) -> Result<Test<Expression>, ParseError>
    requires { O.ready right.now }
    ensures { Gives test_view (parse.test_by test (words_of word with)
        (O.parser right.now) (tokens_view tokens.old.rest.now)) result tokens.new.rest.now }
{
    tokens.expect_keyword(word)?;
    if with {
        tokens.expect_keyword(Keyword::With)?;
    }
    Ok(Test::Text(test, right.expression(tokens)?))
}

/// A test, with sums on its right side.
#[derive(Drop)]
struct OneTest<'o, O>(&'o O);

impl<'o, O: Expressions> Rule for OneTest<'o, O> {
    type Tree = Test<Expression>;

    ghost Datum = { tree.Tests → tree.Tests };

    ghost view = { test_view };

    ghost parser = { λ t. parse.one_test (O.parser t.0.now) };

    ghost ready = { λ t. O.ready t.0.now };

    ghost shrinks = { λ t. eats_shrinks (test_eats (O.shrinks t.0.now)) };

    #[tactic(auto, unfolding(pg_meaning::specs::Parse::one_test))]
    fn read(&self, tokens: &mut Tokens<'_, '_>) -> Result<Test<Expression>, ParseError> {
        if tokens.sees_keyword(Keyword::Starts) {
            return test_by(Keyword::Starts, true, TextTest::StartsWith, self.0, tokens);
        }
        if tokens.sees_keyword(Keyword::Ends) {
            return test_by(Keyword::Ends, true, TextTest::EndsWith, self.0, tokens);
        }
        if tokens.sees_keyword(Keyword::Contains) {
            return test_by(Keyword::Contains, false, TextTest::Contains, self.0, tokens);
        }
        if tokens.sees_keyword(Keyword::In) {
            return test_by(Keyword::In, false, TextTest::In, self.0, tokens);
        }
        null_test(tokens)
    }
}

impl<'o, O: Expressions> Row for OneTest<'o, O> {
    ghost begins = { λ _. parse.begins_test };

    ghost none = { λ _. refl };

    ghost takes = { λ t. test_eats (O.shrinks t.0.now) };

    fn begins(&self, tokens: &Tokens<'_, '_>) -> bool {
        tokens.sees_keyword(Keyword::Starts)
            || tokens.sees_keyword(Keyword::Ends)
            || tokens.sees_keyword(Keyword::Contains)
            || tokens.sees_keyword(Keyword::In)
            || tokens.sees_keyword(Keyword::Is)
    }
}

fn tested(
    alloc: Global,
    first: Expression,
    tests: Vec<Test<Expression>>,
) -> Result<Expression, ParseError>
    ensures { GivesValue expression_view
        (Some (parse.tested (expression_view first) (map test_view tests.items))) result }
{
    if tests.is_empty() {
        return Ok(first);
    }
    Ok(Expression::Tests(Box::new(alloc, first)?, tests))
}

/// Tests behind a sum.
#[derive(Drop)]
struct Predicate<'w, W>(&'w W);

impl<'w, W: Expressions> Expressions for Predicate<'w, W> {
    ghost parser = { λ p. parse.predicate (W.parser p.0.now) };

    ghost ready = { λ p. W.ready p.0.now };

    ghost shrinks = { λ p. predicate_shrinks (W.shrinks p.0.now) };

    fn alloc(&self) -> Global {
        self.0.alloc()
    }

    #[tactic(auto, unfolding(pg_meaning::specs::Parse::predicate, pg_meaning::specs::Parse::sum, pg_meaning::specs::Parse::product))]
    fn expression(&self, tokens: &mut Tokens<'_, '_>) -> Result<Expression, ParseError> {
        let product = Chain {
            level: 8,
            operand: Unary(self.0),
        };
        let sum = Chain {
            level: 7,
            operand: product,
        };
        let first = sum.expression(tokens)?;
        let tests = pieces(self.alloc(), &OneTest(&sum), tokens)?;
        tested(self.alloc(), first, tests)
    }
}

/// The keyword NOT.
#[derive(Drop)]
struct Not;

impl Rule for Not {
    type Tree = ();

    ghost Datum = { Unit {0} };

    ghost view = { same };

    ghost parser = { λ _. parse.keyword k.Not };

    ghost shrinks = { λ _. eats_shrinks (keyword_eats k.Not) };

    fn read(&self, tokens: &mut Tokens<'_, '_>) -> Result<(), ParseError> {
        tokens.expect_keyword(Keyword::Not)
    }
}

impl Row for Not {
    ghost begins = { λ _. parse.sees_keyword k.Not };

    ghost none = { λ _. refl };

    ghost takes = { λ _. keyword_eats k.Not };

    fn begins(&self, tokens: &Tokens<'_, '_>) -> bool {
        tokens.sees_keyword(Keyword::Not)
    }
}

#[tactic(auto, using(pg_syntax_tree::proofs::Views::negation_is))]
fn negated(alloc: Global, nots: Vec<()>, operand: Expression) -> Result<Expression, ParseError>
    ensures { GivesValue expression_view
        (Some (parse.negated nots.items (expression_view operand))) result }
{
    if nots.is_empty() {
        return Ok(operand);
    }
    Ok(Expression::Negation(nots.len(), Box::new(alloc, operand)?))
}

/// NOTs before a comparison.
#[derive(Drop)]
pub(crate) struct Negation<'w, W>(pub &'w W);

impl<'w, W: Expressions> Expressions for Negation<'w, W> {
    ghost parser = { λ n. parse.negation (W.parser n.0.now) };

    ghost ready = { λ n. W.ready n.0.now };

    ghost shrinks = { λ n. negation_shrinks (W.shrinks n.0.now) };

    fn alloc(&self) -> Global {
        self.0.alloc()
    }

    #[tactic(auto, unfolding(pg_meaning::specs::Parse::comparison))]
    fn expression(&self, tokens: &mut Tokens<'_, '_>) -> Result<Expression, ParseError> {
        let nots = pieces(self.alloc(), &Not, tokens)?;
        let comparison = Chain {
            level: 5,
            operand: Predicate(self.0),
        };
        let operand = comparison.expression(tokens)?;
        negated(self.alloc(), nots, operand)
    }
}
