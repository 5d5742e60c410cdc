//! Atoms, and what stands behind them.

ghost use Rattle.std.specs.Prelude.{◌≡◌, Some, IfOk, map, option_map, refl};
ghost use Rattle.pg_lex.specs.View.{lexeme_view, tokens_view};
ghost use Rattle.pg_meaning.specs.declared.lexemes.Keyword.TheVariants as k;
ghost use Rattle.pg_meaning.specs.Parse as parse;
ghost use Rattle.pg_meaning.specs.Parse.{pairs_of};
ghost use Rattle.pg_meaning.specs.Tree as tree;
ghost use Rattle.pg_syntax_tokens.specs.Gives.{Gives, GivesValue};
ghost use Rattle.pg_syntax_expressions.specs.Parts.{suffix_view, perhaps_view, leaf_by, list_behind, one_or_more, parentheses_behind};
ghost use Rattle.pg_syntax_tokens.specs.ShrinksLaws.{eats_shrinks};
ghost use Rattle.pg_syntax_expressions.specs.ShrinksExpressions.{map_pair_eats, suffix_eats, when_eats};
ghost use Rattle.pg_syntax_tree.specs.View.{expression_view, name_view, names_view, pair_view, when_view};

use pg_lex::Lexeme;
use pg_meaning::{Keyword, Symbol};
use pg_syntax_tokens::{
    Each, Expressions, ParseError, Row, Rule, Tokens, labels_if_any, many, pieces, separated,
};
use pg_syntax_tree::{Expression, Literal, Name, Suffix};
use std::alloc::{AllocError, Global};

/// A key of a map and its value.
#[derive(Drop)]
struct MapPair<'w, W>(&'w W);

impl<'w, W: Expressions> Rule for MapPair<'w, W> {
    type Tree = (Name, Expression);

    ghost Datum = { tree.Name × tree.Expression };

    ghost view = { pair_view };

    ghost parser = { λ p. parse.map_pair (W.parser p.0.now) };

    ghost ready = { λ p. W.ready p.0.now };

    ghost shrinks = { λ p. eats_shrinks (map_pair_eats (W.shrinks p.0.now)) };

    fn read(&self, tokens: &mut Tokens<'_, '_>) -> Result<(Name, Expression), ParseError> {
        let key = tokens.name(self.0.alloc())?;
        tokens.expect(Symbol::Colon)?;
        let value = self.0.expression(tokens)?;
        Ok((key, value))
    }
}

/// The pairs of a map, in braces.
#[tactic(auto, unfolding(pg_meaning::specs::Parse::map_pairs))]
pub fn map_pairs<W: Expressions>(
    whole: &W,
    tokens: &mut Tokens<'_, '_>,
) -> Result<Vec<(Name, Expression)>, ParseError>
    requires { W.ready whole.now }
    ensures { Gives (λ v. pairs_of (map pair_view v.items)) (parse.map_pairs
        (W.parser whole.now) (tokens_view tokens.old.rest.now)) result tokens.new.rest.now }
{
    tokens.expect(Symbol::OpenBrace)?;
    if tokens.eat(Symbol::CloseBrace) {
        return Ok(Vec::new(whole.alloc()));
    }
    let found = separated(whole.alloc(), &MapPair(whole), tokens)?;
    tokens.expect(Symbol::CloseBrace)?;
    Ok(found)
}

/// What stands behind the opening sign of a call.
fn call<W: Expressions>(
    function: Name,
    whole: &W,
    tokens: &mut Tokens<'_, '_>,
) -> Result<Expression, ParseError>
    requires { W.ready whole.now }
    ensures { Gives expression_view (parse.call (W.parser whole.now)
        (name_view function) (tokens_view tokens.old.rest.now)) result tokens.new.rest.now }
{
    if tokens.eat(Symbol::Star) {
        tokens.expect(Symbol::CloseParenthesis)?;
        return Ok(Expression::Call(function, true, false, Vec::new(whole.alloc())));
    }
    if tokens.eat(Symbol::CloseParenthesis) {
        return Ok(Expression::Call(function, false, false, Vec::new(whole.alloc())));
    }
    let distinct = tokens.eat_keyword(Keyword::Distinct);
    let arguments = separated(whole.alloc(), &Each(whole), tokens)?;
    tokens.expect(Symbol::CloseParenthesis)?;
    Ok(Expression::Call(function, false, distinct, arguments))
}

/// WHEN with its condition, and THEN with its result.
#[derive(Drop)]
struct When<'w, W>(&'w W);

impl<'w, W: Expressions> Rule for When<'w, W> {
    type Tree = (Expression, Expression);

    ghost Datum = { tree.Expression × tree.Expression };

    ghost view = { when_view };

    ghost parser = { λ w. parse.one_when (W.parser w.0.now) };

    ghost ready = { λ w. W.ready w.0.now };

    ghost shrinks = { λ w. eats_shrinks (when_eats (W.shrinks w.0.now)) };

    #[tactic(auto, unfolding(pg_meaning::specs::Parse::one_when))]
    fn read(&self, tokens: &mut Tokens<'_, '_>) -> Result<(Expression, Expression), ParseError> {
        tokens.expect_keyword(Keyword::When)?;
        let condition = self.0.expression(tokens)?;
        tokens.expect_keyword(Keyword::Then)?;
        let found = self.0.expression(tokens)?;
        Ok((condition, found))
    }
}

impl<'w, W: Expressions> Row for When<'w, W> {
    ghost begins = { λ _. parse.sees_keyword k.When };

    ghost none = { λ _. refl };

    ghost takes = { λ w. when_eats (W.shrinks w.0.now) };

    fn begins(&self, tokens: &Tokens<'_, '_>) -> bool {
        tokens.sees_keyword(Keyword::When)
    }
}

/// An expression, if one begins.
fn perhaps<W: Expressions>(
    begins: bool,
    whole: &W,
    tokens: &mut Tokens<'_, '_>,
) -> Result<Option<Box<Expression>>, ParseError>
    requires { W.ready whole.now }
    ensures { Gives perhaps_view (parse.maybe (λ _. begins)
        (W.parser whole.now) (tokens_view tokens.old.rest.now)) result tokens.new.rest.now }
{
    if !begins {
        return Ok(None);
    }
    let found = whole.expression(tokens)?;
    Ok(Some(Box::new(whole.alloc(), found)?))
}

/// One piece, and all further ones of a row.
fn one_or_more<R: Row>(
    alloc: Global,
    rule: &R,
    tokens: &mut Tokens<'_, '_>,
) -> Result<Vec<R::Tree>, ParseError>
    requires { R.ready rule.now }
    ensures { Gives (λ v. map R.view v.items) (one_or_more (R.begins rule.now)
        (R.parser rule.now) (tokens_view tokens.old.rest.now)) result tokens.new.rest.now }
{
    let mut found = Vec::new(alloc);
    found.push(rule.read(tokens)?)?;
    many(rule, tokens, found)
}

/// What stands behind CASE.
fn case<W: Expressions>(whole: &W, tokens: &mut Tokens<'_, '_>) -> Result<Expression, ParseError>
    requires { W.ready whole.now }
    ensures { Gives expression_view (parse.case
        (W.parser whole.now) (tokens_view tokens.old.rest.now)) result tokens.new.rest.now }
{
    let subject = perhaps(!tokens.sees_keyword(Keyword::When), whole, tokens)?;
    let whens = one_or_more(whole.alloc(), &When(whole), tokens)?;
    let otherwise = perhaps(tokens.eat_keyword(Keyword::Else), whole, tokens)?;
    tokens.expect_keyword(Keyword::End)?;
    Ok(Expression::Case(subject, whens, otherwise))
}

/// A property's key, or an index.
#[derive(Drop)]
struct OneSuffix<'w, W>(&'w W);

impl<'w, W: Expressions> Rule for OneSuffix<'w, W> {
    type Tree = Suffix<Expression>;

    ghost Datum = { tree.Suffixes → tree.Suffixes };

    ghost view = { suffix_view };

    ghost parser = { λ s. parse.suffix (W.parser s.0.now) };

    ghost ready = { λ s. W.ready s.0.now };

    ghost shrinks = { λ s. eats_shrinks (suffix_eats (W.shrinks s.0.now)) };

    #[tactic(auto, unfolding(pg_meaning::specs::Parse::suffix))]
    fn read(&self, tokens: &mut Tokens<'_, '_>) -> Result<Suffix<Expression>, ParseError> {
        if tokens.sees(Symbol::Dot) {
            tokens.expect(Symbol::Dot)?;
            return Ok(Suffix::Property(tokens.name(self.0.alloc())?));
        }
        tokens.expect(Symbol::OpenBracket)?;
        let index = self.0.expression(tokens)?;
        tokens.expect(Symbol::CloseBracket)?;
        Ok(Suffix::Index(index))
    }
}

impl<'w, W: Expressions> Row for OneSuffix<'w, W> {
    ghost begins = { λ _. parse.begins_suffix };

    ghost none = { λ _. refl };

    ghost takes = { λ s. suffix_eats (W.shrinks s.0.now) };

    fn begins(&self, tokens: &Tokens<'_, '_>) -> bool {
        tokens.sees(Symbol::Dot) || tokens.sees(Symbol::OpenBracket)
    }
}

fn suffixed(
    alloc: Global,
    first: Expression,
    suffixes: Vec<Suffix<Expression>>,
    labels: Vec<Name>,
) -> Result<Expression, ParseError>
    ensures { GivesValue expression_view (Some (parse.suffixed
        (expression_view first) (map suffix_view suffixes.items) (names_view labels.items)))
        result }
{
    if suffixes.is_empty() && labels.is_empty() {
        return Ok(first);
    }
    Ok(Expression::Suffixes(Box::new(alloc, first)?, suffixes, labels))
}

/// A variable, or a call.
fn word_atom<W: Expressions>(
    name: Name,
    whole: &W,
    tokens: &mut Tokens<'_, '_>,
) -> Result<Expression, ParseError>
    requires { W.ready whole.now }
    ensures { Gives expression_view (parse.word_atom (W.parser whole.now)
        (name_view name) (tokens_view tokens.old.rest.now)) result tokens.new.rest.now }
{
    if tokens.eat(Symbol::OpenParenthesis) {
        return call(name, whole, tokens);
    }
    Ok(Expression::Variable(name))
}

/// What stands behind the opening bracket of a list.
#[tactic(auto, unfolding(pg_meaning::specs::Parse::listed))]
fn list<W: Expressions>(whole: &W, tokens: &mut Tokens<'_, '_>) -> Result<Expression, ParseError>
    requires { W.ready whole.now }
    ensures { Gives expression_view (list_behind
        (W.parser whole.now) (tokens_view tokens.old.rest.now)) result tokens.new.rest.now }
{
    if tokens.eat(Symbol::CloseBracket) {
        return Ok(Expression::ListLiteral(Vec::new(whole.alloc())));
    }
    let found = separated(whole.alloc(), &Each(whole), tokens)?;
    tokens.expect(Symbol::CloseBracket)?;
    Ok(Expression::ListLiteral(found))
}

fn parentheses<W: Expressions>(
    whole: &W,
    tokens: &mut Tokens<'_, '_>,
) -> Result<Expression, ParseError>
    requires { W.ready whole.now }
    ensures { Gives expression_view (parentheses_behind
        (W.parser whole.now) (tokens_view tokens.old.rest.now)) result tokens.new.rest.now }
{
    let inner = whole.expression(tokens)?;
    tokens.expect(Symbol::CloseParenthesis)?;
    Ok(Expression::Parentheses(Box::new(whole.alloc(), inner)?))
}

fn name_at(alloc: Global, text: &str, quoted: bool, place: usize) -> Result<Name, AllocError>
    ensures { IfOk result (λ n. name_view n ≡ parse.name_at place quoted text.now) }
{
    Ok(Name {
        text: String::from_str(alloc, text)?,
        quoted,
        place,
    })
}

/// The atom that the lexeme is alone.
fn leaf_of(alloc: Global, place: usize, lexeme: &Lexeme<'_>) -> Result<Expression, ParseError>
    ensures { GivesValue expression_view (leaf_by place (lexeme_view lexeme.now)) result }
{
    match lexeme {
        Lexeme::Parameter(name) => Ok(Expression::Parameter(name_at(alloc, *name, false, place)?)),
        Lexeme::QuotedParameter(name) => {
            Ok(Expression::Parameter(name_at(alloc, name.as_str(), true, place)?))
        }
        Lexeme::QuotedName(name) => {
            Ok(Expression::Variable(name_at(alloc, name.as_str(), true, place)?))
        }
        Lexeme::Integer(number) => {
            Ok(Expression::Literal(Literal::Integer(number.value as i64)))
        }
        Lexeme::Text(text) => {
            Ok(Expression::Literal(Literal::Text(String::from_str(alloc, text.as_str())?)))
        }
        Lexeme::Keyword(Keyword::True, _) => Ok(Expression::Literal(Literal::Boolean(true))),
        Lexeme::Keyword(Keyword::False, _) => Ok(Expression::Literal(Literal::Boolean(false))),
        Lexeme::Keyword(Keyword::Null, _) => Ok(Expression::Literal(Literal::Null)),
        _ => Err(ParseError::BadSyntax),
    }
}

/// The atom that the lexeme begins, behind it.
fn atom_by<W: Expressions>(
    place: usize,
    lexeme: &Lexeme<'_>,
    whole: &W,
    tokens: &mut Tokens<'_, '_>,
) -> Result<Expression, ParseError>
    requires { W.ready whole.now }
    ensures { Gives expression_view (parse.atom_by (W.parser whole.now) place
        (lexeme_view lexeme.now) (tokens_view tokens.old.rest.now)) result tokens.new.rest.now }
{
    match lexeme {
        Lexeme::Keyword(Keyword::Case, _) => case(whole, tokens),
        Lexeme::Symbol(Symbol::OpenBracket) => list(whole, tokens),
        Lexeme::Symbol(Symbol::OpenParenthesis) => parentheses(whole, tokens),
        Lexeme::Word(name) => {
            word_atom(name_at(whole.alloc(), *name, false, place)?, whole, tokens)
        }
        _ => leaf_of(whole.alloc(), place, lexeme),
    }
}

fn atom<W: Expressions>(whole: &W, tokens: &mut Tokens<'_, '_>) -> Result<Expression, ParseError>
    requires { W.ready whole.now }
    ensures { Gives expression_view (parse.atom
        (W.parser whole.now) (tokens_view tokens.old.rest.now)) result tokens.new.rest.now }
{
    if tokens.sees(Symbol::OpenBrace) {
        return Ok(Expression::MapLiteral(map_pairs(whole, tokens)?));
    }
    let Some(token) = tokens.take() else {
        return Err(ParseError::BadSyntax);
    };
    atom_by(token.start, &token.lexeme, whole, tokens)
}

/// An atom with properties, indexes and labels behind it.
#[tactic(auto, unfolding(pg_meaning::specs::Parse::post))]
pub(crate) fn post<W: Expressions>(
    whole: &W,
    tokens: &mut Tokens<'_, '_>,
) -> Result<Expression, ParseError>
    requires { W.ready whole.now }
    ensures { Gives expression_view (parse.post
        (W.parser whole.now) (tokens_view tokens.old.rest.now)) result tokens.new.rest.now }
{
    let alloc = whole.alloc();
    let first = atom(whole, tokens)?;
    let suffixes = pieces(alloc, &OneSuffix(whole), tokens)?;
    let labels = labels_if_any(alloc, tokens)?;
    suffixed(alloc, first, suffixes, labels)
}
