//! WITH and RETURN.

ghost use Rattle.std.specs.Prelude.{◌≡◌, Some, IfOk, map, option_map, string_bytes, is_some};
ghost use Rattle.pg_lex.specs.View.{tokens_view};
ghost use Rattle.pg_meaning.specs.Parse as parse;
ghost use Rattle.pg_meaning.specs.declared.lexemes.Keyword.TheVariants as k;
ghost use Rattle.pg_meaning.specs.Tree as tree;
ghost use Rattle.pg_syntax_tokens.specs.Gives.{Gives, GivesValue};
ghost use Rattle.pg_syntax.specs.Pieces as pieces;
ghost use Rattle.pg_syntax_expressions.specs.ShrinksExpressions.{expr_shrinks};
ghost use Rattle.pg_syntax.specs.ShrinksClauses.{item_shrinks, sort_item_shrinks};
ghost use Rattle.pg_syntax_tree.specs.View.{name_view, expression_view, item_view, sort_item_view, projection_view, clause_view};

use crate::clauses::expression_behind;
use pg_lex::{Lexeme, Token};
use pg_meaning::{Keyword, Sort, Symbol};
use pg_syntax_expressions::expression;
use pg_syntax_tokens::{ParseError, Rule, Tokens, further, separated, start_of};
use pg_syntax_tree::{Clause, Expression, Item, Name, Projection, SortItem};
use std::alloc::Global;

/// Where the last token ends that was taken between the two.
fn finish_between(old: &[Token<'_>], new: &[Token<'_>]) -> usize
    ensures { result ≡ parse.finish_between (tokens_view old.now) (tokens_view new.now) }
{
    let taken = old.len().saturating_sub(new.len());
    match old.get(taken.saturating_sub(1)) {
        Some(token) => token.finish,
        None => 0,
    }
}

/// The bytes between two places. Tokens of another text may cut a character, and then there are none.
#[tactic(auto, unfolding(pg_meaning::specs::Parse::cut))]
fn source_of(alloc: Global, text: &str, start: usize, finish: usize) -> Result<String, ParseError>
    ensures { GivesValue string_bytes (parse.cut text.now start finish) result }
{
    if finish < start || text.len() < finish {
        return Err(ParseError::BadSyntax);
    }
    let Ok(source) = str::from_utf8(&text.as_bytes()[start..finish]) else {
        return Err(ParseError::BadSyntax);
    };
    Ok(String::from_str(alloc, source)?)
}

#[tactic(auto, unfolding(pg_meaning::specs::Parse::keyword, pg_meaning::specs::Parse::eat_keyword))]
fn alias_if_any(alloc: Global, tokens: &mut Tokens<'_, '_>) -> Result<Option<Name>, ParseError>
    ensures { Gives (option_map name_view) (parse.maybe (parse.sees_keyword k.As) parse.alias
        (tokens_view tokens.old.rest.now)) result tokens.new.rest.now }
{
    if !tokens.eat_keyword(Keyword::As) {
        return Ok(None);
    }
    Ok(Some(tokens.var(alloc)?))
}

/// Whether WITH may have it as an item.
fn may_stand(value: &Expression, alias: &Option<Name>) -> bool
    ensures { result
        ≡ parse.may_stand (expression_view value.now) (option_map name_view alias.now) }
{
    match (value, alias) {
        (_, Some(_)) | (Expression::Variable(_), None) => true,
        _ => false,
    }
}

/// Items of WITH, or of RETURN.
#[derive(Drop)]
struct Items<'t> {
    alloc: Global,
    text: &'t str,
    depth: usize,
    of_with: bool,
}

impl<'t> Rule for Items<'t> {
    type Tree = Item;

    ghost Datum = { tree.Item };

    ghost view = { item_view };

    ghost parser = { λ r. pieces.item r.of_with r.text.now (parse.expr r.depth) };

    ghost shrinks = { λ r. item_shrinks r.of_with r.text.now (expr_shrinks r.depth) };

    #[tactic(auto, unfolding(pg_meaning::specs::Parse::return_item, pg_meaning::specs::Parse::with_item))]
    fn read(&self, tokens: &mut Tokens<'_, '_>) -> Result<Item, ParseError> {
        let old = tokens.rest;
        let value = expression(self.alloc, tokens, self.depth)?;
        let start = start_of(old);
        let finish = finish_between(old, tokens.rest);
        let source = source_of(self.alloc, self.text, start, finish)?;
        let alias = alias_if_any(self.alloc, tokens)?;
        if self.of_with && !may_stand(&value, &alias) {
            return Err(ParseError::BadSyntax);
        }
        Ok(Item {
            start,
            source,
            value,
            alias,
        })
    }
}

/// One or more; behind a star, any number, each behind a comma.
fn item_row(
    piece: &Items<'_>,
    tokens: &mut Tokens<'_, '_>,
    star: bool,
) -> Result<Vec<Item>, ParseError>
    ensures { Gives (λ v. map item_view v.items) (pieces.items star
        (pieces.item piece.now.of_with piece.now.text.now (parse.expr piece.now.depth))
        (tokens_view tokens.old.rest.now)) result tokens.new.rest.now }
{
    if star {
        return further(piece, tokens, Vec::new(piece.alloc));
    }
    separated(piece.alloc, piece, tokens)
}

#[tactic(auto, unfolding(pg_meaning::specs::Parse::direction))]
fn direction(tokens: &mut Tokens<'_, '_>) -> Option<Sort>
    ensures { parse.maybe (parse.sees (λ l. is_some (parse.direction_of l))) parse.direction
        (tokens_view tokens.old.rest.now) ≡ Some (result, tokens_view tokens.new.rest.now) }
{
    let [token, rest @ ..] = tokens.rest else {
        return None;
    };
    let found = match &token.lexeme {
        Lexeme::Keyword(Keyword::Asc, _) => Sort::Asc,
        Lexeme::Keyword(Keyword::Ascending, _) => Sort::Ascending,
        Lexeme::Keyword(Keyword::Desc, _) => Sort::Desc,
        Lexeme::Keyword(Keyword::Descending, _) => Sort::Descending,
        _ => return None,
    };
    tokens.rest = rest;
    Some(found)
}

#[derive(Drop)]
struct SortItems {
    alloc: Global,
    depth: usize,
}

impl Rule for SortItems {
    type Tree = SortItem;

    ghost Datum = { tree.SortItem };

    ghost view = { sort_item_view };

    ghost parser = { λ r. parse.sort_item (parse.expr r.depth) };

    ghost shrinks = { λ r. sort_item_shrinks (expr_shrinks r.depth) };

    #[tactic(auto, unfolding(pg_meaning::specs::Parse::sort_item))]
    fn read(&self, tokens: &mut Tokens<'_, '_>) -> Result<SortItem, ParseError> {
        let key = expression(self.alloc, tokens, self.depth)?;
        let direction = direction(tokens);
        Ok(SortItem { key, direction })
    }
}

#[tactic(auto, unfolding(pg_meaning::specs::Parse::keyword, pg_meaning::specs::Parse::eat_keyword))]
fn ordering(
    alloc: Global,
    tokens: &mut Tokens<'_, '_>,
    depth: usize,
) -> Result<Vec<SortItem>, ParseError>
    ensures { Gives (λ v. map sort_item_view v.items) (parse.ordering
        (parse.expr depth) (tokens_view tokens.old.rest.now)) result tokens.new.rest.now }
{
    if !tokens.eat_keyword(Keyword::Order) {
        return Ok(Vec::new(alloc));
    }
    tokens.expect_keyword(Keyword::By)?;
    separated(alloc, &SortItems { alloc, depth }, tokens)
}

#[tactic(auto, unfolding(pg_meaning::specs::Parse::projection, pg_meaning::specs::Parse::here))]
fn projection(
    alloc: Global,
    text: &str,
    tokens: &mut Tokens<'_, '_>,
    depth: usize,
    of_with: bool,
) -> Result<Projection, ParseError>
    ensures { Gives projection_view (parse.projection (parse.expr depth)
        (pieces.item of_with text.now (parse.expr depth)) (tokens_view tokens.old.rest.now))
        result tokens.new.rest.now }
{
    let distinct = tokens.eat_keyword(Keyword::Distinct);
    let place = start_of(tokens.rest);
    let has_star = tokens.eat(Symbol::Star);
    let items = item_row(
        &Items {
            alloc,
            text,
            depth,
            of_with,
        },
        tokens,
        has_star,
    )?;
    let order = ordering(alloc, tokens, depth)?;
    let skip = expression_behind(alloc, tokens, depth, Keyword::Skip)?;
    let limit = expression_behind(alloc, tokens, depth, Keyword::Limit)?;
    Ok(Projection {
        distinct,
        star: has_star.then_some(place),
        items,
        order,
        skip,
        limit,
    })
}

/// What was found, with the condition behind it, if one is there. It is of any type: a projection
/// that is dropped where no condition can be read makes a long proof.
fn condition_behind<T: Drop>(
    alloc: Global,
    found: T,
    tokens: &mut Tokens<'_, '_>,
    depth: usize,
) -> Result<(T, Option<Expression>), ParseError>
    ensures condition { Gives (λ p. option_map expression_view p.1) (pieces.behind k.Where
        (parse.expr depth) (tokens_view tokens.old.rest.now)) result tokens.new.rest.now }
    ensures found { IfOk result (λ p. p.0 ≡ found) }
{
    let condition = expression_behind(alloc, tokens, depth, Keyword::Where)?;
    Ok((found, condition))
}

#[tactic(auto, unfolding(pg_meaning::specs::Parse::with_clause))]
pub(crate) fn with_clause(
    alloc: Global,
    text: &str,
    tokens: &mut Tokens<'_, '_>,
    depth: usize,
) -> Result<Clause, ParseError>
    ensures { Gives clause_view (parse.with_clause text.now
        (parse.expr depth) (tokens_view tokens.old.rest.now)) result tokens.new.rest.now }
{
    tokens.expect_keyword(Keyword::With)?;
    let projection = projection(alloc, text, tokens, depth, true)?;
    let (projection, condition) = condition_behind(alloc, projection, tokens, depth)?;
    Ok(Clause::With(projection, condition))
}

#[tactic(auto, unfolding(pg_meaning::specs::Parse::return_clause))]
pub(crate) fn return_clause(
    alloc: Global,
    text: &str,
    tokens: &mut Tokens<'_, '_>,
    depth: usize,
) -> Result<Clause, ParseError>
    ensures { Gives clause_view (parse.return_clause text.now
        (parse.expr depth) (tokens_view tokens.old.rest.now)) result tokens.new.rest.now }
{
    tokens.expect_keyword(Keyword::Return)?;
    Ok(Clause::Return(projection(alloc, text, tokens, depth, false)?))
}
