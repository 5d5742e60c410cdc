//! Clauses that read and clauses that write.

ghost use Rattle.std.specs.Prelude.{Bool, List, map, option_map, refl};
ghost use Rattle.pg_lex.specs.View.{tokens_view};
ghost use Rattle.pg_meaning.specs.Parse as parse;
ghost use Rattle.pg_meaning.specs.declared.lexemes.Keyword.TheVariants as k;
ghost use Rattle.pg_meaning.specs.Tree as tree;
ghost use Rattle.pg_syntax_tokens.specs.Gives.{Gives};
ghost use Rattle.pg_syntax.specs.Pieces as pieces;
ghost use Rattle.pg_syntax_tokens.specs.ShrinksLaws.{eats_shrinks};
ghost use Rattle.pg_syntax_expressions.specs.ShrinksExpressions.{expr_shrinks};
ghost use Rattle.pg_syntax.specs.ShrinksClauses.{reading_eats, set_item_eats, remove_item_eats, on_items_eats, updating_eats};
ghost use Rattle.pg_syntax_tree.specs.View.{name_view, expression_view, set_item_view, remove_item_view, on_view, clause_view};

use crate::patterns::Paths;
use pg_meaning::{Keyword, Symbol};
use pg_syntax_expressions::{ExpressionParser, expression};
use pg_syntax_tokens::{ParseError, Row, Rule, Tokens, labels, pieces, separated};
use pg_syntax_tree::{Clause, Expression, Name, On, RemoveItem, SetItem};
use std::alloc::Global;

/// The keyword and its expression, if it stands next.
#[tactic(auto, unfolding(pg_meaning::specs::Parse::keyword, pg_meaning::specs::Parse::eat_keyword))]
pub(crate) fn expression_behind(
    alloc: Global,
    tokens: &mut Tokens<'_, '_>,
    depth: usize,
    keyword: Keyword,
) -> Result<Option<Expression>, ParseError>
    ensures { Gives (option_map expression_view) (pieces.behind keyword
        (parse.expr depth) (tokens_view tokens.old.rest.now)) result tokens.new.rest.now }
{
    if !tokens.eat_keyword(keyword) {
        return Ok(None);
    }
    Ok(Some(expression(alloc, tokens, depth)?))
}

/// AS and a variable.
fn alias(alloc: Global, tokens: &mut Tokens<'_, '_>) -> Result<Name, ParseError>
    ensures { Gives name_view
        (parse.alias (tokens_view tokens.old.rest.now)) result tokens.new.rest.now }
{
    tokens.expect_keyword(Keyword::As)?;
    tokens.var(alloc)
}

// ---- clauses that read

#[derive(Drop)]
pub(crate) struct ReadingClauses {
    pub alloc: Global,
    pub depth: usize,
}

impl Rule for ReadingClauses {
    type Tree = Clause;

    ghost Datum = { tree.Clause };

    ghost view = { clause_view };

    ghost parser = { λ r. parse.reading (parse.expr r.depth) };

    ghost shrinks = { λ r. eats_shrinks (reading_eats (expr_shrinks r.depth)) };

    #[tactic(auto, unfolding(pg_meaning::specs::Parse::reading, pg_meaning::specs::Parse::match_clause, pg_meaning::specs::Parse::unwind_clause, pg_meaning::specs::Parse::keyword, pg_meaning::specs::Parse::eat_keyword))]
    fn read(&self, tokens: &mut Tokens<'_, '_>) -> Result<Clause, ParseError> {
        let alloc = self.alloc;
        let depth = self.depth;
        if tokens.eat_keyword(Keyword::Unwind) {
            let list = expression(alloc, tokens, depth)?;
            return Ok(Clause::Unwind(list, alias(alloc, tokens)?));
        }
        let is_optional = tokens.eat_keyword(Keyword::Optional);
        tokens.expect_keyword(Keyword::Match)?;
        let paths = separated(alloc, &Paths { alloc, depth }, tokens)?;
        let condition = expression_behind(alloc, tokens, depth, Keyword::Where)?;
        Ok(Clause::Match(is_optional, paths, condition))
    }
}

impl Row for ReadingClauses {
    ghost begins = { λ _. parse.begins_reading };

    ghost none = { λ _. refl };

    ghost takes = { λ r. reading_eats (expr_shrinks r.depth) };

    fn begins(&self, tokens: &Tokens<'_, '_>) -> bool {
        tokens.sees_keyword(Keyword::Optional)
            || tokens.sees_keyword(Keyword::Match)
            || tokens.sees_keyword(Keyword::Unwind)
    }
}

// ---- clauses that write

#[derive(Drop)]
struct SetItems {
    alloc: Global,
    depth: usize,
}

impl Rule for SetItems {
    type Tree = SetItem;

    ghost Datum = { tree.SetItem };

    ghost view = { set_item_view };

    ghost parser = { λ r. parse.set_item (parse.expr r.depth) };

    ghost shrinks = { λ r. eats_shrinks (set_item_eats (expr_shrinks r.depth)) };

    #[tactic(auto, unfolding(pg_meaning::specs::Parse::set_item, pg_meaning::specs::Parse::symbol, pg_meaning::specs::Parse::eat_symbol))]
    fn read(&self, tokens: &mut Tokens<'_, '_>) -> Result<SetItem, ParseError> {
        let alloc = self.alloc;
        let depth = self.depth;
        let target = tokens.var(alloc)?;
        if tokens.eat(Symbol::Dot) {
            let key = tokens.name(alloc)?;
            tokens.expect(Symbol::Equal)?;
            let value = expression(alloc, tokens, depth)?;
            return Ok(SetItem::Property(target, key, value));
        }
        if tokens.eat(Symbol::Equal) {
            return Ok(SetItem::All(target, expression(alloc, tokens, depth)?));
        }
        if tokens.eat(Symbol::PlusEqual) {
            return Ok(SetItem::More(target, expression(alloc, tokens, depth)?));
        }
        Ok(SetItem::Labels(target, labels(alloc, tokens)?))
    }
}

#[derive(Drop)]
struct RemoveItems {
    alloc: Global,
}

impl Rule for RemoveItems {
    type Tree = RemoveItem;

    ghost Datum = { tree.RemoveItem };

    ghost view = { remove_item_view };

    ghost parser = { λ _. parse.remove_item };

    ghost shrinks = { λ _. eats_shrinks remove_item_eats };

    #[tactic(auto, unfolding(pg_meaning::specs::Parse::remove_item, pg_meaning::specs::Parse::symbol, pg_meaning::specs::Parse::eat_symbol))]
    fn read(&self, tokens: &mut Tokens<'_, '_>) -> Result<RemoveItem, ParseError> {
        let target = tokens.var(self.alloc)?;
        if tokens.eat(Symbol::Dot) {
            return Ok(RemoveItem::Property(target, tokens.name(self.alloc)?));
        }
        Ok(RemoveItem::Labels(target, labels(self.alloc, tokens)?))
    }
}

/// ON CREATE or ON MATCH, with what is set.
#[derive(Drop)]
struct Events {
    alloc: Global,
    depth: usize,
}

impl Rule for Events {
    type Tree = On;

    ghost Datum = { Bool × List tree.SetItem };

    ghost view = { on_view };

    ghost parser = { λ r. parse.on_items (parse.expr r.depth) };

    ghost shrinks = { λ r. eats_shrinks (on_items_eats (expr_shrinks r.depth)) };

    #[tactic(auto, unfolding(pg_meaning::specs::Parse::on_items))]
    fn read(&self, tokens: &mut Tokens<'_, '_>) -> Result<On, ParseError> {
        let alloc = self.alloc;
        let depth = self.depth;
        tokens.expect_keyword(Keyword::On)?;
        let create = tokens.sees_keyword(Keyword::Create);
        let event = if create {
            Keyword::Create
        } else {
            Keyword::Match
        };
        tokens.expect_keyword(event)?;
        tokens.expect_keyword(Keyword::Set)?;
        let items = separated(alloc, &SetItems { alloc, depth }, tokens)?;
        Ok(On { create, items })
    }
}

impl Row for Events {
    ghost begins = { λ _. parse.sees_keyword k.On };

    ghost none = { λ _. refl };

    ghost takes = { λ r. on_items_eats (expr_shrinks r.depth) };

    fn begins(&self, tokens: &Tokens<'_, '_>) -> bool {
        tokens.sees_keyword(Keyword::On)
    }
}

#[derive(Drop)]
pub(crate) struct UpdatingClauses {
    pub alloc: Global,
    pub depth: usize,
}

impl Rule for UpdatingClauses {
    type Tree = Clause;

    ghost Datum = { tree.Clause };

    ghost view = { clause_view };

    ghost parser = { λ r. parse.updating (parse.expr r.depth) };

    ghost shrinks = { λ r. eats_shrinks (updating_eats (expr_shrinks r.depth)) };

    #[tactic(auto, unfolding(pg_meaning::specs::Parse::updating, pg_meaning::specs::Parse::merge_clause, pg_meaning::specs::Parse::delete_clause, pg_meaning::specs::Parse::keyword, pg_meaning::specs::Parse::eat_keyword))]
    fn read(&self, tokens: &mut Tokens<'_, '_>) -> Result<Clause, ParseError> {
        let alloc = self.alloc;
        let depth = self.depth;
        if tokens.eat_keyword(Keyword::Create) {
            return Ok(Clause::Create(separated(alloc, &Paths { alloc, depth }, tokens)?));
        }
        if tokens.eat_keyword(Keyword::Merge) {
            let path = Paths { alloc, depth }.read(tokens)?;
            return Ok(Clause::Merge(path, pieces(alloc, &Events { alloc, depth }, tokens)?));
        }
        if tokens.eat_keyword(Keyword::Set) {
            return Ok(Clause::Set(separated(alloc, &SetItems { alloc, depth }, tokens)?));
        }
        if tokens.eat_keyword(Keyword::Remove) {
            return Ok(Clause::Remove(separated(alloc, &RemoveItems { alloc }, tokens)?));
        }
        let is_detach = tokens.eat_keyword(Keyword::Detach);
        tokens.expect_keyword(Keyword::Delete)?;
        Ok(Clause::Delete(
            is_detach,
            separated(alloc, &ExpressionParser { alloc, depth }, tokens)?,
        ))
    }
}

impl Row for UpdatingClauses {
    ghost begins = { λ _. parse.begins_updating };

    ghost none = { λ _. refl };

    ghost takes = { λ r. updating_eats (expr_shrinks r.depth) };

    fn begins(&self, tokens: &Tokens<'_, '_>) -> bool {
        tokens.sees_keyword(Keyword::Create)
            || tokens.sees_keyword(Keyword::Merge)
            || tokens.sees_keyword(Keyword::Set)
            || tokens.sees_keyword(Keyword::Remove)
            || tokens.sees_keyword(Keyword::Detach)
            || tokens.sees_keyword(Keyword::Delete)
    }
}
