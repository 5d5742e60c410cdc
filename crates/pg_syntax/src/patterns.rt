//! Patterns.

ghost use Rattle.std.specs.Prelude.{Bool, map, option_map, refl};
ghost use Rattle.pg_lex.specs.View.{tokens_view};
ghost use Rattle.pg_meaning.specs.Parse as parse;
ghost use Rattle.pg_meaning.specs.declared.lexemes.Symbol.TheVariants as s;
ghost use Rattle.pg_meaning.specs.Tree as tree;
ghost use Rattle.pg_syntax_tokens.specs.Gives.{Gives, same};
ghost use Rattle.pg_syntax.specs.Pieces as pieces;
ghost use Rattle.pg_syntax_tokens.specs.ShrinksLaws.{eats_shrinks};
ghost use Rattle.pg_syntax_expressions.specs.ShrinksExpressions.{expr_shrinks};
ghost use Rattle.pg_syntax.specs.ShrinksPatterns.{other_type_eats, hop_eats, path_shrinks};
ghost use Rattle.pg_syntax_tree.specs.View.{properties_view, node_view, type_view, range_view, detail_view, hop_view, path_view};

use pg_meaning::Symbol;
use pg_syntax_expressions::{ExpressionParser, map_pairs};
use pg_syntax_tokens::{
    ParseError, Row, Rule, Tokens, labels_if_any, many, pieces, start_of, variable,
};
use pg_syntax_tree::{
    Detail, NodePattern, PathPattern, Properties, Range, RelationshipPattern, TypeName,
};
use std::alloc::Global;

#[tactic(auto, unfolding(pg_meaning::specs::Parse::properties))]
fn properties(
    alloc: Global,
    tokens: &mut Tokens<'_, '_>,
    depth: usize,
) -> Result<Properties, ParseError>
    ensures { Gives properties_view (parse.properties
        (parse.expr depth) (tokens_view tokens.old.rest.now)) result tokens.new.rest.now }
{
    if tokens.sees(Symbol::OpenBrace) {
        return Ok(Properties::Given(map_pairs(&ExpressionParser { alloc, depth }, tokens)?));
    }
    if tokens.sees_parameter() {
        return Ok(Properties::Parameter(tokens.parameter(alloc)?));
    }
    Ok(Properties::None)
}

#[tactic(auto, unfolding(pg_meaning::specs::Parse::node, pg_meaning::specs::Parse::here))]
fn node(alloc: Global, tokens: &mut Tokens<'_, '_>, depth: usize) -> Result<NodePattern, ParseError>
    ensures { Gives node_view (parse.node (parse.expr depth) (tokens_view tokens.old.rest.now))
        result tokens.new.rest.now }
{
    let place = start_of(tokens.rest);
    tokens.expect(Symbol::OpenParenthesis)?;
    let variable = variable(alloc, tokens)?;
    let labels = labels_if_any(alloc, tokens)?;
    let properties = properties(alloc, tokens, depth)?;
    tokens.expect(Symbol::CloseParenthesis)?;
    Ok(NodePattern {
        place,
        variable,
        labels,
        properties,
    })
}

/// A type behind a bar.
#[derive(Drop)]
struct OtherType {
    alloc: Global,
}

impl Rule for OtherType {
    type Tree = TypeName;

    ghost Datum = { Bool × tree.Name };

    ghost view = { type_view };

    ghost parser = { λ _. parse.other_type };

    ghost shrinks = { λ _. eats_shrinks other_type_eats };

    fn read(&self, tokens: &mut Tokens<'_, '_>) -> Result<TypeName, ParseError> {
        tokens.expect(Symbol::Bar)?;
        let colon = tokens.eat(Symbol::Colon);
        let name = tokens.name(self.alloc)?;
        Ok(TypeName { colon, name })
    }
}

impl Row for OtherType {
    ghost begins = { λ _. parse.sees_symbol s.Bar };

    ghost none = { λ _. refl };

    ghost takes = { λ _. other_type_eats };

    fn begins(&self, tokens: &Tokens<'_, '_>) -> bool {
        tokens.sees(Symbol::Bar)
    }
}

#[tactic(auto, unfolding(pg_meaning::specs::Parse::types, pg_meaning::specs::Parse::symbol, pg_meaning::specs::Parse::eat_symbol))]
fn types_if_any(alloc: Global, tokens: &mut Tokens<'_, '_>) -> Result<Vec<TypeName>, ParseError>
    ensures { Gives (λ v. map type_view v.items)
        (pieces.types_if_any (tokens_view tokens.old.rest.now)) result tokens.new.rest.now }
{
    if !tokens.eat(Symbol::Colon) {
        return Ok(Vec::new(alloc));
    }
    let name = tokens.name(alloc)?;
    let mut found = Vec::new(alloc);
    found.push(TypeName { colon: true, name })?;
    many(&OtherType { alloc }, tokens, found)
}

fn integer_if_any(tokens: &mut Tokens<'_, '_>) -> Result<Option<u64>, ParseError>
    ensures { Gives same (parse.maybe parse.begins_integer parse.integer
        (tokens_view tokens.old.rest.now)) result tokens.new.rest.now }
{
    if !tokens.sees_integer() {
        return Ok(None);
    }
    Ok(Some(tokens.integer()?))
}

#[tactic(auto, unfolding(pg_meaning::specs::Parse::range, pg_meaning::specs::Parse::symbol, pg_meaning::specs::Parse::eat_symbol))]
fn range_if_any(tokens: &mut Tokens<'_, '_>) -> Result<Option<Range>, ParseError>
    ensures { Gives (option_map range_view) (parse.maybe (parse.sees_symbol s.Star) parse.range
        (tokens_view tokens.old.rest.now)) result tokens.new.rest.now }
{
    if !tokens.eat(Symbol::Star) {
        return Ok(None);
    }
    let lower = integer_if_any(tokens)?;
    let dots = tokens.eat(Symbol::TwoDots);
    let upper = if dots { integer_if_any(tokens)? } else { None };
    Ok(Some(Range { lower, dots, upper }))
}

#[tactic(auto, unfolding(pg_meaning::specs::Parse::detail, pg_meaning::specs::Parse::symbol, pg_meaning::specs::Parse::eat_symbol))]
fn detail_if_any(
    alloc: Global,
    tokens: &mut Tokens<'_, '_>,
    depth: usize,
) -> Result<Option<Detail>, ParseError>
    ensures { Gives (option_map detail_view) (parse.maybe (parse.sees_symbol s.OpenBracket)
        (parse.detail (parse.expr depth)) (tokens_view tokens.old.rest.now))
        result tokens.new.rest.now }
{
    if !tokens.eat(Symbol::OpenBracket) {
        return Ok(None);
    }
    let variable = variable(alloc, tokens)?;
    let types = types_if_any(alloc, tokens)?;
    let range = range_if_any(tokens)?;
    let properties = properties(alloc, tokens, depth)?;
    tokens.expect(Symbol::CloseBracket)?;
    Ok(Some(Detail {
        variable,
        types,
        range,
        properties,
    }))
}

/// A relationship and the node behind it.
#[derive(Drop)]
struct Hop {
    alloc: Global,
    depth: usize,
}

impl Rule for Hop {
    type Tree = (RelationshipPattern, NodePattern);

    ghost Datum = { tree.RelationshipPattern × tree.NodePattern };

    ghost view = { hop_view };

    ghost parser = { λ h. parse.hop (parse.expr h.depth) };

    ghost shrinks = { λ h. eats_shrinks (hop_eats (expr_shrinks h.depth)) };

    #[tactic(auto, unfolding(pg_meaning::specs::Parse::relationship, pg_meaning::specs::Parse::here))]
    fn read(
        &self,
        tokens: &mut Tokens<'_, '_>,
    ) -> Result<(RelationshipPattern, NodePattern), ParseError> {
        let place = start_of(tokens.rest);
        let left_head = tokens.eat(Symbol::Less);
        tokens.expect(Symbol::Minus)?;
        let detail = detail_if_any(self.alloc, tokens, self.depth)?;
        tokens.expect(Symbol::Minus)?;
        let right_head = tokens.eat(Symbol::Greater);
        let relationship = RelationshipPattern {
            place,
            left_head,
            detail,
            right_head,
        };
        Ok((relationship, node(self.alloc, tokens, self.depth)?))
    }
}

impl Row for Hop {
    ghost begins = { λ _. parse.begins_relationship };

    ghost none = { λ _. refl };

    ghost takes = { λ h. hop_eats (expr_shrinks h.depth) };

    fn begins(&self, tokens: &Tokens<'_, '_>) -> bool {
        tokens.sees(Symbol::Less) || tokens.sees(Symbol::Minus)
    }
}

/// Paths, as pieces of a row.
#[derive(Drop)]
pub(crate) struct Paths {
    pub alloc: Global,
    pub depth: usize,
}

impl Rule for Paths {
    type Tree = PathPattern;

    ghost Datum = { tree.PathPattern };

    ghost view = { path_view };

    ghost parser = { λ p. parse.path (parse.expr p.depth) };

    ghost shrinks = { λ p. path_shrinks (expr_shrinks p.depth) };

    #[tactic(auto, unfolding(pg_meaning::specs::Parse::path))]
    fn read(&self, tokens: &mut Tokens<'_, '_>) -> Result<PathPattern, ParseError> {
        let alloc = self.alloc;
        let depth = self.depth;
        let variable = if tokens.sees_var() {
            let name = tokens.var(alloc)?;
            tokens.expect(Symbol::Equal)?;
            Some(name)
        } else {
            None
        };
        let first = node(alloc, tokens, depth)?;
        let hops = pieces(alloc, &Hop { alloc, depth }, tokens)?;
        Ok(PathPattern {
            variable,
            first,
            hops,
        })
    }
}
