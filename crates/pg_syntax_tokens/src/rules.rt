//! Pieces of the grammar, and rows of them.

ghost use Rattle.std.specs.Prelude.{◌≡◌, false, [], map, refl};
ghost use Rattle.pg_lex.specs.View.{tokens_view};
ghost use Rattle.pg_meaning.specs.Parse as parse;
ghost use Rattle.pg_meaning.specs.Parse.{Parser, Test, comma_and, sees_symbol};
ghost use Rattle.pg_meaning.specs.declared.lexemes.Symbol.TheVariants as s;
ghost use Rattle.pg_syntax_tokens.specs.Gives.{Gives};
ghost use Rattle.pg_syntax_tokens.specs.ShrinksLaws.{comma_eats, eats_shrinks};
ghost use Rattle.pg_syntax_tokens.specs.Shrinks.{Shrinks, Eats};

use crate::cursor::Tokens;
use crate::error::ParseError;
use pg_meaning::Symbol;
use std::alloc::Global;

/// A piece that is read as a function of the grammar says.
pub trait Rule {
    type Tree: Drop;

    ghost Datum: { Type 0 };

    ghost view: { Self.Tree → Datum };

    ghost parser: { Self → Parser Datum };

    ghost ready: { Self → Type 0 } = { λ _. Unit {0} };

    fn read(&self, tokens: &mut Tokens<'_, '_>) -> Result<Self::Tree, ParseError>
        requires { ready self.now }
        ensures { Gives view
            (parser self.now (tokens_view tokens.old.rest.now)) result tokens.new.rest.now };

    ghost shrinks: { (rule : Self) → Shrinks (parser rule) };
}

/// A piece of which there is a further one exactly where one begins.
pub trait Row: Rule {
    ghost begins: { Self → Test };

    fn begins(&self, tokens: &Tokens<'_, '_>) -> bool
        ensures { result ≡ begins self.now (tokens_view tokens.now.rest.now) };

    ghost none: { (rule : Self) → begins rule [] ≡ false };

    ghost takes: { (rule : Self) → Eats (Self.parser rule) };
}

/// Further pieces behind those that were found.
pub fn many<R: Row>(
    rule: &R,
    tokens: &mut Tokens<'_, '_>,
    mut found: Vec<R::Tree>,
) -> Result<Vec<R::Tree>, ParseError>
    requires { R.ready rule.now }
    ensures { Gives (λ v. map R.view v.items) (parse.many (R.begins rule.now) (R.parser rule.now)
        (map R.view found.items) (tokens_view tokens.old.rest.now)) result tokens.new.rest.now }
{
    while rule.begins(tokens) {
        found.push(rule.read(tokens)?)?;
    }
    Ok(found)
}

/// All pieces of a row.
pub fn pieces<R: Row>(
    alloc: Global,
    rule: &R,
    tokens: &mut Tokens<'_, '_>,
) -> Result<Vec<R::Tree>, ParseError>
    requires { R.ready rule.now }
    ensures { Gives (λ v. map R.view v.items) (parse.many (R.begins rule.now)
        (R.parser rule.now) [] (tokens_view tokens.old.rest.now)) result tokens.new.rest.now }
{
    many(rule, tokens, Vec::new(alloc))
}

/// A comma and a piece.
#[derive(Drop)]
struct CommaAnd<'r, R> {
    rule: &'r R,
}

impl<'r, R: Rule> Rule for CommaAnd<'r, R> {
    type Tree = R::Tree;

    ghost Datum = { R.Datum };

    ghost view = { R.view };

    ghost parser = { λ c. comma_and (R.parser c.rule.now) };

    ghost ready = { λ c. R.ready c.rule.now };

    ghost shrinks = { λ c. eats_shrinks (comma_eats (R.shrinks c.rule.now)) };

    fn read(&self, tokens: &mut Tokens<'_, '_>) -> Result<R::Tree, ParseError> {
        tokens.expect(Symbol::Comma)?;
        self.rule.read(tokens)
    }
}

impl<'r, R: Rule> Row for CommaAnd<'r, R> {
    ghost begins = { λ _. sees_symbol s.Comma };

    ghost none = { λ _. refl };

    ghost takes = { λ c. comma_eats (R.shrinks c.rule.now) };

    fn begins(&self, tokens: &Tokens<'_, '_>) -> bool {
        tokens.sees(Symbol::Comma)
    }
}

/// Further pieces, each behind a comma.
pub fn further<R: Rule>(
    rule: &R,
    tokens: &mut Tokens<'_, '_>,
    found: Vec<R::Tree>,
) -> Result<Vec<R::Tree>, ParseError>
    requires { R.ready rule.now }
    ensures { Gives (λ v. map R.view v.items) (parse.many (sees_symbol s.Comma)
        (comma_and (R.parser rule.now)) (map R.view found.items) (tokens_view tokens.old.rest.now))
        result tokens.new.rest.now }
{
    many(&CommaAnd { rule }, tokens, found)
}

/// One or more, with commas between.
pub fn separated<R: Rule>(
    alloc: Global,
    rule: &R,
    tokens: &mut Tokens<'_, '_>,
) -> Result<Vec<R::Tree>, ParseError>
    requires { R.ready rule.now }
    ensures { Gives (λ v. map R.view v.items) (parse.separated
        (R.parser rule.now) (tokens_view tokens.old.rest.now)) result tokens.new.rest.now }
{
    let mut found = Vec::new(alloc);
    found.push(rule.read(tokens)?)?;
    further(rule, tokens, found)
}
