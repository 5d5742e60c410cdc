//! Names that may be lacking, and labels.

ghost use Rattle.std.specs.Prelude.{◌≡◌, refl, option_map};
ghost use Rattle.pg_lex.specs.View.{tokens_view};
ghost use Rattle.pg_meaning.specs.Parse as parse;
ghost use Rattle.pg_meaning.specs.declared.lexemes.Symbol.TheVariants as s;
ghost use Rattle.pg_meaning.specs.Tree as tree;
ghost use Rattle.pg_syntax_tokens.specs.Gives.{Gives};
ghost use Rattle.pg_syntax_tokens.specs.ShrinksLaws.{label_eats, eats_shrinks};
ghost use Rattle.pg_syntax_tree.specs.View.{name_view, names_view};

use crate::cursor::Tokens;
use crate::error::ParseError;
use crate::rules::{Row, Rule, many};
use pg_meaning::Symbol;
use pg_syntax_tree::Name;
use std::alloc::Global;

/// The variable of a node or a relationship, if the text names one.
pub fn variable(alloc: Global, tokens: &mut Tokens<'_, '_>) -> Result<Option<Name>, ParseError>
    ensures { Gives (option_map name_view) (parse.maybe parse.begins_var parse.var
        (tokens_view tokens.old.rest.now)) result tokens.new.rest.now }
{
    if !tokens.sees_var() {
        return Ok(None);
    }
    Ok(Some(tokens.var(alloc)?))
}

/// A name behind a colon.
#[derive(Drop)]
struct Label {
    alloc: Global,
}

impl Rule for Label {
    type Tree = Name;

    ghost Datum = { tree.Name };

    ghost view = { name_view };

    ghost parser = { λ _. parse.label };

    ghost shrinks = { λ _. eats_shrinks label_eats };

    fn read(&self, tokens: &mut Tokens<'_, '_>) -> Result<Name, ParseError> {
        tokens.expect(Symbol::Colon)?;
        tokens.name(self.alloc)
    }
}

impl Row for Label {
    ghost begins = { λ _. parse.sees_symbol s.Colon };

    ghost none = { λ _. refl };

    ghost takes = { λ _. label_eats };

    fn begins(&self, tokens: &Tokens<'_, '_>) -> bool {
        tokens.sees(Symbol::Colon)
    }
}

/// One or more.
#[tactic(auto, unfolding(pg_meaning::specs::Parse::labels))]
pub fn labels(alloc: Global, tokens: &mut Tokens<'_, '_>) -> Result<Vec<Name>, ParseError>
    ensures { Gives (λ v. names_view v.items)
        (parse.labels (tokens_view tokens.old.rest.now)) result tokens.new.rest.now }
{
    let label = Label { alloc };
    let mut found = Vec::new(alloc);
    found.push(label.read(tokens)?)?;
    many(&label, tokens, found)
}

/// Any number of labels, each after its colon.
pub fn labels_if_any(alloc: Global, tokens: &mut Tokens<'_, '_>) -> Result<Vec<Name>, ParseError>
    ensures { Gives (λ v. names_view v.items)
        (parse.labels_if_any (tokens_view tokens.old.rest.now)) result tokens.new.rest.now }
{
    if !tokens.sees(Symbol::Colon) {
        return Ok(Vec::new(alloc));
    }
    labels(alloc, tokens)
}
