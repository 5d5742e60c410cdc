//! The columns of WITH and RETURN.
ghost use Rattle.std.specs.BTreeSet.{insert_key};
ghost use Rattle.std.specs.List.{insert};
ghost use Rattle.std.specs.List.Sorted.{IsStrictlySortedBy};
ghost use Rattle.std.specs.Prelude.{◌≡◌, ◌≤◌, ◌++◌, ◌+◌, ◌∷◌, [], cond, length, map, true, IfNone, IfOk, IfSome, OnOk};
ghost use Rattle.pg_meaning.specs.Names.{in_byte_order};
ghost use Rattle.pg_meaning.specs.Order.{text_order};
ghost use Rattle.pg_meaning.specs.Scopes.{column_names};
ghost use Rattle.pg_project.specs.Columns.{columns_view, naming_columns, star_names, texts_of, trees_in, variable_trees};
ghost use Rattle.pg_project.specs.Given.{earlier_names};
ghost use Rattle.pg_project.specs.Items.{columns_of, expressions_view};
ghost use Rattle.pg_rows.specs.Rising.{IsLastBelow};
ghost use Rattle.pg_scope.specs.Columns.{column_of};
ghost use Rattle.pg_syntax_tree.specs.View.{item_view, projection_view};

use crate::projection_columns::ProjectionColumns;
use pg_rows::Columns;
use pg_scope::{Naming, column_name};
use pg_syntax_tree::{Expression, Item, Name, Projection};
use std::alloc::{AllocError, Global};
use std::cmp::Ordering;

/// The columns of a projection, where the variables in scope have these names.
pub(crate) fn make_columns<'a>(
    alloc: Global,
    naming: Naming,
    scope: &Columns,
    projection: &'a Projection,
) -> Result<ProjectionColumns<'a>, AllocError>
    ensures { IfOk result
        (λ c. columns_view c ≡ naming_columns naming scope.now (projection_view projection.now)) }
{
    let mut names = star_names(alloc, scope, projection.star)?;
    let starred = variables(alloc, &names)?;
    push_names(alloc, naming, &mut names, &projection.items)?;
    Ok(ProjectionColumns {
        names,
        starred,
        items: &projection.items,
    })
}

/// The names that `*` stands for, in byte order.
fn star_names(alloc: Global, scope: &Columns, star: Option<usize>) -> Result<Columns, AllocError>
    ensures { IfOk result (λ c. c ≡ star_names scope.now star) }
{
    let mut names = Columns::new(alloc);
    if star.is_none() {
        return Ok(names);
    }
    if scope.rises() {
        push_all(alloc, &mut names, scope)?;
        return Ok(names);
    }
    for text in in_byte_order(alloc, scope)? {
        names.push(alloc, text)?;
    }
    Ok(names)
}

fn in_byte_order<'a>(alloc: Global, scope: &'a Columns) -> Result<Vec<&'a str>, AllocError>
    ensures { IfOk result (λ texts. texts_of texts.items ≡ in_byte_order scope.now) }
{
    let mut texts = Vec::with_capacity(alloc, scope.len())?;
    for at in 0..scope.len() {
        put_in_order(&mut texts, scope.name(at))?;
    }
    Ok(texts)
}

/// Puts a text among texts that rise in byte order, unless it is there. Most come behind all others.
fn put_in_order<'a>(texts: &mut Vec<&'a str>, text: &'a str) -> Result<(), AllocError>
    requires { IsStrictlySortedBy text_order (texts_of texts.old.items) }
    ensures { OnOk result (texts_of texts.new.items
        ≡ insert_key text_order (texts_of texts.old.items) text.now) }
{
    if are_below(texts, text) {
        texts.push(text)?;
        return Ok(());
    }
    if let Some(at) = place_among(texts, text) {
        texts.insert(at, text)?;
    }
    Ok(())
}

/// Whether the last text is below this one, or there is none.
fn are_below(texts: &[&str], text: &str) -> bool
    ensures { result ≡ true → IsLastBelow text.now (texts_of texts.now) }
{
    match texts.last() {
        Some(last) => (*last).cmp(text).is_lt(),
        None => true,
    }
}

/// The place of a text in byte order, unless it is there.
fn place_among(texts: &[&str], text: &str) -> Option<usize>
    ensures within { IfSome result (λ at. at ≤ length texts.now) }
    ensures some { IfSome result (λ at. insert_key text_order (texts_of texts.now) text.now
        ≡ insert (texts_of texts.now) at text.now) }
    ensures none { IfNone result
        (insert_key text_order (texts_of texts.now) text.now ≡ texts_of texts.now) }
{
    for (at, held) in texts.iter().enumerate() {
        match text.cmp(held) {
            Ordering::Less => return Some(at),
            Ordering::Equal => return None,
            Ordering::Greater => {}
        }
    }
    Some(texts.len())
}

/// The variables of these names.
fn variables(alloc: Global, names: &Columns) -> Result<Vec<Expression>, AllocError>
    ensures { IfOk result (λ found. trees_in found.items ≡ variable_trees names.now) }
{
    let mut found = Vec::new(alloc);
    for at in 0..names.len() {
        found.push(Expression::Variable(Name {
            text: String::from_str(alloc, names.name(at))?,
            quoted: false,
            place: 0,
        }))?;
    }
    Ok(found)
}

fn push_names(
    alloc: Global,
    naming: Naming,
    names: &mut Columns,
    items: &Vec<Item>,
) -> Result<(), AllocError>
    ensures { OnOk result (names.new
        ≡ names.old ++ column_names (map (column_of naming) (map item_view items.now.items))) }
{
    for item in items {
        names.push(alloc, column_name(naming, item))?;
    }
    Ok(())
}

impl<'a> ProjectionColumns<'a> {
    /// The columns' names from left to right, those of `*` first.
    pub fn names(&self) -> &Columns
        ensures { result.now ≡ self.now.names }
    {
        &self.names
    }

    /// What the columns hold, in turn.
    pub fn expressions(&self, alloc: Global) -> Result<Vec<&Expression>, AllocError>
        ensures trees { IfOk result (λ found. columns_view self.now
            ≡ columns_of self.now.names (expressions_view found.items)) }
        ensures len { IfOk result (λ found. length found.items ≡ length self.now.names) }
    {
        let mut found = Vec::new(alloc);
        for expression in &self.starred {
            found.push(expression)?;
        }
        for item in self.items {
            found.push(&item.value)?;
        }
        Ok(found)
    }
}

/// The names of the columns, and behind them those of the earlier variables unless they are hidden.
pub(crate) fn visible_names(
    alloc: Global,
    columns: &Columns,
    names: &Columns,
    hidden: bool,
) -> Result<Columns, AllocError>
    ensures { IfOk result (λ c. c ≡ columns.now ++ earlier_names hidden names.now) }
{
    let mut found = Columns::new(alloc);
    push_all(alloc, &mut found, columns)?;
    if !hidden {
        push_all(alloc, &mut found, names)?;
    }
    Ok(found)
}

/// Takes the names in behind the others.
#[tactic(auto, using(crate::proofs::ColumnViews::name_pushed, crate::proofs::ColumnViews::all_pushed))]
fn push_all(alloc: Global, found: &mut Columns, names: &Columns) -> Result<(), AllocError>
    ensures { OnOk result (found.new ≡ found.old ++ names.now) }
{
    for at in 0..names.len() {
        found.push(alloc, names.name(at))?;
    }
    Ok(())
}
