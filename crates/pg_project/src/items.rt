//! The items of a projection, made ready to be evaluated at each row.
ghost use Rattle.std.specs.Prelude.{◌≡◌, ◌++◌, ◌∷◌, [], ℕ, List, IfOk, OnOk, map, option_map};
ghost use Rattle.pg_expr.specs.Prepared.{tree_of};
ghost use Rattle.pg_meaning.specs.Aggregates.{first_argument};
ghost use Rattle.pg_meaning.specs.Parse.{expressions_of};
ghost use Rattle.pg_project.specs.Items.{aggregates_in, are_aggregates, before_aggregates, before_keys, expressions_view, is_aggregate, item_of, keys_in};
ghost use Rattle.pg_project.specs.ReadyItems.{aggregates_view, item_view, keys_of};
ghost use Rattle.pg_syntax_tree.specs.View.{expression_view};

use pg_expr::{Prepared, prepare};
use pg_rows::Columns;
use pg_scope::{AggregateFunction, summary_named};
use pg_syntax_tree::Expression;
use std::alloc::{AllocError, Global};

/// An aggregate; without an argument it counts rows.
#[derive(Clone, Copy)]
pub(crate) struct Aggregate<'a> {
    pub(crate) summary: AggregateFunction,
    pub(crate) distinct: bool,
    pub(crate) argument: Option<Prepared<'a>>,
}

/// An item by whose value rows are grouped, or an aggregate.
#[derive(Clone, Copy)]
pub(crate) enum Item<'a> {
    Key(Prepared<'a>),
    Aggregate(Aggregate<'a>),
}

fn first_argument<'a>(
    alloc: Global,
    arguments: &'a Vec<Expression>,
    names: &Columns,
) -> Result<Option<Prepared<'a>>, AllocError>
    ensures { IfOk result (λ o. option_map (tree_of names.now) o
        ≡ first_argument (expressions_of (map expression_view arguments.now.items))) }
{
    match arguments.first() {
        Some(argument) => Ok(Some(prepare(alloc, argument, names)?)),
        None => Ok(None),
    }
}

#[tactic(auto, using(pg_syntax_tree::proofs::Views::call_is))]
pub(crate) fn prepare_item<'a>(
    alloc: Global,
    expression: &'a Expression,
    names: &Columns,
) -> Result<Item<'a>, AllocError>
    ensures { IfOk result (λ i. item_view names.now i ≡ item_of (expression_view expression.now)) }
{
    if let Expression::Call(name, _, distinct, arguments) = expression
        && let Some(summary) = summary_named(name.text.as_str())
    {
        return Ok(Item::Aggregate(Aggregate {
            summary,
            distinct: *distinct,
            argument: first_argument(alloc, arguments, names)?,
        }));
    }
    Ok(Item::Key(prepare(alloc, expression, names)?))
}

/// The items that group and the aggregates apart, each in order, and which item is which.
#[derive(Drop)]
pub(crate) struct Items<'a> {
    pub(crate) keys: Vec<Prepared<'a>>,
    pub(crate) aggregates: Vec<Aggregate<'a>>,
    pub(crate) are_aggregates: Vec<bool>,
}

impl<'a> Items<'a> {
    /// The items that these expressions are, for rows under the names.
    pub(crate) fn new(
        alloc: Global,
        expressions: &Vec<&'a Expression>,
        names: &Columns,
    ) -> Result<Items<'a>, AllocError>
        ensures keys { IfOk result (λ i. keys_of names.now i.keys.items
            ≡ keys_in (expressions_view expressions.now.items)) }
        ensures aggregates { IfOk result (λ i. aggregates_view names.now i.aggregates.items
            ≡ aggregates_in (expressions_view expressions.now.items)) }
        ensures kinds { IfOk result (λ i. i.are_aggregates.items
            ≡ are_aggregates (expressions_view expressions.now.items)) }
    {
        let mut items = Items {
            keys: Vec::new(alloc),
            aggregates: Vec::new(alloc),
            are_aggregates: Vec::new(alloc),
        };
        for expression in expressions {
            items.push(prepare_item(alloc, expression, names)?)?;
        }
        Ok(items)
    }

    fn push(&mut self, item: Item<'a>) -> Result<(), AllocError>
        ensures keys { (names : List (List ℕ))
            → OnOk result (keys_of names self.new.keys.items
            ≡ keys_of names self.old.keys.items ++ before_keys (item_view names item.entry) []) }
        ensures aggregates { (names : List (List ℕ))
            → OnOk result (aggregates_view names self.new.aggregates.items
            ≡ aggregates_view names self.old.aggregates.items
            ++ before_aggregates (item_view names item.entry) []) }
        ensures kinds { (names : List (List ℕ))
            → OnOk result (self.new.are_aggregates.items
            ≡ self.old.are_aggregates.items ++ is_aggregate (item_view names item.entry) ∷ []) }
    {
        match item {
            Item::Key(key) => {
                self.keys.push(key)?;
                self.are_aggregates.push(false)?;
            }
            Item::Aggregate(aggregate) => {
                self.aggregates.push(aggregate)?;
                self.are_aggregates.push(true)?;
            }
        }
        Ok(())
    }
}
