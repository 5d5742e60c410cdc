//! Which expressions are aggregates.
ghost use Rattle.std.specs.Prelude.{◌≡◌, is_some, map};
ghost use Rattle.std.specs.List.{list_any};
ghost use Rattle.pg_meaning.specs.Aggregates.{aggregate_of};
ghost use Rattle.pg_project.specs.Items.{expressions_view};
ghost use Rattle.pg_syntax_tree.specs.View.{expression_view, item_view};

use pg_scope::summary_named;
use pg_syntax_tree::{Expression, Item};

/// Whether an item is an aggregate.
#[tactic(auto, using(pg_syntax_tree::proofs::Views::call_is))]
pub(crate) fn is_aggregate(expression: &Expression) -> bool
    ensures { result ≡ is_some (aggregate_of (expression_view expression.now)) }
{
    match expression {
        Expression::Call(name, _, _, _) => summary_named(name.text.as_str()).is_some(),
        _ => false,
    }
}

/// Whether any of the expressions is an aggregate.
pub(crate) fn have_aggregate(expressions: &Vec<&Expression>) -> bool
    ensures { result
        ≡ list_any (λ e. is_some (aggregate_of e)) (expressions_view expressions.now.items) }
{
    for expression in expressions {
        if is_aggregate(expression) {
            return true;
        }
    }
    false
}

/// Whether any of the items is an aggregate.
pub(crate) fn is_any_aggregate(items: &Vec<Item>) -> bool
    ensures { result
        ≡ list_any (λ i. is_some (aggregate_of i.value)) (map item_view items.now.items) }
{
    for item in items {
        if is_aggregate(&item.value) {
            return true;
        }
    }
    false
}
