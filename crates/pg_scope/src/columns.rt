//! The columns of WITH and RETURN.
ghost use Rattle.std.specs.Prelude.{◌≡◌, is_some, map};
ghost use Rattle.std.specs.List.{list_any};
ghost use Rattle.pg_meaning.specs.Aggregates.{aggregate_of};
ghost use Rattle.pg_meaning.specs.Scopes.{variable_text};
ghost use Rattle.pg_scope.specs.Columns.{column_of};
ghost use Rattle.pg_syntax_tree.specs.View.{expression_view, item_view};

use crate::calls::is_aggregate;
use pg_syntax_tree::{Expression, Item};

/// How a clause names a column that has no alias.
#[derive(Clone, Copy)]
pub enum Naming {
    /// WITH names it by the variable that it is.
    Variable,
    /// RETURN names it by its text as written.
    Source,
}

/// The text of a variable, and nothing for another expression.
fn variable_text(expression: &Expression) -> &str
    ensures { result.now ≡ variable_text (expression_view expression.now) }
{
    match expression {
        Expression::Variable(name) => name.text.as_str(),
        _ => "",
    }
}

/// The name of an item's column.
pub fn column_name(naming: Naming, item: &Item) -> &str
    ensures { result.now ≡ (column_of naming (item_view item.now)).name }
{
    match &item.alias {
        Some(name) => name.text.as_str(),
        None => match naming {
            Naming::Variable => variable_text(&item.value),
            Naming::Source => item.source.as_str(),
        },
    }
}

/// Whether an item is an aggregate.
fn has_aggregate(item: &Item) -> bool
    ensures { result ≡ is_some (aggregate_of (item_view item.now).value) }
{
    match &item.value {
        Expression::Call(name, _, _, _) => is_aggregate(name),
        _ => false,
    }
}

/// Whether any item is an aggregate.
pub(crate) fn have_aggregate(items: &Vec<Item>) -> bool
    ensures { result
        ≡ list_any (λ x. is_some (aggregate_of x.value)) (map item_view items.now.items) }
{
    for item in items {
        if has_aggregate(item) {
            return true;
        }
    }
    false
}
