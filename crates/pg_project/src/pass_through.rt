//! Projections that give their rows as they are.
ghost use Rattle.std.specs.Prelude.{◌≡◌, true, false, length, map, option_map};
ghost use Rattle.pg_project.specs.Given.{is_column, sorts_by_columns};
ghost use Rattle.pg_project.specs.Items.{expressions_view};
ghost use Rattle.pg_project.specs.PassThrough.{are_variables, is_unseen, is_variable_at};
ghost use Rattle.pg_syntax_tree.specs.View.{expression_view, projection_view, sort_item_view};

use crate::projection_clause::ProjectionClause;
use pg_rows::Columns;
use pg_syntax_tree::{Expression, Projection, SortItem};

/// Whether the rows serve as they are: the items are the variables of all columns in their order, and nothing behind the items
/// can tell the columns from the earlier variables.
pub(crate) fn passes_through(
    columns: &Columns,
    items: &Vec<&Expression>,
    clause: &ProjectionClause<'_>,
    names: &Columns,
) -> bool
    ensures len { result ≡ true → length items.now.items ≡ length names.now }
    ensures variables { result ≡ true
        → are_variables names.now 0 (expressions_view items.now.items) ≡ true }
    ensures names { result ≡ true
        → is_unseen (projection_view clause.now.projection.now)
        (option_map expression_view clause.now.condition.now) ≡ false
        → columns.now ≡ names.now }
{
    items.len() == names.len()
        && are_variables(items, names)
        && (is_unseen(clause.projection, clause.condition) || same_names(columns, names))
}

/// Whether neither a sort nor a condition looks at a row behind the items.
#[tactic(auto, using(crate::proofs::Projecting::none_viewed))]
fn is_unseen(projection: &Projection, condition: &Option<Expression>) -> bool
    ensures { result
        ≡ is_unseen (projection_view projection.now) (option_map expression_view condition.now) }
{
    projection.order.is_empty() && condition.is_none()
}

/// Whether each sort is by the variable of a column.
pub(crate) fn sorts_by_columns(columns: &Columns, order: &Vec<SortItem>) -> bool
    ensures { result ≡ sorts_by_columns columns.now (map sort_item_view order.now.items) }
{
    for item in order {
        if !is_column(columns, &item.key) {
            return false;
        }
    }
    true
}

fn is_column(columns: &Columns, expression: &Expression) -> bool
    ensures { result ≡ is_column columns.now (expression_view expression.now) }
{
    match expression {
        Expression::Variable(name) => columns.find(name.text.as_str()).is_some(),
        _ => false,
    }
}

/// Whether each item is the variable of the column in its place, which is the first of its name.
fn are_variables(items: &Vec<&Expression>, names: &Columns) -> bool
    ensures { result ≡ are_variables names.now 0 (expressions_view items.now.items) }
{
    for (at, item) in items.iter().enumerate() {
        if !is_variable_at(item, at, names) {
            return false;
        }
    }
    true
}

fn is_variable_at(expression: &Expression, at: usize, names: &Columns) -> bool
    ensures { result ≡ is_variable_at names.now at (expression_view expression.now) }
{
    let Expression::Variable(name) = expression else {
        return false;
    };
    match names.find(name.text.as_str()) {
        Some(found) => found == at,
        None => false,
    }
}

fn same_names(columns: &Columns, names: &Columns) -> bool
    ensures { result ≡ true → columns.now ≡ names.now }
{
    if columns.len() != names.len() {
        return false;
    }
    for at in 0..columns.len() {
        if columns.name(at) != names.name(at) {
            return false;
        }
    }
    true
}
