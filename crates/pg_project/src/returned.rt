//! RETURN whose rows come in turn, and RETURN that only counts rows.
ghost use Rattle.std.specs.Prelude.{◌≡◌, true, IfOk};
ghost use Rattle.pg_meaning.specs.Names.{Names};
ghost use Rattle.pg_meaning.specs.Scopes.{return_columns};
ghost use Rattle.pg_project.specs.Columns.{columns_view};
ghost use Rattle.pg_project.specs.Returned.{ComeInTurn, CountsRows, OnlyCounts};
ghost use Rattle.pg_syntax_tree.specs.View.{expression_view, projection_view};

use crate::aggregates::{is_aggregate, is_any_aggregate};
use crate::columns::make_columns;
use crate::projection_columns::ProjectionColumns;
use pg_rows::Columns;
use pg_scope::{Naming, summary_named};
use pg_syntax_tree::{Expression, Projection};
use std::alloc::{AllocError, Global};

/// The columns of RETURN, where the variables in scope have these names.
pub fn return_columns<'a>(
    alloc: Global,
    scope: &Columns,
    projection: &'a Projection,
) -> Result<ProjectionColumns<'a>, AllocError>
    ensures { IfOk result
        (λ c. columns_view c ≡ return_columns scope.now (projection_view projection.now)) }
{
    make_columns(alloc, Naming::Source, scope, projection)
}

/// Whether the rows of RETURN come in turn, each by itself: it neither groups nor sorts, and equal rows stay. `*` stands
/// for variables, of which none is an aggregate.
pub fn come_in_turn(projection: &Projection) -> bool
    ensures { (scope : Names) → result ≡ true → ComeInTurn (projection_view projection.now)
        (return_columns scope (projection_view projection.now)) }
{
    !projection.distinct && projection.order.is_empty() && !is_any_aggregate(&projection.items)
}

/// Whether RETURN only counts rows: it gives the same over any others of which there are as many.
pub fn only_counts(projection: &Projection) -> bool
    ensures { result ≡ true → OnlyCounts (projection_view projection.now) }
{
    match projection.items.as_slice() {
        [item] => projection.star.is_none() && counts_rows(&item.value),
        _ => false,
    }
}

/// Whether RETURN groups rows only to count them: it has one aggregate, which is `count(*)`, and no `*`.
pub fn counts_groups(projection: &Projection) -> bool {
    if projection.star.is_some() {
        return false;
    }
    let mut counts = false;
    for item in &projection.items {
        if is_aggregate(&item.value) {
            if counts || !counts_rows(&item.value) {
                return false;
            }
            counts = true;
        }
    }
    counts
}

fn counts_rows(expression: &Expression) -> bool
    ensures { result ≡ true → CountsRows (expression_view expression.now) }
{
    match expression {
        Expression::Call(name, _, _, arguments) => {
            arguments.is_empty() && summary_named(name.text.as_str()).is_some()
        }
        _ => false,
    }
}
