//! The static faults of WITH and RETURN.
ghost use Rattle.std.specs.Prelude.{◌≡◌, map, flat_map, IfOk, option_map};
ghost use Rattle.pg_meaning.specs.Scopes.{column_names, projection_columns};
ghost use Rattle.pg_meaning.specs.StaticFaults as spec;
ghost use Rattle.pg_scope.specs.Columns.{column_of, narrow, sorts, IsTail};
ghost use Rattle.pg_scope.specs.First.{IsFirst};
ghost use Rattle.pg_scope.specs.Roles.{seen};
ghost use Rattle.pg_scope.specs.Names.{names_in, HasSame};
ghost use Rattle.pg_syntax_tree.specs.View.{expression_view, item_view, projection_view, sort_item_view};

use crate::columns::{Naming, have_aggregate};
use crate::expressions::{Role, fault_in_expression};
use crate::found::PlacedFault;
use crate::items::{add_columns, fault_in_items};
use crate::names::ScopeNames;
use pg_syntax_tree::{Expression, Item, Projection, SortItem};
use pg_tree_equality::{index_of, is_item};
use std::alloc::{AllocError, Global};
use std::collections::BTreeSet;

/// The first fault, with those of an expression that may be absent.
pub(crate) fn fault_if_any<'a>(
    visible: &ScopeNames<'a>,
    expression: &'a Option<Expression>,
    first: Option<PlacedFault>,
) -> Option<PlacedFault>
    ensures { IsFirst first (spec.faults_if_any
        (names_in visible.now) (option_map expression_view expression.now)) result }
{
    match expression {
        Some(expression) => fault_in_expression(visible, Role::Elsewhere, expression, first),
        None => first,
    }
}

/// The first fault, with those of a condition.
fn fault_if_seen<'a>(
    visible: &ScopeNames<'a>,
    condition: Option<&'a Expression>,
    first: Option<PlacedFault>,
) -> Option<PlacedFault>
    ensures { IsFirst first
        (spec.faults_if_any (names_in visible.now) (seen condition.entry)) result }
{
    match condition {
        Some(condition) => fault_in_expression(visible, Role::Elsewhere, condition, first),
        None => first,
    }
}

/// The first fault, with those of the sorts that stand for no item.
fn fault_in_sorts<'a>(
    alloc: Global,
    visible: &ScopeNames<'a>,
    items: &'a Vec<Item>,
    order: &'a Vec<SortItem>,
    mut first: Option<PlacedFault>,
) -> Result<Option<PlacedFault>, AllocError>
    ensures { IfOk result (λ found.
        IsFirst first (flat_map (sorts (map item_view items.now.items) (names_in visible.now))
        (map sort_item_view order.now.items)) found) }
{
    if order.is_empty() {
        return Ok(first);
    }
    let index = index_of(alloc, items)?;
    for sort in order {
        if !is_item(alloc, &index, items, &sort.key)? {
            first = fault_in_expression(visible, Role::Elsewhere, &sort.key, first);
        }
    }
    Ok(first)
}

/// The first fault, with those of what stands behind the items, where some names are visible.
fn fault_in_tail<'a>(
    alloc: Global,
    visible: &ScopeNames<'a>,
    projection: &'a Projection,
    condition: Option<&'a Expression>,
    first: Option<PlacedFault>,
) -> Result<Option<PlacedFault>, AllocError>
    ensures { IfOk result (λ found. IsTail (projection_view projection.now)
        (seen condition.entry) (names_in visible.now) first found) }
{
    let first = fault_in_sorts(alloc, visible, &projection.items, &projection.order, first)?;
    let nothing = BTreeSet::new(alloc);
    let first = fault_if_any(&nothing, &projection.skip, first);
    let first = fault_if_any(&nothing, &projection.limit, first);
    Ok(fault_if_seen(visible, condition, first))
}

/// Whether what stands behind the items sees the columns alone.
fn is_narrow(projection: &Projection) -> bool
    ensures { result ≡ narrow (projection_view projection.now) }
{
    projection.star.is_none() && (projection.distinct || have_aggregate(&projection.items))
}

/// The first fault, with those of WITH or RETURN, and the names behind it.
pub(crate) fn fault_in_projection<'a>(
    alloc: Global,
    naming: Naming,
    mut scope: ScopeNames<'a>,
    projection: &'a Projection,
    condition: Option<&'a Expression>,
    first: Option<PlacedFault>,
) -> Result<(Option<PlacedFault>, ScopeNames<'a>), AllocError>
    ensures { IfOk result (λ r. IsFirst first (spec.projection_faults (column_of naming)
        (names_in scope.entry) (projection_view projection.now) (seen condition.entry)) r.0
        × HasSame (names_in r.1) (column_names (projection_columns
        (column_of naming) (names_in scope.entry) (projection_view projection.now)))) }
{
    let star = projection.star.is_some();
    let items = &projection.items;
    let mut columns = BTreeSet::new(alloc);
    let first = fault_in_items(naming, &scope, star, items, &mut columns, first)?;
    let visible = if is_narrow(projection) {
        &columns
    } else {
        add_columns(naming, &mut scope, items)?;
        &scope
    };
    let found = fault_in_tail(alloc, visible, projection, condition, first)?;
    if star {
        Ok((found, scope))
    } else {
        Ok((found, columns))
    }
}
