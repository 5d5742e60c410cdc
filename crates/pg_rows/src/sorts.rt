//! Rows sorted by the values in some of their columns.
ghost use Rattle.std.specs.Prelude.{◌≡◌, List, map, length, slice_index_or, IfOk, OnOk};
ghost use Rattle.pg_meaning.specs.Order.{value_order};
ghost use Rattle.pg_meaning.specs.Projections.{directed};
ghost use Rattle.pg_meaning.specs.Value.{null};
ghost use Rattle.pg_value_core.specs.View.{view};
ghost use Rattle.pg_rows.specs.Sorts.{directions_of, entries_view, key_order, keyed_below, numbered, picked, sorted_by, sorted_places};
ghost use Rattle.pg_rows.specs.Tables.{table, EachBelow};
ghost use Rattle.pg_rows.specs.declared.sort_by.SortBy.{SortBy};

use crate::sort_by::SortBy;
use crate::table::Rows;
use pg_value_core::{Value, order};
use std::alloc::{AllocError, Global};
use std::cmp::Ordering;

/// How two rows stand by a column. A value that a row lacks counts as null.
fn order_in(column: usize, a: &[Value], b: &[Value]) -> Ordering
    ensures { result
        ≡ value_order (slice_index_or (map view a.now) column null)
        (slice_index_or (map view b.now) column null) }
{
    match (a.get(column), b.get(column)) {
        (Some(x), Some(y)) => order(x, y),
        (Some(x), None) => order(x, &Value::Null),
        (None, Some(y)) => order(&Value::Null, y),
        (None, None) => Ordering::Equal,
    }
}

/// Sort by sort, each in its direction.
pub(crate) fn order_rows(sorts: &[SortBy], a: &[Value], b: &[Value]) -> Ordering
    ensures { result
        ≡ key_order (directions_of sorts.now)
        (picked sorts.now (map view a.now)) (picked sorts.now (map view b.now)) }
{
    for sort in sorts {
        let found = order_in(sort.column, a, b);
        if found != Ordering::Equal {
            return directed(sort.descends, found);
        }
    }
    Ordering::Equal
}

fn directed(descends: bool, found: Ordering) -> Ordering
    ensures { result ≡ directed descends found }
{
    if descends { found.reverse() } else { found }
}

/// The rows with their places.
fn entries_of(rows: &Rows, alloc: Global) -> Result<Vec<(&[Value], usize)>, AllocError>
    ensures { (sorts : List SortBy) → IfOk result
        (λ es. entries_view sorts es.items ≡ numbered 0 (map (picked sorts) (table rows.now))) }
{
    let mut entries: Vec<(&[Value], usize)> = Vec::with_capacity(alloc, rows.len())?;
    for at in 0..rows.len() {
        entries.push((rows.row(at), at))?;
    }
    Ok(entries)
}

/// Sorts rows that stand beside their places; those that tie stay in their order.
pub(crate) fn sort_entries(
    sorts: &[SortBy],
    entries: &mut Vec<(&[Value], usize)>,
) -> Result<(), AllocError>
    ensures sorted { OnOk result (entries_view sorts.now entries.new.items
        ≡ sorted_by (keyed_below (directions_of sorts.now))
        (entries_view sorts.now entries.old.items)) }
    ensures len { length entries.new.items ≡ length entries.old.items }
{
    entries.sort_by(|a, b| order_rows(sorts, a.0, b.0))
}

/// The places beside the rows.
pub(crate) fn places_of(
    entries: &Vec<(&[Value], usize)>,
    alloc: Global,
) -> Result<Vec<usize>, AllocError>
    ensures { IfOk result (λ places. places.items ≡ map (λ e. e.1) entries.now.items) }
{
    let mut places = Vec::with_capacity(alloc, entries.len())?;
    for entry in entries {
        places.push(entry.1)?;
    }
    Ok(places)
}

/// The places of the rows, sorted by the columns that are named; rows that tie stay in their order.
pub fn sort(rows: &Rows, sorts: &[SortBy], alloc: Global) -> Result<Vec<usize>, AllocError>
    ensures places { IfOk result (λ places. places.items
        ≡ sorted_places (directions_of sorts.now) (map (picked sorts.now) (table rows.now))) }
    ensures below { IfOk result (λ places. EachBelow (length (table rows.now)) places.items) }
{
    let mut entries = entries_of(rows, alloc)?;
    sort_entries(sorts, &mut entries)?;
    places_of(&entries, alloc)
}
