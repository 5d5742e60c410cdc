//! The least of rows by the columns that sort them, without a sort of all of them.
ghost use Rattle.std.specs.Prelude.{◌≡◌, ◌≤◌, ◌-◌, ◌++◌, ◌∷◌, [], ℕ, List, map, length, slice_get, option_map, IfOk, OnOk};
ghost use Rattle.pg_meaning.specs.Value.{Value as Datum};
ghost use Rattle.pg_value_core.specs.View.{view};
ghost use Rattle.pg_rows.specs.LeastKeys.{bound_view, is_behind, least_of, HoldsLeast};
ghost use Rattle.pg_rows.specs.Sorts.{directions_of, entries_view, least_places, numbered, picked};
ghost use Rattle.pg_rows.specs.Tables.{table, EachBelow};
ghost use Rattle.pg_rows.specs.declared.sort_by.SortBy.{SortBy};

use crate::sort_by::SortBy;
use crate::sorts::{order_rows, places_of, sort, sort_entries};
use crate::table::Rows;
use pg_value_core::Value;
use std::alloc::{AllocError, Global};

/// The least rows so far, in their order, with others behind them that came since; and the row behind which none
/// is wanted.
#[derive(Drop)]
pub(crate) struct LeastSoFar<'a> {
    pub(crate) entries: Vec<(&'a [Value], usize)>,
    pub(crate) bound: Option<&'a [Value]>,
}

/// How many rows are held before they are sorted and the rest of them is dropped.
fn room(most: usize) -> usize
    ensures { most ≤ result }
{
    most.saturating_mul(2).saturating_add(64)
}

fn is_behind(sorts: &[SortBy], row: &[Value], bound: Option<&[Value]>) -> bool
    ensures { result
        ≡ is_behind (directions_of sorts.now)
        (picked sorts.now (map view row.now)) (bound_view sorts.now bound.entry) }
{
    match bound {
        Some(bound) => !order_rows(sorts, row, bound).is_lt(),
        None => false,
    }
}

/// Sorts the entries and keeps the first of them.
fn cut(
    sorts: &[SortBy],
    most: usize,
    entries: &mut Vec<(&[Value], usize)>,
) -> Result<(), AllocError>
    ensures least { OnOk result (entries_view sorts.now entries.new.items
        ≡ least_of most (directions_of sorts.now) (entries_view sorts.now entries.old.items)) }
    ensures len { OnOk result (most ≤ length entries.old.items → length entries.new.items ≡ most) }
{
    sort_entries(sorts, entries)?;
    entries.truncate(most);
    Ok(())
}

fn last_row<'a>(entries: &Vec<(&'a [Value], usize)>) -> Option<&'a [Value]>
    ensures { (sorts : List SortBy) → bound_view sorts result
        ≡ option_map
        (λ k. k.0)
        (slice_get (entries_view sorts entries.now.items) (length entries.now.items - 1)) }
{
    match entries.last() {
        Some(entry) => Some(entry.0),
        None => None,
    }
}

impl<'a> LeastSoFar<'a> {
    fn new(alloc: Global, most: usize) -> Result<LeastSoFar<'a>, AllocError>
        ensures { (sorts : List SortBy) → IfOk result (λ l. HoldsLeast most sorts l []) }
    {
        Ok(LeastSoFar {
            entries: Vec::with_capacity(alloc, room(most))?,
            bound: None,
        })
    }

    /// Takes in a row, unless as many as are wanted stand before it.
    fn take(
        &mut self,
        sorts: &[SortBy],
        most: usize,
        row: &'a [Value],
        place: usize,
    ) -> Result<(), AllocError>
        ensures { (keyed : List (List Datum × ℕ)) → HoldsLeast most sorts.now self.old keyed
            → OnOk result (HoldsLeast most sorts.now self.new
            (keyed ++ (picked sorts.now (map view row.now), place) ∷ [])) }
    {
        if is_behind(sorts, row, self.bound) {
            return Ok(());
        }
        self.make_room(sorts, most)?;
        self.entries.push((row, place))?;
        Ok(())
    }

    /// Where many rows are held, keeps the least of them alone.
    fn make_room(&mut self, sorts: &[SortBy], most: usize) -> Result<(), AllocError>
        ensures { (keyed : List (List Datum × ℕ)) → HoldsLeast most sorts.now self.old keyed
            → OnOk result (HoldsLeast most sorts.now self.new keyed) }
    {
        if self.entries.len() < room(most) {
            return Ok(());
        }
        cut(sorts, most, &mut self.entries)?;
        self.bound = last_row(&self.entries);
        Ok(())
    }
}

/// The least of the rows with their places, at most so many.
fn least_entries<'a>(
    rows: &'a Rows,
    sorts: &[SortBy],
    most: usize,
    alloc: Global,
) -> Result<Vec<(&'a [Value], usize)>, AllocError>
    ensures { IfOk result (λ es. entries_view sorts.now es.items
        ≡ least_of most (directions_of sorts.now)
        (numbered 0 (map (picked sorts.now) (table rows.now)))) }
{
    let mut least = LeastSoFar::new(alloc, most)?;
    for at in 0..rows.len() {
        least.take(sorts, most, rows.row(at), at)?;
    }
    let mut entries = least.entries;
    cut(sorts, most, &mut entries)?;
    Ok(entries)
}

/// The places of the first of the rows, at most so many, as `sort` gives them: where they are few, in the time of
/// one comparison for most of the rows and in memory for twice as many as are wanted.
pub fn least(
    rows: &Rows,
    sorts: &[SortBy],
    most: usize,
    alloc: Global,
) -> Result<Vec<usize>, AllocError>
    ensures places { IfOk result (λ places. places.items
        ≡ least_places most (directions_of sorts.now) (map (picked sorts.now) (table rows.now))) }
    ensures below { IfOk result (λ places. EachBelow (length (table rows.now)) places.items) }
{
    if most > rows.len() / 8 {
        let mut places = sort(rows, sorts, alloc)?;
        places.truncate(most);
        return Ok(places);
    }
    let entries = least_entries(rows, sorts, most, alloc)?;
    places_of(&entries, alloc)
}
