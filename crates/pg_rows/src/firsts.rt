//! Which rows are the first of equivalent ones.
ghost use Rattle.std.specs.Prelude.{◌≡◌, [], length, map, IfOk};
ghost use Rattle.pg_value_core.specs.View.{view};
ghost use Rattle.pg_rows.specs.Tables.{table, first_places, EachBelow};

use crate::table::Rows;
use indexmap::IndexSet;
use pg_value_core::Value;
use std::alloc::{AllocError, Global};
use std::hash::RandomState;

/// The places of rows, of equivalent ones the first alone. Rows are found by the hashers of `hasher`, whose keys no stranger may know.
pub fn distinct(rows: &Rows, alloc: Global, hasher: RandomState) -> Result<Vec<usize>, AllocError>
    ensures places { IfOk result (λ places. places.items ≡ first_places [] 0 (table rows.now)) }
    ensures below { IfOk result (λ places. EachBelow (length (table rows.now)) places.items) }
{
    let mut seen = IndexSet::with_hasher(alloc, hasher);
    unseen(rows, &mut seen, alloc)
}

// The places of rows that were not seen, of equivalent ones the first alone.
fn unseen<'a>(
    rows: &'a Rows,
    seen: &mut IndexSet<&'a [Value], RandomState>,
    alloc: Global,
) -> Result<Vec<usize>, AllocError>
    ensures { IfOk result (λ places. places.items
        ≡ first_places (map (λ r. map view r.now) seen.old.keys) 0 (table rows.now)) }
{
    let mut places = Vec::new(alloc);
    for at in 0..rows.len() {
        let is_new = seen.insert(rows.row(at))?;
        if is_new {
            places.push(at)?;
        }
    }
    Ok(places)
}
