//! The columns by which rows are sorted: their own, or those of keys beside them.
ghost use Rattle.std.specs.Prelude.{◌≡◌, List, length, IfOk, IfSome};
ghost use Rattle.pg_meaning.specs.Value.{Value as Datum};
ghost use Rattle.pg_project.specs.Sources.{ReadColumns, ReadsAt, key_view, source_directions};
ghost use Rattle.pg_rows.specs.Sorts.{directions_of, picked};

use crate::sorting::{SortKey, SortSource};
use pg_expr::lone_column;
use pg_rows::{Columns, SortBy};
use std::alloc::{AllocError, Global};

/// The sorts by columns of rows of this width, where each goes by such a column.
pub(crate) fn row_sorts(
    alloc: Global,
    sources: &Vec<SortSource<'_>>,
    names: &Columns,
    width: usize,
) -> Result<Option<Vec<SortBy>>, AllocError>
    ensures { IfOk result (λ found.
        IfSome found (λ sorts. ReadColumns names.now width sources.now.items sorts.items)) }
{
    let mut found = Vec::new(alloc);
    for source in sources {
        let Some(column) = column_of(&source.key, names, width) else {
            return Ok(None);
        };
        found.push(SortBy {
            column,
            descends: source.descends,
        })?;
    }
    Ok(Some(found))
}

/// The column of the rows that a sort goes by.
#[tactic(auto, using(crate::proofs::SortColumns::item_read, crate::proofs::SortColumns::variable_read))]
fn column_of(key: &SortKey<'_>, names: &Columns, width: usize) -> Option<usize>
    ensures { IfSome result (λ at. ReadsAt names.now width (key_view names.now key.now) at) }
{
    match key {
        SortKey::Item(at) => Some(*at),
        SortKey::Other(prepared) => match lone_column(prepared, names) {
            Some(at) if at < width => Some(at),
            _ => None,
        },
    }
}

/// The sorts by keys that stand side by side, one for each sort.
pub(crate) fn key_sorts(
    alloc: Global,
    sources: &Vec<SortSource<'_>>,
) -> Result<Vec<SortBy>, AllocError>
    ensures directions { IfOk result (λ sorts.
        directions_of sorts.items ≡ source_directions sources.now.items) }
    ensures keys { IfOk result (λ sorts. (keys : List Datum)
        → length keys ≡ length sources.now.items → picked sorts.items keys ≡ keys) }
{
    let mut found = Vec::new(alloc);
    for source in sources {
        let column = found.len();
        found.push(SortBy {
            column,
            descends: source.descends,
        })?;
    }
    Ok(found)
}
