//! Rows that have the same key as the row before them, told by the columns that the key reads.
ghost use Rattle.std.specs.Prelude.{◌≡◌, Some, true, map, option_map, IfOk, IfSome};
ghost use Rattle.pg_project.specs.Alike.{AreAlike, HaveAlike, ReadEach};
ghost use Rattle.pg_project.specs.AlikeRows.{AlikeUntil};
ghost use Rattle.pg_project.specs.ReadyItems.{keys_of};
ghost use Rattle.pg_rows.specs.Tables.{table};
ghost use Rattle.pg_value_core.specs.View.{view};

use pg_expr::{Prepared, read_column};
use pg_rows::{Columns, Rows};
use pg_value_core::Value;
use std::alloc::{AllocError, Global};

/// Of so many keys the columns are found before any row; more are evaluated at each row.
const MOST: usize = 8;

/// The column that each key reads, if they are few and none reads more of a row.
pub(crate) fn key_columns(
    alloc: Global,
    keys: &Vec<Prepared<'_>>,
    names: &Columns,
) -> Result<Option<Vec<usize>>, AllocError>
    ensures { IfOk result (λ found. IfSome found
        (λ columns. ReadEach names.now (keys_of names.now keys.now.items) columns.items)) }
{
    // `WITH *, count(*)` has as many keys as there are columns, in each clause
    if keys.len() > MOST {
        return Ok(None);
    }
    let mut columns = Vec::new(alloc);
    for key in keys {
        let Some(column) = read_column(key, names) else {
            return Ok(None);
        };
        columns.push(column)?;
    }
    Ok(Some(columns))
}

/// The number of the group that took the row before, if the row surely has the key of that one.
pub(crate) fn group_again(
    columns: &Option<Vec<usize>>,
    row: &[Value],
    before: &[Value],
    latest: Option<usize>,
) -> Option<usize>
    ensures latest { IfSome result (λ number. latest ≡ Some number) }
    ensures alike { IfSome result (λ number.
        HaveAlike columns.now (map view row.now) (map view before.now)) }
{
    let number = latest?;
    match columns {
        Some(columns) if are_alike(columns.as_slice(), row, before) => Some(number),
        _ => None,
    }
}

/// The place of the first row from one on that isn't surely alike in these columns to a row before.
#[inline(never)]
pub(crate) fn alike_until(columns: &[usize], rows: &Rows, from: usize, before: &[Value]) -> usize
    ensures { AlikeUntil columns.now (table rows.now) from result (map view before.now) }
{
    let mut at = from;
    while at < rows.len() {
        if !are_alike(columns, rows.row(at), before) {
            return at;
        }
        at += 1;
    }
    at
}

/// Whether both rows have the same element in each of these columns.
fn are_alike(columns: &[usize], row: &[Value], before: &[Value]) -> bool
    ensures { result ≡ true → AreAlike columns.now (map view row.now) (map view before.now) }
{
    for column in columns {
        if !is_alike(row.get(*column), before.get(*column)) {
            return false;
        }
    }
    true
}

fn is_alike(value: Option<&Value>, before: Option<&Value>) -> bool
    ensures { result ≡ true → option_map (λ v. view v.now) value.entry
        ≡ option_map (λ v. view v.now) before.entry }
{
    match (value, before) {
        (Some(Value::Node(id)), Some(Value::Node(other))) => id.0 == other.0,
        (Some(Value::Rel(id)), Some(Value::Rel(other))) => id.0 == other.0,
        _ => false,
    }
}
