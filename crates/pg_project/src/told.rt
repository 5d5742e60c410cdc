//! The rows of groups.
ghost use Rattle.std.specs.Prelude.{◌≡◌, [], IfOk, OnOk, drop, length, map, option_map, option_to_list};
ghost use Rattle.std.specs.Vec.Iter.{into_iter_items};
ghost use Rattle.pg_meaning.specs.Projections.{first_or_null};
ghost use Rattle.pg_project.specs.Kept.{merged, told_each};
ghost use Rattle.pg_project.specs.KeptGroups.{aggregates_among, groups_view};
ghost use Rattle.pg_project.specs.Views.{takens_view, taken_view};
ghost use Rattle.pg_rows.specs.Tables.{table};
ghost use Rattle.pg_value_core.specs.View.{view};

use crate::groups::Groups;
use crate::taken::Taken;
use pg_rows::Rows;
use pg_value_core::Value;
use std::alloc::{AllocError, Global};
use std::vec::IntoIter;

/// For each group a row with the values of its items.
pub(crate) fn told_rows(
    alloc: Global,
    are_aggregates: &Vec<bool>,
    groups: Groups,
) -> Result<Rows, AllocError>
    ensures rows { IfOk result (λ found. table found ≡ map
        (λ g. merged are_aggregates.now.items g.key (told_each g.taken))
        (groups_view (aggregates_among are_aggregates.now.items) groups)) }
    ensures width { IfOk result (λ found. found.width ≡ length are_aggregates.now.items) }
{
    let mut found = Rows::new(alloc, are_aggregates.len());
    let mut row = Vec::new(alloc);
    let mut left = groups.taken.into_iter();
    for key in groups.keys {
        tell_row(are_aggregates, key, &mut left, &mut row)?;
        found.push_from(&mut row)?;
    }
    Ok(found)
}

/// The values of the items that group and what the next aggregates tell, in the order of the items, in a list whose
/// memory serves from group to group.
fn tell_row(
    are_aggregates: &Vec<bool>,
    key: Vec<Value>,
    left: &mut IntoIter<Taken>,
    row: &mut Vec<Value>,
) -> Result<(), AllocError>
    requires { row.old.items ≡ [] }
    ensures values { OnOk result (map view row.new.items ≡ merged are_aggregates.now.items
        (map view key.items) (told_each (takens_view (into_iter_items left.old)))) }
    ensures left { OnOk result (into_iter_items left.new
        ≡ drop (aggregates_among are_aggregates.now.items) (into_iter_items left.old)) }
    ensures len { OnOk result (length row.new.items ≡ length are_aggregates.now.items) }
{
    let mut keys = key.into_iter();
    for is_aggregate in are_aggregates {
        let value = if *is_aggregate {
            told_or_null(left.next())?
        } else {
            or_null(keys.next())
        };
        row.push(value)?;
    }
    Ok(())
}

fn told_or_null(taken: Option<Taken>) -> Result<Value, AllocError>
    ensures { IfOk result (λ v. view v
        ≡ first_or_null (told_each (option_to_list (option_map taken_view taken)))) }
{
    match taken {
        Some(taken) => taken.held.tell(),
        None => Ok(Value::Null),
    }
}

fn or_null(value: Option<Value>) -> Value
    ensures { view result ≡ first_or_null (option_to_list (option_map view value)) }
{
    match value {
        Some(value) => value,
        None => Value::Null,
    }
}
