//! Values moved from one list to another.
ghost use Rattle.std.specs.Prelude.{◌≡◌, ◌+◌, ◌≤◌, ◌++◌, ◌∷◌, [], length, map, take, drop, replicate, IfOk, OnErr, OnOk};
ghost use Rattle.pg_value_core.specs.View.{view};
ghost use Rattle.pg_value_core.specs.declared.value.Value.TheVariants.{Null};

use pg_value_core::{Value, push_item};
use std::alloc::{AllocError, Global};
use std::mem;

/// Moves the values behind `start` to the end of `moved`, and leaves nulls.
pub(crate) fn move_row(
    values: &mut Vec<Value>,
    start: usize,
    width: usize,
    moved: &mut Vec<Value>,
) -> Result<(), AllocError>
    requires { start + width ≤ length values.old.items }
    ensures moved { OnOk result
        (moved.new.items ≡ moved.old.items ++ take width (drop start values.old.items)) }
    ensures left { OnOk result (values.new.items ≡ take start values.old.items
        ++ (replicate width Null ++ drop (start + width) values.old.items)) }
    ensures len { length values.new.items ≡ length values.old.items }
{
    for offset in 0..width {
        let value = mem::replace(&mut values[start + offset], Value::Null);
        push_item(moved, value)?;
    }
    Ok(())
}

/// Copies a row to the end of the values; where memory is wanted, a part of it may stand there.
#[tactic(auto, using(crate::proofs::Copied::still_before))]
pub fn copy_row(alloc: Global, row: &[Value], values: &mut Vec<Value>) -> Result<(), AllocError>
    ensures copied { OnOk result
        (map view values.new.items ≡ map view values.old.items ++ map view row.now) }
    ensures before { take (length values.old.items) values.new.items ≡ values.old.items }
    ensures len { OnOk result (length values.new.items ≡ length values.old.items + length row.now) }
{
    for value in row {
        push_item(values, value.copy(alloc)?)?;
    }
    Ok(())
}

/// A row in memory of its own.
pub fn copy_of(alloc: Global, row: &[Value]) -> Result<Vec<Value>, AllocError>
    ensures values { IfOk result (λ copy. map view copy.items ≡ map view row.now) }
    ensures len { IfOk result (λ copy. length copy.items ≡ length row.now) }
{
    let mut copy = Vec::with_capacity(alloc, row.len())?;
    copy_row(alloc, row, &mut copy)?;
    Ok(copy)
}
