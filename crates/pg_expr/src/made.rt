//! What an expression makes, within the limits of weight and depth.
ghost use Rattle.std.specs.Prelude.{◌≡◌, IfOk, IfErr, Ok, Err, string_bytes};
ghost use Rattle.pg_expr.specs.After.{After};
ghost use Rattle.pg_expr.specs.Contexts.{found_view, founds_view};
ghost use Rattle.pg_meaning.specs.Entries.{with_entry};
ghost use Rattle.pg_meaning.specs.Measure.{made, is_within_limits};
ghost use Rattle.pg_meaning.specs.Value.{list};
ghost use Rattle.pg_value_core.specs.View.{values_view, entries_view};

use crate::value_ref::ValueRef;
use pg_expr_calls::is_within_limits;
use pg_meaning::Fault;
use pg_syntax_tree::Name;
use pg_value::{depth, weight};
use pg_value_core::Value;
use std::alloc::{AllocError, Global};
use std::collections::BTreeMap;

const GREATEST_WEIGHT: u64 = 1_048_576;

const GREATEST_DEPTH: u64 = 64;

/// A value that an expression makes, where it is within the limits.
pub(crate) fn made<'a>(found: ValueRef<'a>) -> Result<ValueRef<'a>, Fault>
    ensures ok { IfOk result (λ f. made (found_view found.entry) ≡ Ok (found_view f)) }
    ensures err { IfErr result (λ e. made (found_view found.entry) ≡ Err e) }
{
    if is_within_limits(found.look()) {
        Ok(found)
    } else {
        Err(Fault::ValueTooLarge)
    }
}

/// A list of what was found, which is copied only where the list is within the limits, or the fault in its place.
#[inline(never)]
pub(crate) fn list_of<'a>(
    alloc: Global,
    found: Result<Vec<ValueRef<'a>>, Fault>,
) -> Result<ValueRef<'a>, Fault>
    ensures { After found.entry result (λ fs. made (list (founds_view fs.items))) found_view }
{
    let found = found?;
    if !are_within_limits(&found) {
        return Err(Fault::ValueTooLarge);
    }
    let items = take_all(alloc, found)?;
    Ok(ValueRef::Made(Value::list(items)?))
}

fn are_within_limits(found: &Vec<ValueRef<'_>>) -> bool
    ensures { result ≡ is_within_limits (list (founds_view found.now.items)) }
{
    let mut total = 0u64;
    let mut most = 0u64;
    for item in found {
        total = total.saturating_add(weight(item.look()));
        most = most.max(depth(item.look()));
    }
    total < GREATEST_WEIGHT && most < GREATEST_DEPTH
}

fn take_all(alloc: Global, found: Vec<ValueRef<'_>>) -> Result<Vec<Value>, AllocError>
    ensures { IfOk result (λ vs. values_view vs.items ≡ founds_view found.entry.items) }
{
    let mut values = Vec::with_capacity(alloc, found.len())?;
    for item in found {
        values.push(item.take(alloc)?)?;
    }
    Ok(values)
}

/// The entries with one more; of a key twice the later value stays.
#[inline(never)]
pub(crate) fn put(
    alloc: Global,
    entries: BTreeMap<String, Value>,
    key: &Name,
    found: ValueRef<'_>,
) -> Result<BTreeMap<String, Value>, AllocError>
    ensures { IfOk result (λ m. entries_view m.entries
        ≡ with_entry (string_bytes key.now.text) (found_view found.entry)
        (entries_view entries.entries)) }
{
    let mut entries = entries;
    let value = found.take(alloc)?;
    let name = String::from_str(alloc, key.text.as_str())?;
    drop(entries.insert(name, value)?);
    Ok(entries)
}
