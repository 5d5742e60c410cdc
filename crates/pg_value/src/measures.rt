//! How large values are. Both measures stop at `u64::MAX`.

ghost use Rattle.std.specs.Prelude.{◌≡◌, ◌^◌, ◌-◌, min};
ghost use Rattle.pg_meaning.specs.Measure.{weight_of, items_weight, entries_weight, depth_of, items_depth, entries_depth};
ghost use Rattle.pg_value_core.specs.View.{view, values_view, entries_view};

use pg_value_core::Value;
use std::collections::BTreeMap;

/// One for each value, each byte of a text or a key, and each element of a path.
#[cycle(weight)]
pub fn weight(value: &Value) -> u64
    ensures { result ≡ min (weight_of (view value.now)) (2 ^ 64 - 1) }
{
    match value {
        Value::Text(text) => 1u64.saturating_add(text.as_ref().len() as u64),
        Value::ShortText(text) => 1u64.saturating_add(text.len() as u64),
        Value::List(items) => 1u64.saturating_add(weight_items(items.as_ref())),
        Value::Map(entries) => 1u64.saturating_add(weight_entries(entries.as_ref())),
        Value::Path(path) => 1u64.saturating_add(path.0.len() as u64),
        _ => 1,
    }
}

#[cycle(weight)]
fn weight_items(items: &Vec<Value>) -> u64
    ensures { result ≡ min (items_weight (values_view items.now.items)) (2 ^ 64 - 1) }
{
    let mut total = 0u64;
    for item in items {
        total = total.saturating_add(weight(item));
    }
    total
}

#[cycle(weight)]
#[inline(never)]
fn weight_entries(entries: &BTreeMap<String, Value>) -> u64
    ensures { result ≡ min (entries_weight (entries_view entries.now.entries)) (2 ^ 64 - 1) }
{
    let mut total = 0u64;
    for (key, value) in entries.iter() {
        total = total
            .saturating_add(key.len() as u64)
            .saturating_add(weight(value));
    }
    total
}

/// How deep lists and maps nest, where a value alone counts as one.
#[cycle(depth)]
pub fn depth(value: &Value) -> u64
    ensures { result ≡ min (depth_of (view value.now)) (2 ^ 64 - 1) }
{
    match value {
        Value::List(items) => 1u64.saturating_add(depth_items(items.as_ref())),
        Value::Map(entries) => 1u64.saturating_add(depth_entries(entries.as_ref())),
        _ => 1,
    }
}

#[cycle(depth)]
fn depth_items(items: &Vec<Value>) -> u64
    ensures { result ≡ min (items_depth (values_view items.now.items)) (2 ^ 64 - 1) }
{
    let mut most = 0u64;
    for item in items {
        most = most.max(depth(item));
    }
    most
}

#[cycle(depth)]
#[inline(never)]
fn depth_entries(entries: &BTreeMap<String, Value>) -> u64
    ensures { result ≡ min (entries_depth (entries_view entries.now.entries)) (2 ^ 64 - 1) }
{
    let mut most = 0u64;
    for (_key, value) in entries.iter() {
        most = most.max(depth(value));
    }
    most
}
