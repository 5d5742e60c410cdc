//! Values that are stored, spelt out: they hold no element.
ghost use Rattle.std.specs.Prelude.{◌≡◌, IfOk};
ghost use Rattle.pg_graph.specs.InOrder.{listed_entries};
ghost use Rattle.pg_json.specs.Replies.{data_of, outs, named_outs};
ghost use Rattle.pg_run.specs.Printed.{stored_data, stored_items, stored_members};
ghost use Rattle.pg_value_core.specs.View.{view, values_view, entries_view};
ghost use Rattle.serde_json.specs.Data.{string};

use pg_value_core::{Out, Value};
use std::alloc::{AllocError, Global};
use std::collections::BTreeMap;

#[cycle(stored)]
fn spell_stored(alloc: Global, value: &Value) -> Result<Out, AllocError>
    ensures { IfOk result (λ out. data_of out ≡ stored_data (view value.now)) }
{
    match value {
        Value::Bool(b) => Ok(Out::Bool(*b)),
        Value::Int(i) => Ok(Out::Int(*i)),
        Value::Text(text) => spell_stored_text(alloc, text.as_ref().as_str()),
        Value::ShortText(text) => spell_stored_text(alloc, text.as_str()),
        Value::List(items) => Ok(Out::List(spell_stored_items(alloc, items.as_ref())?)),
        Value::Map(entries) => Ok(Out::Map(spell_stored_entries(alloc, entries.as_ref())?)),
        Value::Null | Value::Node(_) | Value::Rel(_) | Value::Path(_) => Ok(Out::Null),
    }
}

fn spell_stored_text(alloc: Global, text: &str) -> Result<Out, AllocError>
    ensures { IfOk result (λ out. data_of out ≡ string text.now) }
{
    Ok(Out::Text(String::from_str(alloc, text)?))
}

#[cycle(stored)]
fn spell_stored_items(alloc: Global, items: &[Value]) -> Result<Vec<Out>, AllocError>
    ensures { IfOk result (λ found. outs found.items ≡ stored_items (values_view items.now)) }
{
    let mut found = Vec::with_capacity(alloc, items.len())?;
    for item in items {
        found.push(spell_stored(alloc, item)?)?;
    }
    Ok(found)
}

#[cycle(stored)]
fn spell_stored_entries(
    alloc: Global,
    entries: &BTreeMap<String, Value>,
) -> Result<Vec<(String, Out)>, AllocError>
    ensures { IfOk result (λ found. named_outs found.items
        ≡ stored_members (entries_view entries.now.entries)) }
{
    let mut found = Vec::with_capacity(alloc, entries.len())?;
    for (key, value) in entries.iter() {
        let name = String::from_str(alloc, key.as_str())?;
        found.push((name, spell_stored(alloc, value)?))?;
    }
    Ok(found)
}

/// The properties of an element.
pub(crate) fn spell_properties(
    alloc: Global,
    properties: &[(&str, &Value)],
) -> Result<Vec<(String, Out)>, AllocError>
    ensures { IfOk result
        (λ found. named_outs found.items ≡ stored_members (listed_entries properties.now)) }
{
    let mut found = Vec::with_capacity(alloc, properties.len())?;
    for (key, value) in properties {
        let name = String::from_str(alloc, key)?;
        found.push((name, spell_stored(alloc, value)?))?;
    }
    Ok(found)
}
