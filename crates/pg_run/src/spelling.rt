//! Values over a store, spelt out as long as there is room for them.
ghost use Rattle.serde_json.specs.Data.{array, object};
ghost use Rattle.pg_meaning.specs.Queries.{test_entries, test_items};
ghost use Rattle.pg_run.specs.Printed.{printed_items, printed_members};
ghost use Rattle.pg_run.specs.Spelt.{DataSpelt, ValueSpelt, ListSpelt, MapSpelt};
ghost use Rattle.pg_value_core.specs.View.{view, values_view, entries_view};

use crate::elements::{spell_element, spell_path};
use crate::presence::{test_each, test_each_entry};
use crate::room::{spell_text, within};
use pg_graph::Tables;
use pg_meaning::Fault;
use pg_store::GraphView;
use pg_value_core::{Out, Value};
use std::alloc::Global;
use std::collections::BTreeMap;

/// The value with its elements spelt out, while there is room for its text: where none is left, anything, and nothing
/// is copied. `DeletedEntity` where an element is not in the store's graph, whatever room there is.
#[cycle(spell)]
pub(crate) fn spell<T: Tables>(
    alloc: Global,
    graph: &GraphView<'_, T>,
    value: &Value,
    room: &mut usize,
) -> Result<Out, Fault>
    ensures { ValueSpelt graph.now (view value.now) result room.old room.new }
{
    match value {
        Value::Null => Ok(within(Out::Null, room)),
        Value::Bool(b) => Ok(within(Out::Bool(*b), room)),
        Value::Int(i) => Ok(within(Out::Int(*i), room)),
        Value::Text(text) => spell_text(alloc, text.as_ref().as_str(), room),
        Value::ShortText(text) => spell_text(alloc, text.as_str(), room),
        Value::List(items) => spell_list(alloc, graph, items.as_ref(), room),
        Value::Map(entries) => spell_map(alloc, graph, entries.as_ref(), room),
        Value::Node(id) => spell_element(alloc, graph, true, id.0, room),
        Value::Rel(id) => spell_element(alloc, graph, false, id.0, room),
        Value::Path(path) => spell_path(alloc, graph, path, room),
    }
}

#[inline(never)]
#[cycle(spell)]
fn spell_list<T: Tables>(
    alloc: Global,
    graph: &GraphView<'_, T>,
    items: &Vec<Value>,
    room: &mut usize,
) -> Result<Out, Fault>
    ensures { DataSpelt (test_items graph.now (values_view items.now.items))
        (array (printed_items graph.now (values_view items.now.items))) result room.old room.new }
{
    if *room == 0 {
        test_each(graph, items)?;
        return Ok(Out::Null);
    }
    *room = room.saturating_sub(1);
    Ok(Out::List(spell_items(alloc, graph, items, room)?))
}

#[inline(never)]
#[cycle(spell)]
fn spell_map<T: Tables>(
    alloc: Global,
    graph: &GraphView<'_, T>,
    entries: &BTreeMap<String, Value>,
    room: &mut usize,
) -> Result<Out, Fault>
    ensures { DataSpelt (test_entries graph.now (entries_view entries.now.entries)) (object
        (printed_members graph.now (entries_view entries.now.entries))) result room.old room.new }
{
    if *room == 0 {
        test_each_entry(graph, entries)?;
        return Ok(Out::Null);
    }
    *room = room.saturating_sub(1);
    Ok(Out::Map(spell_entries(alloc, graph, entries, room)?))
}

#[cycle(spell)]
fn spell_items<T: Tables>(
    alloc: Global,
    graph: &GraphView<'_, T>,
    items: &Vec<Value>,
    room: &mut usize,
) -> Result<Vec<Out>, Fault>
    ensures { ListSpelt graph.now (values_view items.now.items) result room.old room.new }
{
    let mut found = Vec::with_capacity(alloc, items.len())?;
    for item in items {
        *room = room.saturating_sub(1);
        found.push(spell(alloc, graph, item, room)?)?;
    }
    Ok(found)
}

#[cycle(spell)]
fn spell_entries<T: Tables>(
    alloc: Global,
    graph: &GraphView<'_, T>,
    entries: &BTreeMap<String, Value>,
    room: &mut usize,
) -> Result<Vec<(String, Out)>, Fault>
    ensures { MapSpelt graph.now (entries_view entries.now.entries) result room.old room.new }
{
    let mut found = Vec::with_capacity(alloc, entries.len())?;
    for (key, value) in entries.iter() {
        *room = room.saturating_sub(4).saturating_sub(key.len());
        let out = spell(alloc, graph, value, room)?;
        let name = String::from_str(alloc, key.as_str())?;
        found.push((name, out))?;
    }
    Ok(found)
}
