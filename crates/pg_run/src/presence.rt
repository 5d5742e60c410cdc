//! The test of a query's output: no deleted element anywhere in a value. Nothing is copied.
ghost use Rattle.std.specs.Prelude.{◌≡◌, Ok, Err, OnOk, IfErr};
ghost use Rattle.pg_meaning.specs.Queries.{test_entries, test_ids, test_items, test_output, test_present};
ghost use Rattle.pg_run.specs.Places.{test_place};
ghost use Rattle.pg_value_core.specs.View.{entries_view, values_view, view};

use pg_graph::Tables;
use pg_meaning::Fault;
use pg_store::GraphView;
use pg_value_core::{NodeId, RelId, Value};
use std::collections::BTreeMap;

/// `DeletedEntity` where an element in the value is not in the store's graph.
#[cycle(presence)]
fn test_value<T: Tables>(graph: &GraphView<'_, T>, value: &Value) -> Result<(), Fault>
    ensures ok { OnOk result (test_output graph.now (view value.now) ≡ Ok tt) }
    ensures err { IfErr result (λ e. test_output graph.now (view value.now) ≡ Err e) }
{
    match value {
        Value::Null | Value::Bool(_) | Value::Int(_) => Ok(()),
        Value::Text(_) | Value::ShortText(_) => Ok(()),
        Value::List(items) => test_each(graph, items.as_ref()),
        Value::Map(entries) => test_each_entry(graph, entries.as_ref()),
        Value::Node(id) => test_element(graph, true, id.0),
        Value::Rel(id) => test_element(graph, false, id.0),
        Value::Path(path) => test_path(graph, &path.0),
    }
}

#[cycle(presence)]
pub(crate) fn test_each<T: Tables>(
    graph: &GraphView<'_, T>,
    items: &Vec<Value>,
) -> Result<(), Fault>
    ensures ok { OnOk result (test_items graph.now (values_view items.now.items) ≡ Ok tt) }
    ensures err { IfErr result
        (λ e. test_items graph.now (values_view items.now.items) ≡ Err e) }
{
    for item in items {
        test_value(graph, item)?;
    }
    Ok(())
}

#[cycle(presence)]
pub(crate) fn test_each_entry<T: Tables>(
    graph: &GraphView<'_, T>,
    entries: &BTreeMap<String, Value>,
) -> Result<(), Fault>
    ensures ok { OnOk result (test_entries graph.now (entries_view entries.now.entries) ≡ Ok tt) }
    ensures err { IfErr result
        (λ e. test_entries graph.now (entries_view entries.now.entries) ≡ Err e) }
{
    for (_, value) in entries.iter() {
        test_value(graph, value)?;
    }
    Ok(())
}

/// Nodes and relationships take turns.
pub(crate) fn test_path<T: Tables>(graph: &GraphView<'_, T>, ids: &Vec<u64>) -> Result<(), Fault>
    ensures ok { OnOk result (test_ids graph.now ids.now.items ≡ Ok tt) }
    ensures err { IfErr result (λ e. test_ids graph.now ids.now.items ≡ Err e) }
{
    let mut is_node = true;
    for id in ids {
        test_element(graph, is_node, *id)?;
        is_node = !is_node;
    }
    Ok(())
}

/// A node, or else a relationship.
fn test_element<T: Tables>(graph: &GraphView<'_, T>, is_node: bool, id: u64) -> Result<(), Fault>
    ensures ok { OnOk result (test_place graph.now is_node id ≡ Ok tt) }
    ensures err { IfErr result (λ e. test_place graph.now is_node id ≡ Err e) }
{
    let is_there = if is_node {
        graph.has_node(NodeId(id))
    } else {
        graph.has_rel(RelId(id))
    };
    if is_there {
        Ok(())
    } else {
        Err(Fault::DeletedEntity)
    }
}
