//! What is read of a value: a property, an item, labels.
ghost use Rattle.std.specs.Prelude.{◌≡◌, ◌≢◌, ◌==◌, IfOk, IfErr, IfSome, Ok, Err, false, map, option_map, string_bytes, unwrap_or, vec_len};
ghost use Rattle.pg_expr.specs.After.{After};
ghost use Rattle.pg_expr.specs.Reads.{given_item, given_property, labels_tested};
ghost use Rattle.pg_expr.specs.Contexts.{found_view};
ghost use Rattle.std.specs.List.{list_all};
ghost use Rattle.pg_meaning.specs.Names.{is_among};
ghost use Rattle.pg_meaning.specs.Entries.{value_at};
ghost use Rattle.pg_meaning.specs.Expressions.{property_of, indexed, item_of, labelled};
ghost use Rattle.pg_meaning.specs.Functions.{item_at};
ghost use Rattle.pg_meaning.specs.Value.{node, null, relationship};
ghost use Rattle.pg_meaning.specs.declared.fault.Fault.TheVariants.{OutOfMemory};
ghost use Rattle.pg_syntax_tree.specs.View.{names_view};
ghost use Rattle.pg_value_core.specs.View.{view, values_view, entries_view};

use crate::atoms::held_near;
use crate::row_context::RowContext;
use crate::value_ref::{ValueRef, lent_or_null, null};
use pg_graph::Tables;
use pg_meaning::Fault;
use pg_store::{GraphView, NodeView};
use pg_syntax_tree::Name;
use pg_value_core::{NodeId, Parts, RelId, Value};
use std::alloc::Global;
use std::collections::BTreeMap;
use std::rc::Rc;

fn node_property<'a, T: Tables>(
    graph: &GraphView<'a, T>,
    id: NodeId,
    key: &str,
) -> Result<ValueRef<'a>, Fault>
    ensures ok { IfOk result (λ f. property_of graph.now (node id.0) key.now ≡ Ok (found_view f)) }
    ensures err { IfErr result (λ e. property_of graph.now (node id.0) key.now ≡ Err e) }
{
    match graph.node(id) {
        Some(node) => Ok(lent_or_null(node.property(key))),
        None => Err(Fault::DeletedEntity),
    }
}

fn relationship_property<'a, T: Tables>(
    graph: &GraphView<'a, T>,
    id: RelId,
    key: &str,
) -> Result<ValueRef<'a>, Fault>
    ensures ok { IfOk result
        (λ f. property_of graph.now (relationship id.0) key.now ≡ Ok (found_view f)) }
    ensures err { IfErr result (λ e. property_of graph.now (relationship id.0) key.now ≡ Err e) }
{
    match graph.rel(id) {
        Some(relationship) => Ok(lent_or_null(relationship.property(key))),
        None => Err(Fault::DeletedEntity),
    }
}

/// What stands under a key, and null where nothing does.
fn entry<'a>(map: &'a Rc<BTreeMap<String, Value>>, key: &str) -> ValueRef<'a>
    ensures { found_view result ≡ value_at key.now (entries_view map.now.value.entries) }
{
    lent_or_null(entry_lent(map, key))
}

/// `v.key`.
#[inline(never)]
pub(crate) fn property<'a, T: Tables>(
    alloc: Global,
    graph: &GraphView<'a, T>,
    value: ValueRef<'a>,
    key: &str,
) -> Result<ValueRef<'a>, Fault>
    ensures ok { IfOk result
        (λ f. property_of graph.now (found_view value.entry) key.now ≡ Ok (found_view f)) }
    ensures err { IfErr result (λ e. e ≢ OutOfMemory
        → property_of graph.now (found_view value.entry) key.now ≡ Err e) }
{
    match value {
        ValueRef::Lent(value) => property_lent(graph, value, key),
        ValueRef::Made(value) => property_made(alloc, graph, value, key),
    }
}

/// The same of a value where it stands.
fn property_lent<'a, T: Tables>(
    graph: &GraphView<'a, T>,
    value: &'a Value,
    key: &str,
) -> Result<ValueRef<'a>, Fault>
    ensures ok { IfOk result
        (λ f. property_of graph.now (view value.now) key.now ≡ Ok (found_view f)) }
    ensures err { IfErr result (λ e. property_of graph.now (view value.now) key.now ≡ Err e) }
{
    match value {
        Value::Null => Ok(null()),
        Value::Map(entries) => Ok(entry(entries, key)),
        Value::Node(id) => node_property(graph, *id, key),
        Value::Rel(id) => relationship_property(graph, *id, key),
        _ => Err(Fault::TypeFault),
    }
}

/// What the node or the map in a column has under a key, if anything, where the column mostly stands at this place. Most reads are
/// of nodes.
#[inline(always)]
pub(crate) fn property_in_column<'a, T: Tables>(
    context: &RowContext<'a>,
    graph: &GraphView<'a, T>,
    name: &Name,
    key: &Name,
    near: usize,
) -> Option<Option<&'a Value>>
    ensures { IfSome result
        (λ held. given_property context.now graph.now (string_bytes name.now.text)
        (string_bytes key.now.text) ≡ Ok (unwrap_or (option_map (λ v. view v.now) held) null)) }
{
    match held_near(context, name.text.as_str(), near) {
        Some(Value::Node(id)) => Some(graph.node(*id)?.property(key.text.as_str())),
        Some(value) => entry_in(graph, value, key.text.as_str()),
        None => None,
    }
}

// What a map has under a key, if anything.
#[inline(never)]
fn entry_in<'a, T: Tables>(
    _graph: &GraphView<'a, T>,
    value: &'a Value,
    key: &str,
) -> Option<Option<&'a Value>>
    ensures { IfSome result (λ held. property_of _graph.now (view value.now) key.now
        ≡ Ok (unwrap_or (option_map (λ v. view v.now) held) null)) }
{
    let Value::Map(entries) = value else {
        return None;
    };
    Some(entry_lent(entries, key))
}

/// What stands under a key, if anything.
pub(crate) fn entry_lent<'a>(map: &'a Rc<BTreeMap<String, Value>>, key: &str) -> Option<&'a Value>
    ensures { unwrap_or (option_map (λ v. view v.now) result) null
        ≡ value_at key.now (entries_view map.now.value.entries) }
{
    map.as_ref().get(key)
}

/// `variable.key`, of a column that mostly stands at this place, whatever the row has there.
#[inline(never)]
pub(crate) fn column_property<'a, T: Tables>(
    context: &RowContext<'a>,
    graph: &GraphView<'a, T>,
    name: &Name,
    key: &Name,
    near: usize,
) -> Result<ValueRef<'a>, Fault>
    ensures ok { IfOk result
        (λ f. given_property context.now graph.now (string_bytes name.now.text)
        (string_bytes key.now.text) ≡ Ok (found_view f)) }
    ensures err { IfErr result
        (λ e. given_property context.now graph.now (string_bytes name.now.text)
        (string_bytes key.now.text) ≡ Err e) }
{
    match held_near(context, name.text.as_str(), near) {
        Some(value) => property_lent(graph, value, key.text.as_str()),
        None => Err(Fault::UndefinedVariable),
    }
}

/// The item at a place of the list in the column that mostly stands near, if a list is there: none behind its end.
#[inline(always)]
pub(crate) fn list_column_item<'a, T: Tables>(
    context: &RowContext<'a>,
    _graph: &GraphView<'a, T>,
    name: &Name,
    place: usize,
    near: usize,
) -> Option<Option<&'a Value>>
    ensures { IfSome result
        (λ held. given_item context.now _graph.now (string_bytes name.now.text) place
        ≡ Ok (unwrap_or (option_map (λ v. view v.now) held) null)) }
{
    let Some(Value::List(items)) = held_near(context, name.text.as_str(), near) else {
        return None;
    };
    Some(item_lent_at(items.as_ref(), place))
}

/// `variable[place]`, of a column that mostly stands near, whatever the row has there.
#[inline(never)]
pub(crate) fn column_item<'a, T: Tables>(
    context: &RowContext<'a>,
    _graph: &GraphView<'a, T>,
    name: &Name,
    place: usize,
    near: usize,
) -> Result<ValueRef<'a>, Fault>
    ensures ok { IfOk result (λ f. given_item context.now _graph.now
        (string_bytes name.now.text) place ≡ Ok (found_view f)) }
    ensures err { IfErr result (λ e. given_item context.now _graph.now
        (string_bytes name.now.text) place ≡ Err e) }
{
    let Some(value) = held_near(context, name.text.as_str(), near) else {
        return Err(Fault::UndefinedVariable);
    };
    match value {
        Value::Null => Ok(null()),
        Value::List(items) => Ok(item_at(items.as_ref(), place)),
        _ => Err(Fault::TypeFault),
    }
}

/// What stands in a map that was made is copied out of it.
#[inline(never)]
fn property_made<'a, T: Tables>(
    alloc: Global,
    graph: &GraphView<'a, T>,
    value: Value,
    key: &str,
) -> Result<ValueRef<'a>, Fault>
    ensures ok { IfOk result (λ f. property_of graph.now (view value) key.now ≡ Ok (found_view f)) }
    ensures err { IfErr result (λ e. e ≢ OutOfMemory
        → property_of graph.now (view value) key.now ≡ Err e) }
{
    match value.into_parts() {
        Parts::Null => Ok(null()),
        Parts::Map(entries) => {
            let found = entry(&entries, key);
            Ok(ValueRef::Made(found.take(alloc)?))
        }
        Parts::Node(id) => node_property(graph, id, key),
        Parts::Rel(id) => relationship_property(graph, id, key),
        _ => Err(Fault::TypeFault),
    }
}

/// `v[i]`, or the fault that was found in the place of `i`.
#[inline(never)]
pub(crate) fn index<'a, T: Tables>(
    alloc: Global,
    graph: &GraphView<'a, T>,
    value: ValueRef<'a>,
    place: Result<ValueRef<'a>, Fault>,
) -> Result<ValueRef<'a>, Fault>
    ensures { After place.entry result
        (λ i. indexed graph.now (found_view value.entry) (found_view i)) found_view }
{
    match place {
        Ok(at) => match value {
            ValueRef::Lent(value) => index_lent(graph, value, at.look()),
            ValueRef::Made(value) => index_made(alloc, graph, value, at.look()),
        },
        Err(fault) => Err(fault),
    }
}

fn index_lent<'a, T: Tables>(
    graph: &GraphView<'a, T>,
    value: &'a Value,
    place: &Value,
) -> Result<ValueRef<'a>, Fault>
    ensures ok { IfOk result
        (λ f. indexed graph.now (view value.now) (view place.now) ≡ Ok (found_view f)) }
    ensures err { IfErr result (λ e. indexed graph.now (view value.now) (view place.now) ≡ Err e) }
{
    match (value, place) {
        (Value::Null, _) | (_, Value::Null) => Ok(null()),
        (Value::List(items), Value::Int(at)) => Ok(item_lent(items.as_ref(), *at)),
        (Value::Map(entries), Value::Text(key)) => Ok(entry(entries, key.as_ref().as_str())),
        (Value::Node(id), Value::Text(key)) => node_property(graph, *id, key.as_ref().as_str()),
        (Value::Rel(id), Value::Text(key)) => relationship_property(
            graph,
            *id,
            key.as_ref().as_str(),
        ),
        (Value::Map(entries), Value::ShortText(key)) => Ok(entry(entries, key.as_str())),
        (Value::Node(id), Value::ShortText(key)) => node_property(graph, *id, key.as_str()),
        (Value::Rel(id), Value::ShortText(key)) => relationship_property(graph, *id, key.as_str()),
        _ => Err(Fault::TypeFault),
    }
}

/// What stands at a place, if anything.
#[inline(always)]
#[tactic(auto, using(pg_expr_calls::proofs::Counts::reads))]
fn item_lent_at<'a>(items: &'a Vec<Value>, place: usize) -> Option<&'a Value>
    ensures { unwrap_or (option_map (λ v. view v.now) result) null
        ≡ item_at place (values_view items.now.items) }
{
    if place < items.len() {
        Some(&items[place])
    } else {
        None
    }
}

pub(crate) fn item_at<'a>(items: &'a Vec<Value>, place: usize) -> ValueRef<'a>
    ensures { found_view result ≡ item_at place (values_view items.now.items) }
{
    lent_or_null(item_lent_at(items, place))
}

/// The item at a place, counted from the end where it is negative.
#[tactic(auto, using(pg_expr_calls::proofs::Counts::places))]
fn item_lent<'a>(items: &'a Vec<Value>, place: i64) -> ValueRef<'a>
    ensures { found_view result ≡ item_of (values_view items.now.items) place }
{
    if place >= 0 {
        return item_at(items, place as usize);
    }
    let back = place.unsigned_abs() as usize;
    if back > items.len() {
        return null();
    }
    item_at(items, items.len() - back)
}

/// What stands in a value that was made is copied out of it.
fn index_made<'a, T: Tables>(
    alloc: Global,
    graph: &GraphView<'a, T>,
    value: Value,
    place: &Value,
) -> Result<ValueRef<'a>, Fault>
    ensures ok { IfOk result
        (λ f. indexed graph.now (view value) (view place.now) ≡ Ok (found_view f)) }
    ensures err { IfErr result (λ e. e ≢ OutOfMemory
        → indexed graph.now (view value) (view place.now) ≡ Err e) }
{
    let found = index_lent(graph, &value, place)?;
    Ok(ValueRef::Made(found.take(alloc)?))
}

/// Whether there are all the labels, and the value itself where none is asked for.
pub(crate) fn labels<'a, T: Tables>(
    graph: &GraphView<'a, T>,
    value: ValueRef<'a>,
    labels: &Vec<Name>,
) -> Result<ValueRef<'a>, Fault>
    ensures ok { IfOk result
        (λ f. labelled graph.now (found_view value.entry) (names_view labels.now.items)
        ≡ Ok (found_view f)) }
    ensures err { IfErr result
        (λ e. labelled graph.now (found_view value.entry) (names_view labels.now.items) ≡ Err e) }
{
    if labels.is_empty() {
        return Ok(value);
    }
    some_labels(graph, value, labels)
}

#[inline(never)]
fn some_labels<'a, T: Tables>(
    graph: &GraphView<'a, T>,
    value: ValueRef<'a>,
    labels: &Vec<Name>,
) -> Result<ValueRef<'a>, Fault>
    requires { (vec_len labels.now == 0) ≡ false }
    ensures ok { IfOk result
        (λ f. labelled graph.now (found_view value.entry) (names_view labels.now.items)
        ≡ Ok (found_view f)) }
    ensures err { IfErr result
        (λ e. labelled graph.now (found_view value.entry) (names_view labels.now.items) ≡ Err e) }
{
    match value.look() {
        Value::Null => Ok(null()),
        Value::Node(id) => node_labels(graph, *id, labels),
        _ => Err(Fault::TypeFault),
    }
}

#[inline(never)]
fn node_labels<'a, T: Tables>(
    graph: &GraphView<'a, T>,
    id: NodeId,
    labels: &Vec<Name>,
) -> Result<ValueRef<'a>, Fault>
    ensures ok { IfOk result
        (λ f. labels_tested graph.now id.0 (names_view labels.now.items) ≡ Ok (found_view f)) }
    ensures err { IfErr result
        (λ e. labels_tested graph.now id.0 (names_view labels.now.items) ≡ Err e) }
{
    match graph.node(id) {
        Some(node) => Ok(ValueRef::Made(Value::Bool(has_all(&node, labels)))),
        None => Err(Fault::DeletedEntity),
    }
}

fn has_all<T: Tables>(node: &NodeView<'_, T>, labels: &Vec<Name>) -> bool
    ensures { result
        ≡ list_all (λ l. is_among node.now.labels l.text) (names_view labels.now.items) }
{
    for label in labels {
        if !node.has_label(label.text.as_str()) {
            return false;
        }
    }
    true
}
