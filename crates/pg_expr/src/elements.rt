//! What functions tell of an element, and of a map.
ghost use Rattle.std.specs.Prelude.{◌≡◌, ◌≢◌, IfOk, IfErr, Ok, Err, false, true, map, pos};
ghost use Rattle.pg_expr.specs.Elements.{element_properties, properties_given, keys_given, node_at_end};
ghost use Rattle.pg_expr.specs.Contexts.{found_view};
ghost use Rattle.pg_meaning.specs.Functions.{id_of, labels_of, type_of, is_deleted, texts};
ghost use Rattle.pg_meaning.specs.Graph.{has_node, has_relationship};
ghost use Rattle.pg_meaning.specs.Order.{keys_of};
ghost use Rattle.pg_meaning.specs.Value.{integer, node, relationship};
ghost use Rattle.pg_meaning.specs.declared.fault.Fault.TheVariants.{OutOfMemory};
ghost use Rattle.pg_value_core.specs.View.{view, entries_view};

use crate::value_ref::ValueRef;
use pg_graph::Tables;
use pg_meaning::Fault;
use pg_store::GraphView;
use pg_value_core::{NodeId, RelId, Value};
use std::alloc::{AllocError, Global};
use std::collections::BTreeMap;

/// The number of an element that is there.
#[tactic(auto, using(crate::proofs::Presence::presence))]
pub(crate) fn number<T: Tables>(graph: &GraphView<'_, T>, v: &Value) -> Result<Value, Fault>
    requires { is_deleted graph.now (view v.now) ≡ false }
    ensures ok { IfOk result (λ u. id_of (view v.now) ≡ Ok (view u)) }
    ensures err { IfErr result (λ e. id_of (view v.now) ≡ Err e) }
{
    match v {
        Value::Node(id) => {
            let _is_there = graph.has_node(*id);
            Ok(Value::Int(id.0 as i64))
        }
        Value::Rel(id) => {
            let _is_there = graph.has_rel(*id);
            Ok(Value::Int(id.0 as i64))
        }
        _ => Err(Fault::TypeFault),
    }
}

/// The labels of a node, in byte order.
#[inline(never)]
pub(crate) fn labels<T: Tables>(
    alloc: Global,
    graph: &GraphView<'_, T>,
    v: &Value,
) -> Result<Value, Fault>
    ensures ok { IfOk result (λ u. labels_of graph.now (view v.now) ≡ Ok (view u)) }
    ensures err { IfErr result (λ e. e ≢ OutOfMemory → labels_of graph.now (view v.now) ≡ Err e) }
{
    match v {
        Value::Node(id) => match graph.node(*id) {
            Some(node) => {
                let all = node.labels(alloc)?;
                Ok(text_list(alloc, &all)?)
            }
            None => Err(Fault::DeletedEntity),
        },
        _ => Err(Fault::TypeFault),
    }
}

fn text_list(alloc: Global, all: &Vec<&str>) -> Result<Value, AllocError>
    ensures { IfOk result (λ u. view u ≡ texts (map (λ t. t.now) all.now.items)) }
{
    let mut values = Vec::with_capacity(alloc, all.len())?;
    for bytes in all {
        values.push(Value::text(alloc, bytes)?)?;
    }
    Value::list(values)
}

/// The type of a relationship.
#[inline(never)]
pub(crate) fn kind<T: Tables>(
    alloc: Global,
    graph: &GraphView<'_, T>,
    v: &Value,
) -> Result<Value, Fault>
    ensures ok { IfOk result (λ u. type_of graph.now (view v.now) ≡ Ok (view u)) }
    ensures err { IfErr result (λ e. e ≢ OutOfMemory → type_of graph.now (view v.now) ≡ Err e) }
{
    match v {
        Value::Rel(id) => match graph.rel(*id) {
            Some(relationship) => Ok(Value::text(alloc, relationship.kind())?),
            None => Err(Fault::DeletedEntity),
        },
        _ => Err(Fault::TypeFault),
    }
}

/// The first node of a relationship, or its last.
pub(crate) fn end_node<T: Tables>(
    graph: &GraphView<'_, T>,
    v: &Value,
    is_last: bool,
) -> Result<Value, Fault>
    ensures ok { IfOk result (λ u. node_at_end is_last graph.now (view v.now) ≡ Ok (view u)) }
    ensures err { IfErr result (λ e. node_at_end is_last graph.now (view v.now) ≡ Err e) }
{
    let Value::Rel(id) = v else {
        return Err(Fault::TypeFault);
    };
    match graph.rel(*id) {
        Some(relationship) => {
            if is_last {
                Ok(Value::Node(relationship.target()))
            } else {
                Ok(Value::Node(relationship.source()))
            }
        }
        None => Err(Fault::DeletedEntity),
    }
}

/// A copy of the properties of an element.
fn element_properties<T: Tables>(
    alloc: Global,
    graph: &GraphView<'_, T>,
    v: &Value,
) -> Result<BTreeMap<String, Value>, Fault>
    ensures ok { IfOk result
        (λ m. element_properties graph.now (view v.now) ≡ Ok (entries_view m.entries)) }
    ensures err { IfErr result (λ e. e ≢ OutOfMemory
        → element_properties graph.now (view v.now) ≡ Err e) }
{
    match v {
        Value::Node(id) => match graph.node_texts(alloc, *id)? {
            Some(texts) => Ok(texts.properties),
            None => Err(Fault::DeletedEntity),
        },
        Value::Rel(id) => match graph.rel_texts(alloc, *id)? {
            Some(texts) => Ok(texts.properties),
            None => Err(Fault::DeletedEntity),
        },
        _ => Err(Fault::TypeFault),
    }
}

/// The properties of an element or a map, as a map.
#[inline(never)]
pub(crate) fn properties<'a, T: Tables>(
    alloc: Global,
    graph: &GraphView<'a, T>,
    found: ValueRef<'a>,
) -> Result<ValueRef<'a>, Fault>
    ensures ok { IfOk result
        (λ f. properties_given graph.now (found_view found.entry) ≡ Ok (found_view f)) }
    ensures err { IfErr result (λ e. e ≢ OutOfMemory
        → properties_given graph.now (found_view found.entry) ≡ Err e) }
{
    match found.look() {
        Value::Map(_) => Ok(found),
        v => {
            let entries = element_properties(alloc, graph, v)?;
            Ok(ValueRef::Made(Value::map(alloc, entries)?))
        }
    }
}

/// The keys of what has properties, in byte order.
#[inline(never)]
pub(crate) fn keys<T: Tables>(
    alloc: Global,
    graph: &GraphView<'_, T>,
    v: &Value,
) -> Result<Value, Fault>
    ensures ok { IfOk result (λ u. keys_given graph.now (view v.now) ≡ Ok (view u)) }
    ensures err { IfErr result (λ e. e ≢ OutOfMemory → keys_given graph.now (view v.now) ≡ Err e) }
{
    match v {
        Value::Map(entries) => keys_of(alloc, entries.as_ref()),
        _ => keys_of(alloc, &element_properties(alloc, graph, v)?),
    }
}

fn keys_of(alloc: Global, entries: &BTreeMap<String, Value>) -> Result<Value, Fault>
    ensures ok { IfOk result (λ u. view u ≡ texts (keys_of (entries_view entries.now.entries))) }
    ensures err { IfErr result (λ e. e ≡ OutOfMemory) }
{
    Ok(pg_expr_calls::keys(alloc, entries)?)
}
