//! The keys of a map, and the nodes and the relationships of a path.

ghost use Rattle.std.specs.Prelude.{◌≡◌, ◌≢◌, IfOk, IfErr, Ok, Err, map, OnOk};
ghost use Rattle.pg_meaning.specs.Functions.{texts, nodes_of, relationships_of, path_nodes, path_relationships};
ghost use Rattle.pg_meaning.specs.Arithmetic.{appended};
ghost use Rattle.pg_meaning.specs.Order.{keys_of};
ghost use Rattle.pg_meaning.specs.Value.{text, values_of, node, relationship, item, Values};
ghost use Rattle.pg_meaning.specs.declared.fault.Fault.TheVariants.{OutOfMemory};
ghost use Rattle.pg_value_core.specs.View.{view, values_view, entries_view};

use pg_meaning::Fault;
use pg_value_core::{NodeId, RelId, Value};
use std::alloc::{AllocError, Global};
use std::collections::BTreeMap;

/// The keys of a map, in byte order.
pub fn keys(alloc: Global, entries: &BTreeMap<String, Value>) -> Result<Value, AllocError>
    ensures { IfOk result (λ u. view u ≡ texts (keys_of (entries_view entries.now.entries))) }
{
    Value::list(key_texts(alloc, entries)?)
}

#[tactic(auto, using(crate::proofs::Joins::none_more))]
fn key_texts(alloc: Global, entries: &BTreeMap<String, Value>) -> Result<Vec<Value>, AllocError>
    ensures { IfOk result (λ vs. values_view vs.items
        ≡ values_of (map text (keys_of (entries_view entries.now.entries)))) }
{
    let mut keys = Vec::new(alloc);
    for (key, _) in entries.iter() {
        push_text(alloc, &mut keys, key.as_str())?;
    }
    Ok(keys)
}

fn push_text(alloc: Global, values: &mut Vec<Value>, bytes: &str) -> Result<(), AllocError>
    ensures { OnOk result ((ws : Values) → appended (values_view values.new.items) ws
        ≡ appended (values_view values.old.items) (item (text bytes.now) ws)) }
{
    push(values, Value::text(alloc, bytes)?)
}

pub(crate) fn push(values: &mut Vec<Value>, value: Value) -> Result<(), AllocError>
    ensures { OnOk result ((ws : Values) → appended (values_view values.new.items) ws
        ≡ appended (values_view values.old.items) (item (view value) ws)) }
{
    values.push(value)?;
    Ok(())
}

fn push_node(values: &mut Vec<Value>, id: u64) -> Result<(), AllocError>
    ensures { OnOk result ((ws : Values) → appended (values_view values.new.items) ws
        ≡ appended (values_view values.old.items) (item (node id) ws)) }
{
    push(values, Value::Node(NodeId(id)))
}

fn push_relationship(values: &mut Vec<Value>, id: u64) -> Result<(), AllocError>
    ensures { OnOk result ((ws : Values) → appended (values_view values.new.items) ws
        ≡ appended (values_view values.old.items) (item (relationship id) ws)) }
{
    push(values, Value::Rel(RelId(id)))
}

/// The nodes of a path, in turn.
pub fn nodes(alloc: Global, v: &Value) -> Result<Value, Fault>
    ensures ok { IfOk result (λ u. nodes_of (view v.now) ≡ Ok (view u)) }
    ensures err { IfErr result (λ e. e ≢ OutOfMemory → nodes_of (view v.now) ≡ Err e) }
{
    match v {
        Value::Path(path) => Ok(Value::list(path_nodes(alloc, path.0.as_slice())?)?),
        _ => Err(Fault::TypeFault),
    }
}

#[tactic(auto, using(crate::proofs::Paths::path_ends))]
fn path_nodes(alloc: Global, ids: &[u64]) -> Result<Vec<Value>, AllocError>
    ensures { IfOk result (λ vs. values_view vs.items ≡ path_nodes ids.now) }
{
    let mut nodes = Vec::new(alloc);
    let mut rest = ids;
    while let [node, behind @ ..] = rest {
        push_node(&mut nodes, *node)?;
        let [_, later @ ..] = behind else {
            return Ok(nodes);
        };
        rest = later;
    }
    Ok(nodes)
}

/// The relationships of a path, in turn.
pub fn relationships(alloc: Global, v: &Value) -> Result<Value, Fault>
    ensures ok { IfOk result (λ u. relationships_of (view v.now) ≡ Ok (view u)) }
    ensures err { IfErr result (λ e. e ≢ OutOfMemory → relationships_of (view v.now) ≡ Err e) }
{
    match v {
        Value::Path(path) => Ok(Value::list(path_relationships(alloc, path.0.as_slice())?)?),
        _ => Err(Fault::TypeFault),
    }
}

#[tactic(auto, using(crate::proofs::Paths::path_ends))]
fn path_relationships(alloc: Global, ids: &[u64]) -> Result<Vec<Value>, AllocError>
    ensures { IfOk result (λ vs. values_view vs.items ≡ path_relationships ids.now) }
{
    let mut relationships = Vec::new(alloc);
    let mut rest = ids;
    while let [_, relationship, later @ ..] = rest {
        push_relationship(&mut relationships, *relationship)?;
        rest = later;
    }
    Ok(relationships)
}
