//! Nodes, relationships and paths of a store, spelt out as long as there is room for them.
ghost use Rattle.std.specs.Prelude.{◌≡◌, ◌≢◌, IfOk, IfErr, Ok, Err};
ghost use Rattle.pg_json.specs.Replies.{data_of, path_data};
ghost use Rattle.pg_meaning.specs.Graph.{node_at, has_node, relationship_at, has_relationship};
ghost use Rattle.pg_meaning.specs.Queries.{test_present, test_ids};
ghost use Rattle.pg_meaning.specs.declared.fault.Fault.TheVariants.{OutOfMemory};
ghost use Rattle.pg_run.specs.Printed.{shown_node, shown_relationship, path_items};
ghost use Rattle.pg_run.specs.Places.{test_place, shown_place};
ghost use Rattle.pg_run.specs.Spelt.{DataSpelt};

use crate::presence::test_path;
use crate::room::within;
use crate::stored::spell_properties;
use pg_graph::Tables;
use pg_meaning::Fault;
use pg_store::GraphView;
use pg_value_core::{NodeId, Out, Path, RelId};
use std::alloc::Global;

/// A node, or else a relationship.
#[inline(never)]
pub(crate) fn spell_element<T: Tables>(
    alloc: Global,
    graph: &GraphView<'_, T>,
    is_node: bool,
    id: u64,
    room: &mut usize,
) -> Result<Out, Fault>
    ensures { DataSpelt (test_place graph.now is_node id)
        (shown_place graph.now is_node id) result room.old room.new }
{
    if is_node {
        if *room == 0 {
            return nothing_shown(graph.has_node(NodeId(id)));
        }
        Ok(within(whole_node(alloc, graph, NodeId(id))?, room))
    } else {
        if *room == 0 {
            return nothing_shown(graph.has_rel(RelId(id)));
        }
        Ok(within(whole_rel(alloc, graph, RelId(id))?, room))
    }
}

/// The test of an element that there is no room for.
fn nothing_shown(is_there: bool) -> Result<Out, Fault>
    ensures live { IfOk result (λ out. test_present is_there ≡ Ok tt) }
    ensures err { IfErr result (λ e. test_present is_there ≡ Err e) }
{
    if is_there {
        Ok(Out::Null)
    } else {
        Err(Fault::DeletedEntity)
    }
}

fn whole_node<T: Tables>(alloc: Global, graph: &GraphView<'_, T>, id: NodeId) -> Result<Out, Fault>
    ensures live { IfOk result (λ out. test_present (has_node graph.now id.0) ≡ Ok tt) }
    ensures data { IfOk result
        (λ out. data_of out ≡ shown_node graph.now id.0 (node_at graph.now id.0)) }
    ensures err { IfErr result (λ e. e ≢ OutOfMemory
        → test_present (has_node graph.now id.0) ≡ Err e) }
{
    match graph.node(id) {
        Some(node) => Ok(Out::Node {
            id,
            labels: node.label_texts(alloc)?,
            properties: spell_properties(alloc, &node.properties(alloc)?)?,
        }),
        None => Err(Fault::DeletedEntity),
    }
}

fn whole_rel<T: Tables>(alloc: Global, graph: &GraphView<'_, T>, id: RelId) -> Result<Out, Fault>
    ensures live { IfOk result (λ out. test_present (has_relationship graph.now id.0) ≡ Ok tt) }
    ensures data { IfOk result
        (λ out. data_of out ≡ shown_relationship graph.now id.0 (relationship_at graph.now id.0)) }
    ensures err { IfErr result (λ e. e ≢ OutOfMemory
        → test_present (has_relationship graph.now id.0) ≡ Err e) }
{
    match graph.rel(id) {
        Some(rel) => Ok(Out::Rel {
            id,
            kind: String::from_str(alloc, rel.kind())?,
            start: rel.source(),
            end: rel.target(),
            properties: spell_properties(alloc, &rel.properties(alloc)?)?,
        }),
        None => Err(Fault::DeletedEntity),
    }
}

#[inline(never)]
pub(crate) fn spell_path<T: Tables>(
    alloc: Global,
    graph: &GraphView<'_, T>,
    path: &Path,
    room: &mut usize,
) -> Result<Out, Fault>
    ensures { DataSpelt (test_ids graph.now path.now.0.items)
        (path_data (path_items graph.now path.now.0.items)) result room.old room.new }
{
    if *room == 0 {
        test_path(graph, &path.0)?;
        return Ok(Out::Null);
    }
    *room = room.saturating_sub(11);
    let mut found = Vec::with_capacity(alloc, path.0.len())?;
    let mut is_node = true;
    for id in &path.0 {
        *room = room.saturating_sub(1);
        found.push(spell_element(alloc, graph, is_node, *id, room)?)?;
        is_node = !is_node;
    }
    Ok(Out::Path(found))
}
