//! The ids of what a clause takes out, each once.
ghost use Rattle.std.specs.Prelude.{◌≡◌, ◌≢◌, [], true, OnOk, IfErr, Ok, Err};
ghost use Rattle.pg_meaning.specs.Graph.{has_node, has_relationship};
ghost use Rattle.pg_meaning.specs.declared.fault.Fault.TheVariants.{OutOfMemory};
ghost use Rattle.pg_value_core.specs.View.{view};
ghost use Rattle.pg_write.specs.Gathered.{put_all, put_incident, put_live, put_node, put_relationship, put_path, put_value, put_detached};

use pg_graph::Tables;
use pg_meaning::Fault;
use pg_store::{GraphView, Incident};
use pg_value_core::{NodeId, RelId, Value};
use std::alloc::{AllocError, Global};
use std::collections::BTreeSet;
use std::marker::Model;

/// The ids of nodes and of relationships, of what is there alone.
#[derive(Drop)]
pub(crate) struct PendingDeletes {
    nodes: BTreeSet<u64>,
    rels: BTreeSet<u64>,
}

impl Model for PendingDeletes {
    ghost use Rattle.pg_meaning.specs.Updates.{Doomed as Ids};

    ghost Value = { Ids };

    ghost view = { λ d. (d.nodes.keys, d.rels.keys) };
}

// Puts an id into a set, if it is of something that is there.
fn put_live(ids: &mut BTreeSet<u64>, is_there: bool, id: u64) -> Result<(), AllocError>
    ensures { OnOk result (ids.new.keys ≡ put_live is_there id ids.old.keys) }
{
    if is_there {
        ids.insert(id)?;
    }
    Ok(())
}

fn put_all(ids: &mut BTreeSet<u64>, mut others: Incident<'_>) -> Result<(), AllocError>
    ensures { OnOk result (ids.new.keys ≡ put_all others.entry ids.old.keys) }
{
    while let Some(id) = others.next() {
        ids.insert(id.0)?;
    }
    Ok(())
}

// Puts the relationships at each of the nodes into a set.
fn put_incident<T: Tables>(
    graph: &GraphView<'_, T>,
    nodes: &BTreeSet<u64>,
    rels: &mut BTreeSet<u64>,
) -> Result<(), AllocError>
    ensures { OnOk result (rels.new.keys ≡ put_incident graph.now nodes.now.keys rels.old.keys) }
{
    for node in nodes {
        put_all(rels, graph.incident(NodeId(*node)))?;
    }
    Ok(())
}

impl PendingDeletes {
    pub(crate) fn new(alloc: Global) -> PendingDeletes
        ensures { result ≡ ([], []) }
    {
        PendingDeletes {
            nodes: BTreeSet::new(alloc),
            rels: BTreeSet::new(alloc),
        }
    }

    pub(crate) fn nodes(&self) -> &BTreeSet<u64>
        ensures { result.now.keys ≡ self.now.0 }
    {
        &self.nodes
    }

    pub(crate) fn rels(&self) -> &BTreeSet<u64>
        ensures { result.now.keys ≡ self.now.1 }
    {
        &self.rels
    }

    fn put_node<T: Tables>(
        &mut self,
        graph: &GraphView<'_, T>,
        id: NodeId,
    ) -> Result<(), AllocError>
        ensures { OnOk result (self.new ≡ put_node graph.now id.0 self.old) }
    {
        put_live(&mut self.nodes, graph.has_node(id), id.0)
    }

    fn put_rel<T: Tables>(&mut self, graph: &GraphView<'_, T>, id: RelId) -> Result<(), AllocError>
        ensures { OnOk result (self.new ≡ put_relationship graph.now id.0 self.old) }
    {
        put_live(&mut self.rels, graph.has_rel(id), id.0)
    }

    // Puts the nodes and relationships of a path in, which stand in turn.
    fn put_path<T: Tables>(
        &mut self,
        graph: &GraphView<'_, T>,
        ids: &[u64],
    ) -> Result<(), AllocError>
        ensures { OnOk result (self.new ≡ put_path graph.now ids.now self.old) }
    {
        let mut rest = ids;
        // a whole path has a node more than relationships, so a turn may end after its node
        while let Some((node, others)) = rest.split_first() {
            self.put_node(graph, NodeId(*node))?;
            let Some((rel, others)) = others.split_first() else {
                return Ok(());
            };
            self.put_rel(graph, RelId(*rel))?;
            rest = others;
        }
        Ok(())
    }

    /// Puts in what a value names.
    pub(crate) fn put_value<T: Tables>(
        &mut self,
        graph: &GraphView<'_, T>,
        value: &Value,
    ) -> Result<(), Fault>
        ensures ok { OnOk result (put_value graph.now self.old (view value.now) ≡ Ok self.new) }
        ensures err { IfErr result (λ e. e ≢ OutOfMemory
            → put_value graph.now self.old (view value.now) ≡ Err e) }
    {
        match value {
            Value::Null => Ok(()),
            Value::Node(id) => Ok(self.put_node(graph, *id)?),
            Value::Rel(id) => Ok(self.put_rel(graph, *id)?),
            Value::Path(path) => Ok(self.put_path(graph, path.0.as_slice())?),
            _ => Err(Fault::TypeFault),
        }
    }

    /// Puts in the relationships at the nodes.
    pub(crate) fn detach<T: Tables>(&mut self, graph: &GraphView<'_, T>) -> Result<(), AllocError>
        ensures { OnOk result (self.new ≡ put_detached true graph.now self.old) }
    {
        put_incident(graph, &self.nodes, &mut self.rels)
    }
}
