//! A store lent with the part that all tenants share, to read: seen as its graph.
ghost use Rattle.std.specs.Option.{option_map};
ghost use Rattle.std.specs.Prelude.{◌≡◌, ◌<◌, ◌^◌, true, IfOk};
ghost use Rattle.pg_meaning.specs.Graph.{element_count, has_node, has_relationship, node_at, relationship_at};
ghost use Rattle.pg_store.specs.Stores.{graph_of_store, IsFit, node_texts_view, rel_texts_view};

use crate::shared::Shared;
use crate::store::Store;
use crate::texts::{NodeTexts, RelTexts};
use pg_graph::{NextIds, Tables};
use pg_value_core::{NodeId, RelId};
use std::alloc::{AllocError, Global};
use std::hash::RandomState;
use std::marker::Model;

/// A tenant's graph, to read.
#[derive(Drop)]
pub struct GraphView<'a, T: Tables> {
    pub(crate) store: &'a Store<T>,
    pub(crate) shared: &'a Shared<T::Shared>,
}

impl<'a, T: Tables> Model for GraphView<'a, T> {
    ghost use Rattle.pg_meaning.specs.Graph.{Graph};
    ghost use Rattle.pg_store.specs.GraphCode.{graph_code};
    ghost use Rattle.pg_store.specs.Stores.{graph_of_store, IsFit};

    ghost Value = { Graph };

    ghost coded = { graph_code };

    ghost view = { λ s. graph_of_store T.seen s.store.now s.shared.now };

    ghost invariant = { λ s. IsFit T.seen s.store.now s.shared.now };
}

impl<T: Tables> Store<T> {
    /// The graph, to read.
    pub fn graph<'a>(&'a self, shared: &'a Shared<T::Shared>) -> GraphView<'a, T>
        requires fit { IsFit T.seen self.now shared.now }
        ensures { result ≡ graph_of_store T.seen self.now shared.now }
    {
        GraphView {
            store: self,
            shared,
        }
    }
}

impl<'a, T: Tables> GraphView<'a, T> {
    /// What makes the hashers of the shared names, for tables in which a query gathers values.
    pub fn hasher(&self) -> RandomState {
        self.shared.names.hasher()
    }

    /// How many nodes and relationships there are.
    pub fn elements(&self) -> u64
        ensures { result ≡ element_count self.now }
    {
        self.store.elements()
    }

    /// The ids that the next elements get.
    pub fn next_ids(&self) -> NextIds
        ensures node { result.node ≡ self.now.next_node }
        ensures relationship { result.rel ≡ self.now.next_relationship }
    {
        self.store.next_ids()
    }

    /// Whether a node exists. A value may hold the id of one that was deleted.
    pub fn has_node(&self, id: NodeId) -> bool
        ensures is { result ≡ has_node self.now id.0 }
        ensures below { result ≡ true → id.0 < 2 ^ 63 }
    {
        self.store.node(self.shared, id).is_some()
    }

    /// Whether a relationship exists. A value may hold the id of one that was deleted.
    pub fn has_rel(&self, id: RelId) -> bool
        ensures is { result ≡ has_relationship self.now id.0 }
        ensures below { result ≡ true → id.0 < 2 ^ 63 }
    {
        self.store.rel(self.shared, id).is_some()
    }

    /// What a node holds, if there is such a node.
    pub fn node_texts(&self, alloc: Global, id: NodeId) -> Result<Option<NodeTexts>, AllocError>
        ensures { IfOk result (λ found. option_map node_texts_view found ≡ node_at self.now id.0) }
    {
        match self.node(id) {
            Some(node) => Ok(Some(node.texts(alloc)?)),
            None => Ok(None),
        }
    }

    /// What a relationship holds, if there is such a relationship.
    pub fn rel_texts(&self, alloc: Global, id: RelId) -> Result<Option<RelTexts>, AllocError>
        ensures { IfOk result
            (λ found. option_map rel_texts_view found ≡ relationship_at self.now id.0) }
    {
        match self.rel(id) {
            Some(rel) => Ok(Some(rel.texts(alloc)?)),
            None => Ok(None),
        }
    }
}
