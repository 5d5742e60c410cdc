//! A tenant's graph, and what it begins with.
ghost use Rattle.std.specs.Prelude.{◌≡◌, []};
ghost use Rattle.pg_meaning.specs.Graph.{IsGraph, empty_graph, element_count};
ghost use Rattle.pg_names.specs.Names.{AreDistinct};
ghost use Rattle.pg_store.specs.Stores.{graph_of_store, index_pairs, IsFit, OtherStoresStay};
ghost use Rattle.pg_store.specs.declared.shared.Shared.{Shared};

use crate::journal::Entry;
use crate::sets::Sets;
use pg_graph::{IdSet, NextIds, Tables};
use std::alloc::Global;

/// One tenant's graph over its tables: the ids that come next, how many elements there are, and what
/// was done since it was last committed. Each call is lent the same shared part.
#[derive(Drop)]
pub struct Store<T> {
    pub(crate) tables: T,
    pub(crate) next: NextIds,
    pub(crate) elements: u64,
    pub(crate) gone_nodes: IdSet,
    pub(crate) gone_rels: IdSet,
    pub(crate) journal: Vec<Entry>,
    pub(crate) sets: Sets,
}

impl<T: Tables> Store<T> {
    /// The empty graph, over any shared part that has none of this owner.
    pub fn new(alloc: Global, owner: u32) -> Self
        ensures owner { T.seen.owner result.tables ≡ owner }
        ensures fit { (shared : Shared T.Shared T.Shared.Texts) → AreDistinct shared.names
            → T.seen.is_unused owner shared.tables → IsFit T.seen result shared }
        ensures empty { (shared : Shared T.Shared T.Shared.Texts)
            → T.seen.is_unused owner shared.tables
            → graph_of_store T.seen result shared ≡ empty_graph }
        ensures indexes { index_pairs result ≡ [] }
    {
        Store {
            tables: T::new(alloc, owner),
            next: NextIds { node: 0, rel: 0 },
            elements: 0,
            gone_nodes: IdSet::new(alloc),
            gone_rels: IdSet::new(alloc),
            journal: Vec::new(alloc),
            sets: Sets::new(alloc),
        }
    }

    /// How many nodes and relationships there are.
    pub fn elements(&self) -> u64
        ensures { (shared : Shared T.Shared T.Shared.Texts) → IsFit T.seen self.now shared
            → result ≡ element_count (graph_of_store T.seen self.now shared) }
    {
        self.elements
    }

    /// The ids that the next elements get.
    pub fn next_ids(&self) -> NextIds
        ensures is { result ≡ self.now.next }
        ensures node { (shared : Shared T.Shared T.Shared.Texts)
            → result.node ≡ (graph_of_store T.seen self.now shared).next_node }
        ensures relationship { (shared : Shared T.Shared T.Shared.Texts)
            → result.rel ≡ (graph_of_store T.seen self.now shared).next_relationship }
    {
        self.next
    }
}

/// What a store holds is a graph.
pub fn law_of_stores<T: Tables>()
    ensures { (store : Store T) (shared : Shared T.Shared T.Shared.Texts)
        → IsFit T.seen store shared → IsGraph (graph_of_store T.seen store shared) }
{}

/// Whatever one owner's calls do with the shared part, the graphs of the others stay.
pub fn law_of_other_stores<T: Tables>()
    ensures { OtherStoresStay T.Shared.Texts T.seen }
{}
