//! Nodes and relationships taken out of a tenant's graph.
ghost use Rattle.std.specs.Prelude.{◌≡◌, ◌∷◌, [], true, OnOk};
ghost use Rattle.pg_meaning.specs.Graph.{has_node, has_relationship, incident, incoming, outgoing, remove_elements};
ghost use Rattle.pg_store.specs.Changes.{Changes};
ghost use Rattle.pg_store.specs.Stores.{graph_of_store, IsFit, KeepsMarks};

use crate::journal::Entry;
use crate::shared::Shared;
use crate::store::Store;
use pg_graph::Tables;
use pg_value_core::{NodeId, RelId};
use std::alloc::AllocError;

impl<T: Tables> Store<T> {
    /// Takes a relationship out. Or changes nothing.
    pub fn remove_rel(&mut self, shared: &Shared<T::Shared>, id: RelId) -> Result<(), AllocError>
        requires fit { IsFit T.seen self.old shared.now }
        requires there { has_relationship (graph_of_store T.seen self.old shared.now) id.0 ≡ true }
        ensures changes { Changes T.seen self.old shared.now self.new shared.now result
            (λ start end. OnOk result (end ≡ remove_elements [] (id.0 ∷ []) start)) }
        ensures marks { KeepsMarks T.seen self.old shared.now self.new shared.now }
    {
        self.journal.reserve(1)?;
        self.gone_rels.insert(id.0)?;
        self.elements -= 1;
        self.journal.push_reserved(Entry::RelRemoved(id));
        Ok(())
    }

    /// Takes a node out, which has no relationships. Or changes nothing.
    pub fn remove_node(&mut self, shared: &Shared<T::Shared>, id: NodeId) -> Result<(), AllocError>
        requires fit { IsFit T.seen self.old shared.now }
        requires there { has_node (graph_of_store T.seen self.old shared.now) id.0 ≡ true }
        requires no_outgoing { incident outgoing id.0 (graph_of_store T.seen self.old shared.now)
            ≡ [] }
        requires no_incoming { incident incoming id.0 (graph_of_store T.seen self.old shared.now)
            ≡ [] }
        ensures changes { Changes T.seen self.old shared.now self.new shared.now result
            (λ start end. OnOk result (end ≡ remove_elements (id.0 ∷ []) [] start)) }
        ensures marks { KeepsMarks T.seen self.old shared.now self.new shared.now }
    {
        self.journal.reserve(1)?;
        let was = self.tables.node(&shared.tables, id).unwrap();
        self.sets.note_leaving(was, id.0)?;
        self.gone_nodes.insert(id.0)?;
        self.elements -= 1;
        self.journal.push_reserved(Entry::NodeRemoved(id));
        Ok(())
    }
}
