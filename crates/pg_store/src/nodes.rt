//! The nodes of a graph, one after the other.
ghost use Rattle.std.specs.Option.{option_map};
ghost use Rattle.std.specs.FinMap as map;
ghost use Rattle.std.specs.Prelude.{◌≡◌, ◌∷◌, [], ℕ, Some, true, IfSome, IfNone};
ghost use Rattle.pg_meaning.specs.Graph.{ids_of, node_at, nodes_with_label};
ghost use Rattle.pg_meaning.specs.Names.{is_among};
ghost use Rattle.pg_meaning.specs.Walks.{with_value};
ghost use Rattle.pg_store.specs.Listing.{IsLabelled};
ghost use Rattle.pg_value_core.specs.View.{view};

use crate::graph_view::GraphView;
use crate::shared::Shared;
use crate::store::Store;
use crate::views::NodeView;
use crate::wanted::Wanted;
use pg_graph::{IdSet, Members, Tables};
use pg_value_core::{NodeId, Value};
use std::marker::Model;

/// Nodes of a graph, ids rising: seen as the ids that are still to come, the graph, and a label that
/// each of them has.
#[derive(Drop)]
pub struct Nodes<'a, T: Tables> {
    store: &'a Store<T>,
    shared: &'a Shared<T::Shared>,
    wanted: Wanted<'a>,
    ids: Members<'a>,
    // Whether each of the ids is surely of a node that is sought.
    is_exact: bool,
}

impl<'a, T: Tables> Model for Nodes<'a, T> {
    ghost use Rattle.std.specs.Prelude.{◌≡◌, true};
    ghost use Rattle.pg_store.specs.Listing.{AreSought, Listing, IsListed, listing, listing_code};

    ghost Value = { Listing };

    ghost coded = { listing_code };

    ghost view = { λ n. listing T.seen n.store.now n.shared.now n.wanted n.ids };

    ghost invariant = { λ n. IsListed T.seen n.store.now n.shared.now n.wanted
        × (n.is_exact ≡ true → AreSought T.seen n.store.now n.shared.now n.wanted n.ids) };
}

impl<'a, T: Tables> Nodes<'a, T> {
    /// The text of a label that each of them has, if one was sought by.
    pub fn label(&self) -> Option<&'a str>
        ensures { option_map (λ t. t.now) result ≡ self.now.label }
    {
        match self.wanted {
            Wanted::All => None,
            Wanted::Labelled(label) => Some(self.shared.names.text(label)),
            Wanted::Valued(label, _, _) => Some(self.shared.names.text(label)),
        }
    }

    /// The next id, if there is one more. Its record is looked at only where something is noted among the sets of ids.
    #[inline(always)]
    pub fn next(&mut self) -> Option<NodeId>
        ensures some { IfSome result (λ id. self.old.ids ≡ id.0 ∷ self.new.ids) }
        ensures none { IfNone result (self.old.ids ≡ []) }
        ensures is { IfSome result (λ id. IsLabelled self.old.graph self.old.label id.0) }
        ensures graph { self.new.graph ≡ self.old.graph }
        ensures label { self.new.label ≡ self.old.label }
    {
        if self.is_exact {
            return match self.ids.next() {
                Some(id) => Some(NodeId(id)),
                None => None,
            };
        }
        match self.next_node() {
            Some((id, _)) => Some(id),
            None => None,
        }
    }

    /// The next node, if there is one more: its id, and what it holds, to read.
    pub fn next_node(&mut self) -> Option<(NodeId, NodeView<'a, T>)>
        ensures some { IfSome result (λ p. self.old.ids ≡ p.0.0 ∷ self.new.ids) }
        ensures none { IfNone result (self.old.ids ≡ []) }
        ensures is { IfSome result (λ p. node_at self.old.graph p.0.0 ≡ Some p.1) }
        ensures has { IfSome result
            (λ p. IfSome self.old.label (λ label. is_among p.1.labels label ≡ true)) }
        ensures graph { self.new.graph ≡ self.old.graph }
        ensures label { self.new.label ≡ self.old.label }
    {
        // a set may hold ids that no longer belong in it, and the record decides
        while let Some(id) = self.ids.next() {
            if let Some(node) = self.store.sought(self.shared, NodeId(id), &self.wanted) {
                return Some((NodeId(id), NodeView::of(self.shared, node)));
            }
        }
        None
    }
}

impl<'a, T: Tables> GraphView<'a, T> {
    /// The nodes, ids rising.
    pub fn nodes(&self) -> Nodes<'a, T>
        ensures graph { result.graph ≡ self.now }
        ensures ids { result.ids ≡ ids_of self.now.nodes }
    {
        Nodes {
            store: self.store,
            shared: self.shared,
            wanted: Wanted::All,
            ids: self.store.sets.all.ids(),
            is_exact: self.store.sets.stale_ids.is_empty(),
        }
    }

    /// The nodes with a label, ids rising.
    pub fn nodes_labelled(&self, label: &str) -> Nodes<'a, T>
        ensures graph { result.graph ≡ self.now }
        ensures ids { result.ids ≡ nodes_with_label self.now label.now }
    {
        let Some(name) = self.shared.names.find(label) else {
            return self.no_nodes();
        };
        Nodes {
            store: self.store,
            shared: self.shared,
            wanted: Wanted::Labelled(name),
            ids: self.store.sets.labelled(name).ids(),
            is_exact: self.store.sets.stale_ids.is_empty(),
        }
    }

    /// The nodes with a label that have a value under a key, ids rising. An index serves where there
    /// is one.
    pub fn nodes_valued(&self, label: &str, key: &str, value: &'a Value) -> Nodes<'a, T>
        ensures graph { result.graph ≡ self.now }
        ensures ids { result.ids ≡ with_value self.now label.now key.now (view value.now) }
    {
        let Some(label) = self.shared.names.find(label) else {
            return self.no_nodes();
        };
        let Some(key) = self.shared.names.find(key) else {
            return self.no_nodes();
        };
        Nodes {
            store: self.store,
            shared: self.shared,
            wanted: Wanted::Valued(label, key, value),
            ids: self.store.sets.valued(label, key, value).ids(),
            is_exact: false,
        }
    }

    /// Ids of nodes that have a label, and of no others, where the set of these is exact and an id
    /// that is in it is mostly found there by a few looks.
    pub fn ids_labelled(&self, label: &str) -> Option<&'a IdSet>
        ensures { IfSome result (λ ids. (id : ℕ) → map.contains_key ids.now id ≡ true
            → IsLabelled self.now (Some label.now) id) }
    {
        if !self.store.sets.stale_ids.is_empty() {
            return None;
        }
        let ids = self.store.sets.labelled(self.shared.names.find(label)?);
        if ids.seems_dense() { Some(ids) } else { None }
    }

    // No nodes.
    fn no_nodes(&self) -> Nodes<'a, T>
        ensures graph { result.graph ≡ self.now }
        ensures ids { result.ids ≡ [] }
    {
        Nodes {
            store: self.store,
            shared: self.shared,
            wanted: Wanted::All,
            ids: self.store.sets.none.ids(),
            is_exact: false,
        }
    }
}
