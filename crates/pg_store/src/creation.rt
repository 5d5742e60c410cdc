//! Nodes and relationships made of texts.
ghost use Rattle.std.specs.Prelude.{◌≡◌, ◌<◌, ◌^◌, ℕ, List, true, length, IsSome, OnOk, OnErr, IfOk};
ghost use Rattle.std.specs.FinMap as map;
ghost use Rattle.pg_graph.specs.Refinement.{AreNamed, label_texts, property_entries, text_of};
ghost use Rattle.pg_meaning.specs.Entries.{set_keys};
ghost use Rattle.pg_meaning.specs.Graph.{add_node, add_relationship, has_node};
ghost use Rattle.pg_meaning.specs.Names.{in_byte_order};
ghost use Rattle.pg_meaning.specs.Value.{no_entries};
ghost use Rattle.pg_store.specs.Changes.{Changes};
ghost use Rattle.pg_store.specs.Journal.{live};
ghost use Rattle.pg_store.specs.Stores.{graph_of_store, state_of, IsFit, KeepsMarks, KeepsShared, texts_of, pairs_of};

use crate::journal::Entry;
use crate::names::{more_labels, properties_of};
use crate::shared::Shared;
use crate::store::Store;
use pg_graph::{Labels, NodeRecord, RelRecord, Tables};
use pg_value_core::{NodeId, RelId, Value};
use std::alloc::{AllocError, Global};

/// The two nodes of a relationship.
#[derive(Clone, Copy)]
pub struct Ends {
    pub source: NodeId,
    pub target: NodeId,
}

impl<T: Tables> Store<T> {
    /// Makes a node with these labels, in any order, and properties, of which the last under a key
    /// stays and null takes the key out. Or changes nothing.
    pub fn create_node(
        &mut self,
        alloc: Global,
        shared: &mut Shared<T::Shared>,
        labels: &Vec<&str>,
        properties: Vec<(&str, Value)>,
    ) -> Result<NodeId, AllocError>
        requires fit { IsFit T.seen self.old shared.old }
        requires room { self.old.next.node < 2 ^ 63 }
        requires count { self.old.elements < 2 ^ 63 }
        ensures id { IfOk result
            (λ id. id.0 ≡ (graph_of_store T.seen self.old shared.old).next_node) }
        ensures changes { Changes T.seen self.old shared.old self.new shared.new result
            (λ start end. OnOk result (end ≡ add_node (texts_of labels.now.items)
            (set_keys (pairs_of properties.entry.items) no_entries) start)) }
        ensures marks { KeepsMarks T.seen self.old shared.old self.new shared.new }
    {
        let labels = more_labels(&mut shared.names, Labels::new(alloc), labels)?;
        let properties = properties_of(alloc, &mut shared.names, properties)?;
        self.add_node(shared, NodeRecord { labels, properties })
    }

    // Adds a node whose names are in the table.
    fn add_node(
        &mut self,
        shared: &mut Shared<T::Shared>,
        node: NodeRecord,
    ) -> Result<NodeId, AllocError>
        requires fit { IsFit T.seen self.old shared.old }
        requires room { self.old.next.node < 2 ^ 63 }
        requires count { self.old.elements < 2 ^ 63 }
        requires labels { AreNamed shared.old.names node.labels }
        requires keys { AreNamed shared.old.names (map.keys node.properties) }
        ensures id { IfOk result
            (λ id. id.0 ≡ (graph_of_store T.seen self.old shared.old).next_node) }
        ensures ok { OnOk result ((labels : List (List ℕ))
            → in_byte_order labels ≡ label_texts shared.old.names node.labels
            → graph_of_store T.seen self.new shared.new
            ≡ add_node labels (property_entries shared.old.names node.properties)
            (graph_of_store T.seen self.old shared.old)) }
        ensures err { OnErr result (graph_of_store T.seen self.new shared.new
            ≡ graph_of_store T.seen self.old shared.old) }
        ensures marks { KeepsMarks T.seen self.old shared.old self.new shared.new }
        ensures fit { IsFit T.seen self.new shared.new }
        ensures keeps { KeepsShared T.seen self.old shared.old self.new shared.new }
    {
        self.journal.reserve(1)?;
        let id = NodeId(self.next.node);
        self.sets.insert_node(&node, id.0)?;
        self.tables.add_node(&mut shared.tables, id, node)?;
        self.next.node += 1;
        self.elements += 1;
        self.journal.push_reserved(Entry::NodeAdded);
        Ok(id)
    }

    /// Makes a relationship of a type between two nodes that are there, with properties as a node
    /// gets them. Or changes nothing.
    pub fn create_rel(
        &mut self,
        alloc: Global,
        shared: &mut Shared<T::Shared>,
        kind: &str,
        ends: Ends,
        properties: Vec<(&str, Value)>,
    ) -> Result<RelId, AllocError>
        requires fit { IsFit T.seen self.old shared.old }
        requires room { self.old.next.rel < 2 ^ 63 }
        requires count { self.old.elements < 2 ^ 63 }
        requires source { has_node
            (graph_of_store T.seen self.old shared.old) ends.source.0 ≡ true }
        requires target { has_node
            (graph_of_store T.seen self.old shared.old) ends.target.0 ≡ true }
        ensures id { IfOk result
            (λ id. id.0 ≡ (graph_of_store T.seen self.old shared.old).next_relationship) }
        ensures changes { Changes T.seen self.old shared.old self.new shared.new result
            (λ start end. OnOk result (end ≡ add_relationship kind.now ends.source.0 ends.target.0
            (set_keys (pairs_of properties.entry.items) no_entries) start)) }
        ensures marks { KeepsMarks T.seen self.old shared.old self.new shared.new }
    {
        let kind = shared.names.intern(kind)?;
        let properties = properties_of(alloc, &mut shared.names, properties)?;
        let rel = RelRecord {
            kind,
            source: ends.source,
            target: ends.target,
            properties,
        };
        self.add_rel(shared, rel)
    }

    // Adds a relationship whose names are in the table.
    fn add_rel(
        &mut self,
        shared: &mut Shared<T::Shared>,
        rel: RelRecord,
    ) -> Result<RelId, AllocError>
        requires fit { IsFit T.seen self.old shared.old }
        requires room { self.old.next.rel < 2 ^ 63 }
        requires count { self.old.elements < 2 ^ 63 }
        requires kind { rel.kind < length shared.old.names }
        requires keys { AreNamed shared.old.names (map.keys rel.properties) }
        requires source { IsSome
            (map.get (live (state_of T.seen self.old shared.old)).nodes rel.source.0) }
        requires target { IsSome
            (map.get (live (state_of T.seen self.old shared.old)).nodes rel.target.0) }
        ensures id { IfOk result
            (λ id. id.0 ≡ (graph_of_store T.seen self.old shared.old).next_relationship) }
        ensures ok { OnOk result (graph_of_store T.seen self.new shared.new
            ≡ add_relationship (text_of shared.old.names rel.kind) rel.source.0 rel.target.0
            (property_entries shared.old.names rel.properties)
            (graph_of_store T.seen self.old shared.old)) }
        ensures err { OnErr result (graph_of_store T.seen self.new shared.new
            ≡ graph_of_store T.seen self.old shared.old) }
        ensures marks { KeepsMarks T.seen self.old shared.old self.new shared.new }
        ensures fit { IsFit T.seen self.new shared.new }
        ensures keeps { KeepsShared T.seen self.old shared.old self.new shared.new }
    {
        self.journal.reserve(1)?;
        let id = RelId(self.next.rel);
        self.tables.add_rel(&mut shared.tables, id, rel)?;
        self.next.rel += 1;
        self.elements += 1;
        self.journal.push_reserved(Entry::RelAdded);
        Ok(id)
    }
}
