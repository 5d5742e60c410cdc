//! One node and one relationship, lent to read.
ghost use Rattle.std.specs.Prelude.{◌≡◌, true, map as map_list, bytes_eq, string_bytes, IfOk, IfSome};
ghost use Rattle.std.specs.Option.{option_map};
ghost use Rattle.pg_meaning.specs.Entries.{at_key};
ghost use Rattle.pg_meaning.specs.Graph.{has_node, node_at, other_end, relationship_at};
ghost use Rattle.pg_meaning.specs.Names.{is_among};
ghost use Rattle.pg_graph.specs.InOrder.{listed_entries};
ghost use Rattle.pg_graph.specs.Refinement.{node_of, relationship_of};
ghost use Rattle.pg_store.specs.Stores.{node_texts_view, rel_texts_view};
ghost use Rattle.pg_store.specs.Views.{IsNamedNode, IsNamedRel};
ghost use Rattle.pg_value_core.specs.View.{view};

use crate::graph_view::GraphView;
use crate::shared::Shared;
use crate::texts::{NodeTexts, RelTexts, strings_of};
use pg_graph::{NodeRecord, RelRecord, Tables};
use pg_texts::same_text;
use pg_value_core::{NodeId, RelId, Value};
use std::alloc::{AllocError, Global};
use std::marker::Model;

/// A node, to read.
#[derive(Drop)]
pub struct NodeView<'a, T: Tables> {
    shared: &'a Shared<T::Shared>,
    record: &'a NodeRecord,
}

impl<'a, T: Tables> Model for NodeView<'a, T> {
    ghost use Rattle.pg_graph.specs.Refinement.{node_of};
    ghost use Rattle.pg_meaning.specs.Graph.{Node};
    ghost use Rattle.pg_store.specs.GraphCode.{node_code};
    ghost use Rattle.pg_store.specs.Views.{IsNamedNode};

    ghost Value = { Node };

    ghost coded = { node_code };

    ghost view = { λ n. node_of n.shared.now.names n.record.now };

    ghost invariant = { λ n. IsNamedNode n.shared.now.names n.record.now };
}

impl<'a, T: Tables> NodeView<'a, T> {
    // The record of a node as one to read.
    pub(crate) fn of(shared: &'a Shared<T::Shared>, node: &'a NodeRecord) -> Self
        requires { IsNamedNode shared.now.names node.now }
        ensures { result ≡ node_of shared.now.names node.now }
    {
        NodeView {
            shared,
            record: node,
        }
    }

    /// Whether the node has a label, by its exact text.
    pub fn has_label(&self, label: &str) -> bool
        ensures { result ≡ is_among self.now.labels label.now }
    {
        self.record.labels.contains_text(&self.shared.names, label)
    }

    /// What the node has under a key.
    pub fn property(&self, key: &str) -> Option<&'a Value>
        ensures { option_map (λ v. view v.now) result ≡ at_key key.now self.now.properties }
    {
        self.record.properties.get_text(&self.shared.names, key)
    }

    /// The labels, in byte order.
    pub fn labels(&self, alloc: Global) -> Result<Vec<&'a str>, AllocError>
        ensures { IfOk result (λ texts. map_list (λ t. t.now) texts.items ≡ self.now.labels) }
    {
        self.record.labels.texts(alloc, &self.shared.names)
    }

    /// The labels, in byte order, in memory of their own.
    pub fn label_texts(&self, alloc: Global) -> Result<Vec<String>, AllocError>
        ensures { IfOk result (λ texts. map_list string_bytes texts.items ≡ self.now.labels) }
    {
        strings_of(alloc, &self.labels(alloc)?)
    }

    /// The properties in the byte order of their keys, lent.
    pub fn properties(&self, alloc: Global) -> Result<Vec<(&'a str, &'a Value)>, AllocError>
        ensures { IfOk result (λ found. listed_entries found.items ≡ self.now.properties) }
    {
        self.record.properties.in_order(alloc, &self.shared.names)
    }

    /// What the node holds, in memory of its own.
    pub fn texts(&self, alloc: Global) -> Result<NodeTexts, AllocError>
        ensures { IfOk result (λ texts. node_texts_view texts ≡ self.now) }
    {
        let labels = self.label_texts(alloc)?;
        let properties = self.record.properties.by_text(alloc, &self.shared.names)?;
        Ok(NodeTexts { labels, properties })
    }
}

/// A relationship, to read.
#[derive(Drop)]
pub struct RelView<'a, T: Tables> {
    shared: &'a Shared<T::Shared>,
    record: &'a RelRecord,
}

impl<'a, T: Tables> Model for RelView<'a, T> {
    ghost use Rattle.pg_graph.specs.Refinement.{relationship_of};
    ghost use Rattle.pg_meaning.specs.Graph.{Relationship};
    ghost use Rattle.pg_store.specs.GraphCode.{relationship_code};
    ghost use Rattle.pg_store.specs.Views.{IsNamedRel};

    ghost Value = { Relationship };

    ghost coded = { relationship_code };

    ghost view = { λ r. relationship_of r.shared.now.names r.record.now };

    ghost invariant = { λ r. IsNamedRel r.shared.now.names r.record.now };
}

impl<'a, T: Tables> RelView<'a, T> {
    // The record of a relationship as one to read.
    #[inline(always)]
    pub(crate) fn of(shared: &'a Shared<T::Shared>, rel: &'a RelRecord) -> Self
        requires { IsNamedRel shared.now.names rel.now }
        ensures { result ≡ relationship_of shared.now.names rel.now }
    {
        RelView {
            shared,
            record: rel,
        }
    }

    /// The text of the type.
    pub fn kind(&self) -> &'a str
        ensures { result.now ≡ self.now.type }
    {
        self.shared.names.text(self.record.kind)
    }

    /// Whether the type is this text exactly.
    pub fn has_type(&self, kind: &str) -> bool
        ensures { result ≡ bytes_eq self.now.type kind.now }
    {
        same_text(self.kind(), kind)
    }

    /// The node at which the relationship begins.
    pub fn source(&self) -> NodeId
        ensures { result.0 ≡ self.now.source }
    {
        self.record.source
    }

    /// The node at which the relationship ends.
    pub fn target(&self) -> NodeId
        ensures { result.0 ≡ self.now.target }
    {
        self.record.target
    }

    /// The node to which the relationship leads from one of its ends.
    pub fn other_end(&self, at: NodeId) -> NodeId
        ensures { result.0 ≡ other_end at.0 self.now }
    {
        if self.source() == at {
            self.target()
        } else {
            self.source()
        }
    }

    /// What the relationship has under a key.
    pub fn property(&self, key: &str) -> Option<&'a Value>
        ensures { option_map (λ v. view v.now) result ≡ at_key key.now self.now.properties }
    {
        self.record.properties.get_text(&self.shared.names, key)
    }

    /// The properties in the byte order of their keys, lent.
    pub fn properties(&self, alloc: Global) -> Result<Vec<(&'a str, &'a Value)>, AllocError>
        ensures { IfOk result (λ found. listed_entries found.items ≡ self.now.properties) }
    {
        self.record.properties.in_order(alloc, &self.shared.names)
    }

    /// What the relationship holds, in memory of its own.
    pub fn texts(&self, alloc: Global) -> Result<RelTexts, AllocError>
        ensures { IfOk result (λ texts. rel_texts_view texts ≡ self.now) }
    {
        let kind = String::from_str(alloc, self.kind())?;
        let properties = self.record.properties.by_text(alloc, &self.shared.names)?;
        Ok(RelTexts {
            kind,
            source: self.record.source,
            target: self.record.target,
            properties,
        })
    }
}

impl<'a, T: Tables> GraphView<'a, T> {
    /// A node, if it is there.
    #[inline(always)]
    pub fn node(&self, id: NodeId) -> Option<NodeView<'a, T>>
        ensures { result ≡ node_at self.now id.0 }
    {
        match self.store.node(self.shared, id) {
            Some(node) => Some(NodeView {
                shared: self.shared,
                record: node,
            }),
            None => None,
        }
    }

    /// A relationship, if it is there, and so both its ends.
    #[inline(always)]
    pub fn rel(&self, id: RelId) -> Option<RelView<'a, T>>
        ensures is { result ≡ relationship_at self.now id.0 }
        ensures source { IfSome result (λ rel. has_node self.now rel.source ≡ true) }
        ensures target { IfSome result (λ rel. has_node self.now rel.target ≡ true) }
    {
        match self.store.rel(self.shared, id) {
            Some(rel) => Some(RelView {
                shared: self.shared,
                record: rel,
            }),
            None => None,
        }
    }
}
