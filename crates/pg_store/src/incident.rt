//! The relationships at a node.
ghost use Rattle.std.specs.Prelude.{◌≡◌, ◌∷◌, [], IfSome, IfNone};
ghost use Rattle.pg_graph.specs.Links.{numbers};
ghost use Rattle.pg_graph.specs.Removed.{live_ids};
ghost use Rattle.pg_meaning.specs.Graph.{both, incident, incoming, outgoing};

use crate::graph_view::GraphView;
use pg_graph::{IdSet, Tables};
use pg_value_core::{NodeId, RelId};
use std::cmp::Ordering;
use std::marker::Model;

// Ids from two rising lists, seen as what is still to come of both.
#[derive(Drop)]
struct Merged<'a> {
    outgoing: &'a [RelId],
    incoming: &'a [RelId],
}

impl<'a> Model for Merged<'a> {
    ghost use Rattle.std.specs.Prelude.{ℕ, List};
    ghost use Rattle.pg_graph.specs.Links.{numbers};
    ghost use Rattle.pg_store.specs.Merged.{merged};

    ghost Value = { List ℕ };

    ghost view = { λ m. merged (numbers m.outgoing.now) (numbers m.incoming.now) };
}

impl<'a> Merged<'a> {
    // The next id, if there is one more.
    fn next(&mut self) -> Option<RelId>
        ensures some { IfSome result (λ id. self.old ≡ id.0 ∷ self.new) }
        ensures none { IfNone result (self.old ≡ []) }
    {
        match (self.outgoing.split_first(), self.incoming.split_first()) {
            (Some((out, others)), Some((into, rest))) => match out.0.cmp(&into.0) {
                Ordering::Less => {
                    self.outgoing = others;
                    Some(*out)
                }
                Ordering::Equal => {
                    self.outgoing = others;
                    self.incoming = rest;
                    Some(*out)
                }
                Ordering::Greater => {
                    self.incoming = rest;
                    Some(*into)
                }
            },
            (Some((out, others)), None) => {
                self.outgoing = others;
                Some(*out)
            }
            (None, Some((into, rest))) => {
                self.incoming = rest;
                Some(*into)
            }
            (None, None) => None,
        }
    }
}

/// Ids of relationships, seen as the list of those that are still to come.
#[derive(Drop)]
pub struct Incident<'a> {
    ids: Merged<'a>,
    gone: &'a IdSet,
}

impl<'a> Model for Incident<'a> {
    ghost use Rattle.std.specs.Prelude.{ℕ, List};
    ghost use Rattle.pg_graph.specs.Removed.{live_ids};

    ghost Value = { List ℕ };

    ghost view = { λ i. live_ids i.gone.now i.ids };
}

impl<'a> Incident<'a> {
    /// The next id, if there is one more.
    #[inline(always)]
    pub fn next(&mut self) -> Option<RelId>
        ensures some { IfSome result (λ id. self.old ≡ id.0 ∷ self.new) }
        ensures none { IfNone result (self.old ≡ []) }
    {
        // what was removed stays in the lists until the work is kept
        while let Some(id) = self.ids.next() {
            if !self.gone.contains(id.0) {
                return Some(id);
            }
        }
        None
    }
}

impl<'a, T: Tables> GraphView<'a, T> {
    /// The relationships from a node, rising.
    pub fn outgoing(&self, node: NodeId) -> Incident<'a>
        ensures { result ≡ incident outgoing node.0 self.now }
    {
        Incident {
            ids: Merged {
                outgoing: self.store.tables.outgoing(&self.shared.tables, node),
                incoming: &[],
            },
            gone: &self.store.gone_rels,
        }
    }

    /// The relationships to a node, rising.
    pub fn incoming(&self, node: NodeId) -> Incident<'a>
        ensures { result ≡ incident incoming node.0 self.now }
    {
        Incident {
            ids: Merged {
                outgoing: &[],
                incoming: self.store.tables.incoming(&self.shared.tables, node),
            },
            gone: &self.store.gone_rels,
        }
    }

    /// The relationships at a node, whichever way they go, rising, a self-loop once.
    pub fn incident(&self, node: NodeId) -> Incident<'a>
        ensures { result ≡ incident both node.0 self.now }
    {
        Incident {
            ids: Merged {
                outgoing: self.store.tables.outgoing(&self.shared.tables, node),
                incoming: self.store.tables.incoming(&self.shared.tables, node),
            },
            gone: &self.store.gone_rels,
        }
    }
}
