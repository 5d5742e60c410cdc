//! Tables of nodes and relationships, as a trait over what several tables share.
ghost use Rattle.std.specs.Prelude.{◌≡◌, ◌≢◌, ℕ, [], Option, None, Some, OnOk, OnErr, IsSome, option_copied};
ghost use Rattle.std.specs.FinMap as map;
ghost use Rattle.std.specs.Option.{option_map};
ghost use Rattle.pg_graph.specs.Content.{Content, empty_content, with_node, without_node, with_rel, with_rel_properties, without_rel, outgoing_of, incoming_of, Seen, Keeps};
ghost use Rattle.pg_graph.specs.Links.{numbers};

use crate::properties::Properties;
use crate::records::{NodeRecord, RelRecord};
use pg_names::TextSet;
use pg_value_core::{NodeId, RelId};
use std::alloc::{AllocError, Global};

/// What tables share. The labels, types and keys of their records are numbers of a table of names that lies beside it.
pub trait SharedPart: Drop {
    /// The set in which that table keeps its texts.
    type Texts: TextSet;
}

/// One owner's nodes and relationships, kept in a value of this type and in a part that it shares
/// with the tables of other owners.
pub trait Tables: Drop {
    /// What the tables of all owners share. Each call of one tables value is lent the same one.
    type Shared: SharedPart;

    /// How the tables are seen over the shared part.
    ghost seen: { Seen Self Self.Shared };

    /// A shared part that no tables use.
    fn new_shared(alloc: Global) -> Self::Shared
        ensures unused { (owner : ℕ) → seen.is_unused owner result };

    /// Empty tables, over any shared part that has none of this owner.
    fn new(alloc: Global, owner: u32) -> Self
        ensures owner { seen.owner result ≡ owner }
        ensures fits { (shared : Self.Shared)
            → seen.is_unused owner shared → seen.fits result shared }
        ensures empty { (shared : Self.Shared)
            → seen.is_unused owner shared → seen.content result shared ≡ empty_content };

    /// A node's record, if there is such a node.
    fn node<'a>(&'a self, shared: &'a Self::Shared, id: NodeId) -> Option<&'a NodeRecord>
        requires { seen.fits self.now shared.now }
        ensures { option_copied result ≡ map.get (seen.content self.now shared.now).nodes id.0 };

    /// A relationship's record, if there is such a relationship.
    fn rel<'a>(&'a self, shared: &'a Self::Shared, id: RelId) -> Option<&'a RelRecord>
        requires { seen.fits self.now shared.now }
        ensures { option_copied result ≡ map.get (seen.content self.now shared.now).rels id.0 };

    /// The ids of the relationships from a node, rising.
    fn outgoing<'a>(&'a self, shared: &'a Self::Shared, node: NodeId) -> &'a [RelId]
        requires { seen.fits self.now shared.now }
        ensures { numbers result.now ≡ outgoing_of (seen.content self.now shared.now).rels node.0 };

    /// The ids of the relationships to a node, rising.
    fn incoming<'a>(&'a self, shared: &'a Self::Shared, node: NodeId) -> &'a [RelId]
        requires { seen.fits self.now shared.now }
        ensures { numbers result.now ≡ incoming_of (seen.content self.now shared.now).rels node.0 };

    /// Adds a node under an id that has none.
    fn add_node(
        &mut self,
        shared: &mut Self::Shared,
        id: NodeId,
        node: NodeRecord,
    ) -> Result<(), AllocError>
        requires fits { seen.fits self.old shared.old }
        requires absent { map.get (seen.content self.old shared.old).nodes id.0 ≡ None }
        ensures ok { OnOk result (seen.content self.new shared.new
            ≡ with_node (seen.content self.old shared.old) id.0 node) }
        ensures err { OnErr result
            (seen.content self.new shared.new ≡ seen.content self.old shared.old) }
        ensures keeps { Keeps seen self.old shared.old self.new shared.new };

    /// Adds a relationship between nodes that are there, under an id that has none.
    fn add_rel(
        &mut self,
        shared: &mut Self::Shared,
        id: RelId,
        rel: RelRecord,
    ) -> Result<(), AllocError>
        requires fits { seen.fits self.old shared.old }
        requires absent { map.get (seen.content self.old shared.old).rels id.0 ≡ None }
        requires source { IsSome (map.get (seen.content self.old shared.old).nodes rel.source.0) }
        requires target { IsSome (map.get (seen.content self.old shared.old).nodes rel.target.0) }
        ensures ok { OnOk result (seen.content self.new shared.new
            ≡ with_rel (seen.content self.old shared.old) id.0 rel) }
        ensures err { OnErr result
            (seen.content self.new shared.new ≡ seen.content self.old shared.old) }
        ensures keeps { Keeps seen self.old shared.old self.new shared.new };

    /// Gives a node another record, and returns the one before.
    fn change(&mut self, shared: &mut Self::Shared, id: NodeId, node: NodeRecord) -> NodeRecord
        requires fits { seen.fits self.old shared.old }
        requires present { IsSome (map.get (seen.content self.old shared.old).nodes id.0) }
        ensures before { map.get (seen.content self.old shared.old).nodes id.0 ≡ Some result }
        ensures changed { seen.content self.new shared.new
            ≡ with_node (seen.content self.old shared.old) id.0 node }
        ensures keeps { Keeps seen self.old shared.old self.new shared.new };

    /// Gives a relationship other properties, and returns those before. Its type and ends stay.
    fn change_rel(
        &mut self,
        shared: &mut Self::Shared,
        id: RelId,
        properties: Properties,
    ) -> Properties
        requires fits { seen.fits self.old shared.old }
        requires present { IsSome (map.get (seen.content self.old shared.old).rels id.0) }
        ensures before { option_map
            (λ r. r.properties) (map.get (seen.content self.old shared.old).rels id.0)
            ≡ Some result }
        ensures changed { seen.content self.new shared.new
            ≡ with_rel_properties (seen.content self.old shared.old) id.0 properties }
        ensures keeps { Keeps seen self.old shared.old self.new shared.new };

    /// Takes a relationship out.
    fn drop_rel(&mut self, shared: &mut Self::Shared, id: RelId)
        requires fits { seen.fits self.old shared.old }
        requires present { IsSome (map.get (seen.content self.old shared.old).rels id.0) }
        ensures dropped { seen.content self.new shared.new
            ≡ without_rel (seen.content self.old shared.old) id.0 }
        ensures keeps { Keeps seen self.old shared.old self.new shared.new };

    /// Takes a node out, which has no relationships.
    fn drop_node(&mut self, shared: &mut Self::Shared, id: NodeId)
        requires fits { seen.fits self.old shared.old }
        requires present { IsSome (map.get (seen.content self.old shared.old).nodes id.0) }
        requires no_outgoing { outgoing_of (seen.content self.old shared.old).rels id.0 ≡ [] }
        requires no_incoming { incoming_of (seen.content self.old shared.old).rels id.0 ≡ [] }
        ensures dropped { seen.content self.new shared.new
            ≡ without_node (seen.content self.old shared.old) id.0 }
        ensures keeps { Keeps seen self.old shared.old self.new shared.new };
}
