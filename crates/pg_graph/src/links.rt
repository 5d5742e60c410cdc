//! Which relationships each node has.
ghost use Rattle.std.specs.Prelude.{◌≡◌, ◌==◌, [], ℕ, Some, None, OnOk, OnErr, IsSome, if◌then◌else◌};
ghost use Rattle.std.specs.Ordering.{nat_cmp};
ghost use Rattle.std.specs.FinMap as map;
ghost use Rattle.pg_graph.specs.Content.{outgoing_of, incoming_of};
ghost use Rattle.pg_graph.specs.Links.{with_id, without_id, links_at, numbers, AllRise, IsIncidence};
ghost use Rattle.pg_graph.specs.Sorted.{Rises};
ghost use Rattle.pg_graph.specs.declared.records.RelRecord.{RelRecord};

use crate::by_id::ById;
use crate::sorted;
use crate::sorted::Numbered;
use pg_value_core::{NodeId, RelId};
use smallvec::SmallVec;
use std::alloc::{AllocError, Global};

/// A rising list of ids for each node that has any.
pub struct Links {
    alloc: Global,
    lists: ById<SmallVec<RelId, 2>>,
}

// Written out, since a derived one is proved anew in each function that may let such a value go.
impl Drop for Links {
    fn drop(self) {
        let Links { alloc: _, lists: _ } = self;
    }
}

impl Links {
    fn new(alloc: Global) -> Self
        ensures { (node : ℕ) → links_at result node ≡ [] }
    {
        Links {
            alloc,
            lists: ById::new(alloc),
        }
    }

    fn get(&self, node: u64) -> &[RelId]
        ensures { numbers result.now ≡ links_at self.now node }
    {
        match self.lists.get(node) {
            Some(ids) => ids.as_slice(),
            None => &[],
        }
    }

    fn add(&mut self, node: u64, id: RelId) -> Result<(), AllocError>
        requires { AllRise self.old }
        ensures ok { OnOk result ((q : ℕ) → links_at self.new q
            ≡ (if q == node then with_id id.0 (links_at self.old q) else links_at self.old q)) }
        ensures err { OnErr result ((q : ℕ) → links_at self.new q ≡ links_at self.old q) }
    {
        if self.lists.get(node).is_none() {
            let mut ids = SmallVec::new(self.alloc);
            ids.push(id)?;
            return self.lists.insert(node, ids);
        }
        let mut ids = self.lists.replace(node, SmallVec::new(self.alloc));
        let added = sorted::put(&mut ids, id);
        self.lists.replace(node, ids);
        added
    }

    fn remove(&mut self, node: u64, id: RelId)
        requires { AllRise self.old }
        ensures { (q : ℕ)
            → links_at self.new q
            ≡ (if q == node then without_id id.0 (links_at self.old q) else links_at self.old q) }
    {
        if self.lists.get(node).is_some() {
            let mut ids = self.lists.replace(node, SmallVec::new(self.alloc));
            sorted::remove(&mut ids, id.number());
            self.keep(node, ids);
        }
    }

    // Gives a node that has a list another one. Nothing is kept for an empty list.
    fn keep(&mut self, node: u64, ids: SmallVec<RelId, 2>)
        requires { IsSome (map.get self.old.lists node) }
        ensures { (q : ℕ)
            → links_at self.new q ≡ (if q == node then numbers ids.items else links_at self.old q) }
    {
        if ids.is_empty() {
            self.lists.remove(node);
            return;
        }
        self.lists.replace(node, ids);
    }
}

/// The ids of the relationships from each node and to it.
#[derive(Drop)]
pub struct Incidence {
    outgoing: Links,
    incoming: Links,
}

impl Incidence {
    /// The links of a graph without relationships.
    pub fn new(alloc: Global) -> Self
        ensures { IsIncidence result map.empty }
    {
        Incidence {
            outgoing: Links::new(alloc),
            incoming: Links::new(alloc),
        }
    }

    /// The relationships that leave a node, the oldest first; a relationship from a node to itself
    /// is among them.
    pub fn outgoing(&self, node: NodeId) -> &[RelId]
        ensures { (rels : map.FinMap nat_cmp RelRecord)
            → IsIncidence self.now rels → numbers result.now ≡ outgoing_of rels node.0 }
    {
        self.outgoing.get(node.0)
    }

    /// The relationships that come to a node, the oldest first; a relationship from a node to
    /// itself is among them.
    pub fn incoming(&self, node: NodeId) -> &[RelId]
        ensures { (rels : map.FinMap nat_cmp RelRecord)
            → IsIncidence self.now rels → numbers result.now ≡ incoming_of rels node.0 }
    {
        self.incoming.get(node.0)
    }

    /// Adds a relationship under a new id.
    pub fn add(&mut self, id: RelId, source: NodeId, target: NodeId) -> Result<(), AllocError>
        requires outgoing { AllRise self.old.outgoing }
        requires incoming { AllRise self.old.incoming }
        ensures ok { OnOk result ((rels : map.FinMap nat_cmp RelRecord) (rel : RelRecord)
            → rel.source ≡ source → rel.target ≡ target → map.get rels id.0 ≡ None
            → IsIncidence self.old rels → IsIncidence self.new (map.insert rels id.0 rel)) }
        ensures err { OnErr result ((rels : map.FinMap nat_cmp RelRecord)
            → map.get rels id.0 ≡ None → IsIncidence self.old rels → IsIncidence self.new rels) }
    {
        self.outgoing.add(source.0, id)?;
        if let Err(e) = self.incoming.add(target.0, id) {
            self.outgoing.remove(source.0, id);
            return Err(e);
        }
        Ok(())
    }

    /// Takes a relationship out.
    pub fn remove(&mut self, id: RelId, source: NodeId, target: NodeId)
        requires outgoing { AllRise self.old.outgoing }
        requires incoming { AllRise self.old.incoming }
        ensures { (rels : map.FinMap nat_cmp RelRecord) (rel : RelRecord)
            → rel.source ≡ source → rel.target ≡ target → map.get rels id.0 ≡ Some rel
            → IsIncidence self.old rels → IsIncidence self.new (map.remove rels id.0) }
    {
        self.outgoing.remove(source.0, id);
        self.incoming.remove(target.0, id);
    }
}
