//! The records of all owners.
ghost use Rattle.std.specs.Prelude.{◌≡◌, ℕ, Some, None, option_copied};
ghost use Rattle.pg_pool.specs.Slab.{get, slab_len, ContainsKey, Updates};
ghost use Rattle.pg_pool.specs.Records.{node_in, rel_in, identity_of, node_record, rel_record};

use crate::slab::{Slab, Slot};
use pg_graph::{NodeRecord, RelRecord};
use pg_value_core::{NodeId, RelId};
use std::alloc::Global;
use std::marker::PhantomData;
use std::snapshot::Snapshot;

/// Whose a record is, and the id of its node or relationship.
#[derive(Clone, Copy)]
pub struct Identity {
    pub owner: u32,
    pub id: u64,
}

/// What an owner keeps under an id. Only clauses read the identity: it takes no memory.
#[derive(Drop)]
pub enum Record {
    Node {
        identity: Snapshot<Identity>,
        node: NodeRecord,
    },
    Rel {
        identity: Snapshot<Identity>,
        rel: RelRecord,
    },
}

/// Where a record lies. It has the record's own parts, and no record as a whole: so it needs no tag
/// beside the record's.
#[derive(Drop)]
pub(crate) enum RecordSlot {
    Node {
        identity: Snapshot<Identity>,
        node: NodeRecord,
    },
    Rel {
        identity: Snapshot<Identity>,
        rel: RelRecord,
    },
    Vacant {
        next: u32,
    },
}

impl Record {
    /// An owner's node.
    pub(crate) fn node(owner: u32, id: NodeId, node: NodeRecord) -> Record
        ensures { result ≡ node_record owner id.0 node }
    {
        let identity = remember(owner, id.0);
        Record::Node { identity, node }
    }

    /// An owner's relationship.
    pub(crate) fn rel(owner: u32, id: RelId, rel: RelRecord) -> Record
        ensures { result ≡ rel_record owner id.0 rel }
    {
        let identity = remember(owner, id.0);
        Record::Rel { identity, rel }
    }
}

fn remember(owner: u32, id: u64) -> Snapshot<Identity>
    ensures { result ≡ identity_of owner id }
{
    Snapshot::of(&Identity { owner, id })
}

impl Slot<Record> for RecordSlot {
    ghost use Rattle.pg_pool.specs.Places.{record_of};

    ghost held = { record_of };

    #[inline(always)]
    fn occupied(value: Record) -> RecordSlot {
        match value {
            Record::Node { identity, node } => RecordSlot::Node { identity, node },
            Record::Rel { identity, rel } => RecordSlot::Rel { identity, rel },
        }
    }

    #[inline(always)]
    fn vacant(next: u32) -> RecordSlot {
        RecordSlot::Vacant { next }
    }

    #[inline(always)]
    fn next(&self) -> Option<u32> {
        match self {
            RecordSlot::Vacant { next } => Some(*next),
            _ => None,
        }
    }

    #[inline(always)]
    fn into_value(self) -> Option<Record> {
        match self {
            RecordSlot::Node { identity, node } => Some(Record::Node { identity, node }),
            RecordSlot::Rel { identity, rel } => Some(Record::Rel { identity, rel }),
            RecordSlot::Vacant { next: _ } => None,
        }
    }
}

/// The records of all owners, each in a slot that the next record takes once this one is gone. The names that stand
/// beside them keep their texts in a set `K`.
#[derive(Drop)]
pub struct Pool<K> {
    pub(crate) records: Slab<Record, RecordSlot>,
    texts: PhantomData<K>,
}

impl<K> Pool<K> {
    pub(crate) fn new(alloc: Global) -> Self
        ensures { (key : ℕ) → get result.records key ≡ None }
    {
        Pool {
            records: Slab::new(alloc),
            texts: PhantomData,
        }
    }

    /// How many records there are, of all owners together.
    pub fn len(&self) -> usize
        ensures { result ≡ slab_len self.now.records }
    {
        self.records.len()
    }

    pub(crate) fn node(&self, key: usize) -> Option<&NodeRecord>
        requires { ContainsKey self.now.records key }
        ensures { option_copied result ≡ node_in (get self.now.records key) }
    {
        match self.records.slot(key) {
            RecordSlot::Node { node, .. } => Some(node),
            _ => None,
        }
    }

    pub(crate) fn rel(&self, key: usize) -> Option<&RelRecord>
        requires { ContainsKey self.now.records key }
        ensures { option_copied result ≡ rel_in (get self.now.records key) }
    {
        match self.records.slot(key) {
            RecordSlot::Rel { rel, .. } => Some(rel),
            _ => None,
        }
    }

    /// Puts a record in the place of another, and returns that one.
    pub(crate) fn replace(&mut self, key: usize, next: Record) -> Record
        requires { ContainsKey self.old.records key }
        ensures before { get self.old.records key ≡ Some result }
        ensures replaced { Updates self.old.records self.new.records key (Some next) }
    {
        self.records.replace(key, next)
    }
}
