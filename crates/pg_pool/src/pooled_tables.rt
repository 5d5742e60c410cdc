//! One owner's tables over a pool.
ghost use Rattle.std.specs.Prelude.{◌≢◌};
ghost use Rattle.pg_graph.specs.Content.{OthersStay};
ghost use Rattle.pg_pool.specs.Tables.{pooled, AreRecords, SlotsStay};

use crate::links::Incidence;
use crate::pool::{Pool, Record};
use crate::slots::Slots;
use pg_graph::{NodeRecord, Properties, RelRecord, SharedPart, Tables};
use pg_names::TextSet;
use pg_value_core::{NodeId, RelId};
use std::alloc::{AllocError, Global};
use std::marker::PhantomData;

/// One owner's nodes and relationships: the slots of their records, and the relationships at each
/// node. Names stand beside them whose texts are kept in a set `K`.
#[derive(Drop)]
pub struct PooledTables<K> {
    owner: u32,
    nodes: Slots,
    rels: Slots,
    incidence: Incidence,
    texts: PhantomData<K>,
}

impl<K: TextSet> PooledTables<K> {
    /// A change of the tables of another owner leaves each record of this one in its slot.
    pub fn law_of_slots(&self, before: &Pool<K>, after: &Pool<K>, owner: u32)
        requires fits { ⟦<PooledTables<K> as Tables>⟧.seen.fits self.now before.now }
        requires apart { self.now.owner ≢ owner }
        requires others { OthersStay ⟦<PooledTables<K> as Tables>⟧.seen owner before.now after.now }
        ensures { SlotsStay self.now.owner before.now after.now }
    {}

    /// What these tables hold is exactly their owner's records in the pool, each element in one slot.
    pub fn law_of_records(&self, pool: &Pool<K>)
        requires { ⟦<PooledTables<K> as Tables>⟧.seen.fits self.now pool.now }
        ensures { AreRecords
            (⟦<PooledTables<K> as Tables>⟧.seen.content self.now pool.now) self.now.owner pool.now }
    {}
}

impl<K: TextSet> SharedPart for Pool<K> {
    type Texts = K;
}

impl<K: TextSet> Tables for PooledTables<K> {
    type Shared = Pool<K>;

    ghost seen = { pooled };

    fn new_shared(alloc: Global) -> Pool<K> {
        Pool::new(alloc)
    }

    fn new(alloc: Global, owner: u32) -> Self {
        PooledTables {
            owner,
            nodes: Slots::new(alloc),
            rels: Slots::new(alloc),
            incidence: Incidence::new(alloc),
            texts: PhantomData,
        }
    }

    fn node<'a>(&'a self, shared: &'a Pool<K>, id: NodeId) -> Option<&'a NodeRecord> {
        let key = self.nodes.get(id.0)?;
        shared.node(key)
    }

    fn rel<'a>(&'a self, shared: &'a Pool<K>, id: RelId) -> Option<&'a RelRecord> {
        let key = self.rels.get(id.0)?;
        shared.rel(key)
    }

    fn outgoing<'a>(&'a self, _shared: &'a Pool<K>, node: NodeId) -> &'a [RelId] {
        self.incidence.outgoing(node)
    }

    fn incoming<'a>(&'a self, _shared: &'a Pool<K>, node: NodeId) -> &'a [RelId] {
        self.incidence.incoming(node)
    }

    fn add_node(
        &mut self,
        shared: &mut Pool<K>,
        id: NodeId,
        node: NodeRecord,
    ) -> Result<(), AllocError> {
        let key = shared.records.reserve()?;
        self.nodes.insert(id.0, key)?;
        shared.records.put(key, Record::node(self.owner, id, node));
        Ok(())
    }

    fn add_rel(
        &mut self,
        shared: &mut Pool<K>,
        id: RelId,
        rel: RelRecord,
    ) -> Result<(), AllocError> {
        let key = shared.records.reserve()?;
        self.rels.insert(id.0, key)?;
        if let Err(e) = self.incidence.add(id, rel.source, rel.target) {
            self.rels.remove(id.0);
            return Err(e);
        }
        shared.records.put(key, Record::rel(self.owner, id, rel));
        Ok(())
    }

    fn change(&mut self, shared: &mut Pool<K>, id: NodeId, node: NodeRecord) -> NodeRecord {
        let key = self.nodes.get(id.0).unwrap();
        match shared.replace(key, Record::node(self.owner, id, node)) {
            Record::Node { node: before, .. } => before,
            Record::Rel { .. } => unreachable!(),
        }
    }

    fn change_rel(
        &mut self,
        shared: &mut Pool<K>,
        id: RelId,
        properties: Properties,
    ) -> Properties {
        let key = self.rels.get(id.0).unwrap();
        let rel = shared.rel(key).unwrap().with_properties(properties);
        match shared.replace(key, Record::rel(self.owner, id, rel)) {
            Record::Rel { rel: before, .. } => {
                let RelRecord { properties, .. } = before;
                properties
            }
            Record::Node { .. } => unreachable!(),
        }
    }

    fn drop_rel(&mut self, shared: &mut Pool<K>, id: RelId) {
        let key = self.rels.remove(id.0);
        match shared.records.remove(key) {
            Record::Rel { rel, .. } => self.incidence.remove(id, rel.source, rel.target),
            Record::Node { .. } => unreachable!(),
        }
    }

    fn drop_node(&mut self, shared: &mut Pool<K>, id: NodeId) {
        let key = self.nodes.remove(id.0);
        drop(shared.records.remove(key));
    }
}
