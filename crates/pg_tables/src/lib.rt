//! Tables that share nothing: each has its own maps.
#![tactic(auto)]

ghost use Rattle.std.specs.FinMap as map;
ghost use Rattle.pg_graph.specs.Content.{Content};
ghost use Rattle.pg_graph.specs.Links.{IsIncidence};

use pg_graph::{ById, Incidence, NodeRecord, Properties, RelRecord, SharedPart, Tables};
use pg_names::TextSet;
use pg_value_core::{NodeId, RelId};
use std::alloc::{AllocError, Global};
use std::marker::PhantomData;

/// One owner's nodes and relationships, in maps of its own, beside names whose texts are kept in a set `K`.
#[derive(Drop)]
pub struct PlainTables<K> {
    owner: u32,
    nodes: ById<NodeRecord>,
    rels: ById<RelRecord>,
    incidence: Incidence,
    texts: PhantomData<K>,
}

/// What plain tables share: nothing.
#[derive(Drop)]
pub struct Nothing<K> {
    texts: PhantomData<K>,
}

impl<K: TextSet> SharedPart for Nothing<K> {
    type Texts = K;
}

impl<K: TextSet> Tables for PlainTables<K> {
    type Shared = Nothing<K>;

    ghost seen = { record {
      owner = λ t. t.owner;
      fits = λ t _. IsIncidence t.incidence t.rels;
      content = λ t _. record { nodes = t.nodes; rels = t.rels };
      is_unused = λ _ _. Unit {0};
    } };

    fn new_shared(_alloc: Global) -> Nothing<K> {
        Nothing { texts: PhantomData }
    }

    fn new(alloc: Global, owner: u32) -> Self {
        PlainTables {
            owner,
            nodes: ById::new(alloc),
            rels: ById::new(alloc),
            incidence: Incidence::new(alloc),
            texts: PhantomData,
        }
    }

    fn node<'a>(&'a self, _shared: &'a Nothing<K>, id: NodeId) -> Option<&'a NodeRecord> {
        self.nodes.get(id.0)
    }

    fn rel<'a>(&'a self, _shared: &'a Nothing<K>, id: RelId) -> Option<&'a RelRecord> {
        self.rels.get(id.0)
    }

    fn outgoing<'a>(&'a self, _shared: &'a Nothing<K>, node: NodeId) -> &'a [RelId] {
        self.incidence.outgoing(node)
    }

    fn incoming<'a>(&'a self, _shared: &'a Nothing<K>, node: NodeId) -> &'a [RelId] {
        self.incidence.incoming(node)
    }

    fn add_node(
        &mut self,
        _shared: &mut Nothing<K>,
        id: NodeId,
        node: NodeRecord,
    ) -> Result<(), AllocError> {
        self.nodes.insert(id.0, node)
    }

    fn add_rel(
        &mut self,
        _shared: &mut Nothing<K>,
        id: RelId,
        rel: RelRecord,
    ) -> Result<(), AllocError> {
        let source = rel.source;
        let target = rel.target;
        self.incidence.add(id, source, target)?;
        if let Err(e) = self.rels.insert(id.0, rel) {
            self.incidence.remove(id, source, target);
            return Err(e);
        }
        Ok(())
    }

    fn change(&mut self, _shared: &mut Nothing<K>, id: NodeId, node: NodeRecord) -> NodeRecord {
        self.nodes.replace(id.0, node)
    }

    fn change_rel(
        &mut self,
        _shared: &mut Nothing<K>,
        id: RelId,
        properties: Properties,
    ) -> Properties {
        let rel = self.rels.get(id.0).unwrap().with_properties(properties);
        let RelRecord { properties, .. } = self.rels.replace(id.0, rel);
        properties
    }

    fn drop_rel(&mut self, _shared: &mut Nothing<K>, id: RelId) {
        let rel = self.rels.remove(id.0);
        self.incidence.remove(id, rel.source, rel.target);
    }

    fn drop_node(&mut self, _shared: &mut Nothing<K>, id: NodeId) {
        drop(self.nodes.remove(id.0));
    }
}
