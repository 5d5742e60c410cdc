//! The sets of ids by which nodes are found: all of them, those of each label, and those of property
//! indexes.
ghost use Rattle.std.specs.Prelude.{◌≡◌, ◌==◌, ◌&&◌, ◌<◌, ◌++◌, ◌∷◌, [], ℕ, Option, true, false, not, filter, length, OnOk, OnErr, IfSome};
ghost use Rattle.pg_graph.specs.Removed.{has_id};
ghost use Rattle.pg_graph.specs.Stored.{has_number};
ghost use Rattle.pg_graph.specs.declared.records.NodeRecord.{NodeRecord};
ghost use Rattle.std.specs.FinMap as map;

use crate::notes::{note_arrivals, note_labels, note_values};
use crate::wanted::Place;
use pg_graph::{IdSet, Labels, NodeRecord};
use pg_index::{Index, PropertyIndex, index_of, insert_in_each, position_of, remove_valued};
use pg_names::NameId;
use pg_value_core::Value;
use std::alloc::{AllocError, Global};

/// Sets that have each node under its labels, and perhaps some that are no longer there.
#[derive(Drop)]
pub struct Sets {
    pub(crate) alloc: Global,
    pub(crate) all: IdSet,
    pub(crate) labels: Index<u64>,
    pub(crate) indexes: Vec<PropertyIndex>,
    pub(crate) stale_ids: Vec<(Place, u64)>,
    pub(crate) none: IdSet,
    ghost none_is_empty: { none ≡ map.empty },
}

impl Sets {
    ghost use Rattle.std.specs.Ordering.{nat_cmp};
    ghost use Rattle.pg_index.specs.Index.{ids_at};
    ghost use Rattle.pg_index.specs.Properties.{all_find, has_pair, is_found_by, pairs_of};
    ghost use Rattle.pg_store.specs.Covers.{FindAlike, Key, label_set_key, with_label, with_value, belongs, has_in};
    ghost use Rattle.pg_store.specs.Noted.{Gains, is_in, is_noted, same_key};
    ghost use Rattle.pg_store.specs.Wanted.{place_key};
    ghost use Rattle.pg_value_core.specs.declared.value.Value as code;

    pub(crate) fn new(alloc: Global) -> Self
        ensures none { (k : Key) (i : ℕ) → is_in result k i ≡ false }
        ensures stale_ids { result.stale_ids.items ≡ [] }
        ensures no_index { result.indexes.items ≡ [] }
    {
        Sets {
            alloc,
            all: IdSet::new(alloc),
            labels: Index::new(alloc),
            indexes: Vec::new(alloc),
            stale_ids: Vec::new(alloc),
            none: IdSet::new(alloc),
        }
    }

    // The ids of the nodes with a label, and perhaps of others.
    pub(crate) fn labelled(&self, label: NameId) -> &IdSet
        ensures { result.now ≡ ids_at nat_cmp self.now.labels label }
    {
        match self.labels.get(&label.as_u64()) {
            Some(ids) => ids,
            None => &self.none,
        }
    }

    // Puts an id under a label. What is new there is swept if it does not belong.
    pub(crate) fn insert_label(&mut self, label: NameId, id: u64) -> Result<(), AllocError>
        ensures grown { (k : Key) (i : ℕ)
            → has_in self.old k i ≡ true → has_in self.new k i ≡ true }
        ensures gains { Gains self.old self.new }
        ensures ok { OnOk result (has_in self.new (with_label label) id ≡ true) }
    {
        if self.labelled(label).contains(id) {
            return Ok(());
        }
        self.stale_ids.push((Place::Labelled(label), id))?;
        self.labels.insert_id(label.as_u64(), id)
    }

    // Puts a node's id into the set of all nodes and into those of its labels.
    fn insert_labels(&mut self, labels: &Labels, id: u64) -> Result<(), AllocError>
        ensures grown { (k : Key) (i : ℕ)
            → has_in self.old k i ≡ true → has_in self.new k i ≡ true }
        ensures gains { Gains self.old self.new }
        ensures ok { OnOk result ((n : NodeRecord) (k : Option ℕ) → n.labels ≡ labels.now
            → has_number k n ≡ true → has_in self.new (label_set_key k) id ≡ true) }
    {
        for label in labels.as_slice() {
            self.insert_label(*label, id)?;
        }
        if self.all.contains(id) {
            return Ok(());
        }
        self.stale_ids.push((Place::All, id))?;
        self.all.insert(id)?;
        Ok(())
    }

    // Puts a node's id into each set and each property index where it belongs.
    pub(crate) fn insert_node(&mut self, node: &NodeRecord, id: u64) -> Result<(), AllocError>
        ensures grown { (k : Key) (i : ℕ)
            → has_in self.old k i ≡ true → has_in self.new k i ≡ true }
        ensures gains { Gains self.old self.new }
        ensures ok { OnOk result ((k : Key)
            → belongs k node.now ≡ true → has_in self.new k id ≡ true) }
    {
        self.insert_labels(&node.labels, id)?;
        self.insert_values(node, id)
    }

    // Puts a node's id into each property index where it belongs.
    pub(crate) fn insert_values(&mut self, node: &NodeRecord, id: u64) -> Result<(), AllocError>
        ensures all { self.new.all ≡ self.old.all }
        ensures labels { self.new.labels ≡ self.old.labels }
        ensures grown { (label key : ℕ) (v : code.Value) (i : ℕ)
            → all_find self.old.indexes.items label key v i ≡ true
            → all_find self.new.indexes.items label key v i ≡ true }
        ensures gains { Gains self.old self.new }
        ensures ok { OnOk result ((label key : ℕ) (v : code.Value)
            → is_found_by label key v node.now ≡ true
            → all_find self.new.indexes.items label key v id ≡ true) }
    {
        let indexes = self.indexes.as_slice();
        note_arrivals(self.alloc, &mut self.stale_ids, indexes, node, id)?;
        insert_in_each(self.indexes.as_mut_slice(), node, id)
    }

    // The ids of an index under a value, where there is such an index, or those of the label; and
    // perhaps of others.
    pub(crate) fn valued(&self, label: NameId, key: NameId, value: &Value) -> &IdSet
        ensures { (i : ℕ) → has_in self.now (with_label label) i ≡ true
            → has_in self.now (with_value label key value.now) i ≡ true
            → has_id result.now i ≡ true }
    {
        match index_of(self.indexes.as_slice(), label, key) {
            Some(index) => match index.get(value) {
                Some(ids) => ids,
                None => &self.none,
            },
            None => self.labelled(label),
        }
    }

    // Keeps no index of the label and the key.
    pub(crate) fn give_up(&mut self, label: NameId, key: NameId)
        ensures all { self.new.all ≡ self.old.all }
        ensures labels { self.new.labels ≡ self.old.labels }
        ensures fewer { (l k : ℕ) (v : code.Value) (i : ℕ)
            → all_find self.old.indexes.items l k v i ≡ true
            → all_find self.new.indexes.items l k v i ≡ true }
        ensures less { (k : Key) (i : ℕ) → is_in self.new k i ≡ true → is_in self.old k i ≡ true }
        ensures stale_ids { self.new.stale_ids ≡ self.old.stale_ids }
        ensures pairs { pairs_of self.new.indexes.items
            ≡ filter (λ p. not (p.0 == label && p.1 == key)) (pairs_of self.old.indexes.items) }
        ensures gone { has_pair (label, key) (pairs_of self.new.indexes.items) ≡ false }
    {
        // (there is one at most, but nothing need know that)
        while let Some(position) = position_of(self.indexes.as_slice(), label, key) {
            self.indexes.remove(position);
        }
    }

    // Notes where a node is and will no longer belong when it is gone, so that its id is swept from there.
    pub(crate) fn note_leaving(&mut self, was: &NodeRecord, id: u64) -> Result<(), AllocError>
        ensures all { self.new.all ≡ self.old.all }
        ensures labels { self.new.labels ≡ self.old.labels }
        ensures indexes { self.new.indexes ≡ self.old.indexes }
        ensures gains { Gains self.old self.new }
        ensures ok { OnOk result ((k : Key) → is_in self.old k id ≡ true
            → belongs k was.now ≡ true → is_noted self.new.stale_ids.items k id ≡ true) }
    {
        self.stale_ids.push((Place::All, id))?;
        note_labels(&mut self.stale_ids, &was.labels, id)?;
        let indexes = self.indexes.as_slice();
        note_values(self.alloc, &mut self.stale_ids, indexes, was, id)
    }

    // Takes an id from where it was kept.
    pub(crate) fn remove_id(&mut self, place: &Place, id: u64)
        ensures lost { (k : Key) (i : ℕ) → has_in self.old k i ≡ true
            → has_in self.new k i ≡ false → FindAlike k (place_key place.now) × (i ≡ id) }
        ensures left { (k : Key) (i : ℕ)
            → is_in self.new k i
            ≡ (is_in self.old k i && not (same_key (place_key place.now) k && id == i)) }
        ensures stale_ids { self.new.stale_ids ≡ self.old.stale_ids }
        ensures pairs { pairs_of self.new.indexes.items ≡ pairs_of self.old.indexes.items }
    {
        match place {
            Place::All => self.all.remove_id(id),
            Place::Labelled(label) => self.labels.remove_id(&label.as_u64(), id),
            Place::Valued(label, key, value) => {
                remove_valued(self.indexes.as_mut_slice(), *label, *key, value, id);
            }
        }
    }
}
