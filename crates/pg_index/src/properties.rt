//! The nodes of a label by what they have under a key.
ghost use Rattle.std.specs.Prelude.{◌≡◌, ◌<◌, ◌==◌, ◌&&◌, ◌||◌, ℕ, true, false, not, length, slice_index_or, OnOk, IfSome, is_some, option_copied};
ghost use Rattle.std.specs.Option.{option_map_or};
ghost use Rattle.pg_graph.specs.Removed.{has_id};
ghost use Rattle.pg_index.specs.Index.{the_ids};
ghost use Rattle.pg_index.specs.Properties.{finds, is_found_by, is_equal, is_for, is_one_value, all_find, some_finds, pairs_of, has_pair};
ghost use Rattle.pg_index.specs.declared.properties.PropertyIndex.{PropertyIndex};
ghost use Rattle.pg_value_core.specs.View.{view};
ghost use Rattle.pg_value_core.specs.declared.value.Value as code;

use crate::valued_ids::ValuedIds;
use pg_graph::{IdSet, NodeRecord};
use pg_meaning::Tri;
use pg_names::NameId;
use pg_value::eq3;
use pg_value_core::Value;
use std::alloc::{AllocError, Global};
use std::hash::RandomState;

/// The ids of nodes with a label, by their values under a key. It may have some more.
#[derive(Drop)]
pub struct PropertyIndex {
    pub label: NameId,
    pub key: NameId,
    ids: ValuedIds,
}

impl PropertyIndex {
    /// An index that has nothing yet. The hasher's keys are to be random where a stranger chooses the values.
    pub fn new(alloc: Global, hasher: RandomState, label: NameId, key: NameId) -> Self
        ensures label { result.label ≡ label }
        ensures key { result.key ≡ key }
        ensures empty { (v : code.Value) (i : ℕ) → finds result v i ≡ false }
    {
        PropertyIndex {
            label,
            key,
            ids: ValuedIds::new(alloc, hasher),
        }
    }

    /// The ids under a value, if there are any.
    pub fn get(&self, value: &Value) -> Option<&IdSet>
        ensures { (i : ℕ) → has_id (the_ids (option_copied result)) i ≡ finds self.now value.now i }
    {
        self.ids.get(value)
    }

    /// Whether an id is under a value.
    pub fn has(&self, value: &Value, id: u64) -> bool
        ensures { result ≡ finds self.now value.now id }
    {
        match self.ids.get(value) {
            Some(ids) => ids.contains(id),
            None => false,
        }
    }

    /// The value by which a node is found here, if it is. What holds null is equal to nothing, and
    /// finds no node.
    pub fn indexed_value<'a>(&self, node: &'a NodeRecord) -> Option<&'a Value>
        ensures is { (v : code.Value)
            → is_found_by self.now.label self.now.key v node.now
            ≡ option_map_or (λ w. is_equal (view w.now) v) result false }
        ensures equal { IfSome result (λ w. is_equal (view w.now) w.now ≡ true) }
    {
        if !node.labels.contains(self.label) {
            return None;
        }
        match node.properties.get(self.key) {
            Some(value) => if_equal_to_itself(value),
            None => None,
        }
    }

    fn put(&mut self, value: &Value, id: u64) -> Result<(), AllocError>
        ensures label { self.new.label ≡ self.old.label }
        ensures key { self.new.key ≡ self.old.key }
        ensures grown { (v : code.Value) (i : ℕ)
            → finds self.old v i ≡ true → finds self.new v i ≡ true }
        ensures come { (v : code.Value) (i : ℕ) → finds self.new v i ≡ true
            → (finds self.old v i || (is_one_value value.now v && i == id)) ≡ true }
        ensures ok { OnOk result ((v : code.Value)
            → is_equal (view value.now) v ≡ true → finds self.new v id ≡ true) }
    {
        self.ids.insert_id(value, id)
    }

    /// Puts a node's id under its value, if it has the label and the key.
    pub fn insert_id(&mut self, node: &NodeRecord, id: u64) -> Result<(), AllocError>
        ensures label { self.new.label ≡ self.old.label }
        ensures key { self.new.key ≡ self.old.key }
        ensures grown { (v : code.Value) (i : ℕ)
            → finds self.old v i ≡ true → finds self.new v i ≡ true }
        ensures come { (v : code.Value) (i : ℕ) → finds self.new v i ≡ true
            → (finds self.old v i
            || (is_found_by self.old.label self.old.key v node.now && i == id))
            ≡ true }
        ensures ok { OnOk result ((v : code.Value)
            → is_found_by self.old.label self.old.key v node.now ≡ true
            → finds self.new v id ≡ true) }
    {
        match self.indexed_value(node) {
            Some(value) => self.put(value, id),
            None => Ok(()),
        }
    }

    /// Takes an id from under a value, if it is there. It takes no memory.
    pub fn remove_id(&mut self, value: &Value, id: u64)
        ensures label { self.new.label ≡ self.old.label }
        ensures key { self.new.key ≡ self.old.key }
        ensures lost { (v : code.Value) (i : ℕ) → finds self.old v i ≡ true
            → finds self.new v i ≡ false → (view v ≡ view value.now) × (i ≡ id) }
        ensures left { (v : code.Value) (i : ℕ)
            → finds self.new v i
            ≡ (finds self.old v i && not (is_one_value value.now v && i == id)) }
    {
        self.ids.remove_id(value, id);
    }

    // Takes an id from under a value, if the index is one of the label and the key.
    fn remove_of(&mut self, label: NameId, key: NameId, value: &Value, id: u64)
        ensures label { self.new.label ≡ self.old.label }
        ensures key { self.new.key ≡ self.old.key }
        ensures left { (v : code.Value) (i : ℕ)
            → finds self.new v i ≡ (finds self.old v i
            && not (is_for self.old label key && is_one_value value.now v && i == id)) }
    {
        if is_for(self, label, key) {
            self.remove_id(value, id);
        }
    }
}

// A value that is equal to itself: one that holds no null.
fn if_equal_to_itself(value: &Value) -> Option<&Value>
    ensures is { (v : code.Value)
        → option_map_or (λ w. is_equal (view w.now) v) result false ≡ is_equal (view value.now) v }
    ensures equal { IfSome result (λ w. is_equal (view w.now) w.now ≡ true) }
{
    match eq3(value, value) {
        Tri::True => Some(value),
        _ => None,
    }
}

/// Puts a node's id into each index where it belongs. After an error it is in some of them.
pub fn insert_in_each(
    indexes: &mut [PropertyIndex],
    node: &NodeRecord,
    id: u64,
) -> Result<(), AllocError>
    ensures pairs { pairs_of indexes.new ≡ pairs_of indexes.old }
    ensures grown { (label key : ℕ) (v : code.Value) (i : ℕ)
        → all_find indexes.old label key v i ≡ true → all_find indexes.new label key v i ≡ true }
    ensures come { (label key : ℕ) (v : code.Value) (i : ℕ)
        → some_finds indexes.new label key v i ≡ true
        → (some_finds indexes.old label key v i || (is_found_by label key v node.now && i == id))
        ≡ true }
    ensures ok { OnOk result ((label key : ℕ) (v : code.Value)
        → is_found_by label key v node.now ≡ true → all_find indexes.new label key v id ≡ true) }
{
    for property in indexes.iter_mut() {
        property.insert_id(node, id)?;
    }
    Ok(())
}

fn is_for(index: &PropertyIndex, label: NameId, key: NameId) -> bool
    ensures { result ≡ is_for index.now label key }
{
    index.label.as_u64() == label.as_u64() && index.key.as_u64() == key.as_u64()
}

/// The index of a label and a key, if there is one.
pub fn index_of(indexes: &[PropertyIndex], label: NameId, key: NameId) -> Option<&PropertyIndex>
    ensures some { IfSome result (λ x. (v : code.Value) (i : ℕ)
        → all_find indexes.now label key v i ≡ true → finds x.now v i ≡ true) }
    ensures there { is_some result ≡ has_pair (label, key) (pairs_of indexes.now) }
{
    for property in indexes {
        if is_for(property, label, key) {
            return Some(property);
        }
    }
    None
}

/// The place of an index of a label and a key, if there is one.
pub fn position_of(indexes: &[PropertyIndex], label: NameId, key: NameId) -> Option<usize>
    ensures some { IfSome result (λ i. i < length indexes.now) }
    ensures is { IfSome result (λ i. (x : PropertyIndex)
        → is_for (slice_index_or indexes.now i x) label key ≡ true) }
    ensures there { is_some result ≡ has_pair (label, key) (pairs_of indexes.now) }
{
    for position in 0..indexes.len() {
        if is_for(&indexes[position], label, key) {
            return Some(position);
        }
    }
    None
}

/// Takes an id from under a value in each index of the label and the key. It takes no memory.
pub fn remove_valued(
    indexes: &mut [PropertyIndex],
    label: NameId,
    key: NameId,
    value: &Value,
    id: u64,
)
    ensures pairs { pairs_of indexes.new ≡ pairs_of indexes.old }
    ensures lost { (l k : ℕ) (v : code.Value) (i : ℕ)
        → all_find indexes.old l k v i ≡ true → all_find indexes.new l k v i ≡ false
        → (l ≡ label) × (k ≡ key) × (view v ≡ view value.now) × (i ≡ id) }
    ensures left { (l k : ℕ) (v : code.Value) (i : ℕ)
        → some_finds indexes.new l k v i ≡ (some_finds indexes.old l k v i
        && not ((label == l && key == k && is_one_value value.now v) && id == i)) }
{
    for property in indexes.iter_mut() {
        property.remove_of(label, key, value, id);
    }
}
