//! A node changed in its place, and its id put where it then belongs.
ghost use Rattle.std.specs.Prelude.{◌≡◌, ◌==◌, ◌||◌, ℕ, true, false, OnOk, OnErr, IfOk};
ghost use Rattle.std.specs.FinMap as map;
ghost use Rattle.std.specs.List.{list_any};
ghost use Rattle.pg_graph.specs.Records.{Properties as PropertiesMap, with_label};
ghost use Rattle.pg_index.specs.Properties.{all_find, has_pair, is_found_by, pairs_of};
ghost use Rattle.pg_store.specs.Covers.{Key, belongs, has_in, with_label as label_key};
ghost use Rattle.pg_store.specs.Edits.{CanChange, CanGiveBack, CanGoBack, IsChangeOf, changed_node, changed_properties, node_before, properties_before};
ghost use Rattle.pg_store.specs.Noted.{Gains, is_in, is_noted};
ghost use Rattle.pg_value_core.specs.declared.value.Value as code;

use crate::edits::{NodeBefore, NodeChange, PropertiesBefore, PropertyChange, exchange, give_back};
use crate::notes::{note_label_values_left, note_labels_left, note_values_left};
use crate::sets::Sets;
use pg_graph::{Labels, NodeRecord, Properties};
use pg_index::PropertyIndex;
use pg_names::NameId;
use std::alloc::{AllocError, Global};
use std::mem;

// A node that stands for one which is changed.
pub(crate) fn blank_node(alloc: Global) -> NodeRecord {
    NodeRecord {
        labels: Labels::new(alloc),
        properties: Properties::new(alloc),
    }
}

// Whether a change leaves alone what stands under the key of each index.
fn keeps_indexed(before: &PropertiesBefore, indexes: &[PropertyIndex]) -> bool
    ensures { result ≡ true → (label key : ℕ)
        → has_pair (label, key) (pairs_of indexes.now) ≡ true → (ps : PropertiesMap)
        → map.get (properties_before before.now ps) key ≡ map.get ps key }
{
    for index in indexes {
        if !before.keeps(index.key) {
            return false;
        }
    }
    true
}

impl Sets {
    // Changes a node, and puts its id where it then belongs. Or leaves the node as it is.
    pub(crate) fn change_node(
        &mut self,
        node: &mut NodeRecord,
        id: u64,
        change: NodeChange,
    ) -> Result<NodeBefore, AllocError>
        requires change { IsChangeOf change node.old }
        requires covered { (k : Key) → belongs k node.old ≡ true → has_in self.old k id ≡ true }
        ensures grown { (k : Key) (i : ℕ)
            → has_in self.old k i ≡ true → has_in self.new k i ≡ true }
        ensures gains { Gains self.old self.new }
        ensures ok { OnOk result (node.new ≡ changed_node change node.old) }
        ensures back { IfOk result (λ before. node_before before node.new ≡ node.old) }
        ensures can { IfOk result (λ before. CanGoBack before node.new) }
        ensures covered { OnOk result ((k : Key)
            → belongs k node.new ≡ true → has_in self.new k id ≡ true) }
        ensures left { OnOk result ((k : Key)
            → is_in self.old k id ≡ true → belongs k node.old ≡ true
            → (belongs k node.new || is_noted self.new.stale_ids.items k id) ≡ true) }
        ensures err { OnErr result (node.new ≡ node.old) }
    {
        match change {
            NodeChange::Properties(change) => self.change_properties(node, id, change),
            NodeChange::Label(label) => self.add_label(node, id, label),
            NodeChange::Labels(labels) => self.replace_labels(node, id, labels),
        }
    }

    fn change_properties(
        &mut self,
        node: &mut NodeRecord,
        id: u64,
        change: PropertyChange,
    ) -> Result<NodeBefore, AllocError>
        requires change { CanChange change node.old.properties }
        requires covered { (k : Key) → belongs k node.old ≡ true → has_in self.old k id ≡ true }
        ensures grown { (k : Key) (i : ℕ)
            → has_in self.old k i ≡ true → has_in self.new k i ≡ true }
        ensures gains { Gains self.old self.new }
        ensures ok { OnOk result (node.new
            ≡ record node.old { properties = changed_properties change node.old.properties }) }
        ensures back { IfOk result (λ before. node_before before node.new ≡ node.old) }
        ensures can { IfOk result (λ before. CanGoBack before node.new) }
        ensures covered { OnOk result ((k : Key)
            → belongs k node.new ≡ true → has_in self.new k id ≡ true) }
        ensures left { OnOk result ((k : Key)
            → is_in self.old k id ≡ true → belongs k node.old ≡ true
            → (belongs k node.new || is_noted self.new.stale_ids.items k id) ≡ true) }
        ensures err { OnErr result (node.new ≡ node.old) }
    {
        let before = exchange(&mut node.properties, change)?;
        match self.move_values(node, id, &before) {
            Ok(()) => Ok(NodeBefore::Properties(before)),
            Err(refused) => {
                give_back(&mut node.properties, before);
                Err(refused)
            }
        }
    }

    // Notes the values under which a node no longer belongs, and puts its id under those where it does.
    fn move_values(
        &mut self,
        node: &NodeRecord,
        id: u64,
        before: &PropertiesBefore,
    ) -> Result<(), AllocError>
        requires back { CanGiveBack before.now node.now.properties }
        requires covered { (k : Key) → belongs k
            (record node.now { properties = properties_before before.now node.now.properties })
            ≡ true → has_in self.old k id ≡ true }
        ensures all { self.new.all ≡ self.old.all }
        ensures labels { self.new.labels ≡ self.old.labels }
        ensures grown { (label key : ℕ) (v : code.Value) (i : ℕ)
            → all_find self.old.indexes.items label key v i ≡ true
            → all_find self.new.indexes.items label key v i ≡ true }
        ensures gains { Gains self.old self.new }
        ensures ok { OnOk result ((label key : ℕ) (v : code.Value)
            → is_found_by label key v node.now ≡ true
            → all_find self.new.indexes.items label key v id ≡ true) }
        ensures left { OnOk result ((k : Key) → is_in self.old k id ≡ true → belongs k
            (record node.now { properties = properties_before before.now node.now.properties })
            ≡ true → (belongs k node.now || is_noted self.new.stale_ids.items k id) ≡ true) }
    {
        let indexes = self.indexes.as_slice();
        if keeps_indexed(before, indexes) {
            return Ok(());
        }
        note_values_left(self.alloc, &mut self.stale_ids, indexes, node, id, before)?;
        self.insert_values(node, id)
    }

    fn add_label(
        &mut self,
        node: &mut NodeRecord,
        id: u64,
        label: NameId,
    ) -> Result<NodeBefore, AllocError>
        requires new { list_any (λ l. l == label) node.old.labels ≡ false }
        requires covered { (k : Key) → belongs k node.old ≡ true → has_in self.old k id ≡ true }
        ensures grown { (k : Key) (i : ℕ)
            → has_in self.old k i ≡ true → has_in self.new k i ≡ true }
        ensures gains { Gains self.old self.new }
        ensures ok { OnOk result
            (node.new ≡ record node.old { labels = with_label node.old.labels label }) }
        ensures back { IfOk result (λ before. node_before before node.new ≡ node.old) }
        ensures can { IfOk result (λ before. CanGoBack before node.new) }
        ensures covered { OnOk result ((k : Key)
            → belongs k node.new ≡ true → has_in self.new k id ≡ true) }
        ensures left { OnOk result ((k : Key)
            → is_in self.old k id ≡ true → belongs k node.old ≡ true
            → (belongs k node.new || is_noted self.new.stale_ids.items k id) ≡ true) }
        ensures err { OnErr result (node.new ≡ node.old) }
    {
        node.labels.insert(label)?;
        match self.insert_new_label(node, id, label) {
            Ok(()) => Ok(NodeBefore::Label(label)),
            Err(refused) => {
                node.labels.remove(label);
                Err(refused)
            }
        }
    }

    // Puts the id of a node that has got a label under it, and under the values that are indexed with it.
    fn insert_new_label(
        &mut self,
        node: &NodeRecord,
        id: u64,
        label: NameId,
    ) -> Result<(), AllocError>
        ensures grown { (k : Key) (i : ℕ)
            → has_in self.old k i ≡ true → has_in self.new k i ≡ true }
        ensures gains { Gains self.old self.new }
        ensures label { OnOk result (has_in self.new (label_key label) id ≡ true) }
        ensures values { OnOk result ((label key : ℕ) (v : code.Value)
            → is_found_by label key v node.now ≡ true
            → all_find self.new.indexes.items label key v id ≡ true) }
    {
        self.insert_label(label, id)?;
        self.insert_values(node, id)
    }

    // Gives a node other labels.
    fn replace_labels(
        &mut self,
        node: &mut NodeRecord,
        id: u64,
        labels: Labels,
    ) -> Result<NodeBefore, AllocError>
        ensures grown { (k : Key) (i : ℕ)
            → has_in self.old k i ≡ true → has_in self.new k i ≡ true }
        ensures gains { Gains self.old self.new }
        ensures ok { OnOk result (node.new ≡ record node.old { labels = labels }) }
        ensures back { IfOk result (λ before. node_before before node.new ≡ node.old) }
        ensures can { IfOk result (λ before. CanGoBack before node.new) }
        ensures covered { OnOk result ((k : Key)
            → belongs k node.new ≡ true → has_in self.new k id ≡ true) }
        ensures left { OnOk result ((k : Key)
            → is_in self.old k id ≡ true → belongs k node.old ≡ true
            → (belongs k node.new || is_noted self.new.stale_ids.items k id) ≡ true) }
        ensures err { OnErr result (node.new ≡ node.old) }
    {
        let before = mem::replace(&mut node.labels, labels);
        match self.move_labels(node, id, &before) {
            Ok(()) => Ok(NodeBefore::Labels(before)),
            Err(refused) => {
                node.labels = before;
                Err(refused)
            }
        }
    }

    // Notes the labels that a node has no longer, and puts its id where it belongs.
    fn move_labels(&mut self, node: &NodeRecord, id: u64, before: &Labels) -> Result<(), AllocError>
        ensures grown { (k : Key) (i : ℕ)
            → has_in self.old k i ≡ true → has_in self.new k i ≡ true }
        ensures gains { Gains self.old self.new }
        ensures covered { OnOk result ((k : Key)
            → belongs k node.now ≡ true → has_in self.new k id ≡ true) }
        ensures left { OnOk result ((k : Key) → is_in self.old k id ≡ true
            → belongs k (record node.now { labels = before.now }) ≡ true
            → (belongs k node.now || is_noted self.new.stale_ids.items k id) ≡ true) }
    {
        note_labels_left(&mut self.stale_ids, before, &node.labels, id)?;
        let indexes = self.indexes.as_slice();
        note_label_values_left(self.alloc, &mut self.stale_ids, indexes, node, id, before)?;
        self.insert_node(node, id)
    }
}
