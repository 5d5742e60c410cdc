//! Labels and properties of a tenant's nodes and relationships changed.
ghost use Rattle.std.specs.Prelude.{◌≡◌, ◌<◌, ◌∷◌, [], true, not, filter, length, IsSome, Some, None, OnOk, OnErr};
ghost use Rattle.std.specs.FinMap as map;
ghost use Rattle.pg_graph.specs.Records.{shown};
ghost use Rattle.pg_graph.specs.Refinement.{AreNamed, node_of, property_entries, text_of};
ghost use Rattle.pg_graph.specs.declared.records.NodeRecord.{NodeRecord};
ghost use Rattle.pg_graph.specs.declared.records.RelRecord.{RelRecord};
ghost use Rattle.pg_meaning.specs.Entries.{set_key, set_keys};
ghost use Rattle.pg_meaning.specs.Graph.{change_node, change_relationship, has_node, has_relationship};
ghost use Rattle.pg_meaning.specs.Names.{is_among, put_texts};
ghost use Rattle.pg_meaning.specs.Value.{no_entries, null};
ghost use Rattle.pg_store.specs.Changes.{Changes};
ghost use Rattle.pg_store.specs.Edits.{CanChange, IsChangeOf, changed_node, changed_properties};
ghost use Rattle.pg_store.specs.Journal.{live};
ghost use Rattle.pg_store.specs.Stores.{graph_of_store, state_of, IsFit, KeepsMarks, KeepsShared, texts_of, pairs_of};
ghost use Rattle.pg_store.specs.Views.{IsNamedNode};
ghost use Rattle.pg_value_core.specs.View.{view};

use crate::edits::{NodeChange, PropertyChange, exchange};
use crate::journal::{Entry, Mark};
use crate::names::{less_labels, properties_of};
use crate::node_changes::blank_node;
use crate::places::FEW_KEYS;
use crate::shared::Shared;
use crate::store::Store;
use pg_graph::{Properties, Tables};
use pg_names::NameId;
use pg_value_core::{NodeId, RelId, Value};
use std::alloc::{AllocError, Global};

impl<T: Tables> Store<T> {
    // Changes a node in its place.
    pub(crate) fn change_node(
        &mut self,
        shared: &mut Shared<T::Shared>,
        id: NodeId,
        change: NodeChange,
    ) -> Result<(), AllocError>
        requires fit { IsFit T.seen self.old shared.old }
        requires there { IsSome (map.get (live (state_of T.seen self.old shared.old)).nodes id.0) }
        requires change { (n : NodeRecord)
            → map.get (live (state_of T.seen self.old shared.old)).nodes id.0 ≡ Some n
            → IsChangeOf change n }
        requires named { (n : NodeRecord)
            → map.get (live (state_of T.seen self.old shared.old)).nodes id.0 ≡ Some n
            → IsNamedNode shared.old.names (changed_node change n) }
        ensures ok { OnOk result ((n : NodeRecord)
            → map.get (live (state_of T.seen self.old shared.old)).nodes id.0 ≡ Some n
            → graph_of_store T.seen self.new shared.new
            ≡ change_node (λ _. node_of shared.old.names (changed_node change n)) id.0
            (graph_of_store T.seen self.old shared.old)) }
        ensures err { OnErr result (graph_of_store T.seen self.new shared.new
            ≡ graph_of_store T.seen self.old shared.old) }
        ensures marks { KeepsMarks T.seen self.old shared.old self.new shared.new }
        ensures fit { IsFit T.seen self.new shared.new }
        ensures keeps { KeepsShared T.seen self.old shared.old self.new shared.new }
    {
        self.journal.reserve(1)?;
        let blank = blank_node(self.sets.alloc);
        let mut node = self.tables.change(&mut shared.tables, id, blank);
        let changed = self.sets.change_node(&mut node, id.0, change);
        self.tables.change(&mut shared.tables, id, node);
        let before = changed?;
        self.journal.push_reserved(Entry::NodeChanged(id, before));
        Ok(())
    }

    // Changes a relationship in its place.
    pub(crate) fn change_rel(
        &mut self,
        shared: &mut Shared<T::Shared>,
        id: RelId,
        change: PropertyChange,
    ) -> Result<(), AllocError>
        requires fit { IsFit T.seen self.old shared.old }
        requires there { IsSome (map.get (live (state_of T.seen self.old shared.old)).rels id.0) }
        requires change { (r : RelRecord)
            → map.get (live (state_of T.seen self.old shared.old)).rels id.0 ≡ Some r
            → CanChange change r.properties }
        requires named { (r : RelRecord)
            → map.get (live (state_of T.seen self.old shared.old)).rels id.0 ≡ Some r
            → AreNamed shared.old.names (map.keys (changed_properties change r.properties)) }
        ensures ok { OnOk result ((r : RelRecord)
            → map.get (live (state_of T.seen self.old shared.old)).rels id.0 ≡ Some r
            → graph_of_store T.seen self.new shared.new ≡ change_relationship (λ e. record e {
              properties = property_entries shared.old.names
                  (changed_properties change r.properties);
            }) id.0 (graph_of_store T.seen self.old shared.old)) }
        ensures err { OnErr result (graph_of_store T.seen self.new shared.new
            ≡ graph_of_store T.seen self.old shared.old) }
        ensures marks { KeepsMarks T.seen self.old shared.old self.new shared.new }
        ensures fit { IsFit T.seen self.new shared.new }
        ensures keeps { KeepsShared T.seen self.old shared.old self.new shared.new }
    {
        self.journal.reserve(1)?;
        let blank = Properties::new(self.sets.alloc);
        let mut properties = self.tables.change_rel(&mut shared.tables, id, blank);
        let changed = exchange(&mut properties, change);
        self.tables.change_rel(&mut shared.tables, id, properties);
        let before = changed?;
        self.journal.push_reserved(Entry::RelChanged(id, before));
        Ok(())
    }

    // Gives a node's key a value, where null takes it out.
    fn set_node_key(
        &mut self,
        shared: &mut Shared<T::Shared>,
        id: NodeId,
        key: NameId,
        value: Value,
    ) -> Result<(), AllocError>
        requires fit { IsFit T.seen self.old shared.old }
        requires there { has_node (graph_of_store T.seen self.old shared.old) id.0 ≡ true }
        requires named { key < length shared.old.names }
        ensures ok { OnOk result
            (graph_of_store T.seen self.new shared.new ≡ change_node (λ e. record e {
              properties = set_key (text_of shared.old.names key) (view value) e.properties;
            }) id.0 (graph_of_store T.seen self.old shared.old)) }
        ensures marks { KeepsMarks T.seen self.old shared.old self.new shared.new }
        ensures fit { IsFit T.seen self.new shared.new }
        ensures keeps { KeepsShared T.seen self.old shared.old self.new shared.new }
    {
        let node = self.node(shared, id).unwrap();
        if takes_nothing(&node.properties, key, &value) {
            return Ok(());
        }
        let change = NodeChange::Properties(PropertyChange::Key(key, value));
        self.change_node(shared, id, change)
    }

    // Gives a relationship's key a value, where null takes it out.
    fn set_rel_key(
        &mut self,
        shared: &mut Shared<T::Shared>,
        id: RelId,
        key: NameId,
        value: Value,
    ) -> Result<(), AllocError>
        requires fit { IsFit T.seen self.old shared.old }
        requires there { has_relationship (graph_of_store T.seen self.old shared.old) id.0 ≡ true }
        requires named { key < length shared.old.names }
        ensures ok { OnOk result
            (graph_of_store T.seen self.new shared.new ≡ change_relationship (λ e. record e {
              properties = set_key (text_of shared.old.names key) (view value) e.properties;
            }) id.0 (graph_of_store T.seen self.old shared.old)) }
        ensures marks { KeepsMarks T.seen self.old shared.old self.new shared.new }
        ensures fit { IsFit T.seen self.new shared.new }
        ensures keeps { KeepsShared T.seen self.old shared.old self.new shared.new }
    {
        let rel = self.rel(shared, id).unwrap();
        if takes_nothing(&rel.properties, key, &value) {
            return Ok(());
        }
        self.change_rel(shared, id, PropertyChange::Key(key, value))
    }

    // Gives a node's keys these values, one after the other. After an error some have them.
    fn set_each_node_key(
        &mut self,
        shared: &mut Shared<T::Shared>,
        id: NodeId,
        pairs: Vec<(&str, Value)>,
    ) -> Result<(), AllocError>
        requires fit { IsFit T.seen self.old shared.old }
        requires there { has_node (graph_of_store T.seen self.old shared.old) id.0 ≡ true }
        ensures ok { OnOk result (graph_of_store T.seen self.new shared.new ≡ change_node
            (λ e. record e { properties = set_keys (pairs_of pairs.entry.items) e.properties }) id.0
            (graph_of_store T.seen self.old shared.old)) }
        ensures marks { KeepsMarks T.seen self.old shared.old self.new shared.new }
        ensures fit { IsFit T.seen self.new shared.new }
        ensures keeps { KeepsShared T.seen self.old shared.old self.new shared.new }
    {
        for (key, value) in pairs {
            let key = shared.names.intern(key)?;
            self.set_node_key(shared, id, key, value)?;
        }
        Ok(())
    }

    // Gives a node's keys these values. After an error some have them.
    fn set_node_keys(
        &mut self,
        shared: &mut Shared<T::Shared>,
        id: NodeId,
        pairs: Vec<(&str, Value)>,
    ) -> Result<(), AllocError>
        requires fit { IsFit T.seen self.old shared.old }
        requires there { has_node (graph_of_store T.seen self.old shared.old) id.0 ≡ true }
        ensures ok { OnOk result (graph_of_store T.seen self.new shared.new ≡ change_node
            (λ e. record e { properties = set_keys (pairs_of pairs.entry.items) e.properties }) id.0
            (graph_of_store T.seen self.old shared.old)) }
        ensures marks { KeepsMarks T.seen self.old shared.old self.new shared.new }
        ensures fit { IsFit T.seen self.new shared.new }
        ensures keeps { KeepsShared T.seen self.old shared.old self.new shared.new }
    {
        if pairs.len() <= FEW_KEYS {
            return self.set_each_node_key(shared, id, pairs);
        }
        self.make_node_places(shared, id, &pairs)?;
        self.set_each_node_key(shared, id, pairs)
    }

    // Gives a relationship's keys these values, one after the other. After an error some have them.
    fn set_each_rel_key(
        &mut self,
        shared: &mut Shared<T::Shared>,
        id: RelId,
        pairs: Vec<(&str, Value)>,
    ) -> Result<(), AllocError>
        requires fit { IsFit T.seen self.old shared.old }
        requires there { has_relationship (graph_of_store T.seen self.old shared.old) id.0 ≡ true }
        ensures ok { OnOk result (graph_of_store T.seen self.new shared.new ≡ change_relationship
            (λ e. record e { properties = set_keys (pairs_of pairs.entry.items) e.properties }) id.0
            (graph_of_store T.seen self.old shared.old)) }
        ensures marks { KeepsMarks T.seen self.old shared.old self.new shared.new }
        ensures fit { IsFit T.seen self.new shared.new }
        ensures keeps { KeepsShared T.seen self.old shared.old self.new shared.new }
    {
        for (key, value) in pairs {
            let key = shared.names.intern(key)?;
            self.set_rel_key(shared, id, key, value)?;
        }
        Ok(())
    }

    // Gives a relationship's keys these values. After an error some have them.
    fn set_rel_keys(
        &mut self,
        shared: &mut Shared<T::Shared>,
        id: RelId,
        pairs: Vec<(&str, Value)>,
    ) -> Result<(), AllocError>
        requires fit { IsFit T.seen self.old shared.old }
        requires there { has_relationship (graph_of_store T.seen self.old shared.old) id.0 ≡ true }
        ensures ok { OnOk result (graph_of_store T.seen self.new shared.new ≡ change_relationship
            (λ e. record e { properties = set_keys (pairs_of pairs.entry.items) e.properties }) id.0
            (graph_of_store T.seen self.old shared.old)) }
        ensures marks { KeepsMarks T.seen self.old shared.old self.new shared.new }
        ensures fit { IsFit T.seen self.new shared.new }
        ensures keeps { KeepsShared T.seen self.old shared.old self.new shared.new }
    {
        if pairs.len() <= FEW_KEYS {
            return self.set_each_rel_key(shared, id, pairs);
        }
        self.make_rel_places(shared, id, &pairs)?;
        self.set_each_rel_key(shared, id, pairs)
    }

    // Gives a node a label, if it hasn't got it.
    fn add_label(
        &mut self,
        shared: &mut Shared<T::Shared>,
        id: NodeId,
        label: NameId,
    ) -> Result<(), AllocError>
        requires fit { IsFit T.seen self.old shared.old }
        requires there { has_node (graph_of_store T.seen self.old shared.old) id.0 ≡ true }
        requires named { label < length shared.old.names }
        ensures ok { OnOk result (graph_of_store T.seen self.new shared.new ≡ change_node
            (λ e. record e { labels = put_texts (text_of shared.old.names label ∷ []) e.labels })
            id.0 (graph_of_store T.seen self.old shared.old)) }
        ensures marks { KeepsMarks T.seen self.old shared.old self.new shared.new }
        ensures fit { IsFit T.seen self.new shared.new }
        ensures keeps { KeepsShared T.seen self.old shared.old self.new shared.new }
    {
        if self.node(shared, id).unwrap().labels.contains(label) {
            return Ok(());
        }
        self.change_node(shared, id, NodeChange::Label(label))
    }

    // Gives a node these labels. After an error it has some.
    fn add_each_label(
        &mut self,
        shared: &mut Shared<T::Shared>,
        id: NodeId,
        labels: &Vec<&str>,
    ) -> Result<(), AllocError>
        requires fit { IsFit T.seen self.old shared.old }
        requires there { has_node (graph_of_store T.seen self.old shared.old) id.0 ≡ true }
        ensures ok { OnOk result (graph_of_store T.seen self.new shared.new ≡ change_node
            (λ e. record e { labels = put_texts (texts_of labels.now.items) e.labels }) id.0
            (graph_of_store T.seen self.old shared.old)) }
        ensures marks { KeepsMarks T.seen self.old shared.old self.new shared.new }
        ensures fit { IsFit T.seen self.new shared.new }
        ensures keeps { KeepsShared T.seen self.old shared.old self.new shared.new }
    {
        for text in labels {
            let label = shared.names.intern(text)?;
            self.add_label(shared, id, label)?;
        }
        Ok(())
    }

    /// Gives a node's keys these values, one after the other, where null takes the key out. Or changes nothing.
    pub fn set_node_properties(
        &mut self,
        alloc: Global,
        shared: &mut Shared<T::Shared>,
        id: NodeId,
        properties: Vec<(&str, Value)>,
    ) -> Result<(), AllocError>
        requires fit { IsFit T.seen self.old shared.old }
        requires there { has_node (graph_of_store T.seen self.old shared.old) id.0 ≡ true }
        ensures changes { Changes T.seen self.old shared.old self.new shared.new result
            (λ start end. OnOk result (end ≡ change_node
            (λ e. record e { properties = set_keys (pairs_of properties.entry.items) e.properties })
            id.0 start)) }
        ensures marks { KeepsMarks T.seen self.old shared.old self.new shared.new }
    {
        let mark = Mark {
            journal: self.journal.len(),
            names: shared.names.len(),
        };
        match self.set_node_keys(shared, id, properties) {
            Ok(()) => Ok(()),
            Err(refused) => {
                self.undo(shared, mark);
                Err(refused)
            }
        }
    }

    /// Gives a node these properties in the place of its own. Or changes nothing.
    pub fn replace_node_properties(
        &mut self,
        alloc: Global,
        shared: &mut Shared<T::Shared>,
        id: NodeId,
        properties: Vec<(&str, Value)>,
    ) -> Result<(), AllocError>
        requires fit { IsFit T.seen self.old shared.old }
        requires there { has_node (graph_of_store T.seen self.old shared.old) id.0 ≡ true }
        ensures changes { Changes T.seen self.old shared.old self.new shared.new result
            (λ start end. OnOk result (end ≡ change_node
            (λ e. record e { properties = set_keys (pairs_of properties.entry.items) no_entries })
            id.0 start)) }
        ensures marks { KeepsMarks T.seen self.old shared.old self.new shared.new }
    {
        let properties = properties_of(alloc, &mut shared.names, properties)?;
        let change = NodeChange::Properties(PropertyChange::All(properties));
        self.change_node(shared, id, change)
    }

    /// Gives a node more labels. Or changes nothing.
    pub fn add_labels(
        &mut self,
        alloc: Global,
        shared: &mut Shared<T::Shared>,
        id: NodeId,
        labels: &Vec<&str>,
    ) -> Result<(), AllocError>
        requires fit { IsFit T.seen self.old shared.old }
        requires there { has_node (graph_of_store T.seen self.old shared.old) id.0 ≡ true }
        ensures changes { Changes T.seen self.old shared.old self.new shared.new result
            (λ start end. OnOk result (end ≡ change_node (λ e.
            record e { labels = put_texts (texts_of labels.now.items) e.labels }) id.0 start)) }
        ensures marks { KeepsMarks T.seen self.old shared.old self.new shared.new }
    {
        let mark = Mark {
            journal: self.journal.len(),
            names: shared.names.len(),
        };
        match self.add_each_label(shared, id, labels) {
            Ok(()) => Ok(()),
            Err(refused) => {
                self.undo(shared, mark);
                Err(refused)
            }
        }
    }

    /// Takes these labels from a node. Or changes nothing.
    pub fn remove_labels(
        &mut self,
        alloc: Global,
        shared: &mut Shared<T::Shared>,
        id: NodeId,
        labels: &Vec<&str>,
    ) -> Result<(), AllocError>
        requires fit { IsFit T.seen self.old shared.old }
        requires there { has_node (graph_of_store T.seen self.old shared.old) id.0 ≡ true }
        ensures changes { Changes T.seen self.old shared.old self.new shared.new result
            (λ start end. OnOk result (end ≡ change_node (λ e. record e {
              labels = filter (λ l. not (is_among (texts_of labels.now.items) l)) e.labels;
            }) id.0 start)) }
        ensures marks { KeepsMarks T.seen self.old shared.old self.new shared.new }
    {
        let before = self.node(shared, id).unwrap().labels.copy(alloc)?;
        let labels = less_labels(&shared.names, before, labels);
        self.change_node(shared, id, NodeChange::Labels(labels))
    }

    /// Gives a relationship's keys these values, one after the other, where null takes the key out. Or changes nothing.
    pub fn set_rel_properties(
        &mut self,
        alloc: Global,
        shared: &mut Shared<T::Shared>,
        id: RelId,
        properties: Vec<(&str, Value)>,
    ) -> Result<(), AllocError>
        requires fit { IsFit T.seen self.old shared.old }
        requires there { has_relationship (graph_of_store T.seen self.old shared.old) id.0 ≡ true }
        ensures changes { Changes T.seen self.old shared.old self.new shared.new result
            (λ start end. OnOk result (end ≡ change_relationship
            (λ e. record e { properties = set_keys (pairs_of properties.entry.items) e.properties })
            id.0 start)) }
        ensures marks { KeepsMarks T.seen self.old shared.old self.new shared.new }
    {
        let mark = Mark {
            journal: self.journal.len(),
            names: shared.names.len(),
        };
        match self.set_rel_keys(shared, id, properties) {
            Ok(()) => Ok(()),
            Err(refused) => {
                self.undo(shared, mark);
                Err(refused)
            }
        }
    }

    /// Gives a relationship these properties in the place of its own. Or changes nothing.
    pub fn replace_rel_properties(
        &mut self,
        alloc: Global,
        shared: &mut Shared<T::Shared>,
        id: RelId,
        properties: Vec<(&str, Value)>,
    ) -> Result<(), AllocError>
        requires fit { IsFit T.seen self.old shared.old }
        requires there { has_relationship (graph_of_store T.seen self.old shared.old) id.0 ≡ true }
        ensures changes { Changes T.seen self.old shared.old self.new shared.new result
            (λ start end. OnOk result (end ≡ change_relationship
            (λ e. record e { properties = set_keys (pairs_of properties.entry.items) no_entries })
            id.0 start)) }
        ensures marks { KeepsMarks T.seen self.old shared.old self.new shared.new }
    {
        let properties = properties_of(alloc, &mut shared.names, properties)?;
        self.change_rel(shared, id, PropertyChange::All(properties))
    }
}

// Whether a value is null, and a key reads as absent already.
fn takes_nothing(properties: &Properties, key: NameId, value: &Value) -> bool
    ensures { result ≡ true
        → (view value.now ≡ null) × (shown (map.get properties.now key) ≡ None) }
{
    if !matches!(value, Value::Null) {
        return false;
    }
    match properties.get(key) {
        Some(found) => matches!(found, Value::Null),
        None => true,
    }
}
