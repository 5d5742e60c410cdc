//! One change of a record in its place, and what takes it back.
ghost use Rattle.std.specs.Prelude.{◌≡◌, true, Some, OnOk, OnErr, IfOk, IfSome, IfNone};
ghost use Rattle.std.specs.FinMap as map;
ghost use Rattle.pg_graph.specs.Records as records;
ghost use Rattle.pg_meaning.specs.Value as meaning;
ghost use Rattle.pg_store.specs.Edits.{CanChange, CanGiveBack, CanGoBack, changed_properties, node_before, properties_before};
ghost use Rattle.pg_value_core.specs.View.{view};

use pg_graph::{Labels, NodeRecord, Properties};
use pg_names::NameId;
use pg_value_core::Value;
use std::alloc::AllocError;
use std::mem;

/// What is to be done to properties: a key gets a value, where null leaves it blank, keys that have no place
/// get a blank one, by rising numbers, or all are replaced.
#[derive(Drop)]
pub enum PropertyChange {
    Key(NameId, Value),
    Places(Vec<NameId>),
    All(Properties),
}

/// What takes it back: what a key had before, which may be no place, the keys that had no place, or all
/// properties.
#[derive(Drop)]
pub enum PropertiesBefore {
    Key(NameId, Option<Value>),
    Places(Vec<NameId>),
    All(Properties),
}

/// What is to be done to a node: its properties change, it gets one more label, or other labels.
#[derive(Drop)]
pub enum NodeChange {
    Properties(PropertyChange),
    Label(NameId),
    Labels(Labels),
}

/// What takes it back.
#[derive(Drop)]
pub enum NodeBefore {
    Properties(PropertiesBefore),
    Label(NameId),
    Labels(Labels),
}

impl PropertiesBefore {
    // What stood under a key, where it may no longer stand.
    pub(crate) fn value(&self, key: NameId) -> Option<&Value>
        ensures some { IfSome result (λ v. (ps : records.Properties)
            → map.get (properties_before self.now ps) key ≡ Some (view v.now)) }
        ensures none { IfNone result ((ps : records.Properties) (w : meaning.Value)
            → map.get (properties_before self.now ps) key ≡ Some w → map.get ps key ≡ Some w) }
    {
        match self {
            PropertiesBefore::Key(changed, value) if changed.as_u64() == key.as_u64() =>
                value.as_ref(),
            PropertiesBefore::Key(_, _) => None,
            PropertiesBefore::Places(_) => None,
            PropertiesBefore::All(properties) => properties.get(key),
        }
    }

    // Whether the change surely leaves alone what stands under a key.
    pub(crate) fn keeps(&self, key: NameId) -> bool
        ensures { result ≡ true → (ps : records.Properties)
            → map.get (properties_before self.now ps) key ≡ map.get ps key }
    {
        match self {
            PropertiesBefore::Key(changed, _) => changed.as_u64() != key.as_u64(),
            PropertiesBefore::Places(_) | PropertiesBefore::All(_) => false,
        }
    }
}

// Changes properties, or leaves them as they are.
pub(crate) fn exchange(
    properties: &mut Properties,
    change: PropertyChange,
) -> Result<PropertiesBefore, AllocError>
    requires { CanChange change properties.old }
    ensures ok { OnOk result (properties.new ≡ changed_properties change properties.old) }
    ensures back { IfOk result
        (λ before. properties_before before properties.new ≡ properties.old) }
    ensures can { IfOk result (λ before. CanGiveBack before properties.new) }
    ensures err { OnErr result (properties.new ≡ properties.old) }
{
    match change {
        PropertyChange::Key(key, value) => {
            let before = properties.exchange(key, value)?;
            Ok(PropertiesBefore::Key(key, before))
        }
        PropertyChange::Places(keys) => {
            properties.insert_blanks(keys.as_slice())?;
            Ok(PropertiesBefore::Places(keys))
        }
        PropertyChange::All(all) => Ok(PropertiesBefore::All(mem::replace(properties, all))),
    }
}

// Takes a change of properties back. It takes no memory.
pub(crate) fn give_back(properties: &mut Properties, before: PropertiesBefore)
    requires { CanGiveBack before properties.old }
    ensures { properties.new ≡ properties_before before properties.old }
{
    match before {
        PropertiesBefore::Key(key, value) => properties.give_back(key, value),
        PropertiesBefore::Places(keys) => properties.remove_keys(keys.as_slice()),
        PropertiesBefore::All(all) => *properties = all,
    }
}

// Takes a change of a node back. It takes no memory.
pub(crate) fn give_node_back(node: &mut NodeRecord, before: NodeBefore)
    requires { CanGoBack before node.old }
    ensures { node.new ≡ node_before before node.old }
{
    match before {
        NodeBefore::Properties(properties) => give_back(&mut node.properties, properties),
        NodeBefore::Label(label) => node.labels.remove(label),
        NodeBefore::Labels(labels) => node.labels = labels,
    }
}
