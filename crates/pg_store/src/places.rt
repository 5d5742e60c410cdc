//! Places for many keys at once, before they get their values: of keys that are put in one by one each moves
//! all that stand behind it.
ghost use Rattle.std.specs.Prelude.{◌≡◌, ◌<◌, ℕ, true, None, IfOk};
ghost use Rattle.std.specs.FinMap as map;
ghost use Rattle.std.specs.List.{AllByRecursion};
ghost use Rattle.pg_graph.specs.Records.{AreKeys};
ghost use Rattle.pg_graph.specs.Refinement.{AreNamed, property_entries};
ghost use Rattle.pg_meaning.specs.Graph.{has_node, has_relationship};
ghost use Rattle.pg_meaning.specs.Value.{no_entries};
ghost use Rattle.pg_names.specs.Names.{AreDistinct, KeepsNames};
ghost use Rattle.pg_store.specs.Stores.{graph_of_store, IsFit, KeepsMarks, KeepsShared};

use crate::edits::{NodeChange, PropertyChange};
use crate::shared::Shared;
use crate::store::Store;
use pg_graph::{Properties, Tables};
use pg_names::{NameId, Names, TextSet};
use pg_value_core::{NodeId, RelId, Value};
use std::alloc::{AllocError, Global};

// So many keys are put one by one into properties that are there.
pub(crate) const FEW_KEYS: usize = 8;

// So many are put one by one where there are none: they move little.
const FEW_NEW_KEYS: usize = 64;

impl<T: Tables> Store<T> {
    // Gives each key that is to get a value a place at a node, if it has none. After an error some texts may
    // have numbers.
    pub(crate) fn make_node_places(
        &mut self,
        shared: &mut Shared<T::Shared>,
        id: NodeId,
        pairs: &Vec<(&str, Value)>,
    ) -> Result<(), AllocError>
        requires fit { IsFit T.seen self.old shared.old }
        requires there { has_node (graph_of_store T.seen self.old shared.old) id.0 ≡ true }
        ensures graph { graph_of_store T.seen self.new shared.new
            ≡ graph_of_store T.seen self.old shared.old }
        ensures marks { KeepsMarks T.seen self.old shared.old self.new shared.new }
        ensures fit { IsFit T.seen self.new shared.new }
        ensures keeps { KeepsShared T.seen self.old shared.old self.new shared.new }
    {
        let alloc = self.sets.alloc;
        let keys = keys_of(alloc, &mut shared.names, pairs)?;
        self.add_node_places(shared, id, keys.as_slice())
    }

    fn add_node_places(
        &mut self,
        shared: &mut Shared<T::Shared>,
        id: NodeId,
        keys: &[NameId],
    ) -> Result<(), AllocError>
        requires fit { IsFit T.seen self.old shared.old }
        requires there { has_node (graph_of_store T.seen self.old shared.old) id.0 ≡ true }
        requires named { AreNamed shared.old.names keys.now }
        ensures graph { graph_of_store T.seen self.new shared.new
            ≡ graph_of_store T.seen self.old shared.old }
        ensures marks { KeepsMarks T.seen self.old shared.old self.new shared.new }
        ensures fit { IsFit T.seen self.new shared.new }
        ensures keeps { KeepsShared T.seen self.old shared.old self.new shared.new }
    {
        let node = self.node(shared, id).unwrap();
        let places = absent_keys(self.sets.alloc, &node.properties, keys)?;
        if places.is_empty() {
            return Ok(());
        }
        let change = NodeChange::Properties(PropertyChange::Places(places));
        self.change_node(shared, id, change)
    }

    // Gives each key that is to get a value a place at a relationship, if it has none. After an error some texts
    // may have numbers.
    pub(crate) fn make_rel_places(
        &mut self,
        shared: &mut Shared<T::Shared>,
        id: RelId,
        pairs: &Vec<(&str, Value)>,
    ) -> Result<(), AllocError>
        requires fit { IsFit T.seen self.old shared.old }
        requires there { has_relationship (graph_of_store T.seen self.old shared.old) id.0 ≡ true }
        ensures graph { graph_of_store T.seen self.new shared.new
            ≡ graph_of_store T.seen self.old shared.old }
        ensures marks { KeepsMarks T.seen self.old shared.old self.new shared.new }
        ensures fit { IsFit T.seen self.new shared.new }
        ensures keeps { KeepsShared T.seen self.old shared.old self.new shared.new }
    {
        let alloc = self.sets.alloc;
        let keys = keys_of(alloc, &mut shared.names, pairs)?;
        self.add_rel_places(shared, id, keys.as_slice())
    }

    fn add_rel_places(
        &mut self,
        shared: &mut Shared<T::Shared>,
        id: RelId,
        keys: &[NameId],
    ) -> Result<(), AllocError>
        requires fit { IsFit T.seen self.old shared.old }
        requires there { has_relationship (graph_of_store T.seen self.old shared.old) id.0 ≡ true }
        requires named { AreNamed shared.old.names keys.now }
        ensures graph { graph_of_store T.seen self.new shared.new
            ≡ graph_of_store T.seen self.old shared.old }
        ensures marks { KeepsMarks T.seen self.old shared.old self.new shared.new }
        ensures fit { IsFit T.seen self.new shared.new }
        ensures keeps { KeepsShared T.seen self.old shared.old self.new shared.new }
    {
        let rel = self.rel(shared, id).unwrap();
        let places = absent_keys(self.sets.alloc, &rel.properties, keys)?;
        if places.is_empty() {
            return Ok(());
        }
        self.change_rel(shared, id, PropertyChange::Places(places))
    }
}

// No properties yet, with places for the keys that get a value where these are many.
pub(crate) fn blank_properties<K: TextSet>(
    alloc: Global,
    names: &mut Names<K>,
    pairs: &Vec<(&str, Value)>,
) -> Result<Properties, AllocError>
    requires { AreDistinct names.old }
    ensures none { IfOk result
        (λ properties. property_entries names.new properties ≡ no_entries) }
    ensures named { IfOk result (λ properties. AreNamed names.new (map.keys properties)) }
    ensures keeps { KeepsNames names.old names.new }
    ensures distinct { AreDistinct names.new }
{
    let mut properties = Properties::with_capacity(alloc, pairs.len())?;
    if pairs.len() <= FEW_NEW_KEYS {
        return Ok(properties);
    }
    let keys = keys_of(alloc, names, pairs)?;
    let places = absent_keys(alloc, &properties, keys.as_slice())?;
    properties.insert_blanks(places.as_slice())?;
    Ok(properties)
}

// The numbers of the keys that get a value, not falling.
fn keys_of<K: TextSet>(
    alloc: Global,
    names: &mut Names<K>,
    pairs: &Vec<(&str, Value)>,
) -> Result<Vec<NameId>, AllocError>
    requires { AreDistinct names.old }
    ensures named { IfOk result (λ keys. AreNamed names.new keys.items) }
    ensures keeps { KeepsNames names.old names.new }
    ensures distinct { AreDistinct names.new }
{
    let mut keys = numbers_of(alloc, names, pairs)?;
    keys.sort_unstable_by_key(|key| key.as_u64());
    Ok(keys)
}

fn numbers_of<K: TextSet>(
    alloc: Global,
    names: &mut Names<K>,
    pairs: &Vec<(&str, Value)>,
) -> Result<Vec<NameId>, AllocError>
    requires { AreDistinct names.old }
    ensures named { IfOk result (λ keys. AreNamed names.new keys.items) }
    ensures keeps { KeepsNames names.old names.new }
    ensures distinct { AreDistinct names.new }
{
    let mut keys = Vec::with_capacity(alloc, pairs.len())?;
    for (text, value) in pairs {
        let key = names.intern(text)?;
        if !matches!(value, Value::Null) {
            keys.push(key)?;
        }
    }
    Ok(keys)
}

// Those of the keys that have no place, by rising numbers.
fn absent_keys(
    alloc: Global,
    properties: &Properties,
    keys: &[NameId],
) -> Result<Vec<NameId>, AllocError>
    ensures rising { IfOk result (λ absent. AreKeys absent.items) }
    ensures absent { IfOk result
        (λ absent. AllByRecursion (λ key. map.get properties.now key ≡ None) absent.items) }
    ensures bounded { IfOk result (λ absent. (bound : ℕ)
        → AllByRecursion (λ key. key < bound) keys.now
        → AllByRecursion (λ key. key < bound) absent.items) }
{
    let mut absent = Vec::new(alloc);
    for key in keys {
        if is_above(absent.as_slice(), *key) && properties.get(*key).is_none() {
            absent.push(*key)?;
        }
    }
    Ok(absent)
}

// Whether a key is above the last of keys that rise, and so above them all.
fn is_above(keys: &[NameId], key: NameId) -> bool
    requires { AreKeys keys.now }
    ensures { result ≡ true → AllByRecursion (λ k. k < key) keys.now }
{
    match keys.last() {
        Some(last) => last.as_u64() < key.as_u64(),
        None => true,
    }
}
