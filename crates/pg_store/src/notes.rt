//! Notes of ids that stand in a set and do not belong there, or no longer, so that they are swept.
ghost use Rattle.std.specs.Prelude.{◌≡◌, ◌==◌, ◌||◌, ℕ, true, OnOk};
ghost use Rattle.std.specs.List.{list_any};
ghost use Rattle.pg_index.specs.Properties.{finds, has_pair, is_found_by, is_one_value, pairs_of, some_finds};
ghost use Rattle.pg_store.specs.Covers.{with_label, with_value};
ghost use Rattle.pg_store.specs.Edits.{CanGiveBack, properties_before};
ghost use Rattle.pg_store.specs.Noted.{is_noted, StayNoted};
ghost use Rattle.pg_value_core.specs.declared.value.Value as code;

use crate::edits::PropertiesBefore;
use crate::wanted::{Place, Wanted, is_sought};
use pg_graph::{Labels, NodeRecord};
use pg_index::PropertyIndex;
use pg_names::NameId;
use pg_value_core::Value;
use std::alloc::{AllocError, Global};

// Notes an id under each of these labels.
pub(crate) fn note_labels(
    stale_ids: &mut Vec<(Place, u64)>,
    labels: &Labels,
    id: u64,
) -> Result<(), AllocError>
    ensures notes { StayNoted stale_ids.old.items stale_ids.new.items }
    ensures ok { OnOk result ((label : ℕ) → list_any (λ l. l == label) labels.now ≡ true
        → is_noted stale_ids.new.items (with_label label) id ≡ true) }
{
    for label in labels.as_slice() {
        stale_ids.push((Place::Labelled(*label), id))?;
    }
    Ok(())
}

// Notes an id under each of the labels before that is none of those now.
pub(crate) fn note_labels_left(
    stale_ids: &mut Vec<(Place, u64)>,
    before: &Labels,
    labels: &Labels,
    id: u64,
) -> Result<(), AllocError>
    ensures notes { StayNoted stale_ids.old.items stale_ids.new.items }
    ensures ok { OnOk result ((label : ℕ) → list_any (λ l. l == label) before.now ≡ true
        → (list_any (λ l. l == label) labels.now
        || is_noted stale_ids.new.items (with_label label) id)
        ≡ true) }
{
    for label in before.as_slice() {
        note_label_left(stale_ids, *label, labels, id)?;
    }
    Ok(())
}

// Notes an id under a label that is none of these.
fn note_label_left(
    stale_ids: &mut Vec<(Place, u64)>,
    label: NameId,
    labels: &Labels,
    id: u64,
) -> Result<(), AllocError>
    ensures notes { StayNoted stale_ids.old.items stale_ids.new.items }
    ensures ok { OnOk result
        ((list_any (λ l. l == label) labels.now
        || is_noted stale_ids.new.items (with_label label) id)
        ≡ true) }
{
    if labels.contains(label) {
        return Ok(());
    }
    stale_ids.push((Place::Labelled(label), id))?;
    Ok(())
}

// Notes the values by which indexes find a node.
pub(crate) fn note_values(
    alloc: Global,
    stale_ids: &mut Vec<(Place, u64)>,
    indexes: &[PropertyIndex],
    was: &NodeRecord,
    id: u64,
) -> Result<(), AllocError>
    ensures notes { StayNoted stale_ids.old.items stale_ids.new.items }
    ensures ok { OnOk result ((label key : ℕ) (v : code.Value)
        → has_pair (label, key) (pairs_of indexes.now) ≡ true
        → is_found_by label key v was.now ≡ true
        → is_noted stale_ids.new.items (with_value label key v) id ≡ true) }
{
    for index in indexes {
        note_value_of(alloc, stale_ids, index, was, id)?;
    }
    Ok(())
}

// Notes the value by which an index finds a node.
fn note_value_of(
    alloc: Global,
    stale_ids: &mut Vec<(Place, u64)>,
    index: &PropertyIndex,
    was: &NodeRecord,
    id: u64,
) -> Result<(), AllocError>
    ensures notes { StayNoted stale_ids.old.items stale_ids.new.items }
    ensures ok { OnOk result ((v : code.Value)
        → is_found_by index.now.label index.now.key v was.now ≡ true
        → is_noted stale_ids.new.items (with_value index.now.label index.now.key v) id ≡ true) }
{
    match index.indexed_value(was) {
        Some(value) => note_value(alloc, stale_ids, index, value, id),
        None => Ok(()),
    }
}

// Notes the values by which indexes will find a node and do not find it yet.
pub(crate) fn note_arrivals(
    alloc: Global,
    stale_ids: &mut Vec<(Place, u64)>,
    indexes: &[PropertyIndex],
    node: &NodeRecord,
    id: u64,
) -> Result<(), AllocError>
    ensures notes { StayNoted stale_ids.old.items stale_ids.new.items }
    ensures ok { OnOk result ((label key : ℕ) (v : code.Value)
        → has_pair (label, key) (pairs_of indexes.now) ≡ true
        → is_found_by label key v node.now ≡ true → (some_finds indexes.now label key v id
        || is_noted stale_ids.new.items (with_value label key v) id) ≡ true) }
{
    for index in indexes {
        note_arrival(alloc, stale_ids, index, node, id)?;
    }
    Ok(())
}

// Notes the value by which an index will find a node, if it does not find it yet.
fn note_arrival(
    alloc: Global,
    stale_ids: &mut Vec<(Place, u64)>,
    index: &PropertyIndex,
    node: &NodeRecord,
    id: u64,
) -> Result<(), AllocError>
    ensures notes { StayNoted stale_ids.old.items stale_ids.new.items }
    ensures ok { OnOk result ((v : code.Value)
        → is_found_by index.now.label index.now.key v node.now ≡ true → (finds index.now v id
        || is_noted stale_ids.new.items (with_value index.now.label index.now.key v) id) ≡ true) }
{
    let Some(value) = index.indexed_value(node) else {
        return Ok(());
    };
    if index.has(value, id) {
        return Ok(());
    }
    note_value(alloc, stale_ids, index, value, id)
}

// Notes the values under which indexes find a node no longer whose properties have changed.
pub(crate) fn note_values_left(
    alloc: Global,
    stale_ids: &mut Vec<(Place, u64)>,
    indexes: &[PropertyIndex],
    node: &NodeRecord,
    id: u64,
    before: &PropertiesBefore,
) -> Result<(), AllocError>
    requires { CanGiveBack before.now node.now.properties }
    ensures notes { StayNoted stale_ids.old.items stale_ids.new.items }
    ensures ok { OnOk result ((label key : ℕ) (v : code.Value)
        → has_pair (label, key) (pairs_of indexes.now) ≡ true → is_found_by label key v
        (record node.now { properties = properties_before before.now node.now.properties }) ≡ true
        → (is_found_by label key v node.now
        || is_noted stale_ids.new.items (with_value label key v) id)
        ≡ true) }
{
    for index in indexes {
        note_value_left(alloc, stale_ids, index, node, id, before)?;
    }
    Ok(())
}

// Notes the value before under which an index finds a node no longer.
fn note_value_left(
    alloc: Global,
    stale_ids: &mut Vec<(Place, u64)>,
    index: &PropertyIndex,
    node: &NodeRecord,
    id: u64,
    before: &PropertiesBefore,
) -> Result<(), AllocError>
    requires { CanGiveBack before.now node.now.properties }
    ensures notes { StayNoted stale_ids.old.items stale_ids.new.items }
    ensures ok { OnOk result ((v : code.Value) → is_found_by index.now.label index.now.key v
        (record node.now { properties = properties_before before.now node.now.properties }) ≡ true
        → (is_found_by index.now.label index.now.key v node.now
        || is_noted stale_ids.new.items (with_value index.now.label index.now.key v) id) ≡ true) }
{
    let Some(value) = before.value(index.key) else {
        return Ok(());
    };
    if !node.labels.contains(index.label) {
        return Ok(());
    }
    let wanted = Wanted::Valued(index.label, index.key, value);
    if is_sought(Some(node), &wanted) {
        return Ok(());
    }
    note_value(alloc, stale_ids, index, value, id)
}

// Notes the values by which indexes found a node under labels that it has no longer.
pub(crate) fn note_label_values_left(
    alloc: Global,
    stale_ids: &mut Vec<(Place, u64)>,
    indexes: &[PropertyIndex],
    node: &NodeRecord,
    id: u64,
    before: &Labels,
) -> Result<(), AllocError>
    ensures notes { StayNoted stale_ids.old.items stale_ids.new.items }
    ensures ok { OnOk result ((label key : ℕ) (v : code.Value)
        → has_pair (label, key) (pairs_of indexes.now) ≡ true
        → is_found_by label key v (record node.now { labels = before.now }) ≡ true
        → (is_found_by label key v node.now
        || is_noted stale_ids.new.items (with_value label key v) id)
        ≡ true) }
{
    for index in indexes {
        note_label_value_left(alloc, stale_ids, index, node, id, before)?;
    }
    Ok(())
}

// Notes the value by which an index found a node under a label that it has no longer.
fn note_label_value_left(
    alloc: Global,
    stale_ids: &mut Vec<(Place, u64)>,
    index: &PropertyIndex,
    node: &NodeRecord,
    id: u64,
    before: &Labels,
) -> Result<(), AllocError>
    ensures notes { StayNoted stale_ids.old.items stale_ids.new.items }
    ensures ok { OnOk result ((v : code.Value)
        → is_found_by index.now.label index.now.key v (record node.now { labels = before.now })
        ≡ true → (is_found_by index.now.label index.now.key v node.now
        || is_noted stale_ids.new.items (with_value index.now.label index.now.key v) id) ≡ true) }
{
    if node.labels.contains(index.label) {
        return Ok(());
    }
    if !before.contains(index.label) {
        return Ok(());
    }
    match node.properties.get(index.key) {
        Some(value) => note_value(alloc, stale_ids, index, value, id),
        None => Ok(()),
    }
}

// Notes an id under a value of an index.
fn note_value(
    alloc: Global,
    stale_ids: &mut Vec<(Place, u64)>,
    index: &PropertyIndex,
    value: &Value,
    id: u64,
) -> Result<(), AllocError>
    ensures notes { StayNoted stale_ids.old.items stale_ids.new.items }
    ensures ok { OnOk result ((v : code.Value) → is_one_value value.now v ≡ true
        → is_noted stale_ids.new.items (with_value index.now.label index.now.key v) id ≡ true) }
{
    let value = value.copy(alloc)?;
    stale_ids.push((Place::Valued(index.label, index.key, value), id))?;
    Ok(())
}
