//! A set of ids for each value that has any, found by a keyed hash.
ghost use Rattle.std.specs.Prelude.{◌≡◌};
ghost use Rattle.indexmap.specs.IndexMap.{values};
ghost use Rattle.pg_index.specs.Kept.{NoneIsEmpty};

use indexmap::IndexMap;
use pg_graph::IdSet;
use pg_value_core::Value;
use std::alloc::{AllocError, Global};
use std::hash::RandomState;

/// A set of ids for each value that has any. Two values that the order has as one share their set.
#[derive(Drop)]
pub(crate) struct ValuedIds {
    alloc: Global,
    sets: IndexMap<Value, IdSet, RandomState>,
    ghost none_is_empty: { NoneIsEmpty (values sets) },
}

impl ValuedIds {
    ghost use Rattle.std.specs.Prelude.{◌≡◌, OnOk, OnErr, option_copied, if◌then◌else◌};
    ghost use Rattle.std.specs.FinMap as map;
    ghost use Rattle.pg_index.specs.Index.{the_ids};
    ghost use Rattle.pg_index.specs.Properties.{is_one_value};
    ghost use Rattle.pg_index.specs.ValuedIds.{ids_under};
    ghost use Rattle.pg_value_core.specs.declared.value.Value as code;

    /// No ids. The hasher's keys are to be random where a stranger chooses the values.
    pub(crate) fn new(alloc: Global, hasher: RandomState) -> Self
        ensures { (v : code.Value) → ids_under result v ≡ map.empty }
    {
        ValuedIds {
            alloc,
            sets: IndexMap::with_hasher(alloc, hasher),
        }
    }

    /// The ids under a value, if there are any.
    pub(crate) fn get(&self, value: &Value) -> Option<&IdSet>
        ensures { the_ids (option_copied result) ≡ ids_under self.now value.now }
    {
        self.sets.get(value)
    }

    /// Puts an id under a value, which is copied where it had none, or changes nothing.
    pub(crate) fn insert_id(&mut self, value: &Value, id: u64) -> Result<(), AllocError>
        ensures ok { OnOk result ((q : code.Value)
            → ids_under self.new q ≡ (if is_one_value value.now q
            then map.insert (ids_under self.old value.now) id tt else ids_under self.old q)) }
        ensures err { OnErr result ((q : code.Value)
            → ids_under self.new q ≡ ids_under self.old q) }
    {
        if let Some(ids) = self.sets.get_mut(value) {
            ids.insert(id)?;
            return Ok(());
        }
        let mut ids = IdSet::new(self.alloc);
        ids.insert(id)?;
        let value = value.copy(self.alloc)?;
        self.sets.insert(value, ids)?;
        Ok(())
    }

    /// Takes an id from under a value, if it is there. It takes no memory, and keeps nothing for an empty set.
    pub(crate) fn remove_id(&mut self, value: &Value, id: u64)
        ensures { (q : code.Value)
            → ids_under self.new q
            ≡ (if is_one_value value.now q then map.remove (ids_under self.old value.now) id
            else ids_under self.old q) }
    {
        let Some(ids) = self.sets.get_mut(value) else {
            return;
        };
        ids.remove_id(id);
        if ids.is_empty() {
            self.sets.swap_remove(value);
            trim(&mut self.sets);
        }
    }
}

// Gives room back where three quarters of it are free.
fn trim(sets: &mut IndexMap<Value, IdSet, RandomState>)
    ensures { sets.new.entries ≡ sets.old.entries }
{
    let length = sets.len();
    if length.max(4) < sets.capacity() / 4 {
        sets.shrink_to(length * 2);
    }
}
