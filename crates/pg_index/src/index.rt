//! A set of ids for each key that has any.
ghost use Rattle.std.specs.Prelude.{◌≡◌, OnOk, OnErr, option_copied, if◌then◌else◌};
ghost use Rattle.std.specs.BTreeMap.{is_at, values};
ghost use Rattle.std.specs.FinMap as map;
ghost use Rattle.pg_index.specs.Kept.{NoneIsEmpty};

use pg_graph::IdSet;
use std::alloc::{AllocError, Global};
use std::cmp::Ord;
use std::collections::BTreeMap;

/// A set of ids for each key that has any. Two keys that the order has as one share their set.
#[derive(Drop)]
pub struct Index<K: Ord> {
    alloc: Global,
    sets: BTreeMap<K, IdSet>,
    ghost none_is_empty: { NoneIsEmpty (values sets) },
}

impl<K: Ord + Drop> Index<K> {
    ghost use Rattle.pg_index.specs.Index.{ids_at, the_ids};

    /// An index without keys, which takes no memory yet.
    pub fn new(alloc: Global) -> Self
        ensures { (key : K) → ids_at K.cmp result key ≡ map.empty }
    {
        Index {
            alloc,
            sets: BTreeMap::new(alloc),
        }
    }

    /// The ids under a key, if there are any.
    pub fn get(&self, key: &K) -> Option<&IdSet>
        ensures { the_ids (option_copied result) ≡ ids_at K.cmp self.now key.now }
    {
        self.sets.get(key)
    }

    /// Puts an id under a key, or changes nothing.
    pub fn insert_id(&mut self, key: K, id: u64) -> Result<(), AllocError>
        ensures ok { OnOk result ((q : K) → ids_at K.cmp self.new q ≡ (if is_at (K.cmp key) q
            then map.insert (ids_at K.cmp self.old key) id tt else ids_at K.cmp self.old q)) }
        ensures err { OnErr result ((q : K) → ids_at K.cmp self.new q ≡ ids_at K.cmp self.old q) }
    {
        if let Some(ids) = self.sets.get_mut(&key) {
            ids.insert(id)?;
            return Ok(());
        }
        let mut ids = IdSet::new(self.alloc);
        ids.insert(id)?;
        self.sets.insert(key, ids)?;
        Ok(())
    }

    /// Takes an id from under a key, if it is there. It takes no memory, and keeps nothing for an empty set.
    pub fn remove_id(&mut self, key: &K, id: u64)
        ensures { (q : K)
            → ids_at K.cmp self.new q
            ≡ (if is_at (K.cmp key.now) q then map.remove (ids_at K.cmp self.old key.now) id
            else ids_at K.cmp self.old q) }
    {
        let Some(ids) = self.sets.get_mut(key) else {
            return;
        };
        ids.remove_id(id);
        if ids.is_empty() {
            self.sets.remove(key);
        }
    }
}
