//! Properties in the byte order of their keys, lent.
ghost use Rattle.std.specs.Prelude.{◌≡◌, ◌<◌, ◌≤◌, length, map as map_list, OnOk, IfOk, MatchResult};
ghost use Rattle.std.specs.FinMap as map;
ghost use Rattle.pg_graph.specs.InOrder.{listed_entries, place_in};
ghost use Rattle.pg_graph.specs.Records.{seen_entries};
ghost use Rattle.pg_graph.specs.Refinement.{AreNamed, named_entries, property_entries, put_shown};
ghost use Rattle.pg_value_core.specs.View.{view};

use crate::by_text::is_null;
use crate::properties::Properties;
use pg_names::{NameId, Names, TextSet};
use pg_value_core::Value;
use std::alloc::{AllocError, Global};
use std::cmp::Ordering;
use std::collections::BTreeMap;

/// So many properties are put to their places in a list; more go through a map.
const FEW: usize = 8;

// Where a key stands among those found, or belongs.
fn place(found: &[(&str, &Value)], key: &str) -> Result<usize, usize>
    ensures place { result ≡ place_in key.now found.now }
    ensures bound { MatchResult result (λ i. i < length found.now) (λ i. i ≤ length found.now) }
{
    let mut at = 0;
    while at < found.len() {
        match key.cmp(found[at].0) {
            Ordering::Less => return Err(at),
            Ordering::Equal => return Ok(at),
            Ordering::Greater => at += 1,
        }
    }
    Err(at)
}

// Puts a value under a text, if it is not blank.
fn put<'a>(
    found: &mut Vec<(&'a str, &'a Value)>,
    key: &'a str,
    value: &'a Value,
) -> Result<(), AllocError>
    ensures { OnOk result (listed_entries found.new.items
        ≡ put_shown key.now (view value.now) (listed_entries found.old.items)) }
{
    if is_null(value) {
        return Ok(());
    }
    match place(found.as_slice(), key) {
        Ok(at) => found[at] = (key, value),
        Err(at) => found.insert(at, (key, value))?,
    }
    Ok(())
}

// Puts a value under a text of the map, if it is not blank.
fn put_in_map<'a>(
    found: &mut BTreeMap<&'a str, &'a Value>,
    key: &'a str,
    value: &'a Value,
) -> Result<(), AllocError>
    ensures { OnOk result (listed_entries found.new.entries
        ≡ put_shown key.now (view value.now) (listed_entries found.old.entries)) }
{
    if is_null(value) {
        return Ok(());
    }
    found.insert(key, value)?;
    Ok(())
}

// The entries in the byte order of their keys, where they are few.
fn few_in_order<'a, K: TextSet>(
    alloc: Global,
    entries: &'a [(NameId, Value)],
    names: &'a Names<K>,
) -> Result<Vec<(&'a str, &'a Value)>, AllocError>
    requires { AreNamed names.now (map_list (λ e. e.0) (seen_entries entries.now)) }
    ensures { IfOk result (λ found. listed_entries found.items
        ≡ named_entries names.now (seen_entries entries.now)) }
{
    let mut found = Vec::with_capacity(alloc, entries.len())?;
    let mut left = entries.len();
    // from the last entry on, as the definition puts them
    while left > 0 {
        left -= 1;
        let (key, value) = &entries[left];
        put(&mut found, names.text(*key), value)?;
    }
    Ok(found)
}

// The same of any number of entries.
#[inline(never)]
fn all_in_order<'a, K: TextSet>(
    alloc: Global,
    entries: &'a [(NameId, Value)],
    names: &'a Names<K>,
) -> Result<Vec<(&'a str, &'a Value)>, AllocError>
    requires { AreNamed names.now (map_list (λ e. e.0) (seen_entries entries.now)) }
    ensures { IfOk result (λ found. listed_entries found.items
        ≡ named_entries names.now (seen_entries entries.now)) }
{
    let mut found = BTreeMap::new(alloc);
    let mut left = entries.len();
    while left > 0 {
        left -= 1;
        let (key, value) = &entries[left];
        put_in_map(&mut found, names.text(*key), value)?;
    }
    found.into_iter().collect(alloc)
}

impl Properties {
    /// The properties in the byte order of their keys, lent.
    pub fn in_order<'a, K: TextSet>(
        &'a self,
        alloc: Global,
        names: &'a Names<K>,
    ) -> Result<Vec<(&'a str, &'a Value)>, AllocError>
        requires { AreNamed names.now (map.keys self.now) }
        ensures { IfOk result
            (λ found. listed_entries found.items ≡ property_entries names.now self.now) }
    {
        let entries = self.entries();
        if entries.len() <= FEW {
            return few_in_order(alloc, entries, names);
        }
        all_in_order(alloc, entries, names)
    }
}
