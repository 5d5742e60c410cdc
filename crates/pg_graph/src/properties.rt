//! The properties of a node or a relationship.
ghost use Rattle.std.specs.Prelude.{◌≡◌, ℕ, not, filter, None, OnOk, OnErr, IfOk, IsSome};
ghost use Rattle.std.specs.FinMap as map;
ghost use Rattle.std.specs.List.{AllByRecursion};
ghost use Rattle.std.specs.Option.{option_map};
ghost use Rattle.std.specs.Ordering.{nat_cmp};
ghost use Rattle.pg_graph.specs.Blank.{is_null};
ghost use Rattle.pg_graph.specs.Records.{given_back, shown, value_in, with_blanks, with_property, without_keys, seen_entries, AreEntries, AreKeys};
ghost use Rattle.pg_graph.specs.Sorted.{with_element, without};
ghost use Rattle.pg_value_core.specs.View.{view};

use crate::by_text::is_null;
use crate::sorted::Numbered;
use crate::{places, sorted};
use pg_names::NameId;
use pg_value_core::Value;
use std::alloc::{AllocError, Global};
use std::marker::Model;
use std::mem;

/// Values under the numbers of their keys, which rise. A key under which null stands is blank: it
/// keeps its place, and reads as absent.
#[derive(Drop)]
pub struct Properties {
    entries: Vec<(NameId, Value)>,
}

impl Model for Properties {
    ghost use Rattle.std.specs.Coded.{coded_ℕ};
    ghost use Rattle.std.specs.FinMap as map;
    ghost use Rattle.std.specs.Ordering.{nat_cmp};
    ghost use Rattle.pg_meaning.specs.Value as meaning;
    ghost use Rattle.pg_graph.specs.Records.{seen_entries, AreEntries};
    ghost use Rattle.pg_graph.specs.ValueCode.{value_code};

    ghost Value = { map.FinMap nat_cmp meaning.Value };

    ghost coded = { map.code coded_ℕ value_code };

    ghost view = { λ p. map.from_sorted (seen_entries p.entries.items) };

    ghost invariant = { λ p. AreEntries p.entries.items };
}

impl Numbered for (NameId, Value) {
    ghost number = { λ e. e.0 };

    fn number(&self) -> u64 {
        self.0.number()
    }
}

// Puts a value under a key, and returns the one in whose place it came.
fn exchange_entry(
    entries: &mut Vec<(NameId, Value)>,
    key: NameId,
    value: Value,
) -> Result<Option<Value>, AllocError>
    requires { AreEntries entries.old.items }
    ensures ok { OnOk result
        (entries.new.items ≡ with_element (λ e. e.0) (key, value) entries.old.items) }
    ensures before { IfOk result
        (λ before. option_map view before ≡ value_in entries.old.items key) }
    ensures err { OnErr result (entries.new.items ≡ entries.old.items) }
    ensures entries { AreEntries entries.new.items }
{
    match sorted::place(entries.as_slice(), key.number()) {
        Ok(i) => {
            let (_, before) = mem::replace(&mut entries[i], (key, value));
            Ok(Some(before))
        }
        Err(i) => {
            entries.insert(i, (key, value))?;
            Ok(None)
        }
    }
}

// Gives a key that is there another value.
fn replace_entry(entries: &mut Vec<(NameId, Value)>, key: NameId, value: Value)
    requires entries { AreEntries entries.old.items }
    requires there { IsSome (value_in entries.old.items key) }
    ensures replaced { entries.new.items ≡ with_element (λ e. e.0) (key, value) entries.old.items }
    ensures entries { AreEntries entries.new.items }
{
    if let Ok(i) = sorted::place(entries.as_slice(), key.number()) {
        drop(mem::replace(&mut entries[i], (key, value)));
    }
}

// Takes a key out, if it is there.
fn remove_entry(entries: &mut Vec<(NameId, Value)>, key: NameId)
    requires { AreEntries entries.old.items }
    ensures removed { entries.new.items ≡ without (λ e. e.0) key entries.old.items }
    ensures entries { AreEntries entries.new.items }
{
    if let Ok(i) = sorted::place(entries.as_slice(), key.number()) {
        drop(entries.remove(i));
    }
}

// Takes the entries out whose value is null, in one pass.
fn remove_blank_entries(entries: &mut Vec<(NameId, Value)>)
    ensures { entries.new.items ≡ filter (λ e. not (is_null (view e.1))) entries.old.items }
{
    entries.retain(|entry| !is_null(&entry.1));
}

// The same entries, in memory of their own.
fn copy_entries(
    entries: &[(NameId, Value)],
    alloc: Global,
) -> Result<Vec<(NameId, Value)>, AllocError>
    ensures { IfOk result (λ v. seen_entries v.items ≡ seen_entries entries.now) }
{
    let mut copies = Vec::with_capacity(alloc, entries.len())?;
    for (key, value) in entries {
        copies.push((*key, value.copy(alloc)?))?;
    }
    Ok(copies)
}

impl Properties {
    /// No properties. It takes no memory.
    pub fn new(alloc: Global) -> Self
        ensures { result ≡ map.empty }
    {
        Properties {
            entries: Vec::new(alloc),
        }
    }

    /// No properties yet, with room for so many.
    pub fn with_capacity(alloc: Global, count: usize) -> Result<Self, AllocError>
        ensures { IfOk result (λ p. p ≡ map.empty) }
    {
        let entries = Vec::with_capacity(alloc, count)?;
        Ok(Properties { entries })
    }

    /// What stands under a key: null where it is blank.
    pub fn get(&self, key: NameId) -> Option<&Value>
        ensures { option_map (λ v. view v.now) result ≡ map.get self.now key }
    {
        match sorted::place(self.entries.as_slice(), key.number()) {
            Ok(i) => Some(&self.entries[i].1),
            Err(_) => None,
        }
    }

    /// Gives a key its value. Null takes the key out.
    pub fn set(&mut self, key: NameId, value: Value) -> Result<(), AllocError>
        ensures ok { OnOk result (self.new ≡ with_property self.old key (view value)) }
        ensures err { OnErr result (self.new ≡ self.old) }
    {
        if matches!(&value, Value::Null) {
            self.remove(key);
            return Ok(());
        }
        drop(self.exchange(key, value)?);
        Ok(())
    }

    /// Gives a key its value, and returns the one before. Null leaves the key blank.
    pub fn exchange(&mut self, key: NameId, value: Value) -> Result<Option<Value>, AllocError>
        ensures ok { OnOk result (self.new ≡ map.insert self.old key (view value)) }
        ensures before { IfOk result (λ before. option_map view before ≡ map.get self.old key) }
        ensures err { OnErr result (self.new ≡ self.old) }
    {
        exchange_entry(&mut self.entries, key, value)
    }

    /// Gives a key that is there what it had before, which may be no place. It takes no memory.
    pub fn give_back(&mut self, key: NameId, before: Option<Value>)
        requires { IsSome (map.get self.old key) }
        ensures { self.new ≡ given_back self.old key before }
    {
        match before {
            Some(value) => replace_entry(&mut self.entries, key, value),
            None => self.remove(key),
        }
    }

    /// Takes a key out, if it is there.
    pub fn remove(&mut self, key: NameId)
        ensures { self.new ≡ map.remove self.old key }
    {
        remove_entry(&mut self.entries, key);
    }

    /// Gives keys that have no place a blank one, in one pass. Or changes nothing.
    pub fn insert_blanks(&mut self, keys: &[NameId]) -> Result<(), AllocError>
        requires rising { AreKeys keys.now }
        requires absent { AllByRecursion (λ key. map.get self.old key ≡ None) keys.now }
        ensures ok { OnOk result (self.new ≡ with_blanks self.old keys.now) }
        ensures err { OnErr result (self.new ≡ self.old) }
    {
        places::insert_blanks(&mut self.entries, keys)
    }

    /// Takes keys out, in one pass. It takes no memory.
    pub fn remove_keys(&mut self, keys: &[NameId])
        requires { AreKeys keys.now }
        ensures { self.new ≡ without_keys self.old keys.now }
    {
        places::remove_keys(&mut self.entries, keys);
    }

    /// Takes all blank keys out, in one pass. It takes no memory.
    pub fn remove_blanks(&mut self)
        ensures { (key : ℕ) → map.get self.new key ≡ shown (map.get self.old key) }
    {
        remove_blank_entries(&mut self.entries);
    }

    /// The keys and their values, by rising key, blank ones too.
    pub fn entries(&self) -> &[(NameId, Value)]
        ensures { seen_entries result.now ≡ map.entries self.now }
    {
        self.entries.as_slice()
    }

    /// The same properties, in memory of their own.
    pub fn copy(&self, alloc: Global) -> Result<Properties, AllocError>
        ensures { IfOk result (λ p. p ≡ self.now) }
    {
        let entries = copy_entries(self.entries.as_slice(), alloc)?;
        Ok(Properties { entries })
    }
}
