//! Places of keys in entries that rise: blank ones made for keys, and those of keys taken away.
ghost use Rattle.std.specs.Prelude.{◌≡◌, ◌==◌, ◌+◌, ◌++◌, not, filter, map, length, take, None, OnOk, OnErr};
ghost use Rattle.std.specs.List.{AllByRecursion, list_any};
ghost use Rattle.pg_graph.specs.Records.{value_in, with_blank_entries, AreEntries, AreKeys};
ghost use Rattle.pg_value_core.specs.declared.value.Value.TheVariants.{Null};

use crate::sorted;
use crate::sorted::Numbered;
use pg_names::NameId;
use pg_value_core::Value;
use std::alloc::AllocError;
use std::mem;

// Gives these keys, none of which is there, blank places, in one pass from the end.
pub(crate) fn insert_blanks(
    entries: &mut Vec<(NameId, Value)>,
    keys: &[NameId],
) -> Result<(), AllocError>
    requires entries { AreEntries entries.old.items }
    requires rising { AreKeys keys.now }
    requires absent { AllByRecursion (λ key. value_in entries.old.items key ≡ None) keys.now }
    ensures ok { OnOk result
        (entries.new.items ≡ with_blank_entries entries.old.items keys.now) }
    ensures err { OnErr result (entries.new.items ≡ entries.old.items) }
{
    let count = entries.len();
    push_blanks(entries, keys)?;
    merge_blanks(entries, count, keys);
    Ok(())
}

// Puts a blank entry for each key behind the entries.
fn push_blanks(entries: &mut Vec<(NameId, Value)>, keys: &[NameId]) -> Result<(), AllocError>
    ensures ok { OnOk result (entries.new.items
        ≡ entries.old.items ++ map (λ key. (key, Null)) keys.now) }
    ensures err { OnErr result (entries.new.items ≡ entries.old.items) }
{
    entries.reserve(keys.len())?;
    for key in keys {
        entries.push_reserved((*key, Value::Null));
    }
    Ok(())
}

// Brings the first entries and blank ones of these keys into order, where there is room for both. Each entry
// behind a key is moved once, and none before the first key.
fn merge_blanks(entries: &mut Vec<(NameId, Value)>, count: usize, keys: &[NameId])
    requires room { length entries.old.items ≡ count + length keys.now }
    requires entries { AreEntries (take count entries.old.items) }
    requires rising { AreKeys keys.now }
    requires absent { AllByRecursion
        (λ key. value_in (take count entries.old.items) key ≡ None) keys.now }
    ensures { entries.new.items
        ≡ with_blank_entries (take count entries.old.items) keys.now }
{
    let mut before = count;
    let mut left = keys.len();
    while left > 0 {
        let key = keys[left - 1];
        if before > 0 && key.number() < entries[before - 1].number() {
            before -= 1;
            entries.swap(before, before + left);
        } else {
            left -= 1;
            drop(mem::replace(&mut entries[before + left], (key, Value::Null)));
        }
    }
}

// Takes these keys out, in one pass.
pub(crate) fn remove_keys(entries: &mut Vec<(NameId, Value)>, keys: &[NameId])
    requires { AreKeys keys.now }
    ensures { entries.new.items
        ≡ filter (λ e. not (list_any (λ key. key == e.0) keys.now)) entries.old.items }
{
    entries.retain(|entry| !has(keys, entry.0));
}

fn has(keys: &[NameId], key: NameId) -> bool
    requires { AreKeys keys.now }
    ensures { result ≡ list_any (λ k. k == key) keys.now }
{
    sorted::place(keys, key.number()).is_ok()
}
