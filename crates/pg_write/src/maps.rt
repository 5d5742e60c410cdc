//! The entries of a map as keys and values.
ghost use Rattle.std.specs.Prelude.{◌≡◌, ◌≢◌, IfOk, IfErr, Ok, Err};
ghost use Rattle.pg_meaning.specs.Updates.{mapping_pairs};
ghost use Rattle.pg_meaning.specs.Value.{entries_of};
ghost use Rattle.pg_meaning.specs.declared.fault.Fault.TheVariants.{OutOfMemory};
ghost use Rattle.pg_store.specs.Stores.{pairs_of};
ghost use Rattle.pg_value_core.specs.View.{view, entries_view};
ghost use Rattle.pg_write.specs.Maps.{paired};

use pg_meaning::Fault;
use pg_value_core::{Parts, Value, owned_entries};
use std::alloc::{AllocError, Global};
use std::collections::BTreeMap;

// The entries of a map, told apart.
fn split(
    alloc: Global,
    entries: BTreeMap<String, Value>,
) -> Result<(Vec<String>, Vec<Value>), AllocError>
    ensures { IfOk result
        (λ parts. entries_of (entries_view entries.entries) ≡ paired parts.0.items parts.1.items) }
{
    let mut keys = Vec::with_capacity(alloc, entries.len())?;
    let mut values = Vec::with_capacity(alloc, entries.len())?;
    for (key, value) in entries {
        keys.push(key)?;
        values.push(value)?;
    }
    Ok((keys, values))
}

/// The keys and the values of what has to be a map.
pub(crate) fn map_parts(alloc: Global, value: Value) -> Result<(Vec<String>, Vec<Value>), Fault>
    ensures ok { IfOk result
        (λ parts. mapping_pairs (view value) ≡ Ok (paired parts.0.items parts.1.items)) }
    ensures err { IfErr result (λ e. e ≢ OutOfMemory → mapping_pairs (view value) ≡ Err e) }
{
    match value.into_parts() {
        Parts::Map(entries) => Ok(split(alloc, owned_entries(alloc, entries)?)?),
        _ => Err(Fault::TypeFault),
    }
}

/// The keys, each with its value.
pub(crate) fn join<'a>(
    alloc: Global,
    keys: &'a Vec<String>,
    values: Vec<Value>,
) -> Result<Vec<(&'a str, Value)>, AllocError>
    ensures { IfOk result (λ pairs. pairs_of pairs.items ≡ paired keys.now.items values.items) }
{
    let mut pairs = Vec::with_capacity(alloc, keys.len())?;
    let mut rest = values.into_iter();
    for key in keys {
        match rest.next() {
            Some(value) => pairs.push((key.as_str(), value))?,
            None => return Ok(pairs),
        }
    }
    Ok(pairs)
}
