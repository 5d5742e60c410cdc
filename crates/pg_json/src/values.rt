//! From JSON data to the values of parameters.
ghost use Rattle.std.specs.Prelude.{◌≡◌, ◌≢◌, None, Some, IfOk, IfErr, OnOk, string_bytes};
ghost use Rattle.serde_json.specs.View.{view as data_view, members_view};
ghost use Rattle.pg_meaning.specs.Entries.{with_entry};
ghost use Rattle.pg_json.specs.Given.{value_within, entries_within};
ghost use Rattle.pg_meaning.specs.declared.fault.Fault.TheVariants.{BadRequest, OutOfMemory};
ghost use Rattle.pg_value_core.specs.View.{view, entries_view};

use pg_meaning::Fault;
use pg_value_core::Value;
use serde_json::{Map, Value as Data};
use std::alloc::{AllocError, Global};
use std::collections::BTreeMap;

/// The value that data gives, if it gives one that is at most so deep.
#[cycle(convert)]
fn value_from(alloc: Global, given: &Data, room: usize) -> Result<Value, Fault>
    ensures ok { IfOk result (λ v. value_within room (data_view given.now) ≡ Some (view v)) }
    ensures kind { IfErr result (λ e. e ≢ OutOfMemory → e ≡ BadRequest) }
    ensures refused { IfErr result (λ e. e ≢ OutOfMemory
        → value_within room (data_view given.now) ≡ None) }
{
    if room == 0 {
        return Err(Fault::BadRequest);
    }
    match given {
        Data::Null => Ok(Value::Null),
        Data::Bool(b) => Ok(Value::Bool(*b)),
        Data::Number(number) => match number.as_i64() {
            Some(whole) => Ok(Value::Int(whole)),
            None => Err(Fault::BadRequest),
        },
        Data::String(text) => Ok(Value::text(alloc, text.as_str())?),
        Data::Array(items) => {
            let mut values = Vec::with_capacity(alloc, items.len())?;
            for item in items {
                let value = value_from(alloc, item, room - 1)?;
                values.push(value)?;
            }
            Ok(Value::list(values)?)
        }
        Data::Object(members) => {
            let entries = entries_from(alloc, members, room - 1)?;
            Ok(Value::map(alloc, entries)?)
        }
    }
}

/// The values at these members' names.
#[cycle(convert)]
pub(crate) fn entries_from(
    alloc: Global,
    members: &Map<String, Data>,
    room: usize,
) -> Result<BTreeMap<String, Value>, Fault>
    ensures ok { IfOk result (λ m. entries_within room (members_view members.now.entries)
        ≡ Some (entries_view m.entries)) }
    ensures kind { IfErr result (λ e. e ≢ OutOfMemory → e ≡ BadRequest) }
    ensures refused { IfErr result (λ e. e ≢ OutOfMemory
        → entries_within room (members_view members.now.entries) ≡ None) }
{
    let mut entries = BTreeMap::new(alloc);
    for (key, given) in members.iter() {
        let value = value_from(alloc, given, room)?;
        enter(alloc, &mut entries, key.as_str(), value)?;
    }
    Ok(entries)
}

/// Puts the value at a copy of the name.
fn enter(
    alloc: Global,
    entries: &mut BTreeMap<String, Value>,
    name: &str,
    value: Value,
) -> Result<(), AllocError>
    ensures { OnOk result (entries_view entries.new.entries
        ≡ with_entry name.now (view value) (entries_view entries.old.entries)) }
{
    put_entry(entries, String::from_str(alloc, name)?, value)
}

/// Puts the value at the name.
pub(crate) fn put_entry(
    entries: &mut BTreeMap<String, Value>,
    name: String,
    value: Value,
) -> Result<(), AllocError>
    ensures { OnOk result (entries_view entries.new.entries
        ≡ with_entry (string_bytes name) (view value) (entries_view entries.old.entries)) }
{
    drop(entries.insert(name, value)?);
    Ok(())
}
