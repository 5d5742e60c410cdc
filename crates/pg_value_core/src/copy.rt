//! Copies of values. A text, a list and a map are shared by their copies, and nothing changes them while they are.

ghost use Rattle.std.specs.Prelude.{◌≡◌, IfOk, string_bytes};
ghost use Rattle.pg_value_core.specs.View.{view, values_view, entries_view};

use crate::ids::Path;
use crate::value::Value;
use std::alloc::{AllocError, Global};
use std::collections::BTreeMap;
use std::rc::Rc;

impl Value {
    /// The same value. A path gets memory of its own; a text, a list and a map are shared.
    pub fn copy(&self, alloc: Global) -> Result<Value, AllocError>
        ensures { IfOk result (λ v. view v ≡ view self.now) }
    {
        match self {
            Value::Null => Ok(Value::Null),
            Value::Bool(b) => Ok(Value::Bool(*b)),
            Value::Int(i) => Ok(Value::Int(*i)),
            Value::Text(text) => Ok(Value::Text(text.clone()?)),
            Value::ShortText(text) => Ok(Value::ShortText(*text)),
            Value::List(items) => Ok(Value::List(items.clone()?)),
            Value::Map(entries) => Ok(Value::Map(entries.clone()?)),
            Value::Node(id) => Ok(Value::Node(*id)),
            Value::Rel(id) => Ok(Value::Rel(*id)),
            Value::Path(path) => Ok(Value::Path(Path(path.0.as_slice().to_vec(alloc)?))),
        }
    }
}

/// A text, owned by the caller: its own where nothing else has it, and else a copy.
pub fn owned_text(alloc: Global, text: Rc<String>) -> Result<String, AllocError>
    ensures { IfOk result (λ s. string_bytes s ≡ string_bytes text.value) }
{
    match Rc::try_unwrap(text) {
        Ok(content) => Ok(content),
        Err(shared) => String::from_str(alloc, shared.as_ref().as_str()),
    }
}

/// The items of a list, owned by the caller: its own where nothing else has them, and else copies.
pub fn owned_items(list: Rc<Vec<Value>>) -> Result<Vec<Value>, AllocError>
    ensures { IfOk result (λ v. values_view v.items ≡ values_view list.value.items) }
{
    match Rc::try_unwrap(list) {
        Ok(items) => Ok(items),
        Err(shared) => copy_items(shared.as_ref()),
    }
}

/// The entries of a map, owned by the caller: its own where nothing else has them, and else copies.
pub fn owned_entries(
    alloc: Global,
    map: Rc<BTreeMap<String, Value>>,
) -> Result<BTreeMap<String, Value>, AllocError>
    ensures { IfOk result (λ v. entries_view v.entries ≡ entries_view map.value.entries) }
{
    match Rc::try_unwrap(map) {
        Ok(entries) => Ok(entries),
        Err(shared) => copy_entries(alloc, shared.as_ref()),
    }
}

fn copy_items(items: &Vec<Value>) -> Result<Vec<Value>, AllocError>
    ensures { IfOk result (λ v. values_view v.items ≡ values_view items.now.items) }
{
    let alloc = *items.allocator();
    let mut copies = Vec::with_capacity(alloc, items.len())?;
    for item in items {
        copies.push(item.copy(alloc)?)?;
    }
    Ok(copies)
}

fn copy_entries(
    alloc: Global,
    entries: &BTreeMap<String, Value>,
) -> Result<BTreeMap<String, Value>, AllocError>
    ensures { IfOk result (λ v. entries_view v.entries ≡ entries_view entries.now.entries) }
{
    let mut copies = BTreeMap::new(alloc);
    for (key, value) in entries.iter() {
        let name = String::from_str(alloc, key.as_str())?;
        let same = value.copy(alloc)?;
        drop(copies.insert(name, same)?);
    }
    Ok(copies)
}
