//! Values as an expression gives them and a property keeps them.
ghost use Rattle.std.specs.Prelude.{◌≡◌, IfOk, option_map, string_bytes};
ghost use Rattle.pg_meaning.specs.Value.{list, mapping, text};
ghost use Rattle.pg_value_core.specs.Parts.{value_of_parts};
ghost use Rattle.pg_value_core.specs.Texts.{text_in};
ghost use Rattle.pg_value_core.specs.View.{view, values_view, entries_view};

use crate::ids::{NodeId, Path, RelId};
use crate::parts::Parts;
use arrayvec::ArrayString;
use std::alloc::{AllocError, Global};
use std::collections::BTreeMap;
use std::rc::Rc;

/// Any value of the query language. Its copies share its texts, lists and maps. Elements are named
/// by their numbers.
pub enum Value {
    Null,
    Bool(bool),
    Int(i64),
    /// A text of any length, in memory of its own, which its copies share.
    Text(Rc<String>),
    /// A short text, which lies in the value itself.
    ShortText(ArrayString<16>),
    List(Rc<Vec<Value>>),
    Map(Rc<BTreeMap<String, Value>>),
    Node(NodeId),
    Rel(RelId),
    Path(Path),
}

// Written out, since a derived one is proved anew in each function that may let such a value go.
impl Drop for Value {
    #[cycle(drop)]
    fn drop(self) {
        match self {
            Value::Null => {}
            Value::Bool(_) => {}
            Value::Int(_) => {}
            Value::Text(text) => drop_text(text),
            Value::ShortText(_) => {}
            Value::List(items) => drop_list(items),
            Value::Map(entries) => drop_map(entries),
            Value::Node(_) => {}
            Value::Rel(_) => {}
            Value::Path(path) => drop_path(path),
        }
    }
}

// Apart, so that what lets values go without memory of their own is small.
#[inline(never)]
fn drop_text(_text: Rc<String>) {}

#[inline(never)]
#[cycle(drop)]
fn drop_list(_items: Rc<Vec<Value>>) {}

#[inline(never)]
#[cycle(drop)]
fn drop_map(_entries: Rc<BTreeMap<String, Value>>) {}

#[inline(never)]
fn drop_path(_path: Path) {}

impl Value {
    /// A text, which takes memory of its own only where it has more than 16 bytes.
    pub fn text(alloc: Global, content: &str) -> Result<Value, AllocError>
        ensures { IfOk result (λ v. view v ≡ text content.now) }
    {
        match ArrayString::from(content) {
            Ok(short) => Ok(Value::ShortText(short)),
            Err(_) => long_text(alloc, content),
        }
    }

    /// A text of this one, of which only a long one keeps its memory.
    pub fn of_string(alloc: Global, content: String) -> Result<Value, AllocError>
        ensures { IfOk result (λ v. view v ≡ text (string_bytes content)) }
    {
        match ArrayString::from(content.as_str()) {
            Ok(short) => Ok(Value::ShortText(short)),
            Err(_) => Ok(Value::Text(Rc::new(alloc, content)?)),
        }
    }

    /// The text that a value is, if it is one.
    #[inline(always)]
    pub fn as_text(&self) -> Option<&str>
        ensures { option_map (λ t. t.now) result ≡ text_in (view self.now) }
    {
        match self {
            Value::Text(content) => Some(content.as_ref().as_str()),
            Value::ShortText(content) => Some(content.as_str()),
            _ => None,
        }
    }

    /// A list of these items.
    pub fn list(items: Vec<Value>) -> Result<Value, AllocError>
        ensures { IfOk result (λ v. view v ≡ list (values_view items.items)) }
    {
        let alloc = *items.allocator();
        Ok(Value::List(Rc::new(alloc, items)?))
    }

    /// A map of these entries.
    pub fn map(alloc: Global, entries: BTreeMap<String, Value>) -> Result<Value, AllocError>
        ensures { IfOk result (λ v. view v ≡ mapping (entries_view entries.entries)) }
    {
        Ok(Value::Map(Rc::new(alloc, entries)?))
    }

    /// The parts of a value, each owned by the caller. Nothing is copied.
    pub fn into_parts(self) -> Parts
        ensures { value_of_parts result ≡ self }
    {
        match self {
            Value::Null => Parts::Null,
            Value::Bool(b) => Parts::Bool(b),
            Value::Int(i) => Parts::Int(i),
            Value::Text(text) => Parts::Text(text),
            Value::ShortText(text) => Parts::ShortText(text),
            Value::List(items) => Parts::List(items),
            Value::Map(entries) => Parts::Map(entries),
            Value::Node(id) => Parts::Node(id),
            Value::Rel(id) => Parts::Rel(id),
            Value::Path(path) => Parts::Path(path),
        }
    }
}

#[inline(never)]
fn long_text(alloc: Global, content: &str) -> Result<Value, AllocError>
    ensures { IfOk result (λ v. view v ≡ text content.now) }
{
    let content = String::from_str(alloc, content)?;
    Ok(Value::Text(Rc::new(alloc, content)?))
}
