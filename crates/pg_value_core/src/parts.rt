//! A value taken apart.
ghost use Rattle.std.specs.Prelude.{◌≡◌};
ghost use Rattle.pg_value_core.specs.Parts.{value_of_parts};

use crate::ids::{NodeId, Path, RelId};
use crate::value::Value;
use arrayvec::ArrayString;
use std::collections::BTreeMap;
use std::rc::Rc;

/// What a value is made of. A value has a `drop` of its own, so that only its own functions may take it apart.
#[derive(Drop)]
pub enum Parts {
    Null,
    Bool(bool),
    Int(i64),
    Text(Rc<String>),
    ShortText(ArrayString<16>),
    List(Rc<Vec<Value>>),
    Map(Rc<BTreeMap<String, Value>>),
    Node(NodeId),
    Rel(RelId),
    Path(Path),
}

impl Parts {
    /// The value that has these parts. Nothing is copied.
    pub fn into_value(self) -> Value
        ensures { result ≡ value_of_parts self }
    {
        match self {
            Parts::Null => Value::Null,
            Parts::Bool(b) => Value::Bool(b),
            Parts::Int(i) => Value::Int(i),
            Parts::Text(text) => Value::Text(text),
            Parts::ShortText(text) => Value::ShortText(text),
            Parts::List(items) => Value::List(items),
            Parts::Map(entries) => Value::Map(entries),
            Parts::Node(id) => Value::Node(id),
            Parts::Rel(id) => Value::Rel(id),
            Parts::Path(path) => Value::Path(path),
        }
    }
}
