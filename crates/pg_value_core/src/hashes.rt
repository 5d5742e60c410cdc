//! The hash of a value: equivalent values are hashed alike.

ghost use Rattle.std.specs.Prelude.{◌≡◌, fold};
ghost use Rattle.pg_value_core.specs.Hashed.{hashed, hashed_items, hashed_entries, hashed_alike};
ghost use Rattle.pg_value_core.specs.View.{view, values_view, entries_view};

use crate::ordering::rank;
use crate::value::Value;
use std::collections::BTreeMap;
use std::hash::{Hash, Hasher};

impl Hash for Value {
    ghost hash_input = { λ v. hashed (view v) };

    ghost respects_eq = { λ v w. hashed_alike (view v) (view w) };

    fn hash<H: Hasher>(&self, state: &mut H) {
        feed(self, state);
    }
}

#[cycle(feed)]
fn feed<H: Hasher>(value: &Value, state: &mut H)
    ensures { state.new ≡ fold H.write state.old (hashed (view value.now)) }
{
    state.write_u64(rank(value));
    match value {
        Value::Null => {}
        Value::Bool(b) => b.hash(state),
        Value::Int(i) => state.write_i64(*i),
        Value::Text(text) => text.as_ref().as_str().hash(state),
        Value::ShortText(text) => text.hash(state),
        Value::List(items) => feed_items(items.as_ref(), state),
        Value::Map(entries) => feed_entries(entries.as_ref(), state),
        Value::Node(id) => state.write_u64(id.0),
        Value::Rel(id) => state.write_u64(id.0),
        Value::Path(path) => path.0.hash(state),
    }
}

#[cycle(feed)]
fn feed_items<H: Hasher>(items: &Vec<Value>, state: &mut H)
    ensures { state.new ≡ fold H.write state.old (hashed_items (values_view items.now.items)) }
{
    for item in items {
        state.write_u64(1);
        feed(item, state);
    }
    state.write_u64(0);
}

#[cycle(feed)]
fn feed_entries<H: Hasher>(entries: &BTreeMap<String, Value>, state: &mut H)
    ensures { state.new
        ≡ fold H.write state.old (hashed_entries (entries_view entries.now.entries)) }
{
    for (key, value) in entries.iter() {
        state.write_u64(1);
        key.hash(state);
        feed(value, state);
    }
    state.write_u64(0);
}
