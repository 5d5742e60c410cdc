//! Equality of three answers, where a null may be anything.

ghost use Rattle.std.specs.Prelude.{◌≡◌};
ghost use Rattle.pg_meaning.specs.Equality.{eq3, items_eq3, entries_eq3};
ghost use Rattle.pg_value_core.specs.View.{view, values_view, entries_view};

use crate::logic::{and, truth};
use pg_meaning::Tri;
use pg_value_core::Value;
use std::collections::BTreeMap;

/// Whether two values are equal.
#[cycle(eq3)]
pub fn eq3(a: &Value, b: &Value) -> Tri
    ensures { result ≡ eq3 (view a.now) (view b.now) }
{
    match (a, b) {
        (Value::Null, _) | (_, Value::Null) => Tri::Null,
        (Value::Bool(x), Value::Bool(y)) => truth(*x == *y),
        (Value::Int(x), Value::Int(y)) => truth(*x == *y),
        (Value::Text(x), Value::Text(y)) => truth(x.as_ref().as_str() == y.as_ref().as_str()),
        (Value::ShortText(x), Value::ShortText(y)) => truth(x.as_str() == y.as_str()),
        (Value::Text(x), Value::ShortText(y)) => truth(x.as_ref().as_str() == y.as_str()),
        (Value::ShortText(x), Value::Text(y)) => truth(x.as_str() == y.as_ref().as_str()),
        (Value::List(xs), Value::List(ys)) => eq3_items(xs.as_ref(), ys.as_ref()),
        (Value::Map(xs), Value::Map(ys)) => eq3_entries(xs.as_ref(), ys.as_ref()),
        (Value::Node(x), Value::Node(y)) => truth(x.0 == y.0),
        (Value::Rel(x), Value::Rel(y)) => truth(x.0 == y.0),
        (Value::Path(x), Value::Path(y)) => truth(x.0 == y.0),
        _ => Tri::False,
    }
}

#[cycle(eq3)]
#[tactic(auto, using(crate::proofs::Tables::and_steps))]
fn eq3_items(xs: &Vec<Value>, ys: &Vec<Value>) -> Tri
    ensures { result ≡ items_eq3 (values_view xs.now.items) (values_view ys.now.items) }
{
    let mut all = Tri::True;
    let mut others = ys.as_slice();
    for x in xs {
        let Some((y, rest)) = others.split_first() else {
            return Tri::False;
        };
        all = and(all, eq3(x, y));
        if let Tri::False = all {
            return Tri::False;
        }
        others = rest;
    }
    match others.split_first() {
        Some(_) => Tri::False,
        None => all,
    }
}

#[cycle(eq3)]
#[tactic(auto, using(crate::proofs::Tables::and_steps))]
fn eq3_entries(xs: &BTreeMap<String, Value>, ys: &BTreeMap<String, Value>) -> Tri
    ensures { result ≡ entries_eq3 (entries_view xs.now.entries) (entries_view ys.now.entries) }
{
    let mut all = Tri::True;
    let mut others = ys.iter();
    for (key, x) in xs.iter() {
        let Some((other, y)) = others.next() else {
            return Tri::False;
        };
        if key != other {
            return Tri::False;
        }
        all = and(all, eq3(x, y));
        if let Tri::False = all {
            return Tri::False;
        }
    }
    match others.next() {
        Some(_) => Tri::False,
        None => all,
    }
}
