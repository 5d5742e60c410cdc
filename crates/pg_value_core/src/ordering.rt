//! The total order of values, by which ORDER BY sorts and DISTINCT and grouping tell apart.

ghost use Rattle.std.specs.Prelude.{◌≡◌};
ghost use Rattle.std.specs.Cmp.Lexicographic.{slice_cmp};
ghost use Rattle.pg_meaning.specs.Order.{rank_of, keys_of, text_order, value_order, items_order, entries_order, is_equivalent};
ghost use Rattle.pg_meaning.specs.Value.{mapping};
ghost use Rattle.pg_value_core.specs.View.{view, values_view, entries_view};

use crate::value::Value;
use std::cmp::Ordering;
use std::collections::BTreeMap;

/// Where a value's type stands among the types.
pub(crate) fn rank(value: &Value) -> u64
    ensures { result ≡ rank_of (view value.now) }
{
    match value {
        Value::Map(_) => 0,
        Value::Node(_) => 1,
        Value::Rel(_) => 2,
        Value::List(_) => 3,
        Value::Path(_) => 4,
        Value::Text(_) | Value::ShortText(_) => 5,
        Value::Bool(_) => 6,
        Value::Int(_) => 7,
        Value::Null => 8,
    }
}

/// How two values stand in the total order.
pub fn order(a: &Value, b: &Value) -> Ordering
    ensures { result ≡ value_order (view a.now) (view b.now) }
{
    match (a, b) {
        (Value::Int(x), Value::Int(y)) => x.cmp(y),
        (Value::ShortText(x), Value::ShortText(y)) => x.cmp(y),
        _ => order_any(a, b),
    }
}

// In a frame apart: most values that are compared are integers and short texts.
#[inline(never)]
#[cycle(order)]
fn order_any(a: &Value, b: &Value) -> Ordering
    ensures { result ≡ value_order (view a.now) (view b.now) }
{
    match (a, b) {
        (Value::Map(xs), Value::Map(ys)) => order_maps(xs.as_ref(), ys.as_ref()),
        (Value::Node(x), Value::Node(y)) => x.0.cmp(&y.0),
        (Value::Rel(x), Value::Rel(y)) => x.0.cmp(&y.0),
        (Value::List(xs), Value::List(ys)) => order_items(xs.as_ref(), ys.as_ref()),
        (Value::Path(x), Value::Path(y)) => x.0.cmp(&y.0),
        (Value::Text(x), Value::Text(y)) => x.as_ref().as_str().cmp(y.as_ref().as_str()),
        (Value::ShortText(x), Value::ShortText(y)) => x.cmp(y),
        (Value::Text(x), Value::ShortText(y)) => x.as_ref().as_str().cmp(y.as_str()),
        (Value::ShortText(x), Value::Text(y)) => x.as_str().cmp(y.as_ref().as_str()),
        (Value::Bool(x), Value::Bool(y)) => x.cmp(y),
        (Value::Int(x), Value::Int(y)) => x.cmp(y),
        _ => rank(a).cmp(&rank(b)),
    }
}

#[cycle(order)]
fn order_items(xs: &Vec<Value>, ys: &Vec<Value>) -> Ordering
    ensures { result ≡ items_order (values_view xs.now.items) (values_view ys.now.items) }
{
    let mut others = ys.as_slice();
    for x in xs {
        let Some((y, rest)) = others.split_first() else {
            return Ordering::Greater;
        };
        match order_any(x, y) {
            Ordering::Equal => {}
            unequal => return unequal,
        }
        others = rest;
    }
    match others.split_first() {
        Some(_) => Ordering::Less,
        None => Ordering::Equal,
    }
}

/// By the keys, and then by the values.
#[cycle(order)]
fn order_maps(xs: &BTreeMap<String, Value>, ys: &BTreeMap<String, Value>) -> Ordering
    ensures { result
        ≡ value_order
        (mapping (entries_view xs.now.entries)) (mapping (entries_view ys.now.entries)) }
{
    match order_keys(xs, ys) {
        Ordering::Equal => order_entries(xs, ys),
        unequal => unequal,
    }
}

fn order_keys(xs: &BTreeMap<String, Value>, ys: &BTreeMap<String, Value>) -> Ordering
    ensures { result
        ≡ slice_cmp text_order
        (keys_of (entries_view xs.now.entries)) (keys_of (entries_view ys.now.entries)) }
{
    let mut others = ys.iter();
    for (key, _) in xs.iter() {
        let Some((other, _)) = others.next() else {
            return Ordering::Greater;
        };
        match key.cmp(other) {
            Ordering::Equal => {}
            unequal => return unequal,
        }
    }
    match others.next() {
        Some(_) => Ordering::Less,
        None => Ordering::Equal,
    }
}

/// By the values alone.
#[cycle(order)]
fn order_entries(xs: &BTreeMap<String, Value>, ys: &BTreeMap<String, Value>) -> Ordering
    ensures { result ≡ entries_order (entries_view xs.now.entries) (entries_view ys.now.entries) }
{
    let mut others = ys.iter();
    for (_, x) in xs.iter() {
        let Some((_, y)) = others.next() else {
            return Ordering::Greater;
        };
        match order_any(x, y) {
            Ordering::Equal => {}
            unequal => return unequal,
        }
    }
    match others.next() {
        Some(_) => Ordering::Less,
        None => Ordering::Equal,
    }
}

/// Whether the order has the two as one, as DISTINCT and grouping do.
pub fn equivalent(a: &Value, b: &Value) -> bool
    ensures { result ≡ is_equivalent (view a.now) (view b.now) }
{
    order(a, b).is_eq()
}

impl PartialEq for Value {
    ghost use Rattle.std.specs.Cmp.{partial_equiv_from_equiv};
    ghost use Rattle.std.specs.Ordering.{on, eq_by_cmp};
    ghost use Rattle.std.proofs.lemmas.Cmp.{on_equiv, eq_by_cmp_equiv};
    ghost use Rattle.pg_meaning.specs.OrderLaws.{order_total};

    ghost eq = { on view (eq_by_cmp value_order) };

    ghost laws = { partial_equiv_from_equiv (on_equiv view (eq_by_cmp_equiv order_total)) };

    fn eq(&self, other: &Value) -> bool {
        equivalent(self, other)
    }
}

impl Eq for Value {
    ghost use Rattle.std.proofs.lemmas.Cmp.{on_equiv, eq_by_cmp_equiv};
    ghost use Rattle.pg_meaning.specs.OrderLaws.{order_total};

    ghost laws = { on_equiv view (eq_by_cmp_equiv order_total) };
}

impl PartialOrd for Value {
    ghost use Rattle.std.specs.Prelude.{refl};
    ghost use Rattle.std.specs.Cmp.{partial_order_from_agreeing_total};
    ghost use Rattle.std.specs.Ordering.{on, as_partial_cmp};
    ghost use Rattle.std.proofs.lemmas.Cmp.{on_total};
    ghost use Rattle.pg_meaning.specs.OrderLaws.{order_total};

    ghost partial_cmp = { as_partial_cmp (on view value_order) };

    ghost laws = { partial_order_from_agreeing_total
        (on view value_order) (on_total view order_total) (λ _ _. refl) (λ _ _. refl) };

    fn partial_cmp(&self, other: &Value) -> Option<Ordering> {
        Some(order(self, other))
    }
}

impl Ord for Value {
    ghost use Rattle.std.specs.Prelude.{refl};
    ghost use Rattle.std.specs.Ordering.{on};
    ghost use Rattle.std.proofs.lemmas.Cmp.{on_total};
    ghost use Rattle.pg_meaning.specs.OrderLaws.{order_total};

    ghost cmp = { on view value_order };

    ghost total = { on_total view order_total };

    ghost matches_partial_cmp = { λ _ _. refl };

    ghost matches_eq = { λ _ _. refl };

    fn cmp(&self, other: &Value) -> Ordering {
        order(self, other)
    }
}
