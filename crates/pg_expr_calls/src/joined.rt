//! What `+` gives: sums, joined texts, and lists joined or with one item more.

ghost use Rattle.std.specs.Prelude.{◌≡◌, ◌≢◌, IfOk, IfErr, Ok, Err, true, string_bytes};
ghost use Rattle.pg_expr_calls.specs.Sums.{have_no_sum};
ghost use Rattle.pg_meaning.specs.Arithmetic.{plus, appended};
ghost use Rattle.pg_meaning.specs.Measure.{made};
ghost use Rattle.pg_meaning.specs.Value.{integer, text, list, item, no_items};
ghost use Rattle.pg_meaning.specs.declared.fault.Fault.TheVariants.{OutOfMemory};
ghost use Rattle.pg_value_core.specs.View.{view, values_view};

use crate::limits::made;
use pg_meaning::Fault;
use pg_value_core::{Parts, Value, owned_items, owned_text};
use std::alloc::Global;
use std::rc::Rc;

/// `v + w`.
pub fn plus(alloc: Global, v: Value, w: Value) -> Result<Value, Fault>
    ensures ok { IfOk result (λ u. plus (view v) (view w) ≡ Ok (view u)) }
    ensures err { IfErr result (λ e. e ≢ OutOfMemory → plus (view v) (view w) ≡ Err e) }
{
    match v.into_parts() {
        Parts::Null => Ok(Value::Null),
        Parts::Int(x) => integer_plus(x, w),
        Parts::Text(s) => shared_plus(alloc, s, w),
        Parts::ShortText(s) => text_plus(alloc, String::from_str(alloc, s.as_str())?, w),
        Parts::List(xs) => list_plus(xs, w),
        v => other_plus(v.into_value(), w),
    }
}

/// The sum of two integers.
#[tactic(auto, using(crate::proofs::Checked::in_sum))]
pub fn sum(x: i64, y: i64) -> Result<Value, Fault>
    ensures ok { IfOk result (λ u. plus (integer x) (integer y) ≡ Ok (view u)) }
    ensures err { IfErr result (λ e. plus (integer x) (integer y) ≡ Err e) }
{
    match x.checked_add(y) {
        Some(n) => Ok(Value::Int(n)),
        None => Err(Fault::Overflow),
    }
}

fn integer_plus(x: i64, w: Value) -> Result<Value, Fault>
    ensures ok { IfOk result (λ u. plus (integer x) (view w) ≡ Ok (view u)) }
    ensures err { IfErr result (λ e. e ≢ OutOfMemory → plus (integer x) (view w) ≡ Err e) }
{
    match w.into_parts() {
        Parts::Int(y) => sum(x, y),
        w => other_plus(Value::Int(x), w.into_value()),
    }
}

fn shared_plus(alloc: Global, s: Rc<String>, w: Value) -> Result<Value, Fault>
    ensures ok { IfOk result (λ u. plus (text (string_bytes s.value)) (view w) ≡ Ok (view u)) }
    ensures err { IfErr result (λ e. e ≢ OutOfMemory
        → plus (text (string_bytes s.value)) (view w) ≡ Err e) }
{
    text_plus(alloc, owned_text(alloc, s)?, w)
}

fn text_plus(alloc: Global, mut s: String, w: Value) -> Result<Value, Fault>
    ensures ok { IfOk result (λ u. plus (text (string_bytes s)) (view w) ≡ Ok (view u)) }
    ensures err { IfErr result (λ e. e ≢ OutOfMemory
        → plus (text (string_bytes s)) (view w) ≡ Err e) }
{
    match w.into_parts() {
        Parts::Text(t) => {
            s.push_str(t.as_ref().as_str())?;
            made(Value::of_string(alloc, s)?)
        }
        Parts::ShortText(t) => {
            s.push_str(t.as_str())?;
            made(Value::of_string(alloc, s)?)
        }
        w => other_plus(Value::of_string(alloc, s)?, w.into_value()),
    }
}

fn list_plus(xs: Rc<Vec<Value>>, w: Value) -> Result<Value, Fault>
    ensures ok { IfOk result
        (λ u. plus (list (values_view xs.value.items)) (view w) ≡ Ok (view u)) }
    ensures err { IfErr result (λ e. e ≢ OutOfMemory
        → plus (list (values_view xs.value.items)) (view w) ≡ Err e) }
{
    match w.into_parts() {
        Parts::Null => Ok(Value::Null),
        Parts::List(ys) => join_lists(xs, ys),
        w => append(xs, w.into_value()),
    }
}

/// `v + w` of values that have no sum of their own, where `v` can only go before a list.
fn other_plus(v: Value, w: Value) -> Result<Value, Fault>
    requires { have_no_sum (view v) (view w) ≡ true }
    ensures ok { IfOk result (λ u. plus (view v) (view w) ≡ Ok (view u)) }
    ensures err { IfErr result (λ e. e ≢ OutOfMemory → plus (view v) (view w) ≡ Err e) }
{
    match w.into_parts() {
        Parts::Null => Ok(Value::Null),
        Parts::List(ys) => prepend(v, ys),
        _ => Err(Fault::TypeFault),
    }
}

fn join_lists(xs: Rc<Vec<Value>>, ys: Rc<Vec<Value>>) -> Result<Value, Fault>
    ensures ok { IfOk result (λ u.
        made (list (appended (values_view xs.value.items) (values_view ys.value.items)))
        ≡ Ok (view u)) }
    ensures err { IfErr result (λ e. e ≢ OutOfMemory
        → made (list (appended (values_view xs.value.items) (values_view ys.value.items)))
        ≡ Err e) }
{
    let mut items = owned_items(xs)?;
    let mut behind = owned_items(ys)?;
    items.append(&mut behind)?;
    made_list(items)
}

fn append(xs: Rc<Vec<Value>>, w: Value) -> Result<Value, Fault>
    ensures ok { IfOk result (λ u.
        made (list (appended (values_view xs.value.items) (item (view w) no_items)))
        ≡ Ok (view u)) }
    ensures err { IfErr result (λ e. e ≢ OutOfMemory
        → made (list (appended (values_view xs.value.items) (item (view w) no_items))) ≡ Err e) }
{
    let mut items = owned_items(xs)?;
    items.push(w)?;
    made_list(items)
}

fn prepend(v: Value, ys: Rc<Vec<Value>>) -> Result<Value, Fault>
    ensures ok { IfOk result
        (λ u. made (list (item (view v) (values_view ys.value.items))) ≡ Ok (view u)) }
    ensures err { IfErr result (λ e. e ≢ OutOfMemory
        → made (list (item (view v) (values_view ys.value.items))) ≡ Err e) }
{
    let mut items = owned_items(ys)?;
    items.insert(0, v)?;
    made_list(items)
}

fn made_list(items: Vec<Value>) -> Result<Value, Fault>
    ensures ok { IfOk result (λ u. made (list (values_view items.items)) ≡ Ok (view u)) }
    ensures err { IfErr result (λ e. e ≢ OutOfMemory
        → made (list (values_view items.items)) ≡ Err e) }
{
    made(Value::list(items)?)
}
