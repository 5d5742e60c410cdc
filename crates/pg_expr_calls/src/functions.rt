//! The functions of one value, which is neither null nor deleted.

ghost use Rattle.std.specs.Prelude.{◌≡◌, ◌≢◌, ◌<◌, ◌≤◌, ◌^◌, IfOk, IfErr, Ok, Err, pos, length, count_by, string_bytes};
ghost use Rattle.pg_meaning.specs.Answer.{Answer};
ghost use Rattle.pg_meaning.specs.Functions.{size_of, length_of, string_of, integer_of, integer_in, absolute_of, is_first_byte, digits_of, item_count, path_relationships};
ghost use Rattle.pg_meaning.specs.Value.{integer, null, text};
ghost use Rattle.pg_meaning.specs.declared.fault.Fault.TheVariants.{OutOfMemory};
ghost use Rattle.pg_value_core.specs.View.{view, values_view};

use itoa::Buffer;
use pg_meaning::Fault;
use pg_value_core::{Parts, Value};
use std::alloc::{AllocError, Global};

/// The number of a list's items or of a text's characters.
pub fn size(v: &Value) -> Result<Value, Fault>
    ensures ok { IfOk result (λ u. size_of (view v.now) ≡ Ok (view u)) }
    ensures err { IfErr result (λ e. size_of (view v.now) ≡ Err e) }
{
    match v {
        Value::List(items) => Ok(count_items(items.as_ref())),
        Value::Text(text) => Ok(count(characters(text.as_ref().as_bytes()))),
        Value::ShortText(text) => Ok(count(characters(text.as_bytes()))),
        _ => Err(Fault::TypeFault),
    }
}

#[tactic(auto, using(crate::proofs::Counts::counts))]
fn count_items(items: &Vec<Value>) -> Value
    ensures { view result ≡ integer (pos (item_count (values_view items.now.items))) }
{
    count(items.len())
}

pub(crate) fn count(n: usize) -> Value
    requires { n < 2 ^ 63 }
    ensures { view result ≡ integer (pos n) }
{
    Value::Int(n as i64)
}

#[tactic(auto, using(crate::proofs::Counts::first_bytes))]
fn characters(bytes: &[u8]) -> usize
    ensures count { result ≡ count_by is_first_byte bytes.now }
    ensures bound { result ≤ length bytes.now }
{
    let mut n = 0;
    for b in bytes {
        if *b / 64 != 2 {
            n += 1;
        }
    }
    n
}

/// The number of a path's relationships.
pub fn length(v: &Value) -> Result<Value, Fault>
    ensures ok { IfOk result (λ u. length_of (view v.now) ≡ Ok (view u)) }
    ensures err { IfErr result (λ e. length_of (view v.now) ≡ Err e) }
{
    match v {
        Value::Path(path) => Ok(count_relationships(path.0.as_slice())),
        _ => Err(Fault::TypeFault),
    }
}

#[tactic(auto, using(crate::proofs::Counts::count_of_path))]
fn count_relationships(ids: &[u64]) -> Value
    ensures { view result ≡ integer (pos (item_count (path_relationships ids.now))) }
{
    count(ids.len() / 2)
}

pub(crate) fn null() -> Value
    ensures { view result ≡ null }
{
    Value::Null
}

/// A text that spells the value.
pub fn to_text(alloc: Global, v: Value) -> Result<Value, Fault>
    ensures ok { IfOk result (λ u. string_of (view v) ≡ Ok (view u)) }
    ensures err { IfErr result (λ e. e ≢ OutOfMemory → string_of (view v) ≡ Err e) }
{
    match v.into_parts() {
        Parts::Int(i) => as_text(alloc, digits(alloc, i)),
        Parts::Bool(true) => as_text(alloc, String::from_str(alloc, "true")),
        Parts::Bool(false) => as_text(alloc, String::from_str(alloc, "false")),
        Parts::Text(text) => Ok(Value::Text(text)),
        Parts::ShortText(text) => Ok(Value::ShortText(text)),
        _ => Err(Fault::TypeFault),
    }
}

// A text that was made, as a value.
fn as_text(alloc: Global, made: Result<String, AllocError>) -> Result<Value, Fault>
    ensures ok { (answer : Answer) → IfOk made (λ s. answer ≡ Ok (text (string_bytes s)))
        → IfOk result (λ u. answer ≡ Ok (view u)) }
    ensures err { IfErr result (λ e. e ≡ OutOfMemory) }
{
    Ok(Value::of_string(alloc, made?)?)
}

#[tactic(auto, using(crate::proofs::Spelling::digits_spelled))]
fn digits(alloc: Global, i: i64) -> Result<String, AllocError>
    ensures { IfOk result (λ s. string_bytes s ≡ digits_of i) }
{
    let mut buffer = Buffer::new();
    String::from_str(alloc, buffer.format(i))
}

/// An integer without its sign.
#[tactic(auto, using(crate::proofs::Checked::in_absolute))]
pub fn absolute(v: &Value) -> Result<Value, Fault>
    ensures ok { IfOk result (λ u. absolute_of (view v.now) ≡ Ok (view u)) }
    ensures err { IfErr result (λ e. absolute_of (view v.now) ≡ Err e) }
{
    match v {
        Value::Int(i) => match i.checked_abs() {
            Some(n) => Ok(Value::Int(n)),
            None => Err(Fault::Overflow),
        },
        _ => Err(Fault::TypeFault),
    }
}

/// The integer that a text spells, else null; an integer is itself.
pub fn to_integer(v: &Value) -> Result<Value, Fault>
    ensures ok { IfOk result (λ u. integer_of (view v.now) ≡ Ok (view u)) }
    ensures err { IfErr result (λ e. integer_of (view v.now) ≡ Err e) }
{
    match v {
        Value::Int(i) => Ok(Value::Int(*i)),
        Value::Text(text) => Ok(integer_in(text.as_ref().as_str())),
        Value::ShortText(text) => Ok(integer_in(text.as_str())),
        _ => Err(Fault::TypeFault),
    }
}

fn integer_in(text: &str) -> Value
    ensures { view result ≡ integer_in text.now }
{
    match text.parse::<i64>() {
        Ok(i) => integer(i),
        Err(_) => null(),
    }
}

fn integer(i: i64) -> Value
    ensures { view result ≡ integer i }
{
    Value::Int(i)
}
