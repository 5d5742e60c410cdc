//! Which values a property may have.
ghost use Rattle.std.specs.Prelude.{◌≡◌, OnOk, IfErr, Ok, Err};
ghost use Rattle.pg_meaning.specs.Updates.{is_plain, are_plain, may_be_set, test_storable};
ghost use Rattle.pg_store.specs.Stores.{pairs_of};
ghost use Rattle.pg_value_core.specs.View.{view, values_view};

use pg_meaning::Fault;
use pg_value_core::Value;

/// A fault where a value may not be given to a property.
pub fn test_storable(pairs: &Vec<(&str, Value)>) -> Result<(), Fault>
    ensures ok { OnOk result (test_storable (pairs_of pairs.now.items) ≡ Ok tt) }
    ensures err { IfErr result (λ e. test_storable (pairs_of pairs.now.items) ≡ Err e) }
{
    for pair in pairs {
        if !may_be_set(&pair.1) {
            return Err(Fault::NotStorable);
        }
    }
    Ok(())
}

/// A boolean, an integer, a text, a list of such, or null, which takes a property away.
fn may_be_set(value: &Value) -> bool
    ensures { result ≡ may_be_set (view value.now) }
{
    match value {
        Value::Null => true,
        Value::List(items) => are_plain(items.as_ref()),
        _ => is_plain(value),
    }
}

fn are_plain(items: &Vec<Value>) -> bool
    ensures { result ≡ are_plain (values_view items.now.items) }
{
    for item in items {
        if !is_plain(item) {
            return false;
        }
    }
    true
}

fn is_plain(value: &Value) -> bool
    ensures { result ≡ is_plain (view value.now) }
{
    matches!(
        value,
        Value::Bool(_) | Value::Int(_) | Value::Text(_) | Value::ShortText(_)
    )
}
