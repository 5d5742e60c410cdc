//! The comparison `<` of three answers.

ghost use Rattle.std.specs.Prelude.{◌≡◌};
ghost use Rattle.pg_meaning.specs.Order.{less3};
ghost use Rattle.pg_value_core.specs.View.{view};

use crate::logic::truth;
use pg_meaning::{Fault, Tri};
use pg_value_core::Value;

/// Whether an integer, a text or a boolean is below another; a fault at two values of any other
/// type, and null between types.
pub fn less3(a: &Value, b: &Value) -> Result<Tri, Fault>
    ensures { result ≡ less3 (view a.now) (view b.now) }
{
    match (a, b) {
        (Value::Int(x), Value::Int(y)) => Ok(truth(x < y)),
        (Value::Text(x), Value::Text(y)) => Ok(truth(x.as_ref().as_str() < y.as_ref().as_str())),
        (Value::ShortText(x), Value::ShortText(y)) => Ok(truth(x.as_str() < y.as_str())),
        (Value::Text(x), Value::ShortText(y)) => Ok(truth(x.as_ref().as_str() < y.as_str())),
        (Value::ShortText(x), Value::Text(y)) => Ok(truth(x.as_str() < y.as_ref().as_str())),
        (Value::Bool(x), Value::Bool(y)) => Ok(truth(x < y)),
        (Value::List(_), Value::List(_))
        | (Value::Map(_), Value::Map(_))
        | (Value::Node(_), Value::Node(_))
        | (Value::Rel(_), Value::Rel(_))
        | (Value::Path(_), Value::Path(_)) => Err(Fault::TypeFault),
        _ => Ok(Tri::Null),
    }
}
