//! Kleene's logic of three truth values.

ghost use Rattle.std.specs.Prelude.{◌≡◌};
ghost use Rattle.pg_meaning.specs.Logic.{and3, or3, xor3, not3, tri_of, truth_of, value_of_truth};
ghost use Rattle.pg_value_core.specs.View.{view};

use pg_meaning::{Fault, Tri};
use pg_value_core::Value;

/// The truth value that a boolean is.
pub fn truth(b: bool) -> Tri
    ensures { result ≡ tri_of b }
{
    if b { Tri::True } else { Tri::False }
}

/// AND of openCypher: false wins over null.
pub fn and(a: Tri, b: Tri) -> Tri
    ensures { result ≡ and3 a b }
{
    match (a, b) {
        (Tri::False, _) | (_, Tri::False) => Tri::False,
        (Tri::Null, _) | (_, Tri::Null) => Tri::Null,
        _ => Tri::True,
    }
}

/// OR of openCypher: true wins over null.
pub fn or(a: Tri, b: Tri) -> Tri
    ensures { result ≡ or3 a b }
{
    match (a, b) {
        (Tri::True, _) | (_, Tri::True) => Tri::True,
        (Tri::Null, _) | (_, Tri::Null) => Tri::Null,
        _ => Tri::False,
    }
}

/// XOR of openCypher: null where a side is null.
pub fn xor(a: Tri, b: Tri) -> Tri
    ensures { result ≡ xor3 a b }
{
    match (a, b) {
        (Tri::Null, _) | (_, Tri::Null) => Tri::Null,
        _ => truth(a != b),
    }
}

/// NOT of openCypher: null of null.
pub fn not(a: Tri) -> Tri
    ensures { result ≡ not3 a }
{
    match a {
        Tri::True => Tri::False,
        Tri::False => Tri::True,
        Tri::Null => Tri::Null,
    }
}

/// The boolean or null that stands for a truth value.
pub fn value_of_truth(t: Tri) -> Value
    ensures { view result ≡ value_of_truth t }
{
    match t {
        Tri::True => Value::Bool(true),
        Tri::False => Value::Bool(false),
        Tri::Null => Value::Null,
    }
}

/// The truth value that stands for a boolean or null; another type has none.
pub fn truth_of(value: &Value) -> Result<Tri, Fault>
    ensures { result ≡ truth_of (view value.now) }
{
    match value {
        Value::Bool(b) => Ok(truth(*b)),
        Value::Null => Ok(Tri::Null),
        _ => Err(Fault::TypeFault),
    }
}
