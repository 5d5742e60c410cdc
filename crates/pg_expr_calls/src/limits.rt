//! The limits of what an expression makes.

ghost use Rattle.std.specs.Prelude.{◌≡◌, IfOk, IfErr, Ok, Err};
ghost use Rattle.pg_meaning.specs.Measure.{made, is_within_limits};
ghost use Rattle.pg_value_core.specs.View.{view};

use pg_meaning::Fault;
use pg_value::{depth, weight};
use pg_value_core::Value;

pub(crate) const GREATEST_WEIGHT: u64 = 1_048_576;

const GREATEST_DEPTH: u64 = 64;

/// Whether a value weighs at most 1,048,576 (one for each value in it, each byte of a text or a
/// key, each element of a path) and nests at most 64 deep. It takes time in the value's size.
pub fn is_within_limits(value: &Value) -> bool
    ensures { result ≡ is_within_limits (view value.now) }
{
    weight(value) <= GREATEST_WEIGHT && depth(value) <= GREATEST_DEPTH
}

/// A value that an expression makes, where it is within the limits.
pub fn made(value: Value) -> Result<Value, Fault>
    ensures ok { IfOk result (λ v. made (view value) ≡ Ok (view v)) }
    ensures err { IfErr result (λ e. made (view value) ≡ Err e) }
{
    if is_within_limits(&value) {
        Ok(value)
    } else {
        Err(Fault::ValueTooLarge)
    }
}
