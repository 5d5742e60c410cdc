//! Arithmetic on integers of 64 bits, checked.

ghost use Rattle.std.specs.Prelude.{◌≡◌, IfOk, IfErr, Ok, Err, true, false};
ghost use Rattle.pg_meaning.specs.Arithmetic.{minus, times, divide, modulo, signed};
ghost use Rattle.pg_value_core.specs.View.{view};

use pg_meaning::Fault;
use pg_value_core::Value;

/// `v - w`.
#[tactic(auto, using(crate::proofs::Checked::in_range))]
pub fn minus(v: &Value, w: &Value) -> Result<Value, Fault>
    ensures ok { IfOk result (λ u. minus (view v.now) (view w.now) ≡ Ok (view u)) }
    ensures err { IfErr result (λ e. minus (view v.now) (view w.now) ≡ Err e) }
{
    match (v, w) {
        (Value::Null, _) | (_, Value::Null) => Ok(Value::Null),
        (Value::Int(x), Value::Int(y)) => match x.checked_sub(*y) {
            Some(n) => Ok(Value::Int(n)),
            None => Err(Fault::Overflow),
        },
        _ => Err(Fault::TypeFault),
    }
}

/// `v * w`.
#[tactic(auto, using(crate::proofs::Checked::in_range))]
pub fn times(v: &Value, w: &Value) -> Result<Value, Fault>
    ensures ok { IfOk result (λ u. times (view v.now) (view w.now) ≡ Ok (view u)) }
    ensures err { IfErr result (λ e. times (view v.now) (view w.now) ≡ Err e) }
{
    match (v, w) {
        (Value::Null, _) | (_, Value::Null) => Ok(Value::Null),
        (Value::Int(x), Value::Int(y)) => match x.checked_mul(*y) {
            Some(n) => Ok(Value::Int(n)),
            None => Err(Fault::Overflow),
        },
        _ => Err(Fault::TypeFault),
    }
}

/// `v / w`, truncated toward zero.
#[tactic(auto, using(crate::proofs::Checked::in_division))]
pub fn divide(v: &Value, w: &Value) -> Result<Value, Fault>
    ensures ok { IfOk result (λ u. divide (view v.now) (view w.now) ≡ Ok (view u)) }
    ensures err { IfErr result (λ e. divide (view v.now) (view w.now) ≡ Err e) }
{
    match (v, w) {
        (Value::Null, _) | (_, Value::Null) => Ok(Value::Null),
        (Value::Int(x), Value::Int(y)) => {
            if *y == 0 {
                return Err(Fault::DivisionByZero);
            }
            match x.checked_div(*y) {
                Some(n) => Ok(Value::Int(n)),
                None => Err(Fault::Overflow),
            }
        }
        _ => Err(Fault::TypeFault),
    }
}

/// What `v / w` leaves of `v`, with the sign of `v`: by -1 it is 0, also where the quotient is out of range.
#[tactic(auto, using(crate::proofs::Checked::in_remainder))]
pub fn modulo(v: &Value, w: &Value) -> Result<Value, Fault>
    ensures ok { IfOk result (λ u. modulo (view v.now) (view w.now) ≡ Ok (view u)) }
    ensures err { IfErr result (λ e. modulo (view v.now) (view w.now) ≡ Err e) }
{
    match (v, w) {
        (Value::Null, _) | (_, Value::Null) => Ok(Value::Null),
        (Value::Int(x), Value::Int(y)) => {
            if *y == 0 {
                return Err(Fault::DivisionByZero);
            }
            if *y == -1 {
                return Ok(Value::Int(0));
            }
            Ok(Value::Int(*x % *y))
        }
        _ => Err(Fault::TypeFault),
    }
}

/// `-v`.
#[tactic(auto, using(crate::proofs::Checked::in_range))]
pub fn negative(v: &Value) -> Result<Value, Fault>
    ensures ok { IfOk result (λ u. signed true (view v.now) ≡ Ok (view u)) }
    ensures err { IfErr result (λ e. signed true (view v.now) ≡ Err e) }
{
    match v {
        Value::Null => Ok(Value::Null),
        Value::Int(i) => match i.checked_neg() {
            Some(n) => Ok(Value::Int(n)),
            None => Err(Fault::Overflow),
        },
        _ => Err(Fault::TypeFault),
    }
}

/// `+v`.
pub fn positive(v: &Value) -> Result<Value, Fault>
    ensures ok { IfOk result (λ u. signed false (view v.now) ≡ Ok (view u)) }
    ensures err { IfErr result (λ e. signed false (view v.now) ≡ Err e) }
{
    match v {
        Value::Null => Ok(Value::Null),
        Value::Int(i) => Ok(Value::Int(*i)),
        _ => Err(Fault::TypeFault),
    }
}
