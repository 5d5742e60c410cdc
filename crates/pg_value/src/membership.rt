//! Whether a value is in a list.

ghost use Rattle.std.specs.Prelude.{◌≡◌};
ghost use Rattle.pg_meaning.specs.Answer.{◌>>=◌ as and_then};
ghost use Rattle.pg_meaning.specs.Equality.{eq3, is_in3};
ghost use Rattle.pg_meaning.specs.Expressions.{is_in};
ghost use Rattle.pg_meaning.specs.Logic.{value_of_truth};
ghost use Rattle.pg_value.specs.Membership.{membership};
ghost use Rattle.pg_value_core.specs.View.{view, values_view};

use crate::equality::eq3;
use crate::logic::{or, truth};
use pg_meaning::{Fault, Tri};
use pg_value_core::Value;

/// Whether the value is in the list; a null may be any list, and no other type has members.
#[tactic(auto, using(crate::proofs::Memberships::membership_is_in))]
pub fn is_in(value: &Value, list: &Value) -> Result<Tri, Fault>
    ensures answer { result ≡ membership (view value.now) (view list.now) }
    ensures operator { and_then result (λ t. Ok (value_of_truth t))
        ≡ is_in (view value.now) (view list.now) }
{
    match list {
        Value::Null => Ok(Tri::Null),
        Value::List(items) => Ok(is_in_items(value, items.as_ref())),
        _ => Err(Fault::TypeFault),
    }
}

#[tactic(auto, using(crate::proofs::Tables::or_steps))]
fn is_in_items(value: &Value, items: &Vec<Value>) -> Tri
    ensures { result ≡ is_in3 (view value.now) (values_view items.now.items) }
{
    let mut any = Tri::False;
    for item in items {
        any = or(any, equals(value, item));
        if let Tri::True = any {
            return Tri::True;
        }
    }
    any
}

/// `eq3`, whose common cases are told in place, since a list may be long.
#[inline(always)]
fn equals(value: &Value, item: &Value) -> Tri
    ensures { result ≡ eq3 (view value.now) (view item.now) }
{
    match (value, item) {
        (Value::Int(x), Value::Int(y)) => truth(*x == *y),
        (Value::ShortText(x), Value::ShortText(y)) => truth(x.as_str() == y.as_str()),
        _ => eq3(value, item),
    }
}
