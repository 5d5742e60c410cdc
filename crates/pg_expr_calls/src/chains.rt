//! Two neighbours of a chain: what a comparison or a word of logic gives at them.

ghost use Rattle.std.specs.Prelude.{◌≡◌, IfOk, IfErr, Ok, Err};
ghost use Rattle.pg_meaning.specs.Answer.{◌>>=◌ as and_then};
ghost use Rattle.pg_meaning.specs.Expressions.{compared, by_truth, tested};
ghost use Rattle.pg_meaning.specs.Logic.{and3, or3, xor3, not3};
ghost use Rattle.pg_meaning.specs.declared.operators.Operator.TheVariants.{Or, Xor, And};
ghost use Rattle.pg_value_core.specs.View.{view};

use pg_meaning::{Fault, Operator, Tri};
use pg_value::{and, eq3, less3, not, or, truth_of, value_of_truth, xor};
use pg_value_core::Value;

/// What a comparison gives at two neighbours; any other operator is no comparison.
pub fn compared(operator: Operator, v: &Value, w: &Value) -> Result<Tri, Fault>
    ensures { result ≡ compared operator (view v.now) (view w.now) }
{
    match operator {
        Operator::Equal => Ok(eq3(v, w)),
        Operator::NotEqual => Ok(not(eq3(v, w))),
        Operator::Less => less3(v, w),
        Operator::LessOrEqual => negated(less3(w, v)),
        Operator::Greater => less3(w, v),
        Operator::GreaterOrEqual => negated(less3(v, w)),
        _ => Err(Fault::BadSyntax),
    }
}

fn negated(answer: Result<Tri, Fault>) -> Result<Tri, Fault>
    ensures { result ≡ and_then answer (λ t. Ok (not3 t)) }
{
    match answer {
        Ok(t) => Ok(not(t)),
        Err(fault) => Err(fault),
    }
}

/// `v AND w`, where both are evaluated.
pub fn conjunction(v: &Value, w: &Value) -> Result<Value, Fault>
    ensures ok { IfOk result (λ u. by_truth and3 (view v.now) (view w.now) ≡ Ok (view u)) }
    ensures err { IfErr result (λ e. by_truth and3 (view v.now) (view w.now) ≡ Err e) }
{
    let s = truth_of(v)?;
    let t = truth_of(w)?;
    Ok(value_of_truth(and(s, t)))
}

/// `v OR w`, where both are evaluated.
pub fn disjunction(v: &Value, w: &Value) -> Result<Value, Fault>
    ensures ok { IfOk result (λ u. by_truth or3 (view v.now) (view w.now) ≡ Ok (view u)) }
    ensures err { IfErr result (λ e. by_truth or3 (view v.now) (view w.now) ≡ Err e) }
{
    let s = truth_of(v)?;
    let t = truth_of(w)?;
    Ok(value_of_truth(or(s, t)))
}

/// `v XOR w`.
pub fn exclusive(v: &Value, w: &Value) -> Result<Value, Fault>
    ensures ok { IfOk result (λ u. by_truth xor3 (view v.now) (view w.now) ≡ Ok (view u)) }
    ensures err { IfErr result (λ e. by_truth xor3 (view v.now) (view w.now) ≡ Err e) }
{
    let s = truth_of(v)?;
    let t = truth_of(w)?;
    Ok(value_of_truth(xor(s, t)))
}
