//! Lists of integers by steps.

ghost use Rattle.std.specs.Prelude.{◌≡◌, ◌≢◌, ◌-◌, ◌-ℤ◌, ◌^◌, pos, min, IfOk, IfErr, OnOk, Ok, Err};
ghost use Rattle.pg_expr_calls.specs.Ranges.{AllFit, IsLength};
ghost use Rattle.pg_meaning.specs.Arithmetic.{appended};
ghost use Rattle.pg_meaning.specs.Answer.{◌>>=◌ as and_then};
ghost use Rattle.pg_meaning.specs.Functions.{integers_from, range_by, size_of, steps_within};
ghost use Rattle.pg_meaning.specs.Value.{item, integer, Values};
ghost use Rattle.pg_meaning.specs.declared.fault.Fault.TheVariants.{OutOfMemory};
ghost use Rattle.pg_value_core.specs.View.{view, values_view};

use crate::functions::count;
use crate::limits::GREATEST_WEIGHT;
use crate::parts::push;
use pg_meaning::Fault;
use pg_value_core::Value;
use std::alloc::{AllocError, Global};

/// So many integers from a first one by a step, all of which fit.
pub fn integers_from(
    alloc: Global,
    count: u64,
    start: i64,
    step: i64,
) -> Result<Vec<Value>, AllocError>
    requires { AllFit count start step }
    ensures { IfOk result (λ vs. values_view vs.items ≡ integers_from count start step) }
{
    let mut items = Vec::with_capacity(alloc, count as usize)?;
    let mut next = start;
    for _k in 0..count {
        push_integer(&mut items, next)?;
        let Some(later) = next.checked_add(step) else {
            return Ok(items);
        };
        next = later;
    }
    Ok(items)
}

fn push_integer(values: &mut Vec<Value>, i: i64) -> Result<(), AllocError>
    ensures { OnOk result ((ws : Values) → appended (values_view values.new.items) ws
        ≡ appended (values_view values.old.items) (item (integer i) ws)) }
{
    push(values, Value::Int(i))
}

/// What `range` gives from a first integer to a last one by a step.
pub fn range(alloc: Global, start: i64, end: i64, step: i64) -> Result<Value, Fault>
    ensures ok { IfOk result (λ v. range_by start end step ≡ Ok (view v)) }
    ensures err { IfErr result (λ e. e ≢ OutOfMemory → range_by start end step ≡ Err e) }
{
    let count = range_length(start, end, step)?;
    let items = integers_from(alloc, count, start, step)?;
    Ok(Value::list(items)?)
}

/// What `size` gives at what `range` would give, which isn't made.
#[tactic(auto, using(crate::proofs::RangeCounts::sizes))]
pub fn range_size(start: i64, end: i64, step: i64) -> Result<Value, Fault>
    ensures ok { IfOk result (λ v. and_then (range_by start end step) size_of ≡ Ok (view v)) }
    ensures err { IfErr result (λ e. and_then (range_by start end step) size_of ≡ Err e) }
{
    let length = range_length(start, end, step)?;
    Ok(count(length as usize))
}

/// How many integers `range` gives; a list that would be too heavy isn't made.
#[tactic(auto, using(crate::proofs::RangeCounts::ranges))]
fn range_length(start: i64, end: i64, step: i64) -> Result<u64, Fault>
    ensures ok { IfOk result (λ n. IsLength n start end step) }
    ensures err { IfErr result (λ e. range_by start end step ≡ Err e) }
{
    if step == 0 {
        return Err(Fault::TypeFault);
    }
    let count = steps_within(start, end, step);
    if count >= GREATEST_WEIGHT {
        return Err(Fault::ValueTooLarge);
    }
    Ok(count)
}

#[tactic(auto, using(crate::proofs::RangeCounts::counted))]
fn steps_within(start: i64, end: i64, step: i64) -> u64
    requires { step ≢ pos 0 }
    ensures { result ≡ min (steps_within (end -ℤ start) step) (2 ^ 64 - 1) }
{
    if step > 0 {
        if end < start {
            return 0;
        }
    } else {
        if start < end {
            return 0;
        }
    }
    (end.abs_diff(start) / step.unsigned_abs()).saturating_add(1)
}
