//! What is kept of the values that an aggregate has taken in.
ghost use Rattle.std.specs.Prelude.{◌≡◌, ◌≢◌, ◌+ℤ◌, [], true, false, pos, Ok, Err, IfOk, OnOk, IfErr, map, option_map};
ghost use Rattle.pg_meaning.specs.Aggregates.{lesser, greater};
ghost use Rattle.pg_meaning.specs.Value.{integer};
ghost use Rattle.pg_meaning.specs.declared.fault.Fault.TheVariants.{OutOfMemory};
ghost use Rattle.pg_project.specs.Summaries.{added, better, collected, held_of, held_with, sum, told};
ghost use Rattle.pg_project.specs.Views.{held_view};
ghost use Rattle.pg_scope.specs.Calls.{summary_view};
ghost use Rattle.pg_value_core.specs.View.{view};

use crate::collected::Collected;
use pg_meaning::Fault;
use pg_scope::AggregateFunction;
use pg_value_core::{Value, order};
use std::alloc::{AllocError, Global};
use std::mem;

/// A count, a sum, the best value so far, or the values.
pub(crate) enum Accumulator {
    Count(i64),
    Sum(i64),
    Lowest(Option<Value>),
    Highest(Option<Value>),
    Values(Collected),
}

// Written out, since a derived one is proved anew in each function that may let such a value go.
impl Drop for Accumulator {
    fn drop(self) {
        match self {
            Accumulator::Count(_) => {}
            Accumulator::Sum(_) => {}
            Accumulator::Lowest(_) => {}
            Accumulator::Highest(_) => {}
            Accumulator::Values(_) => {}
        }
    }
}

impl Accumulator {
    /// No values yet.
    pub(crate) fn new(alloc: Global, summary: AggregateFunction) -> Accumulator
        ensures { held_view result ≡ held_of (summary_view summary) [] }
    {
        match summary {
            AggregateFunction::Counting => Accumulator::Count(0),
            AggregateFunction::Summing => Accumulator::Sum(0),
            AggregateFunction::Least => Accumulator::Lowest(None),
            AggregateFunction::Greatest => Accumulator::Highest(None),
            AggregateFunction::Collecting => Accumulator::Values(Collected::new(alloc)),
        }
    }

    /// Takes in one value more.
    pub(crate) fn take(&mut self, alloc: Global, value: Value) -> Result<(), Fault>
        ensures ok { OnOk result
            (held_with (held_view self.old) (view value) ≡ Ok (held_view self.new)) }
        ensures err { IfErr result (λ e. e ≢ OutOfMemory
            → held_with (held_view self.old) (view value) ≡ Err e) }
    {
        match self {
            Accumulator::Count(count) => count_one(count),
            Accumulator::Sum(sum) => add(sum, &value),
            Accumulator::Lowest(best) => {
                *best = Some(lesser(best.take(), value));
                Ok(())
            }
            Accumulator::Highest(best) => {
                *best = Some(greater(best.take(), value));
                Ok(())
            }
            Accumulator::Values(values) => collect(alloc, values, value),
        }
    }

    /// What it tells in the end.
    pub(crate) fn tell(self) -> Result<Value, AllocError>
        ensures { IfOk result (λ v. view v ≡ told (held_view self)) }
    {
        match self {
            Accumulator::Count(count) => Ok(Value::Int(count)),
            Accumulator::Sum(sum) => Ok(Value::Int(sum)),
            Accumulator::Lowest(best) | Accumulator::Highest(best) => match best {
                Some(value) => Ok(value),
                None => Ok(Value::Null),
            },
            Accumulator::Values(values) => Value::list(values.items),
        }
    }
}

/// One more.
pub(crate) fn count_one(count: &mut i64) -> Result<(), Fault>
    ensures ok { OnOk result (count.new ≡ count.old +ℤ pos 1) }
    ensures err { IfErr result (λ e. e ≡ OutOfMemory) }
{
    match count.checked_add(1) {
        Some(more) => {
            *count = more;
            Ok(())
        }
        None => Err(Fault::OutOfMemory),
    }
}

/// Adds so many rows to a count, if there is room for them. Tells whether it has.
pub(crate) fn add_rows(count: &mut i64, more: usize) -> bool
    ensures added { result ≡ true → count.new ≡ count.old +ℤ pos more }
    ensures same { result ≡ false → count.new ≡ count.old }
{
    let Ok(more) = i64::try_from(more) else {
        return false;
    };
    match count.checked_add(more) {
        Some(sum) => {
            *count = sum;
            true
        }
        None => false,
    }
}

/// Adds a value to a sum, if it is an integer.
fn add(total: &mut i64, value: &Value) -> Result<(), Fault>
    ensures ok { OnOk result (added total.old (view value.now) ≡ Ok (sum total.new)) }
    ensures err { IfErr result (λ e. added total.old (view value.now) ≡ Err e) }
{
    match value {
        Value::Int(summand) => add_integer(total, *summand),
        _ => Err(Fault::TypeFault),
    }
}

/// Adds an integer to a sum.
#[tactic(auto, using(crate::proofs::Ranges::in_range, crate::proofs::Ranges::out_of_range))]
pub(crate) fn add_integer(total: &mut i64, summand: i64) -> Result<(), Fault>
    ensures ok { OnOk result (added total.old (integer summand) ≡ Ok (sum total.new)) }
    ensures err { IfErr result (λ e. added total.old (integer summand) ≡ Err e) }
{
    match total.checked_add(summand) {
        Some(more) => {
            *total = more;
            Ok(())
        }
        None => Err(Fault::Overflow),
    }
}

fn collect(alloc: Global, values: &mut Collected, value: Value) -> Result<(), Fault>
    ensures ok { OnOk result (collected (map view values.old.items.items) (view value)
        ≡ Ok (map view values.new.items.items)) }
    ensures err { IfErr result (λ e. e ≢ OutOfMemory
        → collected (map view values.old.items.items) (view value) ≡ Err e) }
{
    let held = mem::replace(values, Collected::new(alloc));
    *values = held.with(value)?;
    Ok(())
}

fn lesser(best: Option<Value>, value: Value) -> Value
    ensures { view result ≡ better lesser (option_map view best) (view value) }
{
    match best {
        Some(best) => {
            if order(&value, &best).is_lt() {
                value
            } else {
                best
            }
        }
        None => value,
    }
}

fn greater(best: Option<Value>, value: Value) -> Value
    ensures { view result ≡ better greater (option_map view best) (view value) }
{
    match best {
        Some(best) => {
            if order(&value, &best).is_gt() {
                value
            } else {
                best
            }
        }
        None => value,
    }
}
