//! What is kept of an aggregate in a group.
ghost use Rattle.std.specs.Prelude.{◌≡◌, ◌≢◌, true, false, IfErr, IfOk, OnOk, Ok, Err, map, option_map};
ghost use Rattle.pg_meaning.specs.Value.{boolean, integer};
ghost use Rattle.pg_meaning.specs.declared.fault.Fault.TheVariants.{OutOfMemory};
ghost use Rattle.pg_project.specs.AlikeRows.{CountsMore};
ghost use Rattle.pg_project.specs.Summaries.{begun, Counts, is_null, needs_different, taken_with};
ghost use Rattle.pg_project.specs.Views.{taken_view};
ghost use Rattle.pg_scope.specs.Calls.{summary_view};
ghost use Rattle.pg_value_core.specs.View.{view};

use crate::accumulator::{Accumulator, add_integer, add_rows, count_one};
use indexmap::IndexSet;
use pg_meaning::Fault;
use pg_scope::AggregateFunction;
use pg_value_core::Value;
use std::alloc::{AllocError, Global};
use std::hash::RandomState;

/// What is kept of the values taken in, and where DISTINCT needs them the different values so far.
#[derive(Drop)]
pub(crate) struct Taken {
    // In a box, since few aggregates have them: what is kept of the others stays small.
    pub(crate) different: Option<Box<IndexSet<Value, RandomState>>>,
    pub(crate) held: Accumulator,
}

/// Whether DISTINCT changes anything of what is told.
fn needs_different(summary: AggregateFunction) -> bool
    ensures { result ≡ needs_different (summary_view summary) }
{
    match summary {
        AggregateFunction::Least | AggregateFunction::Greatest => false,
        AggregateFunction::Counting | AggregateFunction::Summing | AggregateFunction::Collecting =>
            true,
    }
}

fn is_null(value: &Value) -> bool
    ensures { result ≡ is_null (view value.now) }
{
    match value {
        Value::Null => true,
        _ => false,
    }
}

impl Taken {
    /// No values yet.
    pub(crate) fn new(
        alloc: Global,
        hasher: RandomState,
        summary: AggregateFunction,
        distinct: bool,
    ) -> Result<Taken, AllocError>
        ensures { IfOk result (λ t. taken_view t ≡ begun (summary_view summary) distinct) }
    {
        let different = if distinct && needs_different(summary) {
            Some(Box::new(alloc, IndexSet::with_hasher(alloc, hasher))?)
        } else {
            None
        };
        Ok(Taken {
            different,
            held: Accumulator::new(alloc, summary),
        })
    }

    /// Takes in one integer more. Most are added to a plain sum.
    #[inline(always)]
    pub(crate) fn take_integer(&mut self, alloc: Global, number: i64) -> Result<(), Fault>
        ensures ok { OnOk result
            (taken_with (taken_view self.old) (integer number) ≡ Ok (taken_view self.new)) }
        ensures err { IfErr result (λ e. e ≢ OutOfMemory
            → taken_with (taken_view self.old) (integer number) ≡ Err e) }
    {
        if let Accumulator::Sum(total) = &mut self.held
            && self.different.is_none()
        {
            return add_integer(total, number);
        }
        self.take(alloc, Value::Int(number))
    }

    /// Takes in one value more, if it counts.
    #[inline(never)]
    pub(crate) fn take(&mut self, alloc: Global, value: Value) -> Result<(), Fault>
        ensures ok { OnOk result
            (taken_with (taken_view self.old) (view value) ≡ Ok (taken_view self.new)) }
        ensures err { IfErr result (λ e. e ≢ OutOfMemory
            → taken_with (taken_view self.old) (view value) ≡ Err e) }
    {
        if !counts(alloc, &mut self.different, &value)? {
            return Ok(());
        }
        self.held.take(alloc, value)
    }

    /// Takes in so many rows more, where only they are counted. Tells whether it has.
    pub(crate) fn count_more(&mut self, more: usize) -> bool
        ensures counted { result ≡ true
            → CountsMore more (taken_view self.old) (taken_view self.new) }
        ensures same { result ≡ false → taken_view self.new ≡ taken_view self.old }
    {
        if self.different.is_some() {
            return false;
        }
        match &mut self.held {
            Accumulator::Count(count) => add_rows(count, more),
            _ => false,
        }
    }

    /// Takes in one row more. A plain count makes no value of it.
    pub(crate) fn take_row(&mut self, alloc: Global) -> Result<(), Fault>
        ensures ok { OnOk result
            (taken_with (taken_view self.old) (boolean true) ≡ Ok (taken_view self.new)) }
        ensures err { IfErr result (λ e. e ≢ OutOfMemory
            → taken_with (taken_view self.old) (boolean true) ≡ Err e) }
    {
        if self.different.is_none()
            && let Accumulator::Count(count) = &mut self.held
        {
            return count_one(count);
        }
        self.take(alloc, Value::Bool(true))
    }
}

/// Whether the value counts: null doesn't, nor does one that is equivalent to one of the different values.
fn counts(
    alloc: Global,
    different: &mut Option<Box<IndexSet<Value, RandomState>>>,
    value: &Value,
) -> Result<bool, AllocError>
    ensures { IfOk result (λ b. Counts (option_map (λ s. map view s.value.keys) different.old)
        (option_map (λ s. map view s.value.keys) different.new) (view value.now) b) }
{
    if is_null(value) {
        return Ok(false);
    }
    let Some(different) = different else {
        return Ok(true);
    };
    if different.contains(value) {
        return Ok(false);
    }
    different.insert(value.copy(alloc)?)?;
    Ok(true)
}
