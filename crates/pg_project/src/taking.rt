//! Rows taken into the aggregates of a group.
ghost use Rattle.std.specs.Prelude.{◌≡◌, ◌≢◌, ◌≤◌, ◌+◌, ◌*◌, ◌++◌, ℕ, List, length, option_map, unwrap_or, IfErr, IfOk, OnOk, Ok, Err};
ghost use Rattle.pg_expr.specs.Contexts.{given};
ghost use Rattle.pg_expr.specs.Prepared.{tree_of};
ghost use Rattle.pg_meaning.specs.Answer.{◌>>=◌ as and_then};
ghost use Rattle.pg_meaning.specs.Value.{null};
ghost use Rattle.pg_meaning.specs.declared.fault.Fault.TheVariants.{OutOfMemory};
ghost use Rattle.pg_project.specs.Kept.{all_taken_in, argument_given, taken_in};
ghost use Rattle.pg_project.specs.Kept as kept;
ghost use Rattle.pg_project.specs.KeptGroups.{taken_in_at};
ghost use Rattle.pg_project.specs.ReadyItems.{aggregate_view, aggregates_view};
ghost use Rattle.pg_project.specs.Summaries.{taken_with};
ghost use Rattle.pg_project.specs.Views.{taken_view, takens_view};
ghost use Rattle.pg_value_core.specs.Gives.{Gives};
ghost use Rattle.pg_value_core.specs.View.{view};

use crate::items::Aggregate;
use crate::taken::Taken;
use pg_expr::{Prepared, RowContext, evaluate_at, lent_at};
use pg_graph::Tables;
use pg_meaning::Fault;
use pg_store::GraphView;
use pg_value_core::Value;
use std::alloc::{AllocError, Global};
use std::hash::RandomState;

/// No values yet of each aggregate, behind what is kept of other groups.
pub(crate) fn begin(
    alloc: Global,
    hasher: RandomState,
    aggregates: &Vec<Aggregate<'_>>,
    taken: &mut Vec<Taken>,
) -> Result<(), AllocError>
    ensures { (names : List (List ℕ))
        → OnOk result (takens_view taken.new.items ≡ takens_view taken.old.items
        ++ kept.begun (aggregates_view names aggregates.now.items)) }
{
    for aggregate in aggregates {
        let one = Taken::new(alloc, hasher, aggregate.summary, aggregate.distinct)?;
        taken.push(one)?;
    }
    Ok(())
}

/// The value of the aggregate's argument; without one each row counts.
pub(crate) fn argument_value<T: Tables>(
    context: &RowContext<'_>,
    graph: &GraphView<'_, T>,
    aggregate: &Aggregate<'_>,
) -> Result<Value, Fault>
    ensures { Gives result (argument_given
        (given context.now graph.now) (aggregate_view context.now.names.now aggregate.now)) view }
{
    match &aggregate.argument {
        Some(argument) => evaluate_at(context, argument, graph),
        None => Ok(Value::Bool(true)),
    }
}

/// Takes the row into an aggregate.
#[inline(always)]
fn take_in<T: Tables>(
    context: &RowContext<'_>,
    graph: &GraphView<'_, T>,
    aggregate: &Aggregate<'_>,
    taken: &mut Taken,
) -> Result<(), Fault>
    ensures ok { OnOk result (taken_in (given context.now graph.now)
        (aggregate_view context.now.names.now aggregate.now) (taken_view taken.old)
        ≡ Ok (taken_view taken.new)) }
    ensures err { IfErr result (λ e. e ≢ OutOfMemory → taken_in (given context.now graph.now)
        (aggregate_view context.now.names.now aggregate.now) (taken_view taken.old) ≡ Err e) }
{
    match &aggregate.argument {
        Some(argument) => take_value(context, graph, argument, taken),
        None => taken.take_row(context.alloc),
    }
}

/// Takes the value of an argument into an aggregate.
#[inline(never)]
fn take_value<T: Tables>(
    context: &RowContext<'_>,
    graph: &GraphView<'_, T>,
    argument: &Prepared<'_>,
    taken: &mut Taken,
) -> Result<(), Fault>
    ensures ok { OnOk result (and_then
        (given context.now graph.now (tree_of context.now.names.now argument.now))
        (taken_with (taken_view taken.old)) ≡ Ok (taken_view taken.new)) }
    ensures err { IfErr result (λ e. e ≢ OutOfMemory → and_then
        (given context.now graph.now (tree_of context.now.names.now argument.now))
        (taken_with (taken_view taken.old)) ≡ Err e) }
{
    match lent_at(context, argument, graph) {
        Some(Some(Value::Int(number))) => taken.take_integer(context.alloc, *number),
        Some(held) => taken.take(context.alloc, copy_held(context.alloc, held)?),
        None => take_evaluated(context, graph, argument, taken),
    }
}

#[inline(never)]
fn take_evaluated<T: Tables>(
    context: &RowContext<'_>,
    graph: &GraphView<'_, T>,
    argument: &Prepared<'_>,
    taken: &mut Taken,
) -> Result<(), Fault>
    ensures ok { OnOk result (and_then
        (given context.now graph.now (tree_of context.now.names.now argument.now))
        (taken_with (taken_view taken.old)) ≡ Ok (taken_view taken.new)) }
    ensures err { IfErr result (λ e. e ≢ OutOfMemory → and_then
        (given context.now graph.now (tree_of context.now.names.now argument.now))
        (taken_with (taken_view taken.old)) ≡ Err e) }
{
    taken.take(context.alloc, evaluate_at(context, argument, graph)?)
}

// A copy of what is lent, or null.
#[inline(never)]
fn copy_held(alloc: Global, held: Option<&Value>) -> Result<Value, AllocError>
    ensures { IfOk result
        (λ v. view v ≡ unwrap_or (option_map (λ v. view v.now) held.entry) null) }
{
    match held {
        Some(value) => value.copy(alloc),
        None => Ok(Value::Null),
    }
}

/// Takes the row into the aggregates of the group of this number.
#[inline(always)]
pub(crate) fn take_in_group<T: Tables>(
    context: &RowContext<'_>,
    graph: &GraphView<'_, T>,
    aggregates: &Vec<Aggregate<'_>>,
    taken: &mut Vec<Taken>,
    number: usize,
) -> Result<(), Fault>
    requires { number * length aggregates.now.items + length aggregates.now.items
        ≤ length taken.old.items }
    ensures ok { OnOk result (taken_in_at (given context.now graph.now)
        (aggregates_view context.now.names.now aggregates.now.items)
        (length aggregates.now.items) (number * length aggregates.now.items)
        (takens_view taken.old.items) ≡ Ok (takens_view taken.new.items)) }
    ensures err { IfErr result (λ e. e ≢ OutOfMemory → taken_in_at (given context.now graph.now)
        (aggregates_view context.now.names.now aggregates.now.items)
        (length aggregates.now.items) (number * length aggregates.now.items)
        (takens_view taken.old.items) ≡ Err e) }
{
    let each = aggregates.len();
    let start = number * each;
    take_in_all(context, graph, aggregates, &mut taken[start..start + each])
}

/// Takes the row into the aggregates of a group, left to right.
#[inline(always)]
fn take_in_all<T: Tables>(
    context: &RowContext<'_>,
    graph: &GraphView<'_, T>,
    aggregates: &Vec<Aggregate<'_>>,
    taken: &mut [Taken],
) -> Result<(), Fault>
    ensures ok { OnOk result (all_taken_in (given context.now graph.now)
        (aggregates_view context.now.names.now aggregates.now.items) (takens_view taken.old)
        ≡ Ok (takens_view taken.new)) }
    ensures err { IfErr result (λ e. e ≢ OutOfMemory → all_taken_in (given context.now graph.now)
        (aggregates_view context.now.names.now aggregates.now.items) (takens_view taken.old)
        ≡ Err e) }
{
    let count = aggregates.len().min(taken.len());
    for at in 0..count {
        take_in(context, graph, &aggregates[at], &mut taken[at])?;
    }
    Ok(())
}
