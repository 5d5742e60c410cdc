//! Rows that are told as they are made.
ghost use Rattle.std.specs.Prelude.{◌≡◌, ◌≢◌, map, option_map, unwrap_or, IfOk, IfErr, OnOk, Err, Ok};
ghost use Rattle.pg_expr.specs.Contexts.{given};
ghost use Rattle.pg_expr.specs.Prepared.{tree_of};
ghost use Rattle.pg_meaning.specs.Answer.{each_answer};
ghost use Rattle.pg_meaning.specs.declared.fault.Fault.TheVariants.{OutOfMemory};
ghost use Rattle.pg_project.specs.Cuts.{cut_view};
ghost use Rattle.pg_meaning.specs.Value.{null};
ghost use Rattle.pg_run.specs.Returning.{IsGiven, RowPassed, RowTold, RowsTold, ValueTold, items_given};
ghost use Rattle.pg_rows.specs.Tables.{table};
ghost use Rattle.pg_value_core.specs.View.{view};

use crate::reply_writer::ReplyWriter;
use pg_expr::{Prepared, QueryContext, RowContext, find_at, lent_at};
use pg_graph::Tables;
use pg_meaning::Fault;
use pg_project::Cut;
use pg_rows::{Columns, Rows};
use pg_store::GraphView;
use pg_value_core::Value;
use std::alloc::{AllocError, Global};

/// The items of RETURN made ready, and what they are evaluated with at each row.
#[derive(Clone, Copy)]
pub(crate) struct ReadyItems<'a, 'b> {
    pub(crate) query: &'a QueryContext<'a>,
    pub(crate) names: &'a Columns,
    pub(crate) ready: &'a [Prepared<'b>],
}

/// Tells what the items give at each row that is let in; the others are only looked at for a fault.
pub(crate) fn tell_rows<T: Tables>(
    items: &ReadyItems<'_, '_>,
    rows: &Rows,
    cut: Cut,
    graph: &GraphView<'_, T>,
    telling: &mut ReplyWriter,
) -> Result<(), Fault>
    ensures ok { IfOk result (λ u. RowsTold graph.now (cut_view cut)
        (each_answer (items_given items.now graph.now) (table rows.now)) telling.old telling.new) }
    ensures err { IfErr result (λ e. e ≢ OutOfMemory
        → each_answer (items_given items.now graph.now) (table rows.now) ≡ Err e) }
{
    for at in 0..rows.len() {
        let is_in = cut.lets_in(at as u64);
        tell_row(items, rows.row(at), is_in, graph, telling)?;
    }
    Ok(())
}

/// Tells what the items give at a row that is let in, and else only looks for a fault.
fn tell_row<T: Tables>(
    items: &ReadyItems<'_, '_>,
    row: &[Value],
    is_in: bool,
    graph: &GraphView<'_, T>,
    telling: &mut ReplyWriter,
) -> Result<(), Fault>
    ensures ok { IfOk result (λ u. RowPassed graph.now is_in
        (items_given items.now graph.now (map view row.now)) telling.old telling.new) }
    ensures err { IfErr result (λ e. e ≢ OutOfMemory
        → items_given items.now graph.now (map view row.now) ≡ Err e) }
{
    if !is_in {
        return test_items(items, row, graph);
    }
    tell_items(items, row, graph, telling)?;
    telling.end_row()?;
    Ok(())
}

/// Begins a row, and tells what the items give at it, left to right.
fn tell_items<'a, T: Tables>(
    items: &ReadyItems<'a, '_>,
    row: &'a [Value],
    graph: &GraphView<'a, T>,
    telling: &mut ReplyWriter,
) -> Result<(), Fault>
    ensures ok { IfOk result (λ u. RowTold graph.now (items_given items.now graph.now
        (map view row.now)) telling.old telling.new) }
    ensures err { IfErr result (λ e. e ≢ OutOfMemory
        → items_given items.now graph.now (map view row.now) ≡ Err e) }
{
    let query = items.query;
    let context = RowContext {
        alloc: query.alloc,
        names: items.names,
        row,
        parameters: query.parameters,
    };
    telling.begin_row()?;
    for one in items.ready {
        tell_item(&context, one, graph, telling)?;
    }
    Ok(())
}

/// Tells what one item gives at a row.
#[inline(always)]
fn tell_item<'a, T: Tables>(
    context: &RowContext<'a>,
    one: &Prepared<'_>,
    graph: &GraphView<'a, T>,
    telling: &mut ReplyWriter,
) -> Result<(), Fault>
    ensures ok { OnOk result (ValueTold graph.now
        (given context.now graph.now (tree_of context.now.names.now one.now))
        telling.old telling.new) }
    ensures err { IfErr result (λ e. e ≢ OutOfMemory
        → given context.now graph.now (tree_of context.now.names.now one.now) ≡ Err e) }
{
    match lent_at(context, one, graph) {
        Some(held) => Ok(tell_held(context.alloc, held, graph, telling)?),
        None => tell_found(context, one, graph, telling),
    }
}

#[inline(always)]
fn tell_held<T: Tables>(
    alloc: Global,
    held: Option<&Value>,
    graph: &GraphView<'_, T>,
    telling: &mut ReplyWriter,
) -> Result<(), AllocError>
    ensures { OnOk result (ValueTold graph.now
        (Ok (unwrap_or (option_map (λ v. view v.now) held.entry) null)) telling.old telling.new) }
{
    match held {
        Some(value) => telling.take(alloc, graph, value),
        None => telling.take(alloc, graph, &Value::Null),
    }
}

#[inline(never)]
fn tell_found<'a, T: Tables>(
    context: &RowContext<'a>,
    one: &Prepared<'_>,
    graph: &GraphView<'a, T>,
    telling: &mut ReplyWriter,
) -> Result<(), Fault>
    ensures ok { OnOk result (ValueTold graph.now
        (given context.now graph.now (tree_of context.now.names.now one.now))
        telling.old telling.new) }
    ensures err { IfErr result (λ e. e ≢ OutOfMemory
        → given context.now graph.now (tree_of context.now.names.now one.now) ≡ Err e) }
{
    let found = find_at(context, one, graph)?;
    telling.take(context.alloc, graph, found.look())?;
    Ok(())
}

/// Tests that no item has a fault at a row, left to right.
fn test_items<'a, T: Tables>(
    items: &ReadyItems<'a, '_>,
    row: &'a [Value],
    graph: &GraphView<'a, T>,
) -> Result<(), Fault>
    ensures ok { IfOk result (λ u. IsGiven (items_given items.now graph.now (map view row.now))) }
    ensures err { IfErr result (λ e. e ≢ OutOfMemory
        → items_given items.now graph.now (map view row.now) ≡ Err e) }
{
    let query = items.query;
    let context = RowContext {
        alloc: query.alloc,
        names: items.names,
        row,
        parameters: query.parameters,
    };
    for one in items.ready {
        find_at(&context, one, graph)?;
    }
    Ok(())
}
