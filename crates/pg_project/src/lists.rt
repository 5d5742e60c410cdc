//! The lists that UNWIND goes over, and the rows that it makes of them.
ghost use Rattle.std.specs.Prelude.{◌≡◌, ◌≢◌, ◌∷◌, [], ◌++◌, length, map, sum, IfOk, IfErr, IfSome, IfNone, IsSome, OnOk, Ok, Err};
ghost use Rattle.pg_expr.specs.Prepared.{tree_of};
ghost use Rattle.pg_meaning.specs.Meters.{Setting, spend};
ghost use Rattle.pg_meaning.specs.declared.fault.Fault.TheVariants.{OutOfMemory};
ghost use Rattle.pg_meter.specs.Quotas.{after_test};
ghost use Rattle.pg_project.specs.Unwound.{list_given, lists_given, lists_view, rows_unwound, with_column, with_item, with_items};
ghost use Rattle.pg_rows.specs.Tables.{table};
ghost use Rattle.pg_value_core.specs.Given.{parameters_view};
ghost use Rattle.pg_value_core.specs.View.{view};

use crate::clause_scope::ClauseScope;
use pg_expr::{Prepared, RowContext, evaluate_at};
use pg_graph::Tables;
use pg_meaning::Fault;
use pg_meter::Meter;
use pg_rows::{Rows, copy_row};
use pg_store::GraphView;
use pg_value_core::{Parts, Value, owned_items};
use std::alloc::{AllocError, Global};

/// The list at each row.
#[tactic(auto, using(crate::proofs::InTurn::no_more))]
pub(crate) fn lists_at<T: Tables>(
    scope: &ClauseScope<'_>,
    prepared: &Prepared<'_>,
    rows: &Rows,
    graph: &GraphView<'_, T>,
) -> Result<Vec<Vec<Value>>, Fault>
    ensures ok { IfOk result
        (λ lists. lists_given (parameters_view scope.now.query.now.parameters.now) graph.now
        (tree_of scope.now.names.now prepared.now) scope.now.names.now (table rows.now)
        ≡ Ok (lists_view lists.items)) }
    ensures len { IfOk result (λ lists. length lists.items ≡ length (table rows.now)) }
    ensures err { IfErr result (λ e. e ≢ OutOfMemory
        → lists_given (parameters_view scope.now.query.now.parameters.now) graph.now
        (tree_of scope.now.names.now prepared.now) scope.now.names.now (table rows.now) ≡ Err e) }
{
    let mut lists = Vec::new(scope.query.alloc);
    for at in 0..rows.len() {
        let context = RowContext {
            alloc: scope.query.alloc,
            names: scope.names,
            row: rows.row(at),
            parameters: scope.query.parameters,
        };
        lists.push(list_at(&context, prepared, graph)?)?;
    }
    Ok(lists)
}

/// The items of the list that the expression gives at a row; none where it gives null.
fn list_at<T: Tables>(
    context: &RowContext<'_>,
    prepared: &Prepared<'_>,
    graph: &GraphView<'_, T>,
) -> Result<Vec<Value>, Fault>
    ensures ok { IfOk result (λ items. list_given (parameters_view context.now.parameters.now)
        graph.now (tree_of context.now.names.now prepared.now) context.now.names.now
        (map view context.now.row.now) ≡ Ok (map view items.items)) }
    ensures err { IfErr result (λ e. e ≢ OutOfMemory
        → list_given (parameters_view context.now.parameters.now) graph.now
        (tree_of context.now.names.now prepared.now) context.now.names.now
        (map view context.now.row.now) ≡ Err e) }
{
    let value = evaluate_at(context, prepared, graph)?;
    match value.into_parts() {
        Parts::Null => Ok(Vec::new(context.alloc)),
        Parts::List(items) => Ok(owned_items(items)?),
        _ => Err(Fault::TypeFault),
    }
}

/// Spends a step for each item of the lists.
pub(crate) fn spend_items(lists: &Vec<Vec<Value>>, meter: &mut Meter) -> Result<(), Fault>
    ensures spends { (s : Setting) → s.quota.max_steps ≡ meter.old.limit
        → spend s meter.old.used (sum (map length (lists_view lists.now.items)))
        ≡ after_test result meter.new.used }
    ensures limit { meter.new.limit ≡ meter.old.limit }
{
    for list in lists {
        meter.spend(list.len() as u64)?;
    }
    let _left = meter.left();
    Ok(())
}

/// Each row with each item of its list behind it, where the items have a column of their own. Of one row
/// without columns the list's own memory is that of the rows.
pub(crate) fn unwound(
    alloc: Global,
    rows: Rows,
    mut lists: Vec<Vec<Value>>,
    has_column: bool,
    width: usize,
) -> Result<Rows, AllocError>
    requires { width ≡ with_column has_column rows.width }
    ensures rows { IfOk result
        (λ found. table found ≡ rows_unwound has_column (table rows) (lists_view lists.items)) }
    ensures width { IfOk result (λ found. found.width ≡ width) }
{
    if has_column && let Some(items) = lone_list(&rows, &mut lists) {
        return Ok(Rows::of_column(items));
    }
    each_unwound(alloc, rows, lists, has_column, width)
}

/// The list of the only row, where that has no columns.
fn lone_list(rows: &Rows, lists: &mut Vec<Vec<Value>>) -> Option<Vec<Value>>
    ensures row { IsSome result → (table rows.now ≡ [] ∷ []) × (rows.now.width ≡ 0) }
    ensures list { IfSome result (λ l. lists_view lists.old.items ≡ map view l.items ∷ []) }
    ensures none { IfNone result (lists.new.items ≡ lists.old.items) }
{
    if rows.width() > 0 || rows.len() != 1 || lists.len() != 1 {
        return None;
    }
    lists.pop()
}

/// The same row by row.
fn each_unwound(
    alloc: Global,
    rows: Rows,
    lists: Vec<Vec<Value>>,
    has_column: bool,
    width: usize,
) -> Result<Rows, AllocError>
    requires { width ≡ with_column has_column rows.width }
    ensures rows { IfOk result
        (λ found. table found ≡ rows_unwound has_column (table rows) (lists_view lists.items)) }
    ensures width { IfOk result (λ found. found.width ≡ width) }
{
    let mut found = Rows::new(alloc, width);
    let mut left = rows.into_left();
    for items in lists {
        let Some(row) = left.next_row(alloc)? else {
            return Ok(found);
        };
        push_items(alloc, &mut found, row, items, has_column)?;
    }
    Ok(found)
}

/// Takes in a row for each of the items; the last takes the row itself.
fn push_items(
    alloc: Global,
    found: &mut Rows,
    mut row: Vec<Value>,
    mut items: Vec<Value>,
    has_column: bool,
) -> Result<(), AllocError>
    requires { found.old.width ≡ with_column has_column (length row.items) }
    ensures rows { OnOk result (table found.new
        ≡ table found.old ++ with_items has_column (map view row.items) (map view items.items)) }
    ensures width { found.new.width ≡ found.old.width }
{
    let Some(last) = items.pop() else {
        return Ok(());
    };
    push_copies(alloc, found, &row, items, has_column)?;
    push_item(found, &mut row, last, has_column)
}

/// Takes in a row for each of the items, each a copy.
fn push_copies(
    alloc: Global,
    found: &mut Rows,
    row: &[Value],
    items: Vec<Value>,
    has_column: bool,
) -> Result<(), AllocError>
    requires { found.old.width ≡ with_column has_column (length row.now) }
    ensures rows { OnOk result (table found.new
        ≡ table found.old ++ with_items has_column (map view row.now) (map view items.items)) }
    ensures width { found.new.width ≡ found.old.width }
{
    let mut copy = Vec::new(alloc);
    for item in items {
        copy_row(alloc, row, &mut copy)?;
        push_item(found, &mut copy, item, has_column)?;
    }
    Ok(())
}

/// Moves the values out to be the last row, with the item behind them.
fn push_item(
    found: &mut Rows,
    row: &mut Vec<Value>,
    item: Value,
    has_column: bool,
) -> Result<(), AllocError>
    requires { found.old.width ≡ with_column has_column (length row.old.items) }
    ensures rows { OnOk result (table found.new
        ≡ table found.old ++ with_item has_column (map view row.old.items) (view item) ∷ []) }
    ensures emptied { OnOk result (row.new.items ≡ []) }
    ensures width { found.new.width ≡ found.old.width }
{
    if has_column {
        row.push(item)?;
    }
    found.push_from(row)
}
