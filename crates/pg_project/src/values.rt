//! What expressions give at rows, one expression after the other.
ghost use Rattle.std.specs.Prelude.{◌≡◌, ◌≢◌, ◌<◌, ◌+◌, ◌++◌, [], cond, drop, length, map, IfOk, IfErr, OnOk, Ok, Err};
ghost use Rattle.pg_meaning.specs.Answer.{◌>>=◌ as and_then};
ghost use Rattle.pg_meaning.specs.declared.fault.Fault.TheVariants.{OutOfMemory};
ghost use Rattle.pg_project.specs.Columns.{values_in_items};
ghost use Rattle.pg_project.specs.Given.{trees_of, values_given, wide_rows_given};
ghost use Rattle.pg_project.specs.Items.{expressions_view};
ghost use Rattle.pg_rows.specs.Left.{first_row, rows_left};
ghost use Rattle.pg_rows.specs.Tables.{table};
ghost use Rattle.pg_syntax_tree.specs.View.{item_view};
ghost use Rattle.pg_value_core.specs.Given.{parameters_view};
ghost use Rattle.pg_value_core.specs.View.{view};

use crate::clause_scope::ClauseScope;
use crate::made::push_made;
use pg_expr::{Prepared, RowContext, prepare, push_at};
use pg_graph::Tables;
use pg_meaning::Fault;
use pg_rows::{Columns, Rows, RowsLeft};
use pg_store::GraphView;
use pg_syntax_tree::{Expression, Item};
use pg_value_core::Value;
use std::alloc::{AllocError, Global};

/// Room for so many wide rows is asked for at once. Of more it is asked for as they come, since the first of them may have a fault.
const ROOM: usize = 1024;

/// The expressions, made ready for rows under the names.
pub fn prepare_each<'a>(
    alloc: Global,
    expressions: &Vec<&'a Expression>,
    names: &Columns,
) -> Result<Vec<Prepared<'a>>, AllocError>
    ensures trees { IfOk result
        (λ ready. trees_of names.now ready.items ≡ expressions_view expressions.now.items) }
    ensures len { IfOk result (λ ready. length ready.items ≡ length expressions.now.items) }
{
    let mut ready = Vec::new(alloc);
    for expression in expressions {
        push_made(&mut ready, prepare(alloc, expression, names))?;
    }
    Ok(ready)
}

/// The expressions of the items, made ready for rows under the names.
pub fn prepare_items<'a>(
    alloc: Global,
    items: &'a Vec<Item>,
    names: &Columns,
) -> Result<Vec<Prepared<'a>>, AllocError>
    ensures { IfOk result (λ ready. trees_of names.now ready.items
        ≡ values_in_items (map item_view items.now.items)) }
{
    let mut ready = Vec::with_capacity(alloc, items.len())?;
    for item in items {
        push_made(&mut ready, prepare(alloc, &item.value, names))?;
    }
    Ok(ready)
}

/// The values of the expressions at a row, left to right, behind those that a list has.
pub(crate) fn push_values<T: Tables>(
    context: &RowContext<'_>,
    ready: &Vec<Prepared<'_>>,
    graph: &GraphView<'_, T>,
    values: &mut Vec<Value>,
) -> Result<(), Fault>
    ensures ok { OnOk result (and_then
        (values_given (parameters_view context.now.parameters.now) graph.now context.now.names.now
        (trees_of context.now.names.now ready.now.items) (map view context.now.row.now))
        (λ given. Ok (map view values.old.items ++ given)) ≡ Ok (map view values.new.items)) }
    ensures len { OnOk result
        (length values.new.items ≡ length values.old.items + length ready.now.items) }
    ensures err { IfErr result (λ e. e ≢ OutOfMemory
        → values_given (parameters_view context.now.parameters.now) graph.now context.now.names.now
        (trees_of context.now.names.now ready.now.items) (map view context.now.row.now) ≡ Err e) }
{
    for one in ready {
        push_at(context, one, graph, values)?;
    }
    Ok(())
}

/// Goes to the next row; where the row is kept, it moves behind the values.
fn pass(left: &mut RowsLeft, keeps: bool, values: &mut Vec<Value>) -> Result<(), AllocError>
    requires { 0 < length (rows_left left.old) }
    ensures values { OnOk result (map view values.new.items
        ≡ map view values.old.items ++ cond keeps (first_row (rows_left left.old)) []) }
    ensures len { OnOk result
        (length values.new.items ≡ length values.old.items + cond keeps left.old.rows.width 0) }
    ensures rows { OnOk result (rows_left left.new ≡ drop 1 (rows_left left.old)) }
    ensures width { left.new.rows.width ≡ left.old.rows.width }
{
    if keeps {
        return left.next_into(values);
    }
    left.skip(1);
    Ok(())
}

/// The wide rows of all rows, row by row: the values of the items, with the row behind them where it is kept.
#[tactic(auto, using(crate::proofs::WideRows::wide_more, crate::proofs::WideRows::wide_fault))]
pub(crate) fn wide_rows<T: Tables>(
    scope: &ClauseScope<'_>,
    ready: &Vec<Prepared<'_>>,
    rows: Rows,
    keeps: bool,
    width: usize,
    graph: &GraphView<'_, T>,
) -> Result<Rows, Fault>
    requires { width ≡ length ready.now.items + cond keeps rows.width 0 }
    ensures ok { IfOk result (λ found. wide_rows_given
        (parameters_view scope.now.query.now.parameters.now) graph.now scope.now.names.now
        (trees_of scope.now.names.now ready.now.items) keeps (table rows) ≡ Ok (table found)) }
    ensures width { IfOk result (λ found. found.width ≡ width) }
    ensures err { IfErr result (λ e. e ≢ OutOfMemory
        → wide_rows_given (parameters_view scope.now.query.now.parameters.now) graph.now
        scope.now.names.now (trees_of scope.now.names.now ready.now.items) keeps (table rows)
        ≡ Err e) }
{
    let room = rows.len().min(ROOM).saturating_mul(width);
    let mut values = Vec::with_capacity(scope.query.alloc, room)?;
    let mut left = rows.into_left();
    let mut at = 0;
    // the wide rows up to here stand in `values`, one behind the other
    while let Some(row) = left.look() {
        let context = RowContext {
            alloc: scope.query.alloc,
            names: scope.names,
            row,
            parameters: scope.query.parameters,
        };
        push_values(&context, ready, graph, &mut values)?;
        pass(&mut left, keeps, &mut values)?;
        at += 1;
    }
    Ok(Rows::of_values(values, width, at))
}
