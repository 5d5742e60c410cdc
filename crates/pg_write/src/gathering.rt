//! What all rows name, evaluated over the graph as the clause found it.
ghost use Rattle.std.specs.Prelude.{◌≡◌, ◌≢◌, [], OnOk, IfOk, IfErr, Ok, Err, map};
ghost use Rattle.pg_expr.specs.Prepared.{tree_of};
ghost use Rattle.pg_meaning.specs.Answer.{each_step};
ghost use Rattle.pg_meaning.specs.declared.fault.Fault.TheVariants.{OutOfMemory};
ghost use Rattle.pg_rows.specs.Named.{rows_named};
ghost use Rattle.pg_rows.specs.States.{named_rows, seen};
ghost use Rattle.pg_rows.specs.Tables.{table};
ghost use Rattle.pg_syntax_tree.specs.View.{expression_view};
ghost use Rattle.pg_value_core.specs.Given.{parameters_view};
ghost use Rattle.pg_write.specs.Gathered.{put_row, gathered};
ghost use Rattle.pg_write_make.specs.Scenes.{row_in, parameters_in};

use crate::pending_deletes::PendingDeletes;
use pg_expr::{Prepared, QueryContext, prepare};
use pg_graph::Tables;
use pg_meaning::Fault;
use pg_rows::{BindingTable, Columns, Rows};
use pg_store::GraphView;
use pg_syntax_tree::Expression;
use pg_value_core::Value;
use pg_write_make::ClauseScope;
use std::alloc::{AllocError, Global};

// The expressions made ready, once a clause, for its rows.
fn prepare_all<'a>(
    alloc: Global,
    names: &Columns,
    elements: &'a Vec<Expression>,
) -> Result<Vec<Prepared<'a>>, AllocError>
    ensures { IfOk result
        (λ ready. map (tree_of names.now) ready.items ≡ map expression_view elements.now.items) }
{
    let mut ready = Vec::with_capacity(alloc, elements.len())?;
    for element in elements {
        ready.push(prepare(alloc, element, names)?)?;
    }
    Ok(ready)
}

// What all expressions give at a row.
fn gather_row<T: Tables>(
    doomed: &mut PendingDeletes,
    scene: &ClauseScope<'_>,
    graph: &GraphView<'_, T>,
    row: &[Value],
    elements: &Vec<Prepared<'_>>,
) -> Result<(), Fault>
    ensures ok { OnOk result (put_row (parameters_in scene.now) graph.now
        (map (tree_of scene.now.names.now) elements.now.items) doomed.old (row_in scene.now row.now)
        ≡ Ok doomed.new) }
    ensures err { IfErr result (λ e. e ≢ OutOfMemory → put_row (parameters_in scene.now) graph.now
        (map (tree_of scene.now.names.now) elements.now.items) doomed.old (row_in scene.now row.now)
        ≡ Err e) }
{
    for element in elements {
        let value = scene.evaluate(graph, row, element)?;
        doomed.put_value(graph, &value)?;
    }
    Ok(())
}

// What all expressions give at all rows.
fn gather_rows<T: Tables>(
    doomed: &mut PendingDeletes,
    scene: &ClauseScope<'_>,
    graph: &GraphView<'_, T>,
    rows: &Rows,
    elements: &Vec<Prepared<'_>>,
) -> Result<(), Fault>
    ensures ok { OnOk result (each_step (put_row
        (parameters_in scene.now) graph.now (map (tree_of scene.now.names.now) elements.now.items))
        doomed.old (rows_named scene.now.names.now (table rows.now)) ≡ Ok doomed.new) }
    ensures err { IfErr result (λ e. e ≢ OutOfMemory → each_step (put_row
        (parameters_in scene.now) graph.now (map (tree_of scene.now.names.now) elements.now.items))
        doomed.old (rows_named scene.now.names.now (table rows.now)) ≡ Err e) }
{
    for at in 0..rows.len() {
        gather_row(doomed, scene, graph, rows.row(at), elements)?;
    }
    Ok(())
}

// What expressions that were made ready give at all rows, with DETACH the relationships at the nodes too.
fn gather_ready<T: Tables>(
    scene: &ClauseScope<'_>,
    graph: &GraphView<'_, T>,
    rows: &Rows,
    elements: &Vec<Prepared<'_>>,
    is_detach: bool,
) -> Result<PendingDeletes, Fault>
    ensures ok { IfOk result (λ d. gathered is_detach
        (parameters_in scene.now) graph.now (map (tree_of scene.now.names.now) elements.now.items)
        (rows_named scene.now.names.now (table rows.now)) ≡ Ok d) }
    ensures err { IfErr result (λ e. e ≢ OutOfMemory → gathered is_detach
        (parameters_in scene.now) graph.now (map (tree_of scene.now.names.now) elements.now.items)
        (rows_named scene.now.names.now (table rows.now)) ≡ Err e) }
{
    let mut doomed = PendingDeletes::new(scene.query.alloc);
    gather_rows(&mut doomed, scene, graph, rows, elements)?;
    if is_detach {
        doomed.detach(graph)?;
    }
    Ok(doomed)
}

/// What the expressions give at all rows, with DETACH the relationships at the nodes too.
pub(crate) fn gather<T: Tables>(
    query: &QueryContext<'_>,
    is_detach: bool,
    elements: &Vec<Expression>,
    graph: &GraphView<'_, T>,
    table: &BindingTable,
) -> Result<PendingDeletes, Fault>
    ensures ok { IfOk result (λ d. gathered is_detach (parameters_view query.now.parameters.now)
        graph.now (map expression_view elements.now.items) (named_rows (seen table.now)) ≡ Ok d) }
    ensures err { IfErr result (λ e. e ≢ OutOfMemory
        → gathered is_detach (parameters_view query.now.parameters.now) graph.now
        (map expression_view elements.now.items) (named_rows (seen table.now)) ≡ Err e) }
{
    let ready = prepare_all(query.alloc, table.names(), elements)?;
    let scene = ClauseScope {
        query,
        names: table.names(),
    };
    gather_ready(&scene, graph, table.rows(), &ready, is_detach)
}
