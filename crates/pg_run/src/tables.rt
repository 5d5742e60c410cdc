//! The rows of a table, told one after the other.
ghost use Rattle.std.specs.Prelude.{◌≡◌, [], Bool, List, OnOk, map};
ghost use Rattle.serde_json.specs.Data.{Items};
ghost use Rattle.pg_meaning.specs.Value.{Value as Datum};
ghost use Rattle.pg_rows.specs.States.{seen};
ghost use Rattle.pg_rows.specs.Tables.{table};
ghost use Rattle.pg_run.specs.Telling.{IsTelling, IsTellingRow};
ghost use Rattle.pg_run.specs.Told.{rows_told};
ghost use Rattle.pg_value_core.specs.View.{view};

use crate::reply_writer::ReplyWriter;
use pg_graph::Tables;
use pg_rows::{BindingTable, Rows};
use pg_store::GraphView;
use pg_value_core::Value;
use std::alloc::{AllocError, Global};

/// Tells all rows of a table.
#[tactic(auto, using(crate::proofs::Told::told_is_table))]
pub(crate) fn tell_table<T: Tables>(
    alloc: Global,
    graph: &GraphView<'_, T>,
    table: BindingTable,
    telling: &mut ReplyWriter,
) -> Result<(), AllocError>
    ensures { (notes : Bool) (columns : Items)
        → IsTelling notes graph.now columns [] telling.old
        → OnOk result
        (IsTelling notes graph.now columns (rows_told (seen table)) telling.new) }
{
    let (_names, rows) = table.split();
    tell_rows(alloc, graph, &rows, telling)
}

fn tell_rows<T: Tables>(
    alloc: Global,
    graph: &GraphView<'_, T>,
    rows: &Rows,
    telling: &mut ReplyWriter,
) -> Result<(), AllocError>
    ensures { (notes : Bool) (columns : Items)
        → IsTelling notes graph.now columns [] telling.old
        → OnOk result (IsTelling notes graph.now columns (table rows.now) telling.new) }
{
    for at in 0..rows.len() {
        tell_values(alloc, graph, rows.row(at), telling)?;
        telling.end_row()?;
    }
    Ok(())
}

/// Begins a row, and tells its values.
fn tell_values<T: Tables>(
    alloc: Global,
    graph: &GraphView<'_, T>,
    row: &[Value],
    telling: &mut ReplyWriter,
) -> Result<(), AllocError>
    ensures { (notes : Bool) (columns : Items) (rows : List (List Datum))
        → IsTelling notes graph.now columns rows telling.old
        → OnOk result (IsTellingRow notes graph.now columns rows (map view row.now) telling.new) }
{
    telling.begin_row()?;
    for value in row {
        telling.take(alloc, graph, value)?;
    }
    Ok(())
}
