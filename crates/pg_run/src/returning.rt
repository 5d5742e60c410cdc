//! RETURN and the reply of its rows.
ghost use Rattle.std.specs.Prelude.{◌≡◌, [], Bool, None, length};
ghost use Rattle.pg_meaning.specs.Answer.{◌>>=◌ as and_then, each_answer};
ghost use Rattle.pg_meaning.specs.Meters.{Setting, spend};
ghost use Rattle.pg_meaning.specs.Names.{Names};
ghost use Rattle.pg_meaning.specs.Scopes.{return_columns};
ghost use Rattle.pg_project.specs.Given.{cut_given, cut_of};
ghost use Rattle.pg_project.specs.Returned.{ComeInTurn};
ghost use Rattle.pg_rows.specs.States.{seen, state_of, Suits};
ghost use Rattle.pg_rows.specs.Tables.{table};
ghost use Rattle.pg_run.specs.Returning.{items_given, returned};
ghost use Rattle.pg_run.specs.Telling.{IsTelling, told};
ghost use Rattle.serde_json.specs.Data.{Items};
ghost use Rattle.pg_syntax_tree.specs.View.{projection_view};
ghost use Rattle.pg_value_core.specs.Given.{parameters_view};
ghost use Rattle.pg_value_core.specs.Gives.{Gives};

use crate::reply_writer::ReplyWriter;
use crate::rows::{ReadyItems, tell_rows};
use crate::tables::tell_table;
use pg_expr::QueryContext;
use pg_graph::Tables;
use pg_json::QueryReply;
use pg_meaning::Fault;
use pg_meter::Meter;
use pg_project::{
    come_in_turn, cut_at, prepare_each, prepare_items, project_return, return_columns,
};
use pg_rows::{BindingTable, Rows};
use pg_store::GraphView;
use pg_syntax_tree::Projection;

/// The reply of RETURN, which ends a query. `notes` tells whether the ends of its rows are to be noted. A reply that
/// would be too long is given up early: then the values that come are looked at for their faults alone, and nothing
/// of them is kept.
pub(crate) fn return_reply<T: Tables>(
    query: &QueryContext<'_>,
    projection: &Projection,
    graph: &GraphView<'_, T>,
    table: BindingTable,
    meter: &mut Meter,
    notes: bool,
) -> Result<QueryReply, Fault>
    ensures { (s : Setting)
        → Suits s (parameters_view query.now.parameters.now) meter.old.limit (seen table).names
        → Gives result (returned notes s (projection_view projection.now)
        (state_of graph.now (seen table) meter.old.used)) (λ reply. reply) }
{
    if !come_in_turn(projection) {
        return reply_of_all(query, projection, graph, table, meter, notes);
    }
    if projection.star.is_some() {
        return reply_of_columns(query, projection, graph, &table, meter, notes);
    }
    reply_of_items(query, projection, graph, &table, meter, notes)
}

/// Its rows come in turn, under the names of the columns.
fn reply_of_columns<T: Tables>(
    query: &QueryContext<'_>,
    projection: &Projection,
    graph: &GraphView<'_, T>,
    table: &BindingTable,
    meter: &mut Meter,
    notes: bool,
) -> Result<QueryReply, Fault>
    requires { (scope : Names) → ComeInTurn (projection_view projection.now)
        (return_columns scope (projection_view projection.now)) }
    ensures { (s : Setting) → Suits s
        (parameters_view query.now.parameters.now) meter.old.limit (seen table.now).names
        → Gives result (returned notes s (projection_view projection.now)
        (state_of graph.now (seen table.now) meter.old.used)) (λ reply. reply) }
{
    let columns = return_columns(query.alloc, table.names(), projection)?;
    let expressions = columns.expressions(query.alloc)?;
    let ready = prepare_each(query.alloc, &expressions, table.names())?;
    let items = ReadyItems {
        query: &*query,
        names: table.names(),
        ready: ready.as_slice(),
    };
    let telling = ReplyWriter::begin(query.alloc, columns.names(), notes)?;
    reply_of_each(&items, projection, graph, table.rows(), meter, telling)
}

/// The same without `*`: the items have the names already, of which no list is made.
fn reply_of_items<T: Tables>(
    query: &QueryContext<'_>,
    projection: &Projection,
    graph: &GraphView<'_, T>,
    table: &BindingTable,
    meter: &mut Meter,
    notes: bool,
) -> Result<QueryReply, Fault>
    requires star { projection.now.star ≡ None }
    requires turns { (scope : Names) → ComeInTurn (projection_view projection.now)
        (return_columns scope (projection_view projection.now)) }
    ensures { (s : Setting) → Suits s
        (parameters_view query.now.parameters.now) meter.old.limit (seen table.now).names
        → Gives result (returned notes s (projection_view projection.now)
        (state_of graph.now (seen table.now) meter.old.used)) (λ reply. reply) }
{
    let ready = prepare_items(query.alloc, &projection.items, table.names())?;
    let items = ReadyItems {
        query: &*query,
        names: table.names(),
        ready: ready.as_slice(),
    };
    let telling = ReplyWriter::begin_items(query.alloc, &projection.items, notes)?;
    reply_of_each(&items, projection, graph, table.rows(), meter, telling)
}

/// All rows are made before the first is told.
fn reply_of_all<T: Tables>(
    query: &QueryContext<'_>,
    projection: &Projection,
    graph: &GraphView<'_, T>,
    table: BindingTable,
    meter: &mut Meter,
    notes: bool,
) -> Result<QueryReply, Fault>
    ensures { (s : Setting)
        → Suits s (parameters_view query.now.parameters.now) meter.old.limit (seen table).names
        → Gives result (returned notes s (projection_view projection.now)
        (state_of graph.now (seen table) meter.old.used)) (λ reply. reply) }
{
    let made = project_return(query, projection, graph, table, meter)?;
    let mut telling = ReplyWriter::begin(query.alloc, made.names(), notes)?;
    tell_table(query.alloc, graph, made, &mut telling)?;
    telling.finish(meter.used())
}

/// Each row is told as it is made, after the columns.
fn reply_of_each<T: Tables>(
    items: &ReadyItems<'_, '_>,
    projection: &Projection,
    graph: &GraphView<'_, T>,
    rows: &Rows,
    meter: &mut Meter,
    mut telling: ReplyWriter,
) -> Result<QueryReply, Fault>
    ensures { (notes : Bool) (s : Setting) (columns : Items) → s.quota.max_steps ≡ meter.old.limit
        → IsTelling notes graph.now columns [] telling
        → Gives result (and_then (spend s meter.old.used (length (table rows.now))) (λ steps.
        and_then (cut_given (parameters_view items.now.query.now.parameters.now) graph.now
        (projection_view projection.now).skip (projection_view projection.now).limit) (λ c.
        and_then (each_answer (items_given items.now graph.now) (table rows.now)) (λ found.
        told notes graph.now columns (cut_of c found) steps)))) (λ reply. reply) }
{
    meter.spend(rows.len() as u64)?;
    let cut = cut_at(items.query.alloc, projection, items.query.parameters, graph)?;
    tell_rows(items, rows, cut, graph, &mut telling)?;
    telling.finish(meter.used())
}
