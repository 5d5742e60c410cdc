//! All clauses of a query, and the reply of the rows that they leave.
ghost use Rattle.std.specs.Prelude.{◌≡◌, [], fold, map};
ghost use Rattle.pg_meaning.specs.Plans.{IsPlanFrom};
ghost use Rattle.pg_meaning.specs.Queries.{returns as any_returns};
ghost use Rattle.pg_meaning.specs.Scopes.{scope_after};
ghost use Rattle.pg_run.specs.Returning.{replied};
ghost use Rattle.pg_run.specs.Running.{ran, Replies};
ghost use Rattle.pg_rows.specs.States.{seen, state_of};
ghost use Rattle.pg_run.specs.Runs.{plan_view};
ghost use Rattle.pg_syntax_tree.specs.View.{clause_view};
ghost use Rattle.pg_value_core.specs.Given.{parameters_view};
ghost use Rattle.pg_value_core.specs.Gives.{Gives};

use crate::clauses::run_clauses;
use crate::repeated_rows::{counts_repeated, reply_of_repeated, rows_repeated};
use crate::reply_writer::ReplyWriter;
use crate::returned_rows::rows_returned;
use crate::returning::return_reply;
use crate::tables::tell_table;
use pg_expr::QueryContext;
use pg_graph::Tables;
use pg_json::QueryReply;
use pg_live::LiveGraph;
use pg_match_stages::Anchor;
use pg_meaning::Fault;
use pg_meter::Meter;
use pg_rows::{BindingTable, Columns};
use pg_store::GraphView;
use pg_syntax_tree::Clause;
use std::alloc::Global;

/// A query's clauses and the anchors of each, whether RETURN is among them, and whether the ends of the reply's rows
/// are to be noted.
#[derive(Clone, Copy)]
pub struct PlannedQuery<'a> {
    pub clauses: &'a [Clause],
    pub anchors: &'a [Vec<Anchor>],
    pub returns: bool,
    pub notes: bool,
}

/// The reply to a query, whose changes are in the store. After an error the store is to be taken back.
pub fn answer_clauses<T: Tables>(
    query: &QueryContext<'_>,
    planned: &PlannedQuery<'_>,
    live: &mut LiveGraph<T>,
    meter: &mut Meter,
) -> Result<QueryReply, Fault>
    requires planned { IsPlanFrom [] (map clause_view planned.now.clauses.now)
        (plan_view planned.now.anchors.now) }
    requires returning { planned.now.returns
        ≡ any_returns (map clause_view planned.now.clauses.now) }
    ensures replies { Replies result
        (ran (parameters_view query.now.parameters.now) meter.old.limit query.now.max_elements
        live.old.graph meter.old.used (plan_view planned.now.anchors.now)
        (map clause_view planned.now.clauses.now))
        planned.now.notes planned.now.returns
        (fold scope_after [] (map clause_view planned.now.clauses.now)) live.new.graph }
    ensures aside { live.new.aside ≡ live.old.aside }
{
    match planned.clauses.split_last() {
        Some((Clause::Return(projection), before)) => {
            let anchors = &planned.anchors[..before.len()];
            if counts_repeated(projection, before) {
                let rows = rows_repeated(query, projection, before, anchors, live, meter)?;
                let graph = live.graph();
                return reply_of_repeated(query, projection, &graph, rows, meter, planned.notes);
            }
            let table = rows_returned(query, projection, before, anchors, live, meter)?;
            return_reply(
                query,
                projection,
                &live.graph(),
                table,
                meter,
                planned.notes,
            )
        }
        _ => {
            let table = run_clauses(query, planned.clauses, planned.anchors, live, meter)?;
            reply_of(query.alloc, &live.graph(), planned, table, meter.used())
        }
    }
}

/// The reply to a query whose clauses leave these rows, after so many steps.
fn reply_of<T: Tables>(
    alloc: Global,
    graph: &GraphView<'_, T>,
    planned: &PlannedQuery<'_>,
    table: BindingTable,
    steps: u64,
) -> Result<QueryReply, Fault>
    ensures { Gives result (replied planned.now.notes planned.now.returns (seen table).names
        (state_of graph.now (seen table) steps)) (λ reply. reply) }
{
    if !planned.returns {
        let columns = Columns::new(alloc);
        let empty = ReplyWriter::begin(alloc, &columns, planned.notes)?;
        return empty.finish(steps);
    }
    let mut telling = ReplyWriter::begin(alloc, table.names(), planned.notes)?;
    tell_table(alloc, graph, table, &mut telling)?;
    telling.finish(steps)
}
