//! DELETE: what all rows name is gathered first, so that each row sees the graph as it was.
ghost use Rattle.std.specs.Prelude.{◌≡◌, ◌+◌, IfOk, length, map};
ghost use Rattle.pg_meaning.specs.Meters.{Setting, spend};
ghost use Rattle.pg_meaning.specs.Updates.{delete_clause};
ghost use Rattle.pg_meter.specs.Quotas.{after_test};
ghost use Rattle.pg_rows.specs.States.{Suits, seen, state_of};
ghost use Rattle.pg_syntax_tree.specs.View.{expression_view};
ghost use Rattle.pg_value_core.specs.Given.{parameters_view};
ghost use Rattle.pg_value_core.specs.Gives.{Gives};

use crate::gathering::gather;
use crate::pending_deletes::PendingDeletes;
use crate::removal::take_out;
use pg_expr::QueryContext;
use pg_graph::Tables;
use pg_live::LiveGraph;
use pg_meaning::Fault;
use pg_meter::Meter;
use pg_rows::BindingTable;
use pg_syntax_tree::Expression;

// Takes in a step for each element, or none where they would pass the quota.
fn spend_for(meter: &mut Meter, doomed: &PendingDeletes) -> Result<(), Fault>
    ensures spends { (s : Setting) → s.quota.max_steps ≡ meter.old.limit
        → spend s meter.old.used (length doomed.now.0 + length doomed.now.1)
        ≡ after_test result meter.new.used }
    ensures limit { meter.new.limit ≡ meter.old.limit }
{
    let steps = doomed.nodes().len() + doomed.rels().len();
    meter.spend(steps as u64)
}

/// Takes out the elements that the expressions name at all rows, at a step for each; with DETACH
/// the relationships at their nodes too. The rows stay. An error leaves a part of it done, and the
/// caller takes that back.
pub fn delete_elements<T: Tables>(
    query: &QueryContext<'_>,
    is_detach: bool,
    elements: &Vec<Expression>,
    live: &mut LiveGraph<T>,
    table: BindingTable,
    meter: &mut Meter,
) -> Result<BindingTable, Fault>
    ensures gives { (s : Setting)
        → Suits s (parameters_view query.now.parameters.now) meter.old.limit (seen table).names
        → Gives result (delete_clause s is_detach (map expression_view elements.now.items)
        (state_of live.old.graph (seen table) meter.old.used))
        (λ t. state_of live.new.graph (seen t) meter.new.used) }
    ensures names { IfOk result (λ t. (seen t).names ≡ (seen table).names) }
    ensures limit { meter.new.limit ≡ meter.old.limit }
    ensures names_kept { live.new.names ≡ live.old.names }
    ensures tables { live.new.tables ≡ live.old.tables }
    ensures aside { live.new.aside ≡ live.old.aside }
{
    let graph = live.graph();
    let doomed = gather(query, is_detach, elements, &graph, &table)?;
    spend_for(meter, &doomed)?;
    take_out(live, &doomed)?;
    Ok(table)
}
