//! All clauses of a query.
ghost use Rattle.std.specs.Prelude.{◌≡◌, ◌∷◌, [], fold, map, IfOk};
ghost use Rattle.pg_meaning.specs.Plans.{IsPlanFrom};
ghost use Rattle.pg_meaning.specs.Queries.{clauses_run, first_anchors, other_anchors};
ghost use Rattle.pg_meaning.specs.Scopes.{scope_after};
ghost use Rattle.pg_rows.specs.States.{seen, state_of};
ghost use Rattle.pg_run.specs.Runs.{anchors_view, plan_view, quota_of};
ghost use Rattle.pg_syntax_tree.specs.View.{clause_view};
ghost use Rattle.pg_value_core.specs.Given.{parameters_view};
ghost use Rattle.pg_value_core.specs.Gives.{Gives};

use crate::clause::run_clause;
use pg_expr::QueryContext;
use pg_graph::Tables;
use pg_live::LiveGraph;
use pg_match_stages::Anchor;
use pg_meaning::Fault;
use pg_meter::Meter;
use pg_rows::BindingTable;
use pg_syntax_tree::Clause;

/// The rows after all clauses, from one row without columns on.
pub(crate) fn run_clauses<T: Tables>(
    query: &QueryContext<'_>,
    clauses: &[Clause],
    plan: &[Vec<Anchor>],
    live: &mut LiveGraph<T>,
    meter: &mut Meter,
) -> Result<BindingTable, Fault>
    requires planned { IsPlanFrom [] (map clause_view clauses.now) (plan_view plan.now) }
    ensures gives { Gives result (clauses_run
        (parameters_view query.now.parameters.now) (quota_of meter.old.limit query.now.max_elements)
        [] (plan_view plan.now) (map clause_view clauses.now)
        (state_of live.old.graph (record { names = []; rows = [] ∷ [] }) meter.old.used))
        (λ t. state_of live.new.graph (seen t) meter.new.used) }
    ensures names { IfOk result
        (λ t. (seen t).names ≡ fold scope_after [] (map clause_view clauses.now)) }
    ensures limit { meter.new.limit ≡ meter.old.limit }
    ensures aside { live.new.aside ≡ live.old.aside }
{
    let mut table = BindingTable::begin(query.alloc)?;
    let mut left = plan;
    for clause in clauses {
        let (anchors, later) = anchors_first(left);
        table = run_clause(query, clause, anchors, live, table, meter)?;
        left = later;
    }
    Ok(table)
}

/// The anchors of the next clause, and those of the later ones.
fn anchors_first(plan: &[Vec<Anchor>]) -> (&[Anchor], &[Vec<Anchor>])
    ensures first { anchors_view result.0.now ≡ first_anchors (plan_view plan.now) }
    ensures others { plan_view result.1.now ≡ other_anchors (plan_view plan.now) }
{
    match plan.split_first() {
        Some((first, later)) => (first.as_slice(), later),
        None => (&[], plan),
    }
}
