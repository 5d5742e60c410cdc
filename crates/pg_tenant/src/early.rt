//! The tests of a query that come before its clauses.
ghost use Rattle.std.specs.Prelude.{◌≡◌, ◌||◌, is_some, not, map, string_bytes};
ghost use Rattle.pg_plan.specs.Plans.{plan_query};
ghost use Rattle.pg_plan.specs.Updates.{updates};
ghost use Rattle.pg_tenant.specs.Outcomes.{all_given, early_tests};
ghost use Rattle.pg_value_core.specs.Given.{parameters_view};

use pg_meaning::Fault;
use pg_plan::Plan;
use pg_value_core::Parameters;

/// Whether the token's right lets the query run.
fn is_permitted(may_write: bool, plan: &Plan) -> bool
    ensures { result ≡ (may_write || not (updates (plan_query plan.now))) }
{
    may_write || !plan.writes()
}

/// Whether the query may change what its tenant has: the graph, or by a page the rows that are held.
pub(crate) fn may_change(page: Option<u64>, plan: &Plan) -> bool
    ensures { result ≡ (is_some page || updates (plan_query plan.now)) }
{
    page.is_some() || plan.writes()
}

/// Whether each of these parameters is given.
fn are_given(names: &Vec<String>, parameters: &Parameters) -> bool
    ensures { result
        ≡ all_given (map string_bytes names.now.items) (parameters_view parameters.now) }
{
    for name in names {
        if parameters.get(name.as_str()).is_none() {
            return false;
        }
    }
    true
}

/// Whether the token's right lets the query run, and whether its parameters are given. It takes no memory.
pub(crate) fn test_early(may_write: bool, parameters: &Parameters, plan: &Plan) -> Result<(), Fault>
    ensures { result
        ≡ early_tests may_write (parameters_view parameters.now) (plan_query plan.now) }
{
    if !is_permitted(may_write, plan) {
        return Err(Fault::ReadOnly);
    }
    if !are_given(plan.parameters(), parameters) {
        return Err(Fault::MissingParameter);
    }
    Ok(())
}
