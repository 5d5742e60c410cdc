//! One clause.
ghost use Rattle.std.specs.Prelude.{IfOk, ◌≡◌};
ghost use Rattle.pg_meaning.specs.Plans.{ArePlanned};
ghost use Rattle.pg_meaning.specs.Queries.{clause_step};
ghost use Rattle.pg_meaning.specs.Scopes.{scope_after};
ghost use Rattle.pg_rows.specs.States.{seen, state_of};
ghost use Rattle.pg_run.specs.Runs.{anchors_view, setting_of};
ghost use Rattle.pg_syntax_tree.specs.View.{clause_view};
ghost use Rattle.pg_value_core.specs.Given.{parameters_view};
ghost use Rattle.pg_value_core.specs.Gives.{Gives};

use pg_expr::QueryContext;
use pg_graph::Tables;
use pg_live::LiveGraph;
use pg_match::{Matching, match_rows};
use pg_match_stages::Anchor;
use pg_meaning::Fault;
use pg_meter::Meter;
use pg_project::{project_return, project_with, unwind_rows};
use pg_rows::BindingTable;
use pg_syntax_tree::Clause;
use pg_write::{Merge, delete_elements, merge_path, remove_items, set_items};
use pg_write_make::create_paths;

/// The rows after one clause, whose changes are in the store. After an error the store is to be taken back.
pub(crate) fn run_clause<T: Tables>(
    query: &QueryContext<'_>,
    clause: &Clause,
    anchors: &[Anchor],
    live: &mut LiveGraph<T>,
    table: BindingTable,
    meter: &mut Meter,
) -> Result<BindingTable, Fault>
    requires planned { ArePlanned
        (seen table).names (clause_view clause.now) (anchors_view anchors.now) }
    ensures gives { Gives result (clause_step (setting_of (parameters_view query.now.parameters.now)
        meter.old.limit query.now.max_elements (seen table).names (anchors_view anchors.now))
        (clause_view clause.now) (state_of live.old.graph (seen table) meter.old.used))
        (λ t. state_of live.new.graph (seen t) meter.new.used) }
    ensures names { IfOk result
        (λ t. (seen t).names ≡ scope_after (seen table).names (clause_view clause.now)) }
    ensures limit { meter.new.limit ≡ meter.old.limit }
    ensures aside { live.new.aside ≡ live.old.aside }
{
    match clause {
        Clause::Match(is_optional, paths, condition) => {
            let matching = Matching {
                is_optional: *is_optional,
                paths,
                condition,
                anchors,
            };
            match_rows(query, &matching, &live.graph(), table, meter)
        }
        Clause::Unwind(list, name) => unwind_rows(query, list, name, &live.graph(), table, meter),
        Clause::With(projection, condition) => {
            project_with(query, projection, condition, &live.graph(), table, meter)
        }
        Clause::Return(projection) => {
            project_return(query, projection, &live.graph(), table, meter)
        }
        Clause::Create(paths) => create_paths(query, paths, live, table, meter),
        Clause::Merge(path, items) => {
            let merge = Merge {
                path,
                items,
                anchors,
            };
            merge_path(query, &merge, live, table, meter)
        }
        Clause::Set(items) => {
            set_items(query, items, live, &table, meter)?;
            Ok(table)
        }
        Clause::Remove(items) => {
            remove_items(query, items, live, &table, meter)?;
            Ok(table)
        }
        Clause::Delete(is_detach, elements) => {
            delete_elements(query, *is_detach, elements, live, table, meter)
        }
    }
}
