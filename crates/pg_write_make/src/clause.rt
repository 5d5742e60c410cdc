//! CREATE.
ghost use Rattle.std.specs.Prelude.{◌≡◌, IfOk, map};
ghost use Rattle.pg_meaning.specs.Meters.{Setting};
ghost use Rattle.pg_meaning.specs.Patterns.{add_path_names};
ghost use Rattle.pg_meaning.specs.Updates.{create_clause};
ghost use Rattle.pg_rows.specs.States.{Suits, seen, state_of};
ghost use Rattle.pg_syntax_tree.specs.View.{path_view};
ghost use Rattle.pg_value_core.specs.Given.{parameters_view};
ghost use Rattle.pg_value_core.specs.Gives.{Gives};

use crate::charge::spend_for_rows;
use crate::clause_scope::ClauseScope;
use crate::counts::count_new;
use crate::creation::create_rows;
use pg_expr::QueryContext;
use pg_graph::Tables;
use pg_live::LiveGraph;
use pg_match_bindings::bind_names;
use pg_meaning::Fault;
use pg_meter::Meter;
use pg_rows::BindingTable;
use pg_syntax_tree::PathPattern;

/// Makes the paths at each row, for a step an element, and gives the rows with their new variables.
/// An error leaves a part of it done, and the caller takes that back.
pub fn create_paths<T: Tables>(
    query: &QueryContext<'_>,
    paths: &Vec<PathPattern>,
    live: &mut LiveGraph<T>,
    table: BindingTable,
    meter: &mut Meter,
) -> Result<BindingTable, Fault>
    ensures gives { (s : Setting)
        → Suits s (parameters_view query.now.parameters.now) meter.old.limit (seen table).names
        → s.quota.max_elements ≡ query.now.max_elements
        → Gives result (create_clause s
        (map path_view paths.now.items) (state_of live.old.graph (seen table) meter.old.used))
        (λ t. state_of live.new.graph (seen t) meter.new.used) }
    ensures names { IfOk result
        (λ t. (seen t).names ≡ add_path_names (map path_view paths.now.items) (seen table).names) }
    ensures aside { live.new.aside ≡ live.old.aside }
    ensures limit { meter.new.limit ≡ meter.old.limit }
{
    let (mut names, rows) = table.split();
    let count = count_new(query.alloc, &names, paths)?;
    spend_for_rows(meter, rows.len(), count)?;
    bind_names(query.alloc, paths, &mut names)?;
    let scene = ClauseScope {
        query,
        names: &names,
    };
    let made = create_rows(&scene, live, rows, paths)?;
    Ok(BindingTable::new(names, made))
}
