//! What is made at a row, row after row.
ghost use Rattle.std.specs.Prelude.{◌≡◌, ◌≢◌, ◌≤◌, false, IfOk, IfErr, Ok, Err, length, map, take};
ghost use Rattle.pg_meaning.specs.Patterns.{add_path_names};
ghost use Rattle.pg_meaning.specs.Reading.{test_paths};
ghost use Rattle.pg_meaning.specs.declared.fault.Fault.TheVariants.{OutOfMemory};
ghost use Rattle.pg_rows.specs.Named.{row_of, rows_named};
ghost use Rattle.pg_rows.specs.Tables.{table};
ghost use Rattle.pg_value_core.specs.View.{view};
ghost use Rattle.pg_write_make.specs.Creations.{row_made, rows_created};
ghost use Rattle.pg_write_make.specs.Lent.{paths_view};
ghost use Rattle.pg_write_make.specs.Scenes.{max_elements_in, parameters_in, row_in};

use crate::bare::{create_bare, first_labels, make_bare};
use crate::bound::test_paths;
use crate::clause_scope::ClauseScope;
use crate::short::make_and_bind;
use pg_graph::Tables;
use pg_live::LiveGraph;
use pg_meaning::Fault;
use pg_rows::Rows;
use pg_syntax_tree::PathPattern;
use pg_value_core::Value;

/// Makes the paths at a row whose bound nodes are there, and gives the row with its new variables.
/// The names are those behind the clause.
pub fn make_row<'a, T: Tables>(
    scene: &ClauseScope<'a>,
    live: &mut LiveGraph<T>,
    row: Vec<Value>,
    paths: &'a [PathPattern],
) -> Result<Vec<Value>, Fault>
    requires within { length row.items ≤ length scene.now.names.now }
    requires names { add_path_names
        (paths_view paths.now) (take (length row.items) scene.now.names.now) ≡ scene.now.names.now }
    requires tested { test_paths false live.old.graph
        (row_in scene.now row.items) (paths_view paths.now) ≡ Ok tt }
    ensures ok { IfOk result
        (λ values. row_made (parameters_in scene.now) (max_elements_in scene.now)
        (paths_view paths.now) live.old.graph (row_in scene.now row.items)
        ≡ Ok (live.new.graph, row_of scene.now.names.now (map view values.items))) }
    ensures whole { IfOk result (λ values. length values.items ≡ length scene.now.names.now) }
    ensures err { IfErr result (λ e. e ≢ OutOfMemory
        → row_made (parameters_in scene.now) (max_elements_in scene.now)
        (paths_view paths.now) live.old.graph (row_in scene.now row.items) ≡ Err e) }
    ensures aside { live.new.aside ≡ live.old.aside }
{
    if row.len() == scene.names.len() {
        make_bare(scene, live, &row, paths)?;
        return Ok(row);
    }
    let labels = first_labels(scene.query.alloc, paths)?;
    let mut values = row;
    make_and_bind(scene, live, &mut values, paths, &labels)?;
    Ok(values)
}

// Makes the paths at each row, and binds its new variables.
fn create_wider<'a, T: Tables>(
    scene: &ClauseScope<'a>,
    live: &mut LiveGraph<T>,
    rows: Rows,
    paths: &'a [PathPattern],
) -> Result<Rows, Fault>
    requires within { rows.width ≤ length scene.now.names.now }
    requires names { add_path_names (paths_view paths.now) (take rows.width scene.now.names.now)
        ≡ scene.now.names.now }
    ensures ok { IfOk result
        (λ made. rows_created (parameters_in scene.now) (max_elements_in scene.now)
        (paths_view paths.now) live.old.graph (rows_named scene.now.names.now (table rows))
        ≡ Ok (live.new.graph, rows_named scene.now.names.now (table made))) }
    ensures width { IfOk result (λ made. made.width ≡ length scene.now.names.now) }
    ensures err { IfErr result (λ e. e ≢ OutOfMemory
        → rows_created (parameters_in scene.now) (max_elements_in scene.now)
        (paths_view paths.now) live.old.graph (rows_named scene.now.names.now (table rows))
        ≡ Err e) }
    ensures aside { live.new.aside ≡ live.old.aside }
{
    let labels = first_labels(scene.query.alloc, paths)?;
    let mut made = Rows::new(scene.query.alloc, scene.names.len());
    let mut values = Vec::with_capacity(scene.query.alloc, scene.names.len())?;
    let mut left = rows.into_left();
    // `values` is empty at each turn: what a row got is moved out, and its memory stays
    while let Some(row) = left.look() {
        test_paths(scene, &live.graph(), row, paths)?;
        left.next_into(&mut values)?;
        make_and_bind(scene, live, &mut values, paths, &labels)?;
        made.push_from(&mut values)?;
    }
    Ok(made)
}

/// Makes the paths at each row, in the graph of the rows before, and gives the rows with their new
/// variables. The names are those behind the clause.
pub(crate) fn create_rows<'a, T: Tables>(
    scene: &ClauseScope<'a>,
    live: &mut LiveGraph<T>,
    rows: Rows,
    paths: &'a [PathPattern],
) -> Result<Rows, Fault>
    requires within { rows.width ≤ length scene.now.names.now }
    requires names { add_path_names (paths_view paths.now) (take rows.width scene.now.names.now)
        ≡ scene.now.names.now }
    ensures ok { IfOk result
        (λ made. rows_created (parameters_in scene.now) (max_elements_in scene.now)
        (paths_view paths.now) live.old.graph (rows_named scene.now.names.now (table rows))
        ≡ Ok (live.new.graph, rows_named scene.now.names.now (table made))) }
    ensures width { IfOk result (λ made. made.width ≡ length scene.now.names.now) }
    ensures err { IfErr result (λ e. e ≢ OutOfMemory
        → rows_created (parameters_in scene.now) (max_elements_in scene.now)
        (paths_view paths.now) live.old.graph (rows_named scene.now.names.now (table rows))
        ≡ Err e) }
    ensures aside { live.new.aside ≡ live.old.aside }
{
    if rows.width() == scene.names.len() {
        create_bare(scene, live, &rows, paths)?;
        return Ok(rows);
    }
    create_wider(scene, live, rows, paths)
}
