//! CREATE at rows that have a value for each name: they stay as they are, and no trail is kept.
ghost use Rattle.std.specs.Prelude.{◌≡◌, ◌≢◌, false, OnOk, IfOk, IfErr, Ok, Err, length, take};
ghost use Rattle.pg_meaning.specs.Patterns.{add_path_names};
ghost use Rattle.pg_meaning.specs.Reading.{test_paths};
ghost use Rattle.pg_meaning.specs.declared.fault.Fault.TheVariants.{OutOfMemory};
ghost use Rattle.pg_rows.specs.Named.{rows_named};
ghost use Rattle.pg_rows.specs.Tables.{table};
ghost use Rattle.pg_store.specs.Stores.{texts_of};
ghost use Rattle.pg_write_make.specs.Creations.{first_labels, row_created, row_made, rows_created};
ghost use Rattle.pg_write_make.specs.Lent.{paths_view};
ghost use Rattle.pg_write_make.specs.Scenes.{max_elements_in, parameters_in, row_at, row_in, IsBare};

use crate::bound::test_paths;
use crate::clause_scope::{ClauseScope, RowScene};
use crate::kept::kept_values;
use crate::lone::make_lone;
use crate::paths::make_paths;
use crate::texts::label_texts;
use pg_graph::Tables;
use pg_live::LiveGraph;
use pg_meaning::Fault;
use pg_rows::Rows;
use pg_syntax_tree::PathPattern;
use pg_value_core::Value;
use std::alloc::{AllocError, Global};

/// The labels of the first node.
pub(crate) fn first_labels<'a>(
    alloc: Global,
    paths: &'a [PathPattern],
) -> Result<Vec<&'a str>, AllocError>
    ensures { IfOk result
        (λ texts. texts_of texts.items ≡ first_labels (paths_view paths.now)) }
{
    match paths.split_first() {
        Some((path, _)) => label_texts(alloc, &path.first.labels),
        None => Ok(Vec::new(alloc)),
    }
}

// Paths of any number.
fn make_many<T: Tables>(
    row: &RowScene<'_>,
    live: &mut LiveGraph<T>,
    paths: &[PathPattern],
) -> Result<(), Fault>
    requires bare { IsBare row.now (paths_view paths.now) }
    requires tested { test_paths false live.old.graph (row_at row.now) (paths_view paths.now)
        ≡ Ok tt }
    ensures ok { OnOk result (row_made (parameters_in row.now.scene.now)
        (max_elements_in row.now.scene.now) (paths_view paths.now) live.old.graph (row_at row.now)
        ≡ Ok (live.new.graph, row_at row.now)) }
    ensures err { IfErr result (λ e. e ≢ OutOfMemory
        → row_made (parameters_in row.now.scene.now) (max_elements_in row.now.scene.now)
        (paths_view paths.now) live.old.graph (row_at row.now) ≡ Err e) }
    ensures aside { live.new.aside ≡ live.old.aside }
{
    let kept = kept_values(row.scene, &live.graph(), row.values, paths)?;
    make_paths(row, live, paths, kept)?;
    Ok(())
}

// The paths at a row whose bound nodes were tested. The labels are those of the first node.
fn make_all<T: Tables>(
    row: &RowScene<'_>,
    live: &mut LiveGraph<T>,
    paths: &[PathPattern],
    labels: &Vec<&str>,
) -> Result<(), Fault>
    requires bare { IsBare row.now (paths_view paths.now) }
    requires tested { test_paths false live.old.graph (row_at row.now) (paths_view paths.now)
        ≡ Ok tt }
    requires labels { texts_of labels.now.items ≡ first_labels (paths_view paths.now) }
    ensures ok { OnOk result (row_made (parameters_in row.now.scene.now)
        (max_elements_in row.now.scene.now) (paths_view paths.now) live.old.graph (row_at row.now)
        ≡ Ok (live.new.graph, row_at row.now)) }
    ensures err { IfErr result (λ e. e ≢ OutOfMemory
        → row_made (parameters_in row.now.scene.now) (max_elements_in row.now.scene.now)
        (paths_view paths.now) live.old.graph (row_at row.now) ≡ Err e) }
    ensures aside { live.new.aside ≡ live.old.aside }
{
    if let Some((path, others)) = paths.split_first() {
        if others.is_empty() {
            return make_lone(row, live, path, labels);
        }
    }
    make_many(row, live, paths)
}

/// Makes the paths at a row whose bound nodes were tested.
pub(crate) fn make_bare<'a, T: Tables>(
    scene: &ClauseScope<'a>,
    live: &mut LiveGraph<T>,
    values: &[Value],
    paths: &'a [PathPattern],
) -> Result<(), Fault>
    requires wide { length values.now ≡ length scene.now.names.now }
    requires names { add_path_names (paths_view paths.now)
        (take (length values.now) scene.now.names.now) ≡ scene.now.names.now }
    requires tested { test_paths false live.old.graph
        (row_in scene.now values.now) (paths_view paths.now) ≡ Ok tt }
    ensures ok { OnOk result (row_made (parameters_in scene.now)
        (max_elements_in scene.now) (paths_view paths.now) live.old.graph
        (row_in scene.now values.now) ≡ Ok (live.new.graph, row_in scene.now values.now)) }
    ensures err { IfErr result (λ e. e ≢ OutOfMemory
        → row_made (parameters_in scene.now) (max_elements_in scene.now)
        (paths_view paths.now) live.old.graph (row_in scene.now values.now) ≡ Err e) }
    ensures aside { live.new.aside ≡ live.old.aside }
{
    let labels = first_labels(scene.query.alloc, paths)?;
    let row = RowScene {
        scene: &*scene,
        values,
    };
    make_all(&row, live, paths, &labels)
}

// The paths at a row, where its bound nodes are there. The labels are those of the first node.
fn create_at<T: Tables>(
    row: &RowScene<'_>,
    live: &mut LiveGraph<T>,
    paths: &[PathPattern],
    labels: &Vec<&str>,
) -> Result<(), Fault>
    requires bare { IsBare row.now (paths_view paths.now) }
    requires labels { texts_of labels.now.items ≡ first_labels (paths_view paths.now) }
    ensures ok { OnOk result (row_created (parameters_in row.now.scene.now)
        (max_elements_in row.now.scene.now) (paths_view paths.now) live.old.graph (row_at row.now)
        ≡ Ok (live.new.graph, row_at row.now)) }
    ensures err { IfErr result (λ e. e ≢ OutOfMemory
        → row_created (parameters_in row.now.scene.now) (max_elements_in row.now.scene.now)
        (paths_view paths.now) live.old.graph (row_at row.now) ≡ Err e) }
    ensures aside { live.new.aside ≡ live.old.aside }
{
    test_paths(row.scene, &live.graph(), row.values, paths)?;
    make_all(row, live, paths, labels)
}

/// Makes the paths at each row, in the graph of the rows before.
pub(crate) fn create_bare<'a, T: Tables>(
    scene: &ClauseScope<'a>,
    live: &mut LiveGraph<T>,
    rows: &Rows,
    paths: &'a [PathPattern],
) -> Result<(), Fault>
    requires wide { rows.now.width ≡ length scene.now.names.now }
    requires names { add_path_names (paths_view paths.now) (take rows.now.width scene.now.names.now)
        ≡ scene.now.names.now }
    ensures ok { OnOk result (rows_created (parameters_in scene.now) (max_elements_in scene.now)
        (paths_view paths.now) live.old.graph (rows_named scene.now.names.now (table rows.now))
        ≡ Ok (live.new.graph, rows_named scene.now.names.now (table rows.now))) }
    ensures err { IfErr result (λ e. e ≢ OutOfMemory
        → rows_created (parameters_in scene.now) (max_elements_in scene.now)
        (paths_view paths.now) live.old.graph (rows_named scene.now.names.now (table rows.now))
        ≡ Err e) }
    ensures aside { live.new.aside ≡ live.old.aside }
{
    let labels = first_labels(scene.query.alloc, paths)?;
    for at in 0..rows.len() {
        let row = RowScene {
            scene: &*scene,
            values: rows.row(at),
        };
        create_at(&row, live, paths, &labels)?;
    }
    Ok(())
}
