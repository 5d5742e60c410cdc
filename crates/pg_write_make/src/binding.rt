//! The variables that a row gets behind its own.
ghost use Rattle.std.specs.Prelude.{◌≡◌, OnOk, length, map};
ghost use Rattle.pg_rows.specs.Named.{row_of};
ghost use Rattle.pg_value_core.specs.View.{view};
ghost use Rattle.pg_write_make.specs.Bindings.{bind_each, match_bindings, named, EndsWith};
ghost use Rattle.pg_write_make.specs.Lent.{bindings_view, paths_view, trail_view};

use crate::clause_scope::ClauseScope;
use crate::paths::Trail;
use crate::trails::row_bindings;
use pg_graph::Tables;
use pg_store::GraphView;
use pg_syntax_tree::PathPattern;
use pg_value_core::Value;
use std::alloc::AllocError;

// Binds variables in turn, each that isn't bound yet, in the columns behind the values.
#[tactic(auto, using(crate::proofs::NameLemmas::bound_already, crate::proofs::NameLemmas::binds_one, crate::proofs::NameLemmas::all_bound))]
fn bind_all(
    scene: &ClauseScope<'_>,
    values: &mut Vec<Value>,
    bindings: Vec<(&str, Value)>,
) -> Result<(), AllocError>
    requires { EndsWith scene.now.names.now
        (map view values.old.items) (bindings_view bindings.items) }
    ensures bound { OnOk result (row_of scene.now.names.now (map view values.new.items)
        ≡ bind_each (bindings_view bindings.entry.items)
        (row_of scene.now.names.now (map view values.old.items))) }
    ensures whole { OnOk result (length values.new.items ≡ length scene.now.names.now) }
{
    for (name, value) in bindings {
        if scene.find(values, name).is_none() {
            values.push(value)?;
        }
    }
    Ok(())
}

/// The variables of the trails. A row that has a value for each name has them all.
#[tactic(auto, using(crate::proofs::NameLemmas::none_new))]
pub(crate) fn bind_row<T: Tables>(
    scene: &ClauseScope<'_>,
    graph: &GraphView<'_, T>,
    values: &mut Vec<Value>,
    paths: &[PathPattern],
    trails: &Vec<Trail>,
) -> Result<(), AllocError>
    requires { EndsWith scene.now.names.now (map view values.old.items) (named
        (match_bindings graph.now (paths_view paths.now) (map trail_view trails.now.items))) }
    ensures bound { OnOk result (row_of scene.now.names.now (map view values.new.items)
        ≡ bind_each (named
        (match_bindings graph.now (paths_view paths.now) (map trail_view trails.now.items)))
        (row_of scene.now.names.now (map view values.old.items))) }
    ensures whole { OnOk result (length values.new.items ≡ length scene.now.names.now) }
{
    if values.len() == scene.names.len() {
        return Ok(());
    }
    let bindings = row_bindings(scene.query.alloc, graph, paths, trails)?;
    bind_all(scene, values, bindings)
}
