//! A short path by itself, made at a row that gets its variables: no trail is kept.
ghost use Rattle.std.specs.Prelude.{◌≡◌, ◌≢◌, ◌∷◌, [], false, OnOk, IfErr, List, Ok, Err, None, length, map, option_map};
ghost use Rattle.pg_meaning.specs.Patterns.{node_name, relationship_name, text_of, texts_of as meant_texts};
ghost use Rattle.pg_meaning.specs.Reading.{test_paths};
ghost use Rattle.pg_meaning.specs.Rows.{bind_if_named};
ghost use Rattle.pg_meaning.specs.Value.{node, relationship};
ghost use Rattle.pg_meaning.specs.declared.fault.Fault.TheVariants.{OutOfMemory};
ghost use Rattle.pg_store.specs.Stores.{texts_of};
ghost use Rattle.pg_syntax_tree.specs.View.{name_view, names_view, node_view, path_view, relationship_view};
ghost use Rattle.pg_value_core.specs.View.{view};
ghost use Rattle.pg_write_make.specs.Bindings.{bind_each, Binding, EndsWith};
ghost use Rattle.pg_write_make.specs.Creations.{first_labels, row_made};
ghost use Rattle.pg_write_make.specs.Lent.{paths_view};
ghost use Rattle.pg_write_make.specs.Scenes.{max_elements_in, parameters_in, row_in, IsReady};

use crate::binding::bind_row;
use crate::clause_scope::{ClauseScope, RowScene};
use crate::kept::kept_values;
use crate::lone::{Bond, make_lone_bond, make_lone_node};
use crate::paths::make_paths;
use pg_graph::Tables;
use pg_live::LiveGraph;
use pg_meaning::Fault;
use pg_syntax_tree::{Name, NodePattern, PathPattern, RelationshipPattern};
use pg_value_core::{NodeId, RelId, Value};
use std::alloc::AllocError;
use std::slice::from_ref;

// The variable under its value, unless it is bound already.
fn bind_new(
    scene: &ClauseScope<'_>,
    values: &mut Vec<Value>,
    variable: &Option<Name>,
    value: Value,
) -> Result<(), AllocError>
    ensures { OnOk result ((bs : List Binding) → EndsWith scene.now.names.now
        (map view values.old.items)
        ((text_of (option_map name_view variable.now), view value) ∷ bs)
        → EndsWith scene.now.names.now (map view values.new.items) bs
        × (bind_if_named (text_of (option_map name_view variable.now)) (view value)
        (row_in scene.now values.old.items) ≡ row_in scene.now values.new.items)) }
{
    let Some(name) = variable else {
        return Ok(());
    };
    if scene.find(values, name.text.as_str()).is_some() {
        return Ok(());
    }
    values.push(value)?;
    Ok(())
}

// The variable of a node.
fn bind_node(
    scene: &ClauseScope<'_>,
    values: &mut Vec<Value>,
    pattern: &NodePattern,
    id: NodeId,
) -> Result<(), AllocError>
    requires { EndsWith scene.now.names.now (map view values.old.items)
        ((node_name (node_view pattern.now), node id.0) ∷ []) }
    ensures bound { OnOk result (row_in scene.now values.new.items ≡ bind_each
        ((node_name (node_view pattern.now), node id.0) ∷ []) (row_in scene.now values.old.items)) }
    ensures whole { OnOk result (length values.new.items ≡ length scene.now.names.now) }
{
    bind_new(scene, values, &pattern.variable, Value::Node(id))
}

// The variable of a relationship.
fn bind_relationship(
    scene: &ClauseScope<'_>,
    values: &mut Vec<Value>,
    pattern: &RelationshipPattern,
    id: RelId,
) -> Result<(), AllocError>
    ensures { OnOk result ((bs : List Binding) → EndsWith scene.now.names.now
        (map view values.old.items)
        ((relationship_name (relationship_view pattern.now), relationship id.0) ∷ bs)
        → EndsWith scene.now.names.now (map view values.new.items) bs
        × (bind_if_named (relationship_name (relationship_view pattern.now)) (relationship id.0)
        (row_in scene.now values.old.items) ≡ row_in scene.now values.new.items)) }
{
    match &pattern.detail {
        Some(detail) => bind_new(scene, values, &detail.variable, Value::Rel(id)),
        None => Ok(()),
    }
}

// The variables of a path of one relationship.
fn bind_bond(
    scene: &ClauseScope<'_>,
    values: &mut Vec<Value>,
    first: &NodePattern,
    hop: &(RelationshipPattern, NodePattern),
    bond: Bond,
) -> Result<(), AllocError>
    requires { EndsWith scene.now.names.now (map view values.old.items)
        ((node_name (node_view first.now), node bond.left.0)
        ∷ (relationship_name (relationship_view hop.now.0), relationship bond.id.0)
        ∷ (node_name (node_view hop.now.1), node bond.right.0) ∷ []) }
    ensures bound { OnOk result (row_in scene.now values.new.items
        ≡ bind_each ((node_name (node_view first.now), node bond.left.0)
        ∷ (relationship_name (relationship_view hop.now.0), relationship bond.id.0)
        ∷ (node_name (node_view hop.now.1), node bond.right.0) ∷ [])
        (row_in scene.now values.old.items)) }
    ensures whole { OnOk result (length values.new.items ≡ length scene.now.names.now) }
{
    bind_new(scene, values, &first.variable, Value::Node(bond.left))?;
    bind_relationship(scene, values, &hop.0, bond.id)?;
    bind_node(scene, values, &hop.1, bond.right)
}

// A path of one node, whose labels are given.
fn make_short_node<T: Tables>(
    scene: &ClauseScope<'_>,
    live: &mut LiveGraph<T>,
    values: &mut Vec<Value>,
    path: &PathPattern,
    labels: &Vec<&str>,
) -> Result<(), Fault>
    requires unnamed { path.now.variable ≡ None }
    requires alone { path.now.hops.items ≡ [] }
    requires ready { IsReady scene.now values.old.items (path_view path.now ∷ []) }
    requires labels { texts_of labels.now.items
        ≡ meant_texts (names_view path.now.first.labels.items) }
    ensures ok { OnOk result (row_made (parameters_in scene.now)
        (max_elements_in scene.now) (path_view path.now ∷ []) live.old.graph
        (row_in scene.now values.old.items)
        ≡ Ok (live.new.graph, row_in scene.now values.new.items)) }
    ensures whole { OnOk result (length values.new.items ≡ length scene.now.names.now) }
    ensures err { IfErr result (λ e. e ≢ OutOfMemory
        → row_made (parameters_in scene.now) (max_elements_in scene.now)
        (path_view path.now ∷ []) live.old.graph (row_in scene.now values.old.items) ≡ Err e) }
    ensures aside { live.new.aside ≡ live.old.aside }
{
    let row = RowScene {
        scene: &*scene,
        values: &*values,
    };
    let id = make_lone_node(&row, live, path, labels)?;
    bind_node(scene, values, &path.first, id)?;
    Ok(())
}

// A path of one relationship.
fn make_short_bond<T: Tables>(
    scene: &ClauseScope<'_>,
    live: &mut LiveGraph<T>,
    values: &mut Vec<Value>,
    path: &PathPattern,
    hop: &(RelationshipPattern, NodePattern),
) -> Result<(), Fault>
    requires unnamed { path.now.variable ≡ None }
    requires alone { path.now.hops.items ≡ hop.now ∷ [] }
    requires ready { IsReady scene.now values.old.items (path_view path.now ∷ []) }
    requires tested { test_paths false live.old.graph
        (row_in scene.now values.old.items) (path_view path.now ∷ []) ≡ Ok tt }
    ensures ok { OnOk result (row_made (parameters_in scene.now)
        (max_elements_in scene.now) (path_view path.now ∷ []) live.old.graph
        (row_in scene.now values.old.items)
        ≡ Ok (live.new.graph, row_in scene.now values.new.items)) }
    ensures whole { OnOk result (length values.new.items ≡ length scene.now.names.now) }
    ensures err { IfErr result (λ e. e ≢ OutOfMemory
        → row_made (parameters_in scene.now) (max_elements_in scene.now)
        (path_view path.now ∷ []) live.old.graph (row_in scene.now values.old.items) ≡ Err e) }
    ensures aside { live.new.aside ≡ live.old.aside }
{
    let row = RowScene {
        scene: &*scene,
        values: &*values,
    };
    let bond = make_lone_bond(&row, live, path, hop)?;
    bind_bond(scene, values, &path.first, hop, bond)?;
    Ok(())
}

// Paths of any number and length.
fn make_trails<'a, T: Tables>(
    scene: &ClauseScope<'a>,
    live: &mut LiveGraph<T>,
    values: &mut Vec<Value>,
    paths: &'a [PathPattern],
) -> Result<(), Fault>
    requires ready { IsReady scene.now values.old.items (paths_view paths.now) }
    requires tested { test_paths false live.old.graph
        (row_in scene.now values.old.items) (paths_view paths.now) ≡ Ok tt }
    ensures ok { OnOk result (row_made (parameters_in scene.now)
        (max_elements_in scene.now) (paths_view paths.now) live.old.graph
        (row_in scene.now values.old.items)
        ≡ Ok (live.new.graph, row_in scene.now values.new.items)) }
    ensures whole { OnOk result (length values.new.items ≡ length scene.now.names.now) }
    ensures err { IfErr result (λ e. e ≢ OutOfMemory
        → row_made (parameters_in scene.now) (max_elements_in scene.now)
        (paths_view paths.now) live.old.graph (row_in scene.now values.old.items) ≡ Err e) }
    ensures aside { live.new.aside ≡ live.old.aside }
{
    let kept = kept_values(scene, &live.graph(), values, paths)?;
    let at = RowScene {
        scene: &*scene,
        values: &*values,
    };
    let trails = make_paths(&at, live, paths, kept)?;
    bind_row(scene, &live.graph(), values, paths, &trails)?;
    Ok(())
}

// A path by itself, which has no variable of its own.
fn make_one<'a, T: Tables>(
    scene: &ClauseScope<'a>,
    live: &mut LiveGraph<T>,
    values: &mut Vec<Value>,
    path: &'a PathPattern,
    labels: &Vec<&str>,
) -> Result<(), Fault>
    requires unnamed { path.now.variable ≡ None }
    requires ready { IsReady scene.now values.old.items (path_view path.now ∷ []) }
    requires tested { test_paths false live.old.graph
        (row_in scene.now values.old.items) (path_view path.now ∷ []) ≡ Ok tt }
    requires labels { texts_of labels.now.items
        ≡ meant_texts (names_view path.now.first.labels.items) }
    ensures ok { OnOk result (row_made (parameters_in scene.now)
        (max_elements_in scene.now) (path_view path.now ∷ []) live.old.graph
        (row_in scene.now values.old.items)
        ≡ Ok (live.new.graph, row_in scene.now values.new.items)) }
    ensures whole { OnOk result (length values.new.items ≡ length scene.now.names.now) }
    ensures err { IfErr result (λ e. e ≢ OutOfMemory
        → row_made (parameters_in scene.now) (max_elements_in scene.now)
        (path_view path.now ∷ []) live.old.graph (row_in scene.now values.old.items) ≡ Err e) }
    ensures aside { live.new.aside ≡ live.old.aside }
{
    let Some((hop, others)) = path.hops.split_first() else {
        return make_short_node(scene, live, values, path, labels);
    };
    if !others.is_empty() {
        return make_trails(scene, live, values, from_ref(path));
    }
    make_short_bond(scene, live, values, path, hop)
}

/// The paths at a row whose bound nodes were tested, and its new variables. The labels are those
/// of the first node.
pub(crate) fn make_and_bind<'a, T: Tables>(
    scene: &ClauseScope<'a>,
    live: &mut LiveGraph<T>,
    values: &mut Vec<Value>,
    paths: &'a [PathPattern],
    labels: &Vec<&str>,
) -> Result<(), Fault>
    requires ready { IsReady scene.now values.old.items (paths_view paths.now) }
    requires tested { test_paths false live.old.graph
        (row_in scene.now values.old.items) (paths_view paths.now) ≡ Ok tt }
    requires labels { texts_of labels.now.items ≡ first_labels (paths_view paths.now) }
    ensures ok { OnOk result (row_made (parameters_in scene.now)
        (max_elements_in scene.now) (paths_view paths.now) live.old.graph
        (row_in scene.now values.old.items)
        ≡ Ok (live.new.graph, row_in scene.now values.new.items)) }
    ensures whole { OnOk result (length values.new.items ≡ length scene.now.names.now) }
    ensures err { IfErr result (λ e. e ≢ OutOfMemory
        → row_made (parameters_in scene.now) (max_elements_in scene.now)
        (paths_view paths.now) live.old.graph (row_in scene.now values.old.items) ≡ Err e) }
    ensures aside { live.new.aside ≡ live.old.aside }
{
    if let Some((path, others)) = paths.split_first() {
        if others.is_empty() && path.variable.is_none() {
            return make_one(scene, live, values, path, labels);
        }
    }
    make_trails(scene, live, values, paths)
}
