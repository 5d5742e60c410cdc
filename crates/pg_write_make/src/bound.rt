//! The bound nodes of a pattern, which have to be there.
ghost use Rattle.std.specs.Prelude.{◌≡◌, false};
ghost use Rattle.pg_meaning.specs.Patterns.{node_name, nodes_of};
ghost use Rattle.pg_meaning.specs.Reading.{test_bound, test_nodes, test_paths};
ghost use Rattle.pg_meaning.specs.Walks.{bound_value};
ghost use Rattle.pg_syntax_tree.specs.View.{node_view, path_view};
ghost use Rattle.pg_write_make.specs.Lent.{paths_view};
ghost use Rattle.pg_write_make.specs.Makings.{others_view};
ghost use Rattle.pg_write_make.specs.Scenes.{row_in};

use crate::clause_scope::ClauseScope;
use pg_graph::Tables;
use pg_meaning::Fault;
use pg_store::GraphView;
use pg_syntax_tree::{NodePattern, PathPattern, RelationshipPattern};
use pg_value_core::Value;

fn test_node<T: Tables>(
    scene: &ClauseScope<'_>,
    graph: &GraphView<'_, T>,
    row: &[Value],
    pattern: &NodePattern,
) -> Result<(), Fault>
    ensures { result
        ≡ test_bound false graph.now
        (bound_value (node_name (node_view pattern.now)) (row_in scene.now row.now)) }
{
    let Some(name) = &pattern.variable else {
        return Ok(());
    };
    match scene.find(row, name.text.as_str()) {
        Some(Value::Node(id)) if graph.has_node(*id) => Ok(()),
        Some(Value::Node(_)) => Err(Fault::DeletedEntity),
        Some(_) => Err(Fault::TypeFault),
        None => Ok(()),
    }
}

fn test_others<T: Tables>(
    scene: &ClauseScope<'_>,
    graph: &GraphView<'_, T>,
    row: &[Value],
    hops: &Vec<(RelationshipPattern, NodePattern)>,
) -> Result<(), Fault>
    ensures { result
        ≡ test_nodes false graph.now (row_in scene.now row.now) (others_view hops.now.items) }
{
    for hop in hops {
        test_node(scene, graph, row, &hop.1)?;
    }
    Ok(())
}

fn test_path<T: Tables>(
    scene: &ClauseScope<'_>,
    graph: &GraphView<'_, T>,
    row: &[Value],
    path: &PathPattern,
) -> Result<(), Fault>
    ensures { result
        ≡ test_nodes false graph.now (row_in scene.now row.now) (nodes_of (path_view path.now)) }
{
    test_node(scene, graph, row, &path.first)?;
    test_others(scene, graph, row, &path.hops)
}

/// Each bound node of the paths is a node that is there.
#[tactic(auto, using(crate::proofs::BoundLemmas::path_passed, crate::proofs::BoundLemmas::path_refused))]
pub(crate) fn test_paths<T: Tables>(
    scene: &ClauseScope<'_>,
    graph: &GraphView<'_, T>,
    row: &[Value],
    paths: &[PathPattern],
) -> Result<(), Fault>
    ensures { result
        ≡ test_paths false graph.now (row_in scene.now row.now) (paths_view paths.now) }
{
    for path in paths {
        test_path(scene, graph, row, path)?;
    }
    Ok(())
}
