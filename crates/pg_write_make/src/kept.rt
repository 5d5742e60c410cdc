//! What the expressions of paths give at a row, kept until their elements are made.
ghost use Rattle.std.specs.Prelude.{◌≡◌, ◌++◌, OnOk, IfOk, IfErr, map};
ghost use Rattle.pg_meaning.specs.declared.fault.Fault.TheVariants.{OutOfMemory};
ghost use Rattle.pg_syntax_tree.specs.View.{node_view, path_view, relationship_view};
ghost use Rattle.pg_write_make.specs.Lent.{kept_view, paths_view};
ghost use Rattle.pg_write_make.specs.Makings.{others_view, outcomes_view, relationships_view};
ghost use Rattle.pg_write_make.specs.Outcomes.{node_outcome, outcome_view, path_outcomes, relationship_outcome};
ghost use Rattle.pg_write_make.specs.Scenes.{parameters_in, reading, row_in};

use crate::clause_scope::ClauseScope;
use crate::values::outcome;
use pg_graph::Tables;
use pg_meaning::Fault;
use pg_store::GraphView;
use pg_syntax_tree::{NodePattern, PathPattern, RelationshipPattern};
use pg_value_core::Value;

// What the expressions of a relationship give, kept.
pub(crate) fn relationship_outcome<'a, T: Tables>(
    scene: &ClauseScope<'a>,
    graph: &GraphView<'_, T>,
    row: &[Value],
    pattern: &'a RelationshipPattern,
) -> Result<Result<Vec<(&'a str, Value)>, Fault>, Fault>
    ensures kept { IfOk result (λ kept. outcome_view kept
        ≡ relationship_outcome (reading (parameters_in scene.now)) graph.now
        (row_in scene.now row.now) (relationship_view pattern.now)) }
    ensures err { IfErr result (λ e. e ≡ OutOfMemory) }
{
    match &pattern.detail {
        Some(detail) => outcome(scene, graph, row, &detail.properties),
        None => Ok(Ok(Vec::new(scene.query.alloc))),
    }
}

// What the expressions of the nodes behind the first give and those of the relationships, each kept.
fn keep_hops<'a, T: Tables>(
    scene: &ClauseScope<'a>,
    graph: &GraphView<'_, T>,
    row: &[Value],
    hops: &'a Vec<(RelationshipPattern, NodePattern)>,
    nodes: &mut Vec<Result<Vec<(&'a str, Value)>, Fault>>,
    relationships: &mut Vec<Result<Vec<(&'a str, Value)>, Fault>>,
) -> Result<(), Fault>
    ensures nodes { OnOk result
        (outcomes_view nodes.new.items ≡ outcomes_view nodes.old.items ++ map
        (node_outcome (reading (parameters_in scene.now)) graph.now (row_in scene.now row.now))
        (others_view hops.now.items)) }
    ensures relationships { OnOk result (outcomes_view relationships.new.items
        ≡ outcomes_view relationships.old.items ++ map (relationship_outcome
        (reading (parameters_in scene.now)) graph.now (row_in scene.now row.now))
        (relationships_view hops.now.items)) }
    ensures err { IfErr result (λ e. e ≡ OutOfMemory) }
{
    for hop in hops {
        nodes.push(outcome(scene, graph, row, &hop.1.properties)?)?;
        relationships.push(relationship_outcome(scene, graph, row, &hop.0)?)?;
    }
    Ok(())
}

/// What the expressions of a path's nodes give, and those of its relationships.
#[derive(Drop)]
pub(crate) struct Kept<'a> {
    pub(crate) first: Result<Vec<(&'a str, Value)>, Fault>,
    pub(crate) nodes: Vec<Result<Vec<(&'a str, Value)>, Fault>>,
    pub(crate) relationships: Vec<Result<Vec<(&'a str, Value)>, Fault>>,
}

pub(crate) fn kept_of<'a, T: Tables>(
    scene: &ClauseScope<'a>,
    graph: &GraphView<'_, T>,
    row: &[Value],
    path: &'a PathPattern,
) -> Result<Kept<'a>, Fault>
    ensures ok { IfOk result (λ kept. kept_view kept
        ≡ path_outcomes (reading (parameters_in scene.now)) graph.now
        (row_in scene.now row.now) (path_view path.now)) }
    ensures err { IfErr result (λ e. e ≡ OutOfMemory) }
{
    let first = outcome(scene, graph, row, &path.first.properties)?;
    let mut nodes = Vec::new(scene.query.alloc);
    let mut relationships = Vec::new(scene.query.alloc);
    keep_hops(
        scene,
        graph,
        row,
        &path.hops,
        &mut nodes,
        &mut relationships,
    )?;
    Ok(Kept {
        first,
        nodes,
        relationships,
    })
}

/// What the expressions of all paths give at a row.
pub(crate) fn kept_values<'a, T: Tables>(
    scene: &ClauseScope<'a>,
    graph: &GraphView<'_, T>,
    row: &[Value],
    paths: &'a [PathPattern],
) -> Result<Vec<Kept<'a>>, Fault>
    ensures ok { IfOk result (λ kept. map kept_view kept.items ≡ map
        (path_outcomes (reading (parameters_in scene.now)) graph.now (row_in scene.now row.now))
        (paths_view paths.now)) }
    ensures err { IfErr result (λ e. e ≡ OutOfMemory) }
{
    let mut kept = Vec::with_capacity(scene.query.alloc, paths.len())?;
    for path in paths {
        kept.push(kept_of(scene, graph, row, path)?)?;
    }
    Ok(kept)
}
