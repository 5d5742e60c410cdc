//! What a row's new elements are bound to.
ghost use Rattle.std.specs.Prelude.{◌≡◌, ◌++◌, ◌∷◌, [], OnOk, IfOk, map, option_map};
ghost use Rattle.pg_meaning.specs.Patterns.{path_value, relationship_name, single, text_of, walk_on};
ghost use Rattle.pg_meaning.specs.Value.{path, relationship};
ghost use Rattle.pg_syntax_tree.specs.View.{hop_view, name_view, path_view, relationship_view};
ghost use Rattle.pg_value_core.specs.View.{view};
ghost use Rattle.pg_write_make.specs.Bindings.{hop_bindings, match_bindings, named, node_bindings, path_bindings};
ghost use Rattle.pg_write_make.specs.Lent.{bindings_view, paths_view, trail_view};
ghost use Rattle.pg_write_make.specs.Makings.{node_ids, relationship_ids};

use crate::paths::Trail;
use pg_graph::Tables;
use pg_store::GraphView;
use pg_syntax_tree::{Name, NodePattern, PathPattern, RelationshipPattern};
use pg_value_core::{NodeId, Path, RelId, Value};
use std::alloc::{AllocError, Global};

// The ids from a node on, over relationships.
fn walk<T: Tables>(
    alloc: Global,
    graph: &GraphView<'_, T>,
    first: NodeId,
    relationships: &Vec<RelId>,
) -> Result<Vec<u64>, AllocError>
    ensures { IfOk result (λ ids. ids.items
        ≡ first.0 ∷ walk_on graph.now first.0 (relationship_ids relationships.now.items)) }
{
    let mut ids = Vec::with_capacity(alloc, relationships.len())?;
    ids.push(first.0)?;
    let mut at = first;
    for id in relationships {
        match graph.rel(*id) {
            Some(relationship) => {
                at = relationship.other_end(at);
                ids.push(id.0)?;
                ids.push(at.0)?;
            }
            None => return Ok(ids),
        }
    }
    Ok(ids)
}

fn path_of(ids: Vec<u64>) -> Value
    ensures { view result ≡ path ids.items }
{
    Value::Path(Path(ids))
}

fn path_value<T: Tables>(
    alloc: Global,
    graph: &GraphView<'_, T>,
    trail: &Trail,
) -> Result<Value, AllocError>
    ensures { IfOk result (λ v. view v ≡ path_value graph.now (trail_view trail.now)) }
{
    match trail.nodes.split_first() {
        Some((first, _)) => Ok(path_of(walk(alloc, graph, *first, &trail.relationships)?)),
        None => Ok(path_of(Vec::new(alloc))),
    }
}

fn bind_if_named<'a>(
    bindings: &mut Vec<(&'a str, Value)>,
    variable: &'a Option<Name>,
    value: Value,
) -> Result<(), AllocError>
    ensures { OnOk result (bindings_view bindings.new.items ≡ bindings_view bindings.old.items
        ++ named ((text_of (option_map name_view variable.now), view value) ∷ [])) }
{
    if let Some(name) = variable {
        bindings.push((name.text.as_str(), value))?;
    }
    Ok(())
}

fn bind_relationship<'a>(
    bindings: &mut Vec<(&'a str, Value)>,
    pattern: &'a RelationshipPattern,
    id: RelId,
) -> Result<(), AllocError>
    ensures { OnOk result (bindings_view bindings.new.items ≡ bindings_view bindings.old.items
        ++ named ((relationship_name (relationship_view pattern.now), relationship id.0) ∷ [])) }
{
    match &pattern.detail {
        Some(detail) => bind_if_named(bindings, &detail.variable, Value::Rel(id)),
        None => Ok(()),
    }
}

// The variables of the hops that are left.
#[tactic(auto, using(crate::proofs::TrailLemmas::named_first))]
fn bind_hops<'a>(
    bindings: &mut Vec<(&'a str, Value)>,
    hops: &'a Vec<(RelationshipPattern, NodePattern)>,
    relationships: &[RelId],
    nodes: &[NodeId],
) -> Result<(), AllocError>
    ensures { OnOk result (bindings_view bindings.new.items
        ≡ bindings_view bindings.old.items ++ named (hop_bindings (map hop_view hops.now.items)
        (map single (relationship_ids relationships.now)) (node_ids nodes.now))) }
{
    let mut bonds = relationships;
    let mut ahead = nodes;
    for hop in hops {
        match (bonds.split_first(), ahead.split_first()) {
            (Some((bond, other_bonds)), Some((node, other_nodes))) => {
                bind_relationship(bindings, &hop.0, *bond)?;
                bind_if_named(bindings, &hop.1.variable, Value::Node(*node))?;
                bonds = other_bonds;
                ahead = other_nodes;
            }
            _ => return Ok(()),
        }
    }
    Ok(())
}

// The variables of a path's nodes and relationships.
#[tactic(auto, using(crate::proofs::TrailLemmas::named_first))]
fn bind_nodes<'a>(
    bindings: &mut Vec<(&'a str, Value)>,
    path: &'a PathPattern,
    trail: &Trail,
) -> Result<(), AllocError>
    ensures { OnOk result (bindings_view bindings.new.items ≡ bindings_view bindings.old.items
        ++ named (node_bindings (path_view path.now) (trail_view trail.now))) }
{
    match trail.nodes.split_first() {
        Some((first, others)) => {
            bind_if_named(bindings, &path.first.variable, Value::Node(*first))?;
            bind_hops(bindings, &path.hops, trail.relationships.as_slice(), others)
        }
        None => Ok(()),
    }
}

// The variables of a path.
#[tactic(auto, using(crate::proofs::TrailLemmas::named_first))]
fn bind_path<'a, T: Tables>(
    alloc: Global,
    bindings: &mut Vec<(&'a str, Value)>,
    graph: &GraphView<'_, T>,
    path: &'a PathPattern,
    trail: &Trail,
) -> Result<(), AllocError>
    ensures { OnOk result (bindings_view bindings.new.items ≡ bindings_view bindings.old.items
        ++ named (path_bindings graph.now (path_view path.now) (trail_view trail.now))) }
{
    if let Some(name) = &path.variable {
        bindings.push((name.text.as_str(), path_value(alloc, graph, trail)?))?;
    }
    bind_nodes(bindings, path, trail)
}

/// What a row binds for the paths that were made at it.
#[tactic(auto, using(crate::proofs::StepLemmas::path_binds))]
pub(crate) fn row_bindings<'a, T: Tables>(
    alloc: Global,
    graph: &GraphView<'_, T>,
    paths: &'a [PathPattern],
    trails: &Vec<Trail>,
) -> Result<Vec<(&'a str, Value)>, AllocError>
    ensures { IfOk result (λ bindings. bindings_view bindings.items ≡ named
        (match_bindings graph.now (paths_view paths.now) (map trail_view trails.now.items))) }
{
    let mut bindings = Vec::new(alloc);
    let mut rest = trails.as_slice();
    for path in paths {
        match rest.split_first() {
            Some((trail, others)) => {
                bind_path(alloc, &mut bindings, graph, path, trail)?;
                rest = others;
            }
            None => return Ok(bindings),
        }
    }
    Ok(bindings)
}
