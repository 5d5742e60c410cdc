//! The nodes of paths, and their names.
ghost use Rattle.std.specs.Prelude.{◌≡◌, map, flat_map, IfOk, OnOk};
ghost use Rattle.pg_meaning.specs.Patterns.{nodes_of};
ghost use Rattle.pg_meaning.specs.Plans as spec;
ghost use Rattle.pg_scope.specs.Names.{names_in};
ghost use Rattle.pg_syntax_tree.specs.View.{path_view};
ghost use Rattle.pg_plan.specs.Places.{nodes_in, HasMore, HasNames};

use pg_scope::{ScopeNames, add_variable};
use pg_syntax_tree::{NodePattern, PathPattern};
use std::alloc::{AllocError, Global};
use std::collections::BTreeSet;

/// The nodes of a path, from the left.
pub(crate) fn nodes_of<'a>(
    alloc: Global,
    path: &'a PathPattern,
) -> Result<Vec<&'a NodePattern>, AllocError>
    ensures { IfOk result (λ nodes. nodes_in nodes.items ≡ nodes_of (path_view path.now)) }
{
    let mut nodes = Vec::new(alloc);
    nodes.push(&path.first)?;
    for (_, node) in &path.hops {
        nodes.push(node)?;
    }
    Ok(nodes)
}

fn add_path_nodes<'a>(names: &mut ScopeNames<'a>, path: &'a PathPattern) -> Result<(), AllocError>
    ensures { OnOk result
        (HasMore (names_in names.old) (nodes_of (path_view path.now)) (names_in names.new)) }
{
    add_variable(names, &path.first.variable)?;
    for (_, node) in &path.hops {
        add_variable(names, &node.variable)?;
    }
    Ok(())
}

/// The variables of all nodes of the paths.
pub(crate) fn node_names<'a>(
    alloc: Global,
    paths: &'a Vec<PathPattern>,
) -> Result<ScopeNames<'a>, AllocError>
    ensures { IfOk result
        (λ names. HasNames (flat_map nodes_of (map path_view paths.now.items)) (names_in names)) }
{
    let mut names = BTreeSet::new(alloc);
    for path in paths {
        add_path_nodes(&mut names, path)?;
    }
    Ok(names)
}
