//! The static faults of paths.
ghost use Rattle.std.specs.Prelude.{◌≡◌, [], ◌∷◌, map, flat_map, IfOk};
ghost use Rattle.pg_meaning.specs.StaticFaults as spec;
ghost use Rattle.pg_meaning.specs.Tokens.{is_empty};
ghost use Rattle.pg_scope.specs.First.{IsFirst};
ghost use Rattle.pg_scope.specs.Modes.{mode_view};
ghost use Rattle.pg_scope.specs.Names.{names_in};
ghost use Rattle.pg_scope.specs.Used.{used_in, Passes};
ghost use Rattle.pg_syntax_tree.specs.View.{hop_view, node_view, path_view};

use crate::found::PlacedFault;
use crate::modes::Mode;
use crate::names::{ScopeNames, add};
use crate::patterns::{fault_in_new, fault_in_node_variable, fault_in_relationship_variable};
use crate::properties::fault_in_properties;
use crate::relationships::fault_in_relationship;
use crate::used::{Used, add_relationship_variable, add_variable};
use pg_syntax_tree::{NodePattern, PathPattern, RelationshipPattern};
use std::alloc::{AllocError, Global};

/// Past a node.
fn pass_node<'a>(
    alloc: Global,
    mode: Mode,
    outer: &ScopeNames<'a>,
    used: &mut Used<'a>,
    is_whole: bool,
    node: &'a NodePattern,
    first: Option<PlacedFault>,
) -> Result<Option<PlacedFault>, AllocError>
    ensures { IfOk result (λ found. Passes
        (mode_view mode) (names_in outer.now) (spec.node_part is_whole (node_view node.now) ∷ [])
        (used_in used.old) first (used_in used.new) found) }
{
    let first = fault_in_node_variable(mode, outer, used, is_whole, node, first);
    let first = fault_in_properties(alloc, mode, outer, node.place, &node.properties, first)?;
    add_variable(&mut used.nodes, &node.variable)?;
    Ok(first)
}

/// Past the hops of a path.
fn pass_hops<'a>(
    alloc: Global,
    mode: Mode,
    outer: &ScopeNames<'a>,
    used: &mut Used<'a>,
    hops: &'a Vec<(RelationshipPattern, NodePattern)>,
    mut first: Option<PlacedFault>,
) -> Result<Option<PlacedFault>, AllocError>
    ensures { IfOk result (λ found. Passes (mode_view mode)
        (names_in outer.now) (flat_map spec.hop_parts (map hop_view hops.now.items))
        (used_in used.old) first (used_in used.new) found) }
{
    for (relationship, node) in hops {
        first = fault_in_relationship_variable(outer, used, relationship, first);
        first = fault_in_relationship(alloc, mode, outer, relationship, first)?;
        add_relationship_variable(&mut used.others, relationship)?;
        first = pass_node(alloc, mode, outer, used, false, node, first)?;
    }
    Ok(first)
}

/// Whether one node is the whole path.
fn is_one_node(path: &PathPattern) -> bool
    ensures { result ≡ is_empty (path_view path.now).hops }
{
    path.hops.is_empty()
}

/// Past a path.
fn pass_path<'a>(
    alloc: Global,
    mode: Mode,
    outer: &ScopeNames<'a>,
    used: &mut Used<'a>,
    path: &'a PathPattern,
    mut first: Option<PlacedFault>,
) -> Result<Option<PlacedFault>, AllocError>
    ensures { IfOk result (λ found. Passes (mode_view mode) (names_in outer.now)
        (spec.path_parts (path_view path.now)) (used_in used.old) first (used_in used.new) found) }
{
    if let Some(name) = &path.variable {
        first = fault_in_new(outer, used, name, first);
        add(&mut used.others, name.text.as_str())?;
    }
    let is_whole = is_one_node(path);
    let first = pass_node(alloc, mode, outer, used, is_whole, &path.first, first)?;
    pass_hops(alloc, mode, outer, used, &path.hops, first)
}

/// Past some paths.
fn pass_paths<'a>(
    alloc: Global,
    mode: Mode,
    outer: &ScopeNames<'a>,
    used: &mut Used<'a>,
    paths: &'a Vec<PathPattern>,
    mut first: Option<PlacedFault>,
) -> Result<Option<PlacedFault>, AllocError>
    ensures { IfOk result (λ found. Passes (mode_view mode)
        (names_in outer.now) (flat_map spec.path_parts (map path_view paths.now.items))
        (used_in used.old) first (used_in used.new) found) }
{
    for path in paths {
        first = pass_path(alloc, mode, outer, used, path, first)?;
    }
    Ok(first)
}

/// The first fault, with those of one path.
pub(crate) fn fault_in_path<'a>(
    alloc: Global,
    mode: Mode,
    outer: &ScopeNames<'a>,
    path: &'a PathPattern,
    first: Option<PlacedFault>,
) -> Result<Option<PlacedFault>, AllocError>
    ensures { IfOk result (λ found. IsFirst first
        (spec.paths_faults (mode_view mode) (names_in outer.now) (path_view path.now ∷ [])) found) }
{
    let mut used = Used::new(alloc);
    pass_path(alloc, mode, outer, &mut used, path, first)
}

/// The first fault, with those of the paths of a clause.
pub(crate) fn fault_in_paths<'a>(
    alloc: Global,
    mode: Mode,
    outer: &ScopeNames<'a>,
    paths: &'a Vec<PathPattern>,
    first: Option<PlacedFault>,
) -> Result<Option<PlacedFault>, AllocError>
    ensures { IfOk result (λ found. IsFirst first (spec.paths_faults
        (mode_view mode) (names_in outer.now) (map path_view paths.now.items)) found) }
{
    let mut used = Used::new(alloc);
    pass_paths(alloc, mode, outer, &mut used, paths, first)
}
