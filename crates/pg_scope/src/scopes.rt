//! The names that paths bring into scope.
ghost use Rattle.std.specs.Prelude.{[], ◌∷◌, map, OnOk};
ghost use Rattle.pg_meaning.specs.Patterns as meaning;
ghost use Rattle.pg_scope.specs.Names.{names_in, HasSame};
ghost use Rattle.pg_syntax_tree.specs.View.{hop_view, path_view};

use crate::names::ScopeNames;
use crate::used::{add_relationship_variable, add_variable};
use pg_syntax_tree::{NodePattern, PathPattern, RelationshipPattern};
use std::alloc::AllocError;

/// Brings in the variables of some hops.
fn add_hops<'a>(
    names: &mut ScopeNames<'a>,
    hops: &'a Vec<(RelationshipPattern, NodePattern)>,
) -> Result<(), AllocError>
    ensures { OnOk result (HasSame (names_in names.new)
        (meaning.add_hop_names (map hop_view hops.now.items) (names_in names.old))) }
{
    for (relationship, node) in hops {
        add_relationship_variable(names, relationship)?;
        add_variable(names, &node.variable)?;
    }
    Ok(())
}

/// Brings in the variables of a path.
pub fn add_path<'a>(names: &mut ScopeNames<'a>, path: &'a PathPattern) -> Result<(), AllocError>
    ensures { OnOk result (HasSame (names_in names.new)
        (meaning.add_path_names (path_view path.now ∷ []) (names_in names.old))) }
{
    add_variable(names, &path.variable)?;
    add_variable(names, &path.first.variable)?;
    add_hops(names, &path.hops)
}

/// Brings in the variables of some paths.
pub(crate) fn add_paths<'a>(
    names: &mut ScopeNames<'a>,
    paths: &'a Vec<PathPattern>,
) -> Result<(), AllocError>
    ensures { OnOk result (HasSame (names_in names.new)
        (meaning.add_path_names (map path_view paths.now.items) (names_in names.old))) }
{
    for path in paths {
        add_path(names, path)?;
    }
    Ok(())
}
