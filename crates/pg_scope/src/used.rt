//! The variables of a clause so far.
ghost use Rattle.std.specs.Prelude.{◌≡◌, [], IfOk, OnOk, option_map};
ghost use Rattle.pg_meaning.specs.StaticFaults as spec;
ghost use Rattle.pg_scope.specs.Names.{names_in, HasSame};
ghost use Rattle.pg_scope.specs.Used.{used_in, nothing_used};
ghost use Rattle.pg_syntax_tree.specs.View.{name_view, node_view, relationship_view};

use crate::names::{ScopeNames, add, is_among};
use pg_syntax_tree::{Name, NodePattern, RelationshipPattern};
use std::alloc::{AllocError, Global};
use std::collections::BTreeSet;

/// Those of nodes, and those of relationships and paths.
#[derive(Drop)]
pub(crate) struct Used<'a> {
    pub(crate) nodes: ScopeNames<'a>,
    pub(crate) others: ScopeNames<'a>,
}

impl<'a> Used<'a> {
    pub(crate) fn new(alloc: Global) -> Used<'a>
        ensures { used_in result ≡ nothing_used }
    {
        Used {
            nodes: BTreeSet::new(alloc),
            others: BTreeSet::new(alloc),
        }
    }
}

/// Puts a variable among the names, where there is one.
pub fn add_variable<'a>(
    names: &mut ScopeNames<'a>,
    variable: &'a Option<Name>,
) -> Result<(), AllocError>
    ensures { OnOk result (HasSame (names_in names.new)
        (spec.with_variable (option_map name_view variable.now) (names_in names.old))) }
{
    if let Some(name) = variable {
        add(names, name.text.as_str())?;
    }
    Ok(())
}

/// Puts the variable of a relationship among the names, where it has one.
pub(crate) fn add_relationship_variable<'a>(
    names: &mut ScopeNames<'a>,
    relationship: &'a RelationshipPattern,
) -> Result<(), AllocError>
    ensures { OnOk result (HasSame (names_in names.new) (spec.with_variable
        (spec.relationship_variable (relationship_view relationship.now)) (names_in names.old))) }
{
    match &relationship.detail {
        Some(detail) => add_variable(names, &detail.variable),
        None => Ok(()),
    }
}
