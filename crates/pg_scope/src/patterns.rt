//! The static faults of the variables of a pattern.
ghost use Rattle.std.specs.Prelude.{◌≡◌, ◌||◌, Some};
ghost use Rattle.pg_meaning.specs.Names.{is_among};
ghost use Rattle.pg_meaning.specs.StaticFaults as spec;
ghost use Rattle.pg_scope.specs.First.{IsFirst};
ghost use Rattle.pg_scope.specs.Modes.{mode_view};
ghost use Rattle.pg_scope.specs.Names.{names_in, HasSame};
ghost use Rattle.pg_scope.specs.Used.{used_in};
ghost use Rattle.pg_syntax_tree.specs.View.{name_view, node_view, relationship_view};

use crate::found::{PlacedFault, noted};
use crate::modes::Mode;
use crate::names::{ScopeNames, is_among};
use crate::used::Used;
use pg_meaning::Fault;
use pg_syntax_tree::{Name, NodePattern, Properties, RelationshipPattern};

fn is_used<'a>(used: &Used<'a>, name: &'a str) -> bool
    ensures { result ≡ spec.is_used (used_in used.now) name.now }
{
    is_among(&used.nodes, name) || is_among(&used.others, name)
}

/// Whether the clause or those before it have the variable.
fn is_bound<'a>(outer: &ScopeNames<'a>, used: &Used<'a>, name: &'a str) -> bool
    ensures { result ≡ is_among (names_in outer.now) name.now
        || spec.is_used (used_in used.now) name.now }
{
    is_among(outer, name) || is_used(used, name)
}

/// The first fault, with a variable that isn't new.
pub(crate) fn fault_in_new<'a>(
    outer: &ScopeNames<'a>,
    used: &Used<'a>,
    name: &'a Name,
    first: Option<PlacedFault>,
) -> Option<PlacedFault>
    ensures { IsFirst first (spec.new_faults
        (names_in outer.now) (used_in used.now) (Some (name_view name.now))) result }
{
    let bound = is_bound(outer, used, name.text.as_str());
    noted(bound, name.place, Fault::VariableAlreadyBound, first)
}

/// The first fault, with a variable of a relationship that isn't new.
pub(crate) fn fault_in_relationship_variable<'a>(
    outer: &ScopeNames<'a>,
    used: &Used<'a>,
    relationship: &'a RelationshipPattern,
    first: Option<PlacedFault>,
) -> Option<PlacedFault>
    ensures { IsFirst first (spec.new_faults (names_in outer.now) (used_in used.now)
        (spec.relationship_variable (relationship_view relationship.now))) result }
{
    match &relationship.detail {
        Some(detail) => match &detail.variable {
            Some(name) => fault_in_new(outer, used, name, first),
            None => first,
        },
        None => first,
    }
}

/// Whether more stands in the node than its variable, or it is a whole path.
fn is_described(is_whole: bool, node: &NodePattern) -> bool
    ensures { result ≡ spec.is_described is_whole (node_view node.now) }
{
    let has_properties = match &node.properties {
        Properties::None => false,
        Properties::Given(_) | Properties::Parameter(_) => true,
    };
    !node.labels.is_empty() || has_properties || is_whole
}

/// Whether the variable can't stand for this node.
fn is_misused<'a>(
    mode: Mode,
    outer: &ScopeNames<'a>,
    used: &Used<'a>,
    is_whole: bool,
    node: &NodePattern,
    name: &'a str,
) -> bool
    ensures { result
        ≡ spec.is_misused (mode_view mode)
        (names_in outer.now) (used_in used.now) is_whole (node_view node.now) name.now }
{
    if is_among(&used.others, name) {
        return true;
    }
    !mode.is_matching() && is_bound(outer, used, name) && is_described(is_whole, node)
}

/// The first fault, with a variable of a node that can't stand for it.
pub(crate) fn fault_in_node_variable<'a>(
    mode: Mode,
    outer: &ScopeNames<'a>,
    used: &Used<'a>,
    is_whole: bool,
    node: &'a NodePattern,
    first: Option<PlacedFault>,
) -> Option<PlacedFault>
    ensures { IsFirst first (spec.node_variable_faults (mode_view mode) (names_in outer.now)
        (used_in used.now) is_whole (node_view node.now) (node_view node.now).variable) result }
{
    match &node.variable {
        Some(name) => {
            let misused = is_misused(mode, outer, used, is_whole, node, name.text.as_str());
            noted(misused, name.place, Fault::VariableAlreadyBound, first)
        }
        None => first,
    }
}
