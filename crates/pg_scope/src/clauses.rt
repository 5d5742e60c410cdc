//! The static faults of a clause, and the names behind it.
ghost use Rattle.std.specs.Prelude.{map, flat_map};
ghost use Rattle.pg_meaning.specs.StaticFaults as spec;
ghost use Rattle.pg_scope.specs.First.{IsFirst};
ghost use Rattle.pg_scope.specs.Names.{names_in};
ghost use Rattle.pg_syntax_tree.specs.View.{expression_view, on_view, remove_item_view, set_item_view};

use crate::expressions::{Role, fault_in_expression, fault_in_variable};
use crate::found::PlacedFault;
use crate::names::ScopeNames;
use pg_syntax_tree::{Expression, On, RemoveItem, SetItem};

pub(crate) fn fault_in_sets<'a>(
    scope: &ScopeNames<'a>,
    items: &'a Vec<SetItem>,
    mut first: Option<PlacedFault>,
) -> Option<PlacedFault>
    ensures { IsFirst first (flat_map
        (spec.set_faults (names_in scope.now)) (map set_item_view items.now.items)) result }
{
    for item in items {
        first = match item {
            SetItem::Property(target, _, value)
            | SetItem::All(target, value)
            | SetItem::More(target, value) => {
                let first = fault_in_variable(scope, target, first);
                fault_in_expression(scope, Role::Elsewhere, value, first)
            }
            SetItem::Labels(target, _) => fault_in_variable(scope, target, first),
        };
    }
    first
}

pub(crate) fn fault_in_ons<'a>(
    scope: &ScopeNames<'a>,
    ons: &'a Vec<On>,
    mut first: Option<PlacedFault>,
) -> Option<PlacedFault>
    ensures { IsFirst first (flat_map (λ o. flat_map (spec.set_faults (names_in scope.now)) o.1)
        (map on_view ons.now.items)) result }
{
    for on in ons {
        first = fault_in_sets(scope, &on.items, first);
    }
    first
}

pub(crate) fn fault_in_removes<'a>(
    scope: &ScopeNames<'a>,
    items: &'a Vec<RemoveItem>,
    mut first: Option<PlacedFault>,
) -> Option<PlacedFault>
    ensures { IsFirst first (flat_map
        (spec.remove_faults (names_in scope.now)) (map remove_item_view items.now.items)) result }
{
    for item in items {
        match item {
            RemoveItem::Property(target, _) | RemoveItem::Labels(target, _) => {
                first = fault_in_variable(scope, target, first);
            }
        }
    }
    first
}

pub(crate) fn fault_in_each<'a>(
    scope: &ScopeNames<'a>,
    items: &'a Vec<Expression>,
    mut first: Option<PlacedFault>,
) -> Option<PlacedFault>
    ensures { IsFirst first (flat_map
        (spec.faults_of (names_in scope.now)) (map expression_view items.now.items)) result }
{
    for item in items {
        first = fault_in_expression(scope, Role::Elsewhere, item, first);
    }
    first
}
