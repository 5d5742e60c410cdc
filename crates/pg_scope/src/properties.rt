//! The static faults of the properties of a pattern.
ghost use Rattle.std.specs.Prelude.{◌≡◌, [], map, IfOk};
ghost use Rattle.pg_meaning.specs.Parse.{pairs_of};
ghost use Rattle.pg_meaning.specs.StaticFaults as spec;
ghost use Rattle.pg_scope.specs.First.{IsFirst};
ghost use Rattle.pg_scope.specs.Modes.{mode_view};
ghost use Rattle.pg_scope.specs.Names.{names_in};
ghost use Rattle.pg_syntax_tree.specs.View.{pair_view, properties_view};

use crate::expressions::{Role, fault_in_expression};
use crate::found::{PlacedFault, noted};
use crate::modes::Mode;
use crate::names::{ScopeNames, add};
use pg_meaning::Fault;
use pg_syntax_tree::{Expression, Name, Properties};
use std::alloc::{AllocError, Global};
use std::collections::BTreeSet;

/// The first fault, with keys that stand before and those of the values.
fn fault_in_keys<'a>(
    alloc: Global,
    outer: &ScopeNames<'a>,
    pairs: &'a Vec<(Name, Expression)>,
    mut first: Option<PlacedFault>,
) -> Result<Option<PlacedFault>, AllocError>
    ensures { IfOk result (λ found. IsFirst first (spec.key_faults
        (names_in outer.now) [] (pairs_of (map pair_view pairs.now.items))) found) }
{
    let mut before = BTreeSet::new(alloc);
    for (key, value) in pairs {
        let again = !add(&mut before, key.text.as_str())?;
        first = noted(again, key.place, Fault::BadPattern, first);
        first = fault_in_expression(outer, Role::Elsewhere, value, first);
    }
    Ok(first)
}

/// The first fault, with those of the properties of the node or relationship at the place.
pub(crate) fn fault_in_properties<'a>(
    alloc: Global,
    mode: Mode,
    outer: &ScopeNames<'a>,
    place: usize,
    properties: &'a Properties,
    first: Option<PlacedFault>,
) -> Result<Option<PlacedFault>, AllocError>
    ensures { IfOk result (λ found. IsFirst first (spec.properties_faults
        (mode_view mode) (names_in outer.now) place (properties_view properties.now)) found) }
{
    match properties {
        Properties::None => Ok(first),
        Properties::Given(pairs) => fault_in_keys(alloc, outer, pairs, first),
        Properties::Parameter(_) => {
            let misplaced = !mode.is_creating();
            Ok(noted(misplaced, place, Fault::BadPattern, first))
        }
    }
}
