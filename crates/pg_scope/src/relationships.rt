//! The static faults of a relationship of a pattern, but for its variable.
ghost use Rattle.std.specs.Prelude.{◌≡◌, ◌&&◌, not, IfOk, option_map};
ghost use Rattle.std.specs.Bool.{beq};
ghost use Rattle.pg_meaning.specs.StaticFaults as spec;
ghost use Rattle.pg_scope.specs.First.{IsFirst};
ghost use Rattle.pg_scope.specs.Modes.{mode_view};
ghost use Rattle.pg_scope.specs.Names.{names_in};
ghost use Rattle.pg_syntax_tree.specs.View.{detail_view, range_view, relationship_view};

use crate::found::{PlacedFault, noted};
use crate::modes::Mode;
use crate::names::ScopeNames;
use crate::properties::fault_in_properties;
use pg_meaning::Fault;
use pg_syntax_tree::{Detail, Range, RelationshipPattern};
use std::alloc::{AllocError, Global};

const GREATEST_RANGE: u64 = 32;

/// `*n` is from n to n.
fn upper_bound(range: &Range) -> Option<u64>
    ensures { result ≡ spec.upper_bound (range_view range.now) }
{
    if range.dots { range.upper } else { range.lower }
}

/// Whether a range has no bound that is small enough.
fn is_free(range: &Option<Range>) -> bool
    ensures { result ≡ spec.is_free (option_map range_view range.now) }
{
    match range {
        Some(range) => match upper_bound(range) {
            Some(bound) => bound > GREATEST_RANGE,
            None => true,
        },
        None => false,
    }
}

/// Whether there is one type and no range.
fn is_fixed(detail: &Option<Detail>) -> bool
    ensures { result ≡ spec.is_fixed (option_map detail_view detail.now) }
{
    match detail {
        Some(detail) => detail.range.is_none() && detail.types.len() == 1,
        None => false,
    }
}

/// Whether a clause that makes relationships can't make this one.
fn is_unfixed(mode: Mode, detail: &Option<Detail>) -> bool
    ensures { result ≡ not (spec.is_matching (mode_view mode))
        && not (spec.is_fixed (option_map detail_view detail.now)) }
{
    !mode.is_matching() && !is_fixed(detail)
}

/// Whether CREATE can't tell its direction.
fn is_undirected(mode: Mode, relationship: &RelationshipPattern) -> bool
    ensures { result ≡ spec.is_creating (mode_view mode)
        && beq relationship.now.left_head relationship.now.right_head }
{
    mode.is_creating() && relationship.left_head == relationship.right_head
}

/// The first fault, with those of a relationship but for its variable.
pub(crate) fn fault_in_relationship<'a>(
    alloc: Global,
    mode: Mode,
    outer: &ScopeNames<'a>,
    relationship: &'a RelationshipPattern,
    first: Option<PlacedFault>,
) -> Result<Option<PlacedFault>, AllocError>
    ensures { IfOk result (λ found. IsFirst first (spec.relationship_faults
        (mode_view mode) (names_in outer.now) (relationship_view relationship.now)) found) }
{
    let place = relationship.place;
    let unfixed = is_unfixed(mode, &relationship.detail);
    let first = noted(unfixed, place, Fault::BadPattern, first);
    let undirected = is_undirected(mode, relationship);
    let first = noted(undirected, place, Fault::BadPattern, first);
    match &relationship.detail {
        Some(detail) => {
            let first = noted(is_free(&detail.range), place, Fault::BadPattern, first);
            fault_in_properties(alloc, mode, outer, place, &detail.properties, first)
        }
        None => Ok(first),
    }
}
