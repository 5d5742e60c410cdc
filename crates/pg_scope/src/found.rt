//! The first fault found so far.
ghost use Rattle.std.specs.Prelude.{◌≡◌};
ghost use Rattle.pg_meaning.specs.StaticFaults.{found_if, goes_before};
ghost use Rattle.pg_scope.specs.First.{IsFirst};

use pg_meaning::Fault;

/// A fault and where it stands.
pub(crate) type PlacedFault = (usize, Fault);

/// The least place counts, then the least number.
fn goes_before(a: PlacedFault, b: PlacedFault) -> bool
    ensures { result ≡ goes_before a b }
{
    a.0 < b.0 || (a.0 == b.0 && a.1.code() < b.1.code())
}

/// The first fault, with another where the test holds.
pub(crate) fn noted(
    is_fault: bool,
    place: usize,
    fault: Fault,
    first: Option<PlacedFault>,
) -> Option<PlacedFault>
    ensures { IsFirst first (found_if is_fault place fault) result }
{
    if !is_fault {
        return first;
    }
    match first {
        Some(best) => {
            if goes_before((place, fault), best) {
                Some((place, fault))
            } else {
                Some(best)
            }
        }
        None => Some((place, fault)),
    }
}
