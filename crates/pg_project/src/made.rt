//! Values that calls made, taken into lists.
ghost use Rattle.std.specs.Prelude.{◌≡◌, ◌++◌, ◌∷◌, [], OnOk, Ok};

use std::alloc::AllocError;

/// Takes in behind the others what a call made.
pub(crate) fn push_made<X: Drop>(
    list: &mut Vec<X>,
    made: Result<X, AllocError>,
) -> Result<(), AllocError>
    ensures { OnOk result ((x : X) × (made ≡ Ok x) × (list.new.items ≡ list.old.items ++ x ∷ [])) }
{
    list.push(made?)?;
    Ok(())
}
