//! An item put behind the others of a list.
ghost use Rattle.std.specs.Prelude.{◌≡◌, ◌++◌, ◌∷◌, [], OnErr, OnOk};

use std::alloc::AllocError;

/// Puts an item behind the others. Mostly there is room, and then it is written where it stays.
#[inline(always)]
pub fn push_item<T: Drop>(items: &mut Vec<T>, item: T) -> Result<(), AllocError>
    ensures ok { OnOk result (items.new.items ≡ items.old.items ++ item ∷ []) }
    ensures err { OnErr result (items.new.items ≡ items.old.items) }
{
    if items.len() < items.capacity() {
        items.push_reserved(item);
        return Ok(());
    }
    items.push(item)?;
    Ok(())
}
