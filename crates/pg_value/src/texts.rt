//! Lists of texts.

ghost use Rattle.std.specs.Prelude.{◌≡◌, map, [], IfOk};
ghost use Rattle.pg_value.specs.Texts.{has_duplicate};

use std::alloc::{AllocError, Global};
use std::collections::BTreeSet;

/// Whether some text equals an earlier one.
pub fn has_duplicate(alloc: Global, texts: &[&str]) -> Result<bool, AllocError>
    ensures { IfOk result (λ b. b ≡ has_duplicate [] (map (λ t. t.now) texts.now)) }
{
    let mut before = BTreeSet::new(alloc);
    for text in texts {
        if !before.insert(*text)? {
            return Ok(true);
        }
    }
    Ok(false)
}
