//! What a plan is kept under.
ghost use Rattle.std.specs.Prelude.{◌≡◌};
ghost use Rattle.pg_cache.specs.Cache.{key_view};
ghost use Rattle.pg_cache.specs.Keys.{key_eq, key_writes, fed_alike};

use crate::digested::DigestedCatalogue;
use std::hash::{Hash, Hasher};
use std::rc::Rc;

/// A query text, and the indexes that its plan is for.
#[derive(PartialEq, Eq, Drop)]
pub(crate) struct Key {
    pub(crate) text: String,
    pub(crate) catalogue: Rc<DigestedCatalogue>,
}

impl Key {
    /// Whether both are the same, as `==` has it. Texts of two lengths are told apart without a call.
    pub(crate) fn is_same(&self, other: &Key) -> bool
        ensures { result ≡ key_eq self.now other.now }
    {
        self.text.len() == other.text.len()
            && self.text == other.text
            && self.catalogue == other.catalogue
    }
}

impl Hash for Key {
    ghost hash_input = { λ k. key_writes (key_view k) };

    ghost respects_eq = { fed_alike };

    fn hash<H: Hasher>(&self, state: &mut H) {
        self.catalogue.write(state);
        state.write(self.text.as_str().as_bytes());
    }
}
