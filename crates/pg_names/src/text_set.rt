//! A set of texts that keeps their order.
ghost use Rattle.std.specs.Prelude.{◌≡◌, ◌<◌, ℕ, List, [], length, take, OnOk, IfOk, OnErr, slice_get, string_bytes, Some};
ghost use Rattle.std.specs.List.{position};
ghost use Rattle.std.specs.Str.{bytes_eq};
ghost use Rattle.pg_names.specs.Names.{AreDistinct, with_name};

use std::alloc::{AllocError, Global};
use std::hash::RandomState;

/// Texts at their places, from 0 on, each once.
pub trait TextSet: Drop {
    /// The texts in order.
    ghost texts: { Self → List (List ℕ) };

    /// No texts. Where the set has a hash table, its hashers are those of `hasher`, of which no text's place tells anything.
    fn new(alloc: Global, hasher: RandomState) -> Self
        ensures { texts result ≡ [] };

    /// The place of a text.
    fn place_of(&self, text: &str) -> Option<usize>
        ensures { result ≡ position (bytes_eq text.now) (texts self.now) };

    /// The text at a place.
    fn text_at(&self, place: usize) -> &str
        requires { place < length (texts self.now) }
        ensures { slice_get (texts self.now) place ≡ Some result.now };

    /// Puts a text at the end, unless it is there, and returns its place.
    fn put(&mut self, text: String) -> Result<usize, AllocError>
        ensures place { IfOk result (λ n. slice_get (texts self.new) n ≡ Some (string_bytes text)) }
        ensures ok { OnOk result (texts self.new ≡ with_name (texts self.old) (string_bytes text)) }
        ensures err { OnErr result (texts self.new ≡ texts self.old) }
        ensures distinct { OnOk result (AreDistinct (texts self.new)) };

    /// Keeps the first so many texts.
    fn keep(&mut self, len: usize)
        ensures kept { texts self.new ≡ take len (texts self.old) }
        ensures distinct { AreDistinct (texts self.new) };

    /// How many texts there are.
    fn count(&self) -> usize
        ensures { result ≡ length (texts self.now) };
}
