//! How many elements a tenant may have.

use std::marker::Model;

/// A quota of elements, which is at most 2^63, so that a number of elements that is below it can be counted up.
#[derive(Clone, Copy)]
pub struct MaxElements {
    most: u64,
}

impl Model for MaxElements {
    ghost use Rattle.std.specs.Prelude.{ℕ, ◌≤◌, ◌^◌};

    ghost Value = { ℕ };

    ghost view = { λ m. m.most };

    ghost inverse = { λ n. record { most = n } };

    ghost invariant = { λ m. m.most ≤ 2 ^ 63 };
}

impl MaxElements {
    ghost use Rattle.std.specs.Prelude.{◌≡◌, ◌≤◌, ◌^◌};

    /// A quota of nodes and relationships together.
    pub fn new(most: u64) -> MaxElements
        requires { most ≤ 2 ^ 63 }
        ensures { result ≡ most }
    {
        MaxElements { most }
    }

    /// The quota as a number.
    pub fn most(self) -> u64
        ensures is { result ≡ self }
        ensures few { result ≤ 2 ^ 63 }
    {
        self.most
    }
}
