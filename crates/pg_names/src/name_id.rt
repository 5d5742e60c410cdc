//! The number of a name.
ghost use Rattle.std.specs.Prelude.{◌≡◌};

use std::marker::Model;

/// A name's number in its table.
#[derive(Clone, Copy, Default)]
pub struct NameId(pub(crate) u64);

impl Model for NameId {
    ghost use Rattle.std.specs.Prelude.{ℕ};
    ghost use Rattle.std.specs.Coded.{coded_ℕ};

    ghost Value = { ℕ };

    ghost coded = { coded_ℕ };

    ghost view = { λ n. n.0 };

    ghost inverse = { λ n. record { 0 = n } };
}

impl NameId {
    /// The place of the name's text in the table that gave the number.
    pub fn as_u64(&self) -> u64
        ensures { result ≡ self.now }
    {
        self.0
    }
}
