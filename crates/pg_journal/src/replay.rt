//! What is done with records that are read again.
ghost use Rattle.std.specs.Prelude.{◌≡◌, ◌⊎◌, OnOk, IfErr};
ghost use Rattle.pg_journal.specs.Records.{Kept};
ghost use Rattle.pg_journal.specs.Views.{kept};

use crate::{JournalError, Reply};

/// Takes records in the order in which they were kept.
pub trait Replay {
    // The record may lead from the first state to the second.
    ghost replays: { Self → Kept → Self → Type 0 };

    /// An error ends the reading.
    fn replay(&mut self, tenant: &[u8], body: &[u8], reply: Reply) -> Result<(), JournalError>
        ensures replayed { OnOk result
            (replays self.old (kept tenant.now body.now reply) self.new) }
        ensures told { IfErr result (λ e. (e ≡ JournalError.Memory) ⊎ (e ≡ JournalError.Differs)) };
}
