//! Why a journal can't go on.
ghost use Rattle.std.specs.Prelude.{◌≡◌};
ghost use Rattle.pg_journal.specs.declared.fault.JournalError.TheVariants.{Memory};

use std::alloc::{AllocError, AllocFailed};

#[derive(Clone, Copy, Debug, PartialEq, Eq)]
pub enum JournalError {
    /// There is no memory.
    Memory,
    /// The disk has failed.
    Failed,
    /// The file can't grow further.
    Full,
    /// The file is none of a journal's.
    Foreign,
    /// The file is a journal's, and bytes of it are changed or missing.
    Damaged,
    /// What is read again isn't what was kept.
    Differs,
}

impl From<AllocError> for JournalError {
    ghost from_gives = { λ _ e. e ≡ Memory };

    fn from(_: AllocError) -> Self {
        JournalError::Memory
    }
}

impl<T: Drop> From<AllocFailed<T>> for JournalError {
    ghost from_gives = { λ _ e. e ≡ Memory };

    fn from(_: AllocFailed<T>) -> Self {
        JournalError::Memory
    }
}
