//! Why a body is not read at a glance.

use std::alloc::{AllocError, AllocFailed};

/// What ends the reading of tokens before it has an answer.
#[derive(Clone, Copy, Drop)]
pub(crate) enum Unread {
    /// A value on which only the whole text decides.
    Unclear,
    OutOfMemory,
}

impl From<AllocError> for Unread {
    fn from(_: AllocError) -> Unread {
        Unread::OutOfMemory
    }
}

impl<T: Drop> From<AllocFailed<T>> for Unread {
    fn from(_: AllocFailed<T>) -> Unread {
        Unread::OutOfMemory
    }
}
