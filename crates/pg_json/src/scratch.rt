//! The room that reading a body takes, kept from one body to the next.

use json::Scratch;
use std::alloc::Global;

/// What reading a body needs. One is kept and lent to each reading.
#[derive(Drop)]
pub struct RequestScratch {
    pub(crate) places: Scratch,
}

impl RequestScratch {
    /// An empty scratch. It grows with the largest body that was read, and keeps that memory.
    pub fn new(alloc: Global) -> RequestScratch {
        RequestScratch {
            places: Scratch::new(alloc),
        }
    }
}
