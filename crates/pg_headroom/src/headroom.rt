//! Whether memory is left for the requests of others.
use std::alloc::{AllocError, Global};

/// The memory that must be left after something is kept for good, in bytes: what common requests take while they are answered, many times over.
const HEADROOM: usize = 16 << 20;

/// How large a piece of it may be where memory has gaps, and how many there must be then.
const PIECE: usize = 1 << 20;

const PIECES: usize = 16;

/// Tests that as much memory is left as requests take that keep nothing, those that delete among them. Whoever is about to keep
/// something for good (elements, an index, a plan) asks first, and gives it up where the answer is an error.
pub fn test_headroom(alloc: Global) -> Result<(), AllocError> {
    match block(alloc, HEADROOM) {
        Ok(_) => Ok(()),
        Err(_) => test_pieces(alloc),
    }
}

fn test_pieces(alloc: Global) -> Result<(), AllocError> {
    let mut pieces = Vec::with_capacity(alloc, PIECES)?;
    for _ in 0..PIECES {
        pieces.push(block(alloc, PIECE)?)?;
    }
    Ok(())
}

// Not inlined, since a compiler that sees a block that nobody uses need not ask for it.
#[inline(never)]
fn block(alloc: Global, len: usize) -> Result<Vec<u8>, AllocError> {
    Vec::with_capacity(alloc, len)
}
