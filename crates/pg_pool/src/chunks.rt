//! A list in chunks.
ghost use Rattle.std.specs.Prelude.{◌≡◌, ◌+◌, ◌<◌, ◌≤◌, ◌++◌, [], ◌∷◌, length, Some, OnOk, option_copied};
ghost use Rattle.std.specs.Prelude.{slice_get, slice_set, OnErr, IfOk};
ghost use Rattle.pg_pool.specs.Chunks.{items_of, spare_of, AreChunks, AreAllFull, HasSpareChunk};

use std::alloc::{AllocError, Global};
use std::marker::Model;
use std::mem;

/// How many items a chunk has.
const ITEMS: usize = 1024;

/// How many chunks there are at most: as many as have all places that 32 bits tell apart.
const MOST: usize = 4_194_304;

/// How many items the first chunk has room for at first.
const FIRST: usize = 4;

/// The memory that must be left in one piece where a chunk is added, in bytes: what a request takes that
/// goes over many elements, to delete some of them.
const ROOM: usize = 20 << 20;

/// A list that grows by chunks. The first one grows as a `Vec` does, until it is full; each later one
/// is made with all its room, and no item moves again.
#[derive(Drop)]
pub(crate) struct Chunks<T> {
    alloc: Global,
    chunks: Vec<Vec<T>>,
}

impl<T> Model for Chunks<T> {
    ghost use Rattle.pg_pool.specs.Chunks.{Row, row_code, items_of, spare_of, AreChunks};

    ghost Value = { Row T };

    ghost coded = { row_code T.code };

    ghost view = { λ a. record { items = items_of a.chunks.items; spare = spare_of a.chunks.items } };

    ghost invariant = { λ a. AreChunks a.chunks.items };
}

// Not inlined, since a compiler that sees a block that nobody uses need not ask for it.
#[inline(never)]
fn block(alloc: Global) -> Result<Vec<u8>, AllocError> {
    Vec::with_capacity(alloc, ROOM)
}

// How many items a new chunk has room for, where so much memory is left behind it.
fn room_of_next(alloc: Global, is_first: bool) -> Result<usize, AllocError>
    ensures { IfOk result (λ room. 0 < room) }
{
    if is_first {
        return Ok(FIRST);
    }
    drop(block(alloc)?);
    Ok(ITEMS)
}

// Adds an empty chunk where all are full.
fn add_chunk<T: Drop>(chunks: &mut Vec<Vec<T>>, alloc: Global) -> Result<(), AllocError>
    requires { AreAllFull chunks.old.items }
    ensures ok { OnOk result (HasSpareChunk chunks.old.items chunks.new.items) }
    ensures err { OnErr result (chunks.new.items ≡ chunks.old.items) }
{
    if chunks.len() >= MOST {
        return Err(AllocError);
    }
    let room = room_of_next(alloc, chunks.is_empty())?;
    let chunk = Vec::with_capacity(alloc, room)?;
    chunks.push(chunk)?;
    Ok(())
}

fn make_room<T: Drop>(chunks: &mut Vec<Vec<T>>, alloc: Global) -> Result<(), AllocError>
    requires { AreChunks chunks.old.items }
    ensures chunks { AreChunks chunks.new.items }
    ensures items { items_of chunks.new.items ≡ items_of chunks.old.items }
    ensures room { OnOk result (0 < spare_of chunks.new.items) }
{
    let count = chunks.len();
    if count > 0 && chunks[count - 1].len() < ITEMS {
        return chunks[count - 1].reserve(1);
    }
    add_chunk(chunks, alloc)
}

impl<T: Drop> Chunks<T> {
    pub(crate) fn new(alloc: Global) -> Self
        ensures { result.items ≡ [] }
    {
        Chunks {
            alloc,
            chunks: Vec::new(alloc),
        }
    }

    pub(crate) fn len(&self) -> usize
        ensures length { result ≡ length self.now.items }
        ensures small { result ≤ 4294967296 }
    {
        let count = self.chunks.len();
        if count == 0 {
            return 0;
        }
        (count - 1) * ITEMS + self.chunks[count - 1].len()
    }

    #[inline(always)]
    pub(crate) fn get(&self, at: usize) -> Option<&T>
        ensures { option_copied result ≡ slice_get self.now.items at }
    {
        let chunk = self.chunks.get(at / ITEMS)?;
        chunk.get(at % ITEMS)
    }

    /// The item at a place that has one.
    #[inline(always)]
    pub(crate) fn item(&self, at: usize) -> &T
        requires { at < length self.now.items }
        ensures { slice_get self.now.items at ≡ Some result.now }
    {
        let chunk = &self.chunks[at / ITEMS];
        &chunk[at % ITEMS]
    }

    /// Puts an item in the place of another, and returns that one.
    pub(crate) fn replace(&mut self, at: usize, item: T) -> T
        requires { at < length self.old.items }
        ensures before { slice_get self.old.items at ≡ Some result }
        ensures items { self.new.items ≡ slice_set self.old.items at item }
        ensures spare { self.new.spare ≡ self.old.spare }
        ensures small { length self.new.items ≤ 4294967296 }
    {
        let chunk = &mut self.chunks[at / ITEMS];
        mem::replace(&mut chunk[at % ITEMS], item)
    }

    /// Makes room for one more item.
    pub(crate) fn reserve(&mut self) -> Result<(), AllocError>
        ensures items { self.new.items ≡ self.old.items }
        ensures room { OnOk result (0 < self.new.spare) }
    {
        make_room(&mut self.chunks, self.alloc)
    }

    /// Appends an item where there is room.
    pub(crate) fn push_reserved(&mut self, item: T)
        requires { 0 < self.old.spare }
        ensures items { self.new.items ≡ self.old.items ++ item ∷ [] }
        ensures small { length self.new.items ≤ 4294967296 }
    {
        let last = self.chunks.len() - 1;
        self.chunks[last].push_reserved(item);
    }

    /// Drops all items, and gives all memory back.
    pub(crate) fn clear(&mut self)
        ensures { self.new.items ≡ [] }
    {
        self.chunks = Vec::new(self.alloc);
    }
}
