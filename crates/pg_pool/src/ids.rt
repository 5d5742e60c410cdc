//! A list of ids.
ghost use Rattle.std.specs.Prelude.{◌≡◌, ◌≤◌, ◌<◌, [], ◌∷◌, OnOk, OnErr, IfOk, IfSome, length};
ghost use Rattle.std.specs.List.{insert as insert_at, remove as remove_at};
ghost use Rattle.pg_pool.specs.Places.{ids_of};

use pg_value_core::RelId;
use std::alloc::{AllocError, Global};
use std::slice;

/// Ids, of which up to three take no memory beside the list.
#[derive(Drop)]
pub(crate) enum Ids {
    Nothing,
    One(RelId),
    Two([RelId; 2]),
    Three([RelId; 3]),
    More(Vec<RelId>),
}

impl Ids {
    #[inline(always)]
    pub(crate) fn as_slice(&self) -> &[RelId]
        ensures { result.now ≡ ids_of self.now }
    {
        match self {
            Ids::Nothing => &[],
            Ids::One(only) => slice::from_ref(only),
            Ids::Two(ids) => ids,
            Ids::Three(ids) => ids,
            Ids::More(ids) => ids.as_slice(),
        }
    }

    pub(crate) fn insert(&mut self, alloc: Global, at: usize, id: RelId) -> Result<(), AllocError>
        requires { at ≤ length (ids_of self.old) }
        ensures ok { OnOk result (ids_of self.new ≡ insert_at (ids_of self.old) at id) }
        ensures err { OnErr result (ids_of self.new ≡ ids_of self.old) }
    {
        match self {
            Ids::Nothing => *self = Ids::One(id),
            Ids::One(only) => *self = Ids::Two(two(*only, at, id)),
            Ids::Two(ids) => *self = Ids::Three(three(ids, at, id)),
            Ids::Three(ids) => *self = Ids::More(four(ids, alloc, at, id)?),
            Ids::More(ids) => insert_among(ids, at, id)?,
        }
        Ok(())
    }

    pub(crate) fn remove(&mut self, at: usize)
        requires { at < length (ids_of self.old) }
        ensures { ids_of self.new ≡ remove_at (ids_of self.old) at }
    {
        match self {
            Ids::Nothing => {}
            Ids::One(_) => *self = Ids::Nothing,
            Ids::Two(ids) => *self = Ids::One(one_of(ids, at)),
            Ids::Three(ids) => *self = Ids::Two(two_of(ids, at)),
            Ids::More(ids) => {
                ids.remove(at);
                shrink(ids);
                if let Some(few) = few(ids.as_slice()) {
                    *self = few;
                }
            }
        }
    }
}

fn two(first: RelId, at: usize, id: RelId) -> [RelId; 2]
    requires { at ≤ 1 }
    ensures { result ≡ insert_at (first ∷ []) at id }
{
    match at {
        0 => [id, first],
        _ => [first, id],
    }
}

fn three(ids: &[RelId; 2], at: usize, id: RelId) -> [RelId; 3]
    requires { at ≤ length ids.now }
    ensures { result ≡ insert_at ids.now at id }
{
    match at {
        0 => [id, ids[0], ids[1]],
        1 => [ids[0], id, ids[1]],
        _ => [ids[0], ids[1], id],
    }
}

// Room for one more, so that five ids fill a block of C's allocator.
#[inline(never)]
fn four(ids: &[RelId; 3], alloc: Global, at: usize, id: RelId) -> Result<Vec<RelId>, AllocError>
    requires { at ≤ length ids.now }
    ensures { IfOk result (λ v. v.items ≡ insert_at ids.now at id) }
{
    let mut more = Vec::with_capacity(alloc, 5)?;
    more.extend_from_slice(ids)?;
    more.insert(at, id)?;
    Ok(more)
}

fn insert_among(ids: &mut Vec<RelId>, at: usize, id: RelId) -> Result<(), AllocError>
    requires { at ≤ length ids.old.items }
    ensures ok { OnOk result (ids.new.items ≡ insert_at ids.old.items at id) }
    ensures err { OnErr result (ids.new.items ≡ ids.old.items) }
{
    make_room(ids)?;
    ids.insert(at, id)?;
    Ok(())
}

// Room for half as many ids again. C's allocator gives an odd number of eight bytes, so an even one
// would leave some unused.
fn make_room(ids: &mut Vec<RelId>) -> Result<(), AllocError>
    ensures { ids.new.items ≡ ids.old.items }
{
    let length = ids.len();
    if length < ids.capacity() {
        return Ok(());
    }
    let wanted = length.saturating_add(length / 2) | 1;
    ids.reserve_exact(wanted.saturating_sub(length))
}

fn one_of(ids: &[RelId; 2], at: usize) -> RelId
    requires { at < length ids.now }
    ensures { result ∷ [] ≡ remove_at ids.now at }
{
    match at {
        0 => ids[1],
        _ => ids[0],
    }
}

fn two_of(ids: &[RelId; 3], at: usize) -> [RelId; 2]
    requires { at < length ids.now }
    ensures { result ≡ remove_at ids.now at }
{
    match at {
        0 => [ids[1], ids[2]],
        1 => [ids[0], ids[2]],
        _ => [ids[0], ids[1]],
    }
}

// Gives room back where most of it is empty, but for as many ids again.
fn shrink(ids: &mut Vec<RelId>)
    ensures { ids.new.items ≡ ids.old.items }
{
    let length = ids.len();
    if length <= ids.capacity() / 4 {
        ids.shrink_to(length.saturating_mul(2));
    }
}

// What takes no memory beside the list, where there are two ids at most: so a list that goes to and
// fro between three and four doesn't ask for memory each time.
fn few(ids: &[RelId]) -> Option<Ids>
    ensures { IfSome result (λ few. ids_of few ≡ ids.now) }
{
    match ids {
        [] => Some(Ids::Nothing),
        [only] => Some(Ids::One(*only)),
        [first, second] => Some(Ids::Two([*first, *second])),
        _ => None,
    }
}
