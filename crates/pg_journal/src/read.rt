//! Reads the records of a file, one after the other.
ghost use Rattle.std.specs.Prelude.{◌≡◌, ◌⊎◌, ◌<◌, ◌≤◌, ◌+◌, ◌^◌, ◌++◌, [], ◌∷◌, ℕ, List, IsErrOf, length, take, IfOk, OnOk};
ghost use Rattle.pg_journal.specs.Device.{part, Only, LeavesOnly, HasCause};
ghost use Rattle.pg_journal.specs.Records.{Kept, number, written, records, last_digest};
ghost use Rattle.pg_journal.specs.Files.{first_record, Recovers};
ghost use Rattle.pg_journal.specs.Reading.{IsRead, IsSized, Tells, IsNext, IsFound, FindsIn, RecoversAlike};

use crate::digest::{NONE, digest_on};
use crate::head::{FIRST_RECORD, Head, number_at, read_head};
use crate::records::FIXED;
use crate::steps::begin;
use crate::{Device, JournalError, Replay, Reply};
use std::alloc::Global;

// The bytes of a record that stand before its tenant's name.
const FRONT: usize = 32;

// Gives a record to be replayed, if its digest is right.
fn give<R: Replay>(
    front: &[u8],
    rest: &[u8],
    tenant: usize,
    body: usize,
    digest: u64,
    replay: &mut R,
) -> Result<u64, JournalError>
    requires front { length front.now ≡ 32 }
    requires rest { length rest.now ≡ tenant + body + 8 }
    requires tenant { number tenant ≡ part 0 8 front.now }
    requires body { number body ≡ part 8 8 front.now }
    ensures next { IfOk result (λ next. (k : Kept)
        × IsNext R.replays digest (front.now ++ rest.now) next replay.old replay.new k) }
    ensures damaged { IsErrOf result JournalError.Damaged
        → (k : Kept) → IsSized k → front.now ++ rest.now ≡ written digest k → ⊥ }
    ensures foreign { IsErrOf result JournalError.Foreign → ⊥ }
{
    let end = tenant + body;
    let next = digest_on(digest_on(digest, front), &rest[..end]);
    if number_at(rest, end) != next {
        return Err(JournalError::Damaged);
    }
    let reply = Reply {
        length: number_at(front, 16),
        digest: number_at(front, 24),
    };
    replay.replay(&rest[..tenant], &rest[tenant..end], reply)?;
    Ok(next)
}

// Reads the record at a place, behind which there are so many bytes, and gives its length and the digest up to it.
fn read_one<D: Device, R: Replay>(
    alloc: Global,
    device: &mut D,
    at: usize,
    room: usize,
    digest: u64,
    replay: &mut R,
) -> Result<(usize, u64), JournalError>
    requires { (first_record + at) + room < 2 ^ 64 }
    ensures length { IfOk result (λ r. (0 < r.0) × (r.0 ≤ room)) }
    ensures next { D.is_honest → (first_record + at) + room ≤ length (D.seen device.old)
        → IfOk result (λ r. (k : Kept) × IsNext R.replays digest
        (part (first_record + at) r.0 (D.seen device.old)) r.1 replay.old replay.new k) }
    ensures damaged { D.is_honest → (first_record + at) + room ≤ length (D.seen device.old)
        → IsErrOf result JournalError.Damaged → (k : Kept) → length (written digest k) ≤ room
        → part (first_record + at) (length (written digest k)) (D.seen device.old)
        ≡ written digest k → ⊥ }
    ensures foreign { D.is_honest → IsErrOf result JournalError.Foreign → ⊥ }
    ensures reads { D.is_honest
        → IsRead D.seen D.may_leave D.moment D.left_since device.old device.new }
{
    if room < FIXED {
        return Err(JournalError::Damaged);
    }
    let front = device.read_at(alloc, FIRST_RECORD + at, FRONT)?;
    let (tenant, body) = (number_at(&front, 0), number_at(&front, 8));
    let most = (room - FIXED) as u64;
    if tenant > most || body > most - tenant {
        return Err(JournalError::Damaged);
    }
    let (tenant, body) = (tenant as usize, body as usize);
    let rest = device.read_at(alloc, FIRST_RECORD + at + FRONT, tenant + body + 8)?;
    let next = give(&front, &rest, tenant, body, digest, replay)?;
    Ok((FIXED + tenant + body, next))
}

/// Reads records of so many bytes, and gives their digest.
pub(crate) fn read_all<D: Device, R: Replay>(
    alloc: Global,
    device: &mut D,
    size: usize,
    replay: &mut R,
) -> Result<u64, JournalError>
    requires { first_record + size < 2 ^ 64 }
    ensures found { D.is_honest → first_record + size ≤ length (D.seen device.old)
        → IfOk result (λ digest. (ks : List Kept)
        × IsFound R.replays size digest (D.seen device.old) replay.old replay.new ks) }
    ensures damaged { D.is_honest
        → first_record + size ≤ length (D.seen device.old) → IsErrOf result JournalError.Damaged
        → (ks : List Kept) → part first_record size (D.seen device.old) ≡ records ks → ⊥ }
    ensures foreign { D.is_honest → IsErrOf result JournalError.Foreign → ⊥ }
    ensures reads { D.is_honest
        → IsRead D.seen D.may_leave D.moment D.left_since device.old device.new }
{
    let mut at = 0;
    let mut digest = NONE;
    while at < size {
        let (length, next) = read_one(alloc, device, at, size - at, digest, replay)?;
        at += length;
        digest = next;
    }
    Ok(digest)
}

// What the head of a file tells, and the file's length.
fn head_of<D: Device>(alloc: Global, device: &mut D) -> Result<(Head, usize), JournalError>
    ensures tells { D.is_honest
        → IfOk result
        (λ r. Tells (take first_record (D.seen device.old)) (length (D.seen device.old)) r.0) }
    ensures length { D.is_honest → IfOk result (λ r. r.1 ≡ length (D.seen device.old)) }
    ensures fits { IfOk result (λ r. r.1 < 2 ^ 64) }
    ensures cause { D.is_honest → HasCause (D.faults device.old) (D.faults device.new) result }
    ensures reads { D.is_honest
        → IsRead D.seen D.may_leave D.moment D.left_since device.old device.new }
{
    let length = device.len()?;
    let head = device.read_at(alloc, 0, length.min(FIRST_RECORD))?;
    Ok((read_head(&head, length), length))
}

// Replays the records of a file of a length, of which a slot tells.
fn replay_all<D: Device, R: Replay>(
    alloc: Global,
    device: &mut D,
    file_length: usize,
    size: u64,
    digest: u64,
    replay: &mut R,
) -> Result<usize, JournalError>
    ensures size { IfOk result (λ r. (r ≡ size) × (first_record + size ≤ file_length)) }
    ensures found { D.is_honest → file_length ≡ length (D.seen device.old)
        → OnOk result ((ks : List Kept)
        × IsFound R.replays size digest (D.seen device.old) replay.old replay.new ks) }
    ensures damaged { D.is_honest
        → file_length ≡ length (D.seen device.old) → IsErrOf result JournalError.Damaged
        → (ks : List Kept) → first_record + size ≤ length (D.seen device.old)
        → part first_record size (D.seen device.old) ≡ records ks → digest ≡ last_digest ks → ⊥ }
    ensures foreign { D.is_honest → IsErrOf result JournalError.Foreign → ⊥ }
    ensures reads { D.is_honest
        → IsRead D.seen D.may_leave D.moment D.left_since device.old device.new }
{
    if file_length < FIRST_RECORD || size > (file_length - FIRST_RECORD) as u64 {
        return Err(JournalError::Damaged);
    }
    let size = size as usize;
    if read_all(alloc, device, size, replay)? != digest {
        return Err(JournalError::Damaged);
    }
    Ok(size)
}

/// Which slot of a file counts, how many bytes of records it tells of, and their digest. The records are replayed.
/// Where there is no journal yet, one is begun.
pub(crate) fn find<D: Device, R: Replay>(
    alloc: Global,
    device: &mut D,
    replay: &mut R,
) -> Result<(bool, usize, u64), JournalError>
    ensures found { D.is_honest → IfOk result (λ r. (ks : List Kept) × FindsIn R.replays
        (D.seen device.old) (D.seen device.new) r.0 r.1 r.2 replay.old replay.new ks) }
    ensures durable { D.is_honest → Only (D.seen device.old) (D.may_leave device.old)
        → OnOk result (Only (D.seen device.new) (D.may_leave device.new)) }
    // A crash at any moment leaves a file that stands for the same records.
    ensures any_moment { D.is_honest → Only (D.seen device.old) (D.may_leave device.old)
        → LeavesOnly D.moment D.left_since device.old device.new
        (RecoversAlike (D.seen device.old)) }
    ensures refused { D.is_honest
        → IsErrOf result JournalError.Damaged ⊎ IsErrOf result JournalError.Foreign
        → (ks : List Kept) → Recovers ks (D.seen device.old) → ⊥ }
{
    let (head, length) = head_of(alloc, device)?;
    match head {
        Head::Unbegun => {
            begin(device)?;
            Ok((false, 0, NONE))
        }
        Head::Foreign => Err(JournalError::Foreign),
        Head::Damaged => Err(JournalError::Damaged),
        Head::Counts(slot, size, digest) => {
            let size = replay_all(alloc, device, length, size, digest, replay)?;
            Ok((slot, size, digest))
        }
    }
}
