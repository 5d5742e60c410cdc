//! The two steps by which waiting records get into a file.
ghost use Rattle.std.specs.Prelude.{◌≡◌, ◌⊎◌, ◌≤◌, ◌+◌, ◌^◌, [], false, length, OnOk};
ghost use Rattle.pg_journal.specs.Device.{LeavesOnly, Only, HasCause, Holds, Torn};
ghost use Rattle.pg_journal.specs.Files.{first_record, mark, place_of, IsUnbegun, Recovers};
ghost use Rattle.pg_journal.specs.Digest.{digest_of_none};
ghost use Rattle.pg_journal.specs.Ready.{IsFile};
ghost use Rattle.pg_journal.specs.Steps.{Spares, IsStaged, marked};

use crate::head::FIRST_RECORD;
use crate::{Device, JournalError};

const MARK_AT: usize = 8;

pub(crate) fn place_of(slot: bool) -> usize
    ensures { result ≡ place_of slot }
{
    if slot { 25 } else { 9 }
}

fn byte_of(slot: bool) -> u8
    ensures { result ≡ mark slot }
{
    if slot { 51 } else { 15 }
}

/// Writes bytes behind the records, and the tally into the slot that doesn't count.
pub(crate) fn stage<D: Device>(
    device: &mut D,
    slot: bool,
    size: usize,
    bytes: &[u8],
    tally: &[u8; 16],
) -> Result<(), JournalError>
    requires { size ≤ 2 ^ 62 }
    ensures staged { D.is_honest → first_record + size ≤ length (D.seen device.old)
        → OnOk result
        (IsStaged slot size bytes.now tally.now (D.seen device.old) (D.seen device.new)) }
    ensures durable { D.is_honest
        → OnOk result (Only (D.seen device.new) (D.may_leave device.new)) }
    // A crash at any moment leaves what counts.
    ensures any_moment { D.is_honest → first_record + size ≤ length (D.seen device.old)
        → Only (D.seen device.old) (D.may_leave device.old)
        → LeavesOnly D.moment D.left_since device.old device.new
        (Spares slot size (D.seen device.old)) }
    ensures cause { D.is_honest → HasCause (D.faults device.old) (D.faults device.new) result }
{
    device.write_at(FIRST_RECORD + size, bytes)?;
    device.write_at(place_of(!slot), tally)?;
    device.sync()
}

/// Lets the other slot count.
pub(crate) fn mark<D: Device>(device: &mut D, slot: bool) -> Result<(), JournalError>
    ensures marked { D.is_honest → first_record ≤ length (D.seen device.old)
        → OnOk result (D.seen device.new ≡ marked slot (D.seen device.old)) }
    ensures durable { D.is_honest
        → OnOk result (Only (D.seen device.new) (D.may_leave device.new)) }
    // A crash at any moment leaves the file as it was, or with the mark.
    ensures any_moment { D.is_honest → first_record ≤ length (D.seen device.old)
        → Only (D.seen device.old) (D.may_leave device.old)
        → LeavesOnly D.moment D.left_since device.old device.new
        (λ c. (c ≡ D.seen device.old) ⊎ (c ≡ marked slot (D.seen device.old))) }
    ensures cause { D.is_honest → HasCause (D.faults device.old) (D.faults device.new) result }
{
    device.write_at(MARK_AT, &[byte_of(slot)])?;
    device.sync()
}

/// Writes bytes, and has them on the disk.
fn put<D: Device>(device: &mut D, at: usize, bytes: &[u8]) -> Result<(), JournalError>
    ensures written { D.is_honest → at ≤ length (D.seen device.old)
        → OnOk result (Holds (D.seen device.old) at bytes.now (D.seen device.new)) }
    ensures durable { D.is_honest
        → OnOk result (Only (D.seen device.new) (D.may_leave device.new)) }
    ensures any_moment { D.is_honest
        → at ≤ length (D.seen device.old) → Only (D.seen device.old) (D.may_leave device.old)
        → LeavesOnly D.moment D.left_since device.old device.new
        (λ c. (c ≡ D.seen device.old) ⊎ Torn at bytes.now (D.seen device.old) c) }
    ensures cause { D.is_honest → HasCause (D.faults device.old) (D.faults device.new) result }
{
    device.write_at(at, bytes)?;
    device.sync()
}

const FIRST_LETTER: [u8; 1] = [103];

// The rest of the name, the mark of the first slot, its tally of no records, and another that is free.
const REST: [u8; 40] = [
    114, 97, 112, 104, 100, 32, 106, 15, 0, 0, 0, 0, 0, 0, 0, 0, 203, 242, 156, 228, 132, 34, 35,
    37, 0, 0, 0, 0, 0, 0, 0, 0, 0, 0, 0, 0, 0, 0, 0, 0,
];

/// Makes a journal of no records where there is none yet.
pub(crate) fn begin<D: Device>(device: &mut D) -> Result<(), JournalError>
    ensures begun { D.is_honest → IsUnbegun (D.seen device.old)
        → OnOk result (IsFile false 0 digest_of_none [] (D.seen device.new)) }
    ensures durable { D.is_honest
        → OnOk result (Only (D.seen device.new) (D.may_leave device.new)) }
    ensures any_moment { D.is_honest
        → IsUnbegun (D.seen device.old) → Only (D.seen device.old) (D.may_leave device.old)
        → LeavesOnly D.moment D.left_since device.old device.new (Recovers []) }
    ensures cause { D.is_honest → HasCause (D.faults device.old) (D.faults device.new) result }
{
    put(device, 0, &[0])?;
    put(device, 1, &REST)?;
    put(device, 0, &FIRST_LETTER)
}
