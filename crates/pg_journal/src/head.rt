//! The head of a file.
ghost use Rattle.std.specs.Prelude.{◌≡◌, ◌<◌, ◌≤◌, ◌^◌, ◌+◌, ◌↔◌, Bool, None, ℕ, ◌++◌, [], ◌∷◌, length, take, IsTrue, IfSome};
ghost use Rattle.pg_journal.specs.Device.{part};
ghost use Rattle.pg_journal.specs.Records.{number};
ghost use Rattle.pg_journal.specs.Files.{name, mark, first_record};
ghost use Rattle.pg_journal.specs.Reading.{Tells};

use crate::steps::place_of;

/// Where the records of a file begin.
pub const FIRST_RECORD: usize = 41;

/// What a head tells.
#[derive(Clone, Copy)]
pub(crate) enum Head {
    /// There is no journal yet.
    Unbegun,
    Foreign,
    Damaged,
    /// Which slot counts, how many bytes of records it tells of, and their digest.
    Counts(bool, u64, u64),
}

#[tactic(auto, unfolding(crate::specs::Records::number))]
pub(crate) fn number_at(bytes: &[u8], at: usize) -> u64
    requires { at + 8 ≤ length bytes.now }
    ensures number { number result ≡ part at 8 bytes.now }
    ensures fits { result < 2 ^ 64 }
{
    u64::from_be_bytes([
        bytes[at],
        bytes[at + 1],
        bytes[at + 2],
        bytes[at + 3],
        bytes[at + 4],
        bytes[at + 5],
        bytes[at + 6],
        bytes[at + 7],
    ])
}

fn is_named(head: &[u8]) -> bool
    ensures { IsTrue result ↔ (take 8 head.now ≡ name) }
{
    matches!(head, [103, 114, 97, 112, 104, 100, 32, 106, ..])
}

fn starts_with_zero(head: &[u8]) -> bool
    ensures { IsTrue result ↔ (take 1 head.now ≡ 0 ∷ []) }
{
    matches!(head, [0, ..])
}

fn slot_of(byte: u8) -> Option<bool>
    ensures some { IfSome result (λ slot. byte ≡ mark slot) }
    ensures none { result ≡ None → (slot : Bool) → byte ≡ mark slot → ⊥ }
{
    match byte {
        15 => Some(false),
        51 => Some(true),
        _ => None,
    }
}

fn counts(head: &[u8], slot: bool) -> Head
    requires long { length head.now ≡ first_record }
    requires named { take 9 head.now ≡ name ++ mark slot ∷ [] }
    ensures { (file_size : ℕ) → Tells head.now file_size result }
{
    let at = place_of(slot);
    Head::Counts(slot, number_at(head, at), number_at(head, at + 8))
}

/// What the first bytes of a file of a length tell.
pub(crate) fn read_head(head: &[u8], size: usize) -> Head
    ensures { Tells head.now size result }
{
    if size <= 1 || (size <= FIRST_RECORD && starts_with_zero(head)) {
        return Head::Unbegun;
    }
    if head.len() != FIRST_RECORD || !is_named(head) {
        return Head::Foreign;
    }
    match slot_of(head[8]) {
        None => Head::Damaged,
        Some(slot) => counts(head, slot),
    }
}
