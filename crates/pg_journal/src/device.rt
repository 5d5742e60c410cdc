//! A file as the journal sees it: what a read returns, and what a crash may leave.
ghost use Rattle.std.specs.Prelude.{◌≡◌, ◌≤◌, ℕ, ◌+◌, List, length, IfOk, OnOk};
ghost use Rattle.pg_journal.specs.Device.{part, Only, Follows, Torn, Holds, Elapses, HasCause};

use crate::JournalError;
use std::alloc::Global;

/// A file. What its calls say of it holds of a device that is honest.
pub trait Device {
    // That it does what its calls say.
    ghost is_honest: { Type 0 };

    // The bytes that a read returns.
    ghost seen: { Self → List ℕ };

    // What a crash at this moment may leave.
    ghost may_leave: { Self → List ℕ → Type 0 };

    // The moment, as a number that doesn't fall.
    ghost moment: { Self → ℕ };

    // What a crash at some moment from that one on might have left, during a call or between two.
    ghost left_since: { Self → ℕ → List ℕ → Type 0 };

    // How often the disk has failed.
    ghost faults: { Self → ℕ };

    /// How many bytes there are.
    fn len(&mut self) -> Result<usize, JournalError>
        ensures length { is_honest → IfOk result (λ n. n ≡ length (seen self.old)) }
        ensures seen { is_honest → seen self.new ≡ seen self.old }
        ensures crash { is_honest → (c : List ℕ) → may_leave self.new c → may_leave self.old c }
        ensures time { is_honest
            → Elapses (moment self.old)
            (moment self.new) (left_since self.old) (left_since self.new) (may_leave self.new) }
        ensures cause { is_honest → HasCause (faults self.old) (faults self.new) result };

    /// So many bytes from a place on, all of which are there.
    fn read_at(&mut self, alloc: Global, at: usize, count: usize) -> Result<Vec<u8>, JournalError>
        ensures bytes { is_honest → at + count ≤ length (seen self.old)
            → IfOk result (λ bytes. bytes.items ≡ part at count (seen self.old)) }
        ensures count { IfOk result (λ bytes. length bytes.items ≡ count) }
        ensures seen { is_honest → seen self.new ≡ seen self.old }
        ensures crash { is_honest → (c : List ℕ) → may_leave self.new c → may_leave self.old c }
        ensures time { is_honest
            → Elapses (moment self.old)
            (moment self.new) (left_since self.old) (left_since self.new) (may_leave self.new) }
        ensures cause { is_honest → HasCause (faults self.old) (faults self.new) result };

    /// Writes over what is there, and past the end. Until a sync, a crash may leave any bytes in the range.
    fn write_at(&mut self, at: usize, bytes: &[u8]) -> Result<(), JournalError>
        ensures written { is_honest → at ≤ length (seen self.old)
            → OnOk result (Holds (seen self.old) at bytes.now (seen self.new)) }
        ensures crash { is_honest → at ≤ length (seen self.old)
            → Follows (Torn at bytes.now) (may_leave self.old) (may_leave self.new) }
        ensures time { is_honest
            → Elapses (moment self.old)
            (moment self.new) (left_since self.old) (left_since self.new) (may_leave self.new) }
        ensures cause { is_honest → HasCause (faults self.old) (faults self.new) result };

    /// After it, a crash leaves what a read returns.
    fn sync(&mut self) -> Result<(), JournalError>
        ensures durable { is_honest → OnOk result (Only (seen self.old) (may_leave self.new)) }
        ensures seen { is_honest → seen self.new ≡ seen self.old }
        ensures crash { is_honest → (c : List ℕ) → may_leave self.new c → may_leave self.old c }
        ensures time { is_honest
            → Elapses (moment self.old)
            (moment self.new) (left_since self.old) (left_since self.new) (may_leave self.new) }
        ensures cause { is_honest → HasCause (faults self.old) (faults self.new) result };

    // This moment is one of those since an earlier one.
    ghost counts_now: { (file : Self) (t : ℕ) (c : List ℕ)
        → t ≤ moment file → may_leave file c → left_since file t c };

    // Since this moment there is no other.
    ghost only_now: { (file : Self) (c : List ℕ)
        → left_since file (moment file) c → may_leave file c };
}
