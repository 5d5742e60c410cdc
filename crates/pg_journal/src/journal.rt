//! Keeps records: first in memory, and then all that wait at once on the disk.
ghost use Rattle.std.specs.Prelude.{◌≡◌, ◌⊎◌, ◌<◌, ◌≤◌, ◌+◌, ◌^◌, ◌++◌, [], ◌∷◌, List, length, OnOk, OnErr, IsOk, IsErrOf};
ghost use Rattle.pg_journal.specs.Device.{LeavesOnly, Only};
ghost use Rattle.pg_journal.specs.Files.{Recovers};
ghost use Rattle.pg_journal.specs.Reading.{RecoversAlike, Replayed};
ghost use Rattle.pg_journal.specs.Records.{Kept};
ghost use Rattle.pg_journal.specs.Ready.{IsReady, IsBeforeOrAfter, HasRoom, device_of};
ghost use Rattle.pg_journal.specs.Views.{kept};

use crate::digest::NONE;
use crate::read::find;
use crate::records::{FIXED, put, tally};
use crate::steps::{mark, stage};
use crate::{Device, JournalError, Replay, Reply};
use std::alloc::{AllocError, Global};

const MAX_SIZE: usize = 1 << 62;

/// A file of records, and those that are still to be written.
#[derive(Drop)]
pub struct Journal<D: Device> {
    device: D,
    // Which of the two slots counts.
    slot: bool,
    // How many bytes of records the file has.
    size: usize,
    digest: u64,
    // The records that wait.
    waiting: Vec<u8>,
    waiting_digest: u64,
}

impl<D: Device> Journal<D> {
    /// A journal over a file that is still to be recovered.
    pub fn new(alloc: Global, device: D) -> Journal<D>
        ensures { device_of result ≡ device }
    {
        Journal {
            device,
            slot: false,
            size: 0,
            digest: NONE,
            waiting: Vec::new(alloc),
            waiting_digest: NONE,
        }
    }

    /// Replays the records of the file, in order, with one of them in memory at a time. It may crash too.
    pub fn recover<R: Replay>(&mut self, alloc: Global, replay: &mut R) -> Result<(), JournalError>
        // After a restart, what is read is what is on the disk.
        ensures recovered { D.is_honest
            → Only (D.seen (device_of self.old)) (D.may_leave (device_of self.old))
            → OnOk result ((ks : List Kept)
            × Recovers ks (D.seen (device_of self.old)) × IsReady D.seen D.may_leave self.new ks []
            × Replayed R.replays replay.old ks replay.new) }
        // A crash at any moment leaves a file that stands for the same records.
        ensures any_moment { D.is_honest
            → Only (D.seen (device_of self.old)) (D.may_leave (device_of self.old))
            → LeavesOnly D.moment D.left_since (device_of self.old)
            (device_of self.new) (RecoversAlike (D.seen (device_of self.old))) }
        // It refuses no file that stands for records.
        ensures refused { D.is_honest
            → IsErrOf result JournalError.Damaged ⊎ IsErrOf result JournalError.Foreign
            → (ks : List Kept) → Recovers ks (D.seen (device_of self.old)) → ⊥ }
    {
        let (slot, size, digest) = find(alloc, &mut self.device, replay)?;
        self.slot = slot;
        self.size = size;
        self.digest = digest;
        self.waiting.clear();
        self.waiting_digest = digest;
        Ok(())
    }

    /// Makes room for one more record, of a tenant's name and a body of these lengths: to keep that takes no memory then.
    pub fn reserve(&mut self, tenant: usize, body: usize) -> Result<(), AllocError>
        ensures same { (ks waiting : List Kept)
            → IsReady D.seen D.may_leave self.old ks waiting
            → IsReady D.seen D.may_leave self.new ks waiting }
        ensures file { device_of self.new ≡ device_of self.old }
        ensures room { OnOk result (HasRoom self.new (tenant + body)) }
        ensures fits { HasRoom self.old (tenant + body) → IsOk result }
    {
        let Some(texts) = tenant.checked_add(body) else {
            return Err(AllocError);
        };
        let Some(count) = texts.checked_add(FIXED) else {
            return Err(AllocError);
        };
        self.waiting.reserve(count)
    }

    /// Takes a record, to be written by the next `flush`. It takes no memory where there is room.
    pub fn keep(&mut self, tenant: &[u8], body: &[u8], reply: Reply) -> Result<(), AllocError>
        ensures waits { OnOk result ((ks waiting : List Kept)
            → IsReady D.seen D.may_leave self.old ks waiting
            → IsReady D.seen D.may_leave self.new ks
            (waiting ++ kept tenant.now body.now reply ∷ [])) }
        ensures same { OnErr result ((ks waiting : List Kept)
            → IsReady D.seen D.may_leave self.old ks waiting
            → IsReady D.seen D.may_leave self.new ks waiting) }
        ensures file { device_of self.new ≡ device_of self.old }
        ensures fits { HasRoom self.old (length tenant.now + length body.now) → IsOk result }
    {
        self.reserve(tenant.len(), body.len())?;
        let digest = put(&mut self.waiting, self.waiting_digest, tenant, body, reply)?;
        self.waiting_digest = digest;
        Ok(())
    }

    /// How many bytes wait to be written.
    pub fn waiting(&self) -> usize {
        self.waiting.len()
    }

    /// Writes all that waits. At `Ok` it is on the disk: from then on each crash leaves a file that has it.
    /// At `Err`, open the file again.
    pub fn flush(&mut self) -> Result<(), JournalError>
        ensures acknowledged { D.is_honest
            → (ks waiting : List Kept) → IsReady D.seen D.may_leave self.old ks waiting
            → OnOk result (IsReady D.seen D.may_leave self.new (ks ++ waiting) []) }

        // A crash at any moment of the call leaves the records from before it, with all that waited
        // or with none.
        ensures any_moment { D.is_honest
            → (ks waiting : List Kept) → IsReady D.seen D.may_leave self.old ks waiting
            → LeavesOnly D.moment D.left_since
            (device_of self.old) (device_of self.new) (IsBeforeOrAfter ks waiting) }

        // It doesn't give up by itself.
        ensures failed { D.is_honest → IsErrOf result JournalError.Failed
            → D.faults (device_of self.old) < D.faults (device_of self.new) }
        ensures full { D.is_honest → IsErrOf result JournalError.Full
            → 2 ^ 62 < self.old.size + length self.old.waiting.items }
        ensures told { D.is_honest → (e : JournalError) → IsErrOf result e
            → (e ≡ JournalError.Memory) ⊎ ((e ≡ JournalError.Failed) ⊎ (e ≡ JournalError.Full)) }
    {
        if self.waiting.is_empty() {
            return Ok(());
        }
        if self.size > MAX_SIZE || self.waiting.len() > MAX_SIZE - self.size {
            return Err(JournalError::Full);
        }
        let size = self.size + self.waiting.len();
        let tally = tally(size as u64, self.waiting_digest);
        stage(
            &mut self.device,
            self.slot,
            self.size,
            &self.waiting,
            &tally,
        )?;
        mark(&mut self.device, !self.slot)?;
        self.slot = !self.slot;
        self.size = size;
        self.digest = self.waiting_digest;
        self.waiting.clear();
        Ok(())
    }
}
