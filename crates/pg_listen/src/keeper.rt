//! What keeps the requests that are done in a journal.
ghost use Rattle.std.specs.Prelude.{◌≡◌, ◌+◌, true, [], ◌∷◌, List, length};
ghost use Rattle.pg_journal.specs.Ready.{HasRoom, IsReady};
ghost use Rattle.pg_journal.specs.Records.{Kept};
ghost use Rattle.pg_listen.specs.Keeping.{record_of, HasKept, IsSettled, Takes, Writes};

use pg_journal::{Device, Journal, Reply};

/// A journal, and whether all that was done is in it.
#[derive(Drop)]
pub struct Keeper<D: Device> {
    journal: Journal<D>,
    // No record waits to be written.
    is_settled: bool,
    // A record couldn't be taken or written.
    lost: bool,
}

impl<D: Device> Keeper<D> {
    /// Keeps in a journal that is ready, and in which nothing waits.
    pub(crate) fn new(journal: Journal<D>) -> Keeper<D>
        ensures { (ks : List Kept)
            → IsReady D.seen D.may_leave journal ks [] → HasKept D.seen D.may_leave ks [] result }
    {
        Keeper {
            journal,
            is_settled: true,
            lost: false,
        }
    }

    /// Makes room for the record of a request of a tenant whose name has so many bytes at most, and says whether there is.
    pub(crate) fn make_room(&mut self, name: usize, body: &[u8]) -> bool
        ensures same { Takes D.seen D.may_leave self.old self.new [] }
        ensures room { result ≡ true → HasRoom self.new.journal (name + length body.now) }
    {
        self.journal.reserve(name, body.len()).is_ok()
    }

    /// Takes a request of the tenant of this name, for which there is room.
    pub(crate) fn keep(&mut self, tenant: &str, body: &[u8], reply: &[u8])
        requires { HasRoom self.old.journal (length tenant.now + length body.now) }
        ensures { Takes D.seen D.may_leave self.old self.new
            (record_of tenant.now body.now reply.now ∷ []) }
    {
        self.is_settled = false;
        let noted = Reply::of(reply);
        match self.journal.keep(tenant.as_bytes(), body, noted) {
            Ok(()) => {}
            Err(_) => self.lost = true,
        }
    }

    /// How many bytes of records wait.
    pub(crate) fn waiting(&self) -> usize {
        self.journal.waiting()
    }

    /// Whether all that was taken is on the disk.
    pub(crate) fn is_settled(&self) -> bool
        ensures { result ≡ true → IsSettled self.now }
    {
        self.is_settled && !self.lost
    }

    /// Writes what was taken, and says whether all is on the disk. If it isn't, it never will be.
    pub(crate) fn settle(&mut self) -> bool
        ensures { D.is_honest
            → Writes D.seen D.may_leave D.moment D.left_since self.old self.new }
    {
        if self.lost {
            return false;
        }
        if self.is_settled {
            return true;
        }
        match self.journal.flush() {
            Ok(()) => {
                self.is_settled = true;
                true
            }
            Err(_) => {
                self.lost = true;
                false
            }
        }
    }
}
