//! One client: what was read of it and not answered, and what it is to be sent.
ghost use Rattle.std.specs.Prelude.{◌≡◌};

use crate::frames::{Front, front_of, lacking};
use crate::limits::Limits;
use crate::network::Closing;
use crate::queue::Queue;
use crate::service::Service;
use crate::tenants::Tenants;
use std::alloc::{AllocError, Global};

#[derive(Drop)]
pub(crate) struct Client {
    pub(crate) inbox: Queue,
    pub(crate) outbox: Queue,
    /// A frame was too long.
    pub(crate) refused: bool,
    /// What had come was read once no more clients were wanted.
    has_read_last: bool,
    /// The place of the tenant whose token it has shown.
    tenant: Option<usize>,
    /// It has a turn to come.
    has_turn: bool,
    /// How many bytes of its outbox are counted.
    counted: usize,
    /// When it last waited for nothing, or had a request answered; or when it came, while it has shown no token.
    since: u64,
}

impl Client {
    ghost use Rattle.pg_listen.specs.Client.{seen};
    ghost use Rattle.pg_listen.specs.Moves.{opening};

    pub(crate) fn new(alloc: Global, now: u64) -> Client
        ensures { seen result ≡ opening }
    {
        Client {
            inbox: Queue::new(alloc),
            outbox: Queue::new(alloc),
            refused: false,
            has_read_last: false,
            tenant: None,
            has_turn: false,
            counted: 0,
            since: now,
        }
    }

    /// Neither in the middle of a frame, nor of a reply.
    pub(crate) fn is_idle(&self) -> bool {
        self.inbox.len() == 0 && self.outbox.len() == 0
    }

    /// Whether it may be closed where no more is wanted.
    pub(crate) fn is_done(&self) -> bool {
        self.is_idle() && !self.has_turn
    }

    /// Whether a frame in front may be answered or refused.
    pub(crate) fn has_frame(&self) -> bool {
        !matches!(front_of(self.inbox.front()), Front::Partial)
    }

    /// At most how many bytes are to be read where no more clients are wanted: what has come, once, and then the rest of a frame that was
    /// begun.
    pub(crate) fn last_reading(&mut self) -> usize
        ensures { seen self.new ≡ seen self.old }
    {
        if self.has_read_last {
            return lacking(self.inbox.front());
        }
        self.has_read_last = true;
        usize::MAX
    }

    /// Whether it keeps the server waiting for longer than it may.
    pub(crate) fn is_late(&self, now: u64, limits: &Limits) -> bool {
        !self.has_turn
            && limits.patience < now.saturating_sub(self.since)
            && (self.tenant.is_none() || !self.is_idle())
    }

    /// Notes when it last waited for nothing or had a request answered, once it has shown a token.
    pub(crate) fn note_time(&mut self, has_answers: bool, now: u64)
        ensures { seen self.new ≡ seen self.old }
    {
        if self.tenant.is_some() && (has_answers || self.is_idle()) {
            self.since = now;
        }
    }

    /// Counts it among its tenant's, once a frame in front shows a token.
    pub(crate) fn join<S: Service>(
        &mut self,
        service: &S,
        tenants: &mut Tenants,
    ) -> Result<(), Closing>
        ensures { seen self.new ≡ seen self.old }
    {
        if self.tenant.is_some() {
            return Ok(());
        }
        let Front::Body(n) = front_of(self.inbox.front()) else {
            return Ok(());
        };
        let Some(place) = service.tenant(&self.inbox.front()[4..4 + n]) else {
            return Ok(());
        };
        tenants.join(place)?;
        tenants.count(None, self.counted, 0);
        self.counted = 0;
        self.tenant = Some(place);
        Ok(())
    }

    /// Whether it has shown a token of a tenant.
    pub(crate) fn has_tenant(&self) -> bool {
        self.tenant.is_some()
    }

    /// The place of the tenant whose token it has shown.
    pub(crate) fn tenant(&self) -> Option<usize> {
        self.tenant
    }

    /// How many bytes of replies may still be made for it.
    pub(crate) fn room(&self, tenants: &Tenants) -> usize {
        tenants.room(self.tenant)
    }

    /// How many bytes of its replies are counted.
    pub(crate) fn waiting(&self) -> usize {
        self.counted
    }

    /// Has the bytes counted that wait for it.
    pub(crate) fn count(&mut self, tenants: &mut Tenants)
        ensures { seen self.new ≡ seen self.old }
    {
        let waiting = self.outbox.len();
        tenants.count(self.tenant, self.counted, waiting);
        self.counted = waiting;
    }

    /// Gives turns to its tenant's clients whose requests waited for room.
    pub(crate) fn release(&self, tenants: &mut Tenants) {
        tenants.release(self.tenant);
    }

    /// Counts it no longer.
    pub(crate) fn leave(&self, number: u64, tenants: &mut Tenants) {
        tenants.count(self.tenant, self.counted, 0);
        tenants.leave(self.tenant, number);
        tenants.release(self.tenant);
    }

    /// Its turn has come, or one that is for sending alone and counts for none.
    pub(crate) fn take_turn(&mut self, only_sends: bool)
        ensures { seen self.new ≡ seen self.old }
    {
        self.has_turn = self.has_turn && only_sends;
    }

    /// Gives it a turn, unless it has one to come.
    pub(crate) fn give_turn(&mut self, number: u64, tenants: &mut Tenants) -> Result<(), AllocError>
        ensures { seen self.new ≡ seen self.old }
    {
        if !self.has_turn {
            tenants.push(self.tenant, number)?;
            self.has_turn = true;
        }
        Ok(())
    }

    /// Gives it a turn once fewer bytes of replies wait, unless it has one to come.
    pub(crate) fn hold(&mut self, number: u64, tenants: &mut Tenants) -> Result<(), AllocError>
        ensures { seen self.new ≡ seen self.old }
    {
        if !self.has_turn {
            tenants.hold(self.tenant, number)?;
            self.has_turn = true;
        }
        Ok(())
    }
}
