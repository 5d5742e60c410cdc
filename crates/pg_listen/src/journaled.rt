//! A server beside a journal of what it did.
ghost use Rattle.std.specs.Prelude.{◌≡◌, List, IfOk, IfSome};
ghost use Rattle.pg_journal.specs.Device.{Only};
ghost use Rattle.pg_journal.specs.Records.{Kept};
ghost use Rattle.pg_listen.specs.Keeping.{IsKeptOf, IsSettled, StartsWith, Takes, Writes};
ghost use Rattle.pg_listen.specs.Listens.{IsRollback};
ghost use Rattle.pg_listen.specs.Moments.{ServesKept};
ghost use Rattle.pg_server.specs.Handles.{Handles};
ghost use Rattle.pg_server.specs.Holds.{HoldTenants};

use crate::again::{Answering, Difference, Watch};
use crate::clients::{ListenEnd, listen};
use crate::frames::MAX_BODY;
use crate::keeper::Keeper;
use crate::limits::Limits;
use crate::network::Network;
use crate::service::Service;
use pg_graph::Tables;
use pg_journal::{Device, Journal, JournalError};
use pg_json::{ReplyBytes, refusal};
use pg_meaning::Fault;
use pg_server::{Server, TenantNames, law_calls};
use std::alloc::Global;

/// A server with its tenants' names, and what keeps the requests that it has done.
#[derive(Drop)]
pub struct Journaled<T: Tables, D: Device> {
    pub(crate) server: Server<T>,
    names: TenantNames,
    keeper: Keeper<D>,
}

/// Why a server wasn't started with its journal.
#[derive(Clone, Copy, Debug)]
pub struct Unstarted {
    pub fault: JournalError,
    /// How many requests were answered again before.
    pub requests: u64,
    /// Where the next one stands in the file, or is to.
    pub at: u64,
    /// That one is answered otherwise since its token is no tenant's.
    pub is_unknown: bool,
    pub difference: Option<Difference>,
}

impl<T: Tables, D: Device + Drop> Journaled<T, D> {
    /// A server that has answered again the requests of the file, and keeps in it those that it does, with the number of those and the one
    /// that watched. The names are those of its tenants, by their places; requests of other tenants are passed over, and stay.
    pub fn start<W: Watch + Drop>(
        alloc: Global,
        server: Server<T>,
        names: TenantNames,
        device: D,
        watch: W,
    ) -> Result<(Self, u64, W), Unstarted>
        ensures starts { D.is_honest → Only (D.seen device) (D.may_leave device)
            → IfOk result (λ r. StartsWith D.seen D.may_leave names
            (D.seen device) server.state r.0.server.state r.0.keeper) }
        ensures names { D.is_honest → Only (D.seen device) (D.may_leave device)
            → IfOk result (λ r. r.0.names ≡ names) }
    {
        let mut journal = Journal::new(alloc, device);
        let mut answering = Answering::new(server, names, watch);
        match journal.recover(alloc, &mut answering) {
            Ok(()) => {
                let keeper = Keeper::new(journal);
                Ok((
                    Journaled {
                        server: answering.server,
                        names: answering.names,
                        keeper,
                    },
                    answering.requests,
                    answering.watch,
                ))
            }
            Err(fault) => Err(Unstarted {
                fault,
                requests: answering.requests,
                at: answering.at,
                is_unknown: answering.is_unknown,
                difference: answering.difference,
            }),
        }
    }
}

impl<T: Tables, D: Device> Service for Journaled<T, D> {
    ghost answers = { λ old body reply new. Handles old.server.state body reply new.server.state
        × (new.names ≡ old.names)
        × ((more : List Kept) × IsKeptOf old.names old.server.state body reply new.server.state more
        × Takes D.seen D.may_leave old.keeper new.keeper more) };

    ghost settles = { λ old new. (new.server ≡ old.server) × (new.names ≡ old.names)
        × (D.is_honest
        → Writes D.seen D.may_leave D.moment D.left_since old.keeper new.keeper) };

    ghost all_kept = { λ s. IsSettled s.keeper };

    ghost is_own = { IsRollback };

    fn answer(&mut self, body: &[u8]) -> ReplyBytes {
        if body.len() > MAX_BODY {
            return refusal(Fault::FrameTooLong);
        }
        // (what is done can be kept then)
        if !self.keeper.make_room(self.names.longest(), body) {
            return refusal(Fault::OutOfMemory);
        }
        let answered = self.server.handle_noting(body);
        if let Some(place) = answered.changed {
            let name = self.names.name(place);
            self.keeper.keep(name, body, answered.reply.as_slice());
        }
        answered.reply
    }

    fn is_settled(&self) -> bool {
        self.keeper.is_settled()
    }

    fn settle(&mut self) -> bool {
        self.keeper.settle()
    }

    fn unsettled(&self) -> usize {
        self.keeper.waiting()
    }

    fn tenant(&self, body: &[u8]) -> Option<usize> {
        self.server.tenant_of(body)
    }

    fn is_open(&self, place: usize) -> bool {
        self.server.has_transaction(place)
    }

    fn rollback(&self, place: usize) -> Option<Vec<u8>> {
        self.server.rollback_body(place)
    }
}

/// Serves clients as `listen_on` does, but that nothing is sent before all that was done is in the journal.
pub fn listen_on_journal<N: Network, T: Tables, D: Device>(
    alloc: Global,
    net: &mut N,
    service: &mut Journaled<T, D>,
    limits: Limits,
    steps: u64,
) -> ListenEnd
    ensures serves { ServesKept D.is_honest D.seen D.may_leave D.moment D.left_since
        (N.trace net.old) (N.trace net.new) service.old.server.state service.new.server.state
        service.old.names service.new.names service.old.keeper service.new.keeper }
{
    law_calls();
    listen(alloc, net, service, limits, steps)
}
