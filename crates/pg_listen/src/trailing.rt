//! A server beside a journal that may be behind what was sent.
ghost use Rattle.std.specs.Prelude.{◌≡◌, IfSome, ⊤};
ghost use Rattle.pg_listen.specs.Listens.{IsRollback, ServesMany};
ghost use Rattle.pg_server.specs.Handles.{Handles};

use crate::clients::{ListenEnd, listen};
use crate::journaled::Journaled;
use crate::limits::Limits;
use crate::network::Network;
use crate::service::Service;
use pg_graph::Tables;
use pg_journal::Device;
use pg_json::ReplyBytes;
use pg_server::law_calls;
use std::alloc::Global;

/// A server beside a journal for which no reply waits: a crash loses what was done since the last time that it was written.
#[derive(Drop)]
pub struct Trailing<T: Tables, D: Device> {
    journaled: Journaled<T, D>,
}

impl<T: Tables, D: Device> Trailing<T, D> {
    /// Records that wait already are written with the next ones.
    pub fn new(journaled: Journaled<T, D>) -> Self {
        Trailing { journaled }
    }
}

impl<T: Tables, D: Device> Service for Trailing<T, D> {
    ghost answers = { λ old body reply new. Handles
        old.journaled.server.state body reply new.journaled.server.state };

    ghost settles = { λ old new. new.journaled.server ≡ old.journaled.server };

    // No reply waits for it.
    ghost all_kept = { λ _. ⊤ };

    ghost is_own = { IsRollback };

    fn answer(&mut self, body: &[u8]) -> ReplyBytes {
        self.journaled.answer(body)
    }

    fn is_settled(&self) -> bool {
        true
    }

    fn settle(&mut self) -> bool {
        self.journaled.settle()
    }

    fn unsettled(&self) -> usize {
        self.journaled.unsettled()
    }

    fn tenant(&self, body: &[u8]) -> Option<usize> {
        self.journaled.tenant(body)
    }

    fn is_open(&self, place: usize) -> bool {
        self.journaled.is_open(place)
    }

    fn rollback(&self, place: usize) -> Option<Vec<u8>> {
        self.journaled.rollback(place)
    }
}

/// Serves clients as `listen_on` does, and writes what was done to the journal now and then, and at the end.
pub fn listen_on_trailing<N: Network, T: Tables, D: Device>(
    alloc: Global,
    net: &mut N,
    service: &mut Trailing<T, D>,
    limits: Limits,
    steps: u64,
) -> ListenEnd
    ensures serves { ServesMany (N.trace net.old) (N.trace net.new)
        service.old.journaled.server.state service.new.journaled.server.state }
{
    law_calls();
    let end = listen(alloc, net, service, limits, steps);
    if service.settle() {
        end
    } else {
        ListenEnd::NotKept
    }
}
