//! Serving many clients at once.
ghost use Rattle.std.specs.Prelude.{◌≡◌};
ghost use Rattle.pg_listen.specs.Listens.{ServesMany};
ghost use Rattle.pg_server.specs.Holds.{HoldTenants};

use crate::clients::{ListenEnd, listen};
use crate::limits::Limits;
use crate::network::Network;
use pg_graph::Tables;
use pg_server::{Server, law_calls};
use std::alloc::Global;

/// Serves clients over the same tenants, until no more are wanted or so many steps were taken.
pub fn listen_on<N: Network, T: Tables>(
    alloc: Global,
    net: &mut N,
    server: &mut Server<T>,
    limits: Limits,
    steps: u64,
) -> ListenEnd
    ensures serves { ServesMany
        (N.trace net.old) (N.trace net.new) server.old.state server.new.state }
    ensures tenants { HoldTenants T.seen server.new }
{
    law_calls();
    let end = listen(alloc, net, server, limits, steps);
    // which ensures of any server what is ensured here of its tenants
    let _ = server.shared();
    end
}
