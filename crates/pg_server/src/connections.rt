//! Serving the connections of a listener, one after the other.
ghost use Rattle.std.specs.Prelude.{◌≡◌, ◌<◌, ℕ, OnOk, OnErr};
ghost use Rattle.pg_server.specs.Connections.{Accepts, AnswersInTurn, endless};
ghost use Rattle.pg_server.specs.Served.{untold};
ghost use Rattle.pg_server.specs.Serves.{Serves};

use crate::counted::Counted;
use crate::counted_listener::CountedListener;
use crate::end::End;
use crate::serve_fault::ServeFault;
use crate::server::Server;
use pg_graph::Tables;
use std::net::TcpStream;

/// Serves so many connections over the same tenants, each until its end, whatever that is.
pub fn serve_on<T: Tables>(
    listener: &mut CountedListener<'_>,
    server: &mut Server<T>,
    count: u64,
) -> Result<(), ServeFault>
    ensures ok { OnOk result (Accepts count 0 listener.old listener.new
        × AnswersInTurn count server.old.state server.new.state) }
    ensures err { OnErr result
        ((served : ℕ) × (served < count) × Accepts served 1 listener.old listener.new
        × AnswersInTurn served server.old.state server.new.state) }
{
    for _served in 0..count {
        let Ok(stream) = listener.accept() else {
            return Err(ServeFault::Accept);
        };
        serve_connection(&stream, server);
    }
    Ok(())
}

/// Serves one connection, by one run of the server.
fn serve_connection<T: Tables>(stream: &TcpStream, server: &mut Server<T>) -> End
    ensures { Serves untold untold server.old.state server.new.state endless result }
{
    // A socket that can't be told to send at once serves all the same.
    let _ = stream.set_nodelay(true);
    let mut reader = Counted::new(stream);
    let mut writer = Counted::new(stream);
    server.run(&mut reader, &mut writer, u64::MAX)
}
