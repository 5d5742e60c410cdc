//! One connection that doesn't wait, and what it was last reported to be ready for.
ghost use Rattle.std.specs.Prelude.{None};
ghost use Rattle.pg_listen.specs.Network.{IsReceived, IsSent};

use mio::event::Event;
use mio::net::TcpStream;
use mio::{Interest, Registry, Token};
use pg_listen::{Received, Sent};
use std::io;
use std::io::{ErrorKind, Read, Write};
use std::net::{Shutdown, SocketAddr};

/// How often a call is tried again that was interrupted.
pub(crate) const TRIES: u32 = 8;

/// How often what a closed connection's peer still sends is read, before others have their turn.
const DISCARDED_AT_ONCE: u32 = 16;

#[derive(Drop)]
pub(crate) struct Connection {
    stream: TcpStream,
    address: SocketAddr,
    is_readable: bool,
    is_writable: bool,
    /// The peer sends no more, so a read goes on to the end.
    has_end: bool,
    /// When it is given up, in microseconds, where all is sent and what the peer still sends is read to its end.
    lingers: Option<u64>,
}

/// What became of a connection that lingers.
#[derive(Clone, Copy)]
pub(crate) enum Discarded {
    /// The peer may send more.
    Waits,
    /// More is there.
    More,
    Ended,
}

impl Connection {
    /// Has the system report what the connection is ready for, under the client's number.
    pub(crate) fn new(
        registry: &Registry,
        client: u64,
        mut stream: TcpStream,
        address: SocketAddr,
    ) -> io::Result<Connection> {
        // A socket that can't be told to send at once serves all the same.
        let _ = stream.set_nodelay(true);
        registry.register(
            &mut stream,
            Token(client as usize),
            Interest::READABLE | Interest::WRITABLE,
        )?;
        Ok(Connection {
            stream,
            address,
            is_readable: true,
            is_writable: true,
            has_end: false,
            lingers: None,
        })
    }

    /// Where the peer is.
    pub(crate) fn address(&self) -> SocketAddr {
        self.address
    }

    /// Has the system report once more what the connection is ready for.
    pub(crate) fn report_again(&mut self, registry: &Registry, client: u64) {
        let _ = registry.reregister(
            &mut self.stream,
            Token(client as usize),
            Interest::READABLE | Interest::WRITABLE,
        );
    }

    /// Notes what the system reported.
    pub(crate) fn note(&mut self, event: &Event) {
        let has_failed = event.is_error() || event.is_write_closed();
        let has_end = event.is_read_closed() || has_failed;
        if event.is_readable() || has_end {
            self.is_readable = true;
        }
        if event.is_writable() || has_failed {
            self.is_writable = true;
        }
        if has_end {
            self.has_end = true;
        }
    }

    pub(crate) fn receive(&mut self, buf: &mut [u8]) -> Received
        ensures { IsReceived None None 0 buf.new result }
    {
        if !self.is_readable {
            return Received::Waits;
        }
        for _ in 0..TRIES {
            match self.stream.read(buf) {
                Ok(0) => return Received::Ended,
                Ok(n) => {
                    // so the socket is empty, and the next bytes are reported
                    if n < buf.len() && !self.has_end {
                        self.is_readable = false;
                    }
                    return Received::Bytes(n);
                }
                Err(e) if e.kind() == ErrorKind::WouldBlock => {
                    self.is_readable = false;
                    return Received::Waits;
                }
                Err(e) if e.kind() == ErrorKind::Interrupted => {}
                Err(_) => return Received::Failed,
            }
        }
        Received::Failed
    }

    pub(crate) fn send(&mut self, bytes: &[u8]) -> Sent
        ensures { IsSent None None 0 bytes.now result }
    {
        if !self.is_writable {
            return Sent::Full;
        }
        for _ in 0..TRIES {
            match self.stream.write(bytes) {
                Ok(n) => {
                    // so the socket is full, and room is reported
                    if n < bytes.len() {
                        self.is_writable = false;
                    }
                    return Sent::Taken(n);
                }
                Err(e) if e.kind() == ErrorKind::WouldBlock => {
                    self.is_writable = false;
                    return Sent::Full;
                }
                Err(e) if e.kind() == ErrorKind::Interrupted => {}
                Err(_) => return Sent::Failed,
            }
        }
        Sent::Failed
    }

    /// Sends no more.
    pub(crate) fn end(&self) {
        let _ = self.stream.shutdown(Shutdown::Write);
    }

    /// Sends no more, and has what the peer still sends read for a while: a socket that is closed with bytes unread
    /// is reset, and the peer may lose what it was sent.
    pub(crate) fn linger(&mut self, until: u64) {
        self.end();
        self.lingers = Some(until);
    }

    pub(crate) fn is_lingering(&self) -> bool {
        self.lingers.is_some()
    }

    /// Whether it lingered for long enough.
    pub(crate) fn is_given_up(&self, now: u64) -> bool {
        match self.lingers {
            Some(until) => until <= now,
            None => false,
        }
    }

    /// Reads what is there, and forgets it.
    pub(crate) fn discard(&mut self, scratch: &mut [u8]) -> Discarded {
        for _ in 0..DISCARDED_AT_ONCE {
            match self.receive(scratch) {
                Received::Bytes(_) => {}
                Received::Waits => return Discarded::Waits,
                Received::Ended | Received::Failed => return Discarded::Ended,
            }
        }
        Discarded::More
    }
}
