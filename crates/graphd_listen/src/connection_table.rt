//! The connections that are open, by the numbers of their clients, and those that linger behind their end.
ghost use Rattle.std.specs.Prelude.{None};
ghost use Rattle.pg_listen.specs.Network.{IsReceived, IsSent};

use crate::connection::{Connection, Discarded};
use crate::lines::Peer;
use mio::Registry;
use mio::event::Event;
use pg_listen::{Received, Sent, Signal};
use std::alloc::{AllocError, Global};
use std::collections::HashMap;
use std::io;
use std::io::ErrorKind;

/// For how many microseconds a connection lingers at most.
const LINGER: u64 = 2_000_000;

/// So many connections linger at most.
const MOST_LINGERING: usize = 1024;

/// So many bytes are read at once of what a lingering connection's peer still sends.
const SCRATCH: usize = 65_536;

#[derive(Drop)]
pub(crate) struct ConnectionTable {
    alloc: Global,
    connections: HashMap<u64, Connection>,
    lingering: usize,
    scratch: Vec<u8>,
}

impl ConnectionTable {
    pub(crate) fn new(alloc: Global) -> Result<ConnectionTable, AllocError> {
        Ok(ConnectionTable {
            alloc,
            connections: HashMap::new(alloc),
            lingering: 0,
            scratch: vec![in alloc; 0u8; SCRATCH]?,
        })
    }

    pub(crate) fn insert(&mut self, client: u64, connection: Connection) -> io::Result<()> {
        match self.connections.insert(client, connection) {
            Ok(_) => Ok(()),
            Err(_) => Err(io::Error::from(ErrorKind::OutOfMemory)),
        }
    }

    /// The connection of a client, as lines name it.
    pub(crate) fn peer(&self, client: u64) -> Option<Peer> {
        let address = self.connections.get(&client)?.address();
        Some(Peer { client, address })
    }

    pub(crate) fn receive(&mut self, client: u64, buf: &mut [u8]) -> Received
        ensures { IsReceived None None 0 buf.new result }
    {
        match self.connections.get_mut(&client) {
            Some(connection) => connection.receive(buf),
            None => Received::Failed,
        }
    }

    pub(crate) fn send(&mut self, client: u64, bytes: &[u8]) -> Sent
        ensures { IsSent None None 0 bytes.now result }
    {
        match self.connections.get_mut(&client) {
            Some(connection) => connection.send(bytes),
            None => Sent::Failed,
        }
    }

    pub(crate) fn has_lingering(&self) -> bool {
        self.lingering > 0
    }

    /// Notes what the system reported of a client, which is then told if the client isn't gone.
    pub(crate) fn note(&mut self, registry: &Registry, client: u64, event: &Event) -> Signal {
        let Some(connection) = self.connections.get_mut(&client) else {
            return Signal::Nothing;
        };
        connection.note(event);
        if !connection.is_lingering() {
            return Signal::Ready(client);
        }
        self.discard(registry, client);
        Signal::Nothing
    }

    /// Reads what the peer of a lingering connection still sends.
    fn discard(&mut self, registry: &Registry, client: u64) {
        let Some(connection) = self.connections.get_mut(&client) else {
            return;
        };
        match connection.discard(&mut self.scratch) {
            Discarded::Waits => {}
            Discarded::More => connection.report_again(registry, client),
            Discarded::Ended => self.remove(client),
        }
    }

    /// Closes a connection at once.
    pub(crate) fn remove(&mut self, client: u64) {
        if let Some(connection) = self.connections.remove(&client) {
            if connection.is_lingering() {
                self.lingering = self.lingering.saturating_sub(1);
            }
            connection.end();
        }
    }

    /// Closes a connection once its peer has ended too, or a while has gone by.
    pub(crate) fn linger(&mut self, registry: &Registry, client: u64, now: u64) {
        if MOST_LINGERING <= self.lingering {
            return self.remove(client);
        }
        if let Some(connection) = self.connections.get_mut(&client) {
            connection.linger(now.saturating_add(LINGER));
            self.lingering = self.lingering.saturating_add(1);
            self.discard(registry, client);
        }
    }

    /// Closes the connections that lingered for long enough.
    pub(crate) fn give_up(&mut self, now: u64) {
        if let Ok(clients) = self.given_up(now) {
            for client in &clients {
                self.remove(*client);
            }
        }
    }

    fn given_up(&self, now: u64) -> Result<Vec<u64>, AllocError> {
        let mut clients = Vec::new(self.alloc);
        for (client, connection) in self.connections.iter() {
            if connection.is_given_up(now) {
                clients.push(*client)?;
            }
        }
        Ok(clients)
    }
}
