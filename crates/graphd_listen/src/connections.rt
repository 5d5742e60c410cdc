//! Connections that don't wait, over readiness.
use crate::connection::{Connection, TRIES};
use crate::connection_table::ConnectionTable;
use crate::counts::{Counts, word_of};
use crate::lines::{
    Seconds, answered_line, closed_line, lost_line, not_accepted_line, refused_line,
    rolled_back_line, start_line, stop_line,
};
use crate::log::Log;
use crate::scrapes::{Known, Scrapes};
use mio::net::TcpListener;
use mio::unix::SourceFd;
use mio::{Events, Interest, Poll, Registry, Token};
use pg_listen::{Closing, Network, Received, ReplyNote, Sent, Signal};
use std::alloc::Global;
use std::io;
use std::io::ErrorKind;
use std::net::{Net, SocketAddr};
use std::time::{Clock, Duration, Instant, SystemTime, UNIX_EPOCH};

const LISTENER: Token = Token(usize::MAX);

const STANDARD_INPUT: Token = Token(usize::MAX - 1);

const METRICS: Token = Token(usize::MAX - 2);

/// The first token of those that ask for the metrics, above all clients' numbers.
const FIRST_SCRAPE: usize = usize::MAX - 16;

/// So many events of one wait.
const EVENTS: usize = 1024;

/// How far apart the ticks are, in microseconds.
const TICK: u64 = 1_000_000;

#[derive(Drop)]
pub(crate) struct Connections<'a, C: Clock> {
    alloc: Global,
    clock: &'a C,
    began: Instant,
    poll: Poll,
    events: Events,
    listener: Option<TcpListener>,
    table: ConnectionTable,
    counts: Counts,
    log: Log,
    scrapes: Option<Scrapes>,
    signals: Vec<Signal>,
    // how many of the signals were given
    given: usize,
    // when the last tick was, in microseconds
    ticked: u64,
}

impl<'a, C: Clock> Connections<'a, C> {
    /// Listens at the address. A line on standard input, or its end, stops it.
    pub(crate) fn bind<N: Net>(
        clock: &'a C,
        alloc: Global,
        address: SocketAddr,
        net: &N,
        log: Log,
    ) -> io::Result<Self> {
        let poll = Poll::new(net)?;
        let mut listener = TcpListener::bind(net, address)?;
        poll.registry()
            .register(&mut listener, LISTENER, Interest::READABLE)?;
        // (where standard input is a file or the null device, nothing stops it)
        let _ = poll
            .registry()
            .register(&mut SourceFd(&0), STANDARD_INPUT, Interest::READABLE);
        Ok(Connections {
            alloc,
            clock,
            began: Instant::now(clock)?,
            poll,
            events: Events::with_capacity(alloc, EVENTS)?,
            listener: Some(listener),
            table: ConnectionTable::new(alloc)?,
            counts: Counts::new(alloc)?,
            log,
            scrapes: None,
            signals: Vec::with_capacity(alloc, EVENTS + 2)?,
            given: 0,
            ticked: 0,
        })
    }

    /// Has the metrics told at an address. It is given back, with its port.
    pub(crate) fn tell_metrics<N: Net>(
        &mut self,
        address: SocketAddr,
        net: &N,
    ) -> io::Result<SocketAddr> {
        let registry = self.poll.registry();
        let scrapes = Scrapes::bind(self.alloc, registry, address, net, METRICS, FIRST_SCRAPE)?;
        let address = scrapes.address()?;
        self.scrapes = Some(scrapes);
        Ok(address)
    }

    /// The address that it listens at.
    pub(crate) fn address(&self) -> io::Result<SocketAddr> {
        match &self.listener {
            Some(listener) => listener.local_addr(),
            None => Err(io::Error::from(ErrorKind::NotConnected)),
        }
    }

    /// Asks the system what it has to report. It waits for that if it is told to, and no longer than to the next tick.
    fn ask(&mut self, waits: bool) -> io::Result<()> {
        let before = self.now();
        self.log.write(before);
        let left = (self.ticked.saturating_add(TICK)).saturating_sub(before);
        let rest = left.min(self.log.rest(before));
        // (a millisecond more, so that what is waited for is due then)
        let micros = if waits { rest.saturating_add(1_000) } else { 0 };
        let limit = Duration::from_micros(micros);
        self.poll.poll(&mut self.events, Some(limit))?;
        let now = time_since(self.clock, self.began)?;
        self.take_up(now);
        if self.ticked.saturating_add(TICK) <= now {
            self.tick(now);
            let _ = self.signals.push(Signal::Tick);
        }
        // (there is room for each event, and for these two)
        let _ = self.signals.push(Signal::Nothing);
        Ok(())
    }

    /// A second has gone by.
    fn tick(&mut self, now: u64) {
        self.ticked = now;
        self.table.give_up(now);
        if let Some(scrapes) = &mut self.scrapes {
            scrapes.give_up(now);
        }
        if let Some(losses) = self.log.begin_second() {
            if let Ok(line) = lost_line(self.alloc, self.time(), losses) {
                self.log.say_losses(&line);
            }
        }
    }

    /// Takes up what the system reported.
    fn take_up(&mut self, now: u64) {
        self.signals.clear();
        self.given = 0;
        let known = Known {
            counts: &self.counts,
            lost: self.log.lost(),
            is_stopping: self.listener.is_none(),
            now,
        };
        for event in &self.events {
            let registry = self.poll.registry();
            let signal = match event.token() {
                LISTENER => Signal::Arrival,
                STANDARD_INPUT if self.listener.is_some() => Signal::Stop,
                STANDARD_INPUT => Signal::Nothing,
                token if FIRST_SCRAPE <= token.0 => {
                    note_scrape(&mut self.scrapes, registry, token, known);
                    Signal::Nothing
                }
                Token(client) => self.table.note(registry, client as u64, event),
            };
            let _ = self.signals.push(signal);
        }
    }

    /// The time of day, for a line. Without a clock it is 1970.
    fn time(&self) -> Seconds {
        let since = match SystemTime::now(self.clock) {
            Ok(now) => now.duration_since(UNIX_EPOCH),
            Err(_) => return Seconds(0),
        };
        match since {
            Ok(gone) => Seconds(micros_of(gone)),
            Err(_) => Seconds(0),
        }
    }

    /// Says that it begins.
    pub(crate) fn say_start(&mut self, address: SocketAddr) {
        if let Ok(line) = start_line(self.alloc, self.time(), address) {
            self.log.push(&line);
        }
    }

    /// Says how many requests of the journal were answered again.
    pub(crate) fn say_answered(&mut self, requests: u64) {
        if let Ok(line) = answered_line(self.alloc, self.time(), requests) {
            self.log.push(&line);
        }
    }

    /// Says that it ends, and writes what is left.
    pub(crate) fn say_stop(&mut self, why: &str) {
        if let Ok(line) = stop_line(self.alloc, self.time(), why) {
            self.log.say_last(&line);
        }
        self.log.finish();
    }

    /// Says that a connection is closed, unless it ended well.
    fn say_closed(&mut self, client: u64, why: Closing) {
        if matches!(why, Closing::Ended | Closing::Stopped) || !self.log.has_room() {
            return;
        }
        if let Some(peer) = self.table.peer(client) {
            if let Ok(line) = closed_line(self.alloc, self.time(), peer, word_of(why)) {
                self.log.push(&line);
            }
        }
    }

    fn say_refused(&mut self, client: u64, tenant: Option<usize>, code: u8) {
        if !self.log.has_room() {
            return;
        }
        if let Some(peer) = self.table.peer(client) {
            if let Ok(line) = refused_line(self.alloc, self.time(), peer, tenant, code) {
                self.log.push(&line);
            }
        }
    }

    fn say_rolled_back(&mut self, tenant: usize, code: u8) {
        if self.log.has_room() {
            if let Ok(line) = rolled_back_line(self.alloc, self.time(), tenant, code) {
                self.log.push(&line);
            }
        }
    }

    /// A client was there and couldn't be accepted.
    fn say_not_accepted(&mut self) {
        self.counts.note_not_accepted();
        if self.log.has_room() {
            if let Ok(line) = not_accepted_line(self.alloc, self.time()) {
                self.log.push(&line);
            }
        }
    }

    /// Takes a connection up, if there is memory for it.
    fn insert(&mut self, client: u64, connection: Connection) -> bool {
        let is_there = self.table.insert(client, connection).is_ok();
        if is_there {
            self.counts.note_accepted();
        } else {
            self.say_not_accepted();
        }
        is_there
    }

    /// Lets connections that linger end, for a while.
    pub(crate) fn finish(&mut self) {
        for _ in 0..u64::MAX {
            if !self.table.has_lingering() || self.ask(true).is_err() {
                return;
            }
        }
    }
}

/// Microseconds since a moment.
fn time_since<C: Clock>(clock: &C, began: Instant) -> io::Result<u64> {
    Ok(micros_of(Instant::now(clock)?.saturating_duration_since(began)))
}

fn micros_of(gone: Duration) -> u64 {
    let seconds = gone.as_secs().saturating_mul(1_000_000);
    seconds.saturating_add(gone.subsec_micros() as u64)
}

/// The system reported something of who asks for the metrics, or that someone wants to.
fn note_scrape(scrapes: &mut Option<Scrapes>, registry: &Registry, token: Token, known: Known<'_>) {
    if let Some(scrapes) = scrapes {
        if token == METRICS {
            scrapes.accept(registry, known);
        } else {
            scrapes.note(registry, token, known);
        }
    }
}

impl<'a, C: Clock> Network for Connections<'a, C> {
    fn next(&mut self, waits: bool) -> Signal {
        if self.given == self.signals.len() && self.ask(waits).is_err() {
            return Signal::Failed;
        }
        let Some(signal) = self.signals.get(self.given) else {
            return Signal::Nothing;
        };
        let signal = *signal;
        self.given = self.given.saturating_add(1);
        signal
    }

    /// Without a clock it stands still, until `next` fails.
    fn now(&self) -> u64 {
        time_since(self.clock, self.began).unwrap_or(self.ticked)
    }

    fn accept(&mut self, client: u64) -> bool {
        for _ in 0..TRIES {
            let Some(listener) = &self.listener else {
                return false;
            };
            match listener.accept() {
                Ok((stream, address)) => {
                    let registry = self.poll.registry();
                    if let Ok(connection) = Connection::new(registry, client, stream, address) {
                        return self.insert(client, connection);
                    }
                }
                Err(e) if e.kind() == ErrorKind::WouldBlock => return false,
                Err(_) => {}
            }
        }
        self.say_not_accepted();
        false
    }

    fn receive(&mut self, client: u64, buf: &mut [u8]) -> Received {
        let received = self.table.receive(client, buf);
        self.counts.note_received(&received);
        received
    }

    fn send(&mut self, client: u64, bytes: &[u8]) -> Sent {
        let sent = self.table.send(client, bytes);
        self.counts.note_sent(&sent);
        sent
    }

    fn note(&mut self, client: u64, tenant: Option<usize>, replies: &[ReplyNote]) {
        for reply in replies {
            self.counts.note_reply(tenant, reply);
            if reply.code != 0 {
                self.say_refused(client, tenant, reply.code);
            }
        }
    }

    fn close(&mut self, client: u64, why: Closing) {
        self.counts.note_closed(why);
        self.say_closed(client, why);
        match why {
            Closing::TooLong | Closing::Stopped => {
                let now = self.now();
                self.table.linger(self.poll.registry(), client, now);
            }
            _ => self.table.remove(client),
        }
    }

    fn note_rollback(&mut self, tenant: usize, reply: &ReplyNote) {
        self.counts.note_rollback();
        self.say_rolled_back(tenant, reply.code);
    }

    fn stop(&mut self) {
        self.listener = None;
    }
}
