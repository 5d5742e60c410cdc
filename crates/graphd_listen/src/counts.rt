//! What has happened so far, in numbers.
use pg_listen::{Closing, Received, ReplyNote, Sent};
use std::alloc::{AllocError, Global};

/// Why connections are closed, by `place_of`.
pub(crate) const REASONS: [&str; 9] = [
    "ended",
    "cut",
    "too_long",
    "late",
    "too_many",
    "too_much_waiting",
    "failed",
    "no_memory",
    "stopped",
];

/// For so many microseconds at most the requests of a bucket were worked on. One more bucket has all others.
pub(crate) const BUCKETS: [u64; 7] = [10, 100, 1_000, 10_000, 100_000, 1_000_000, 10_000_000];

/// Codes are below this.
const CODES: usize = 100;

/// There are at most so many tenants.
const MOST_TENANTS: usize = 4_096;

/// The requests of the connections that have shown a token of one tenant.
#[derive(Clone, Copy)]
pub(crate) struct TenantCounts {
    pub(crate) requests: u64,
    pub(crate) refusals: u64,
    pub(crate) micros: u64,
}

#[derive(Drop)]
pub(crate) struct Counts {
    pub(crate) accepted: u64,
    /// Clients that were there and couldn't be accepted.
    pub(crate) not_accepted: u64,
    /// Connections that were closed, for each reason.
    pub(crate) closed: Vec<u64>,
    /// Bytes from clients.
    pub(crate) received: u64,
    /// Bytes that clients' connections took.
    pub(crate) sent: u64,
    pub(crate) requests: u64,
    /// Microseconds of all requests.
    pub(crate) micros: u64,
    /// Requests that were refused, for each code.
    pub(crate) refusals: Vec<u64>,
    /// How many requests each bucket has.
    pub(crate) buckets: Vec<u64>,
    /// Requests of the server's own, each of which rolls a transaction back.
    pub(crate) rollbacks: u64,
    /// Those of each tenant that was asked, by its place.
    pub(crate) tenants: Vec<TenantCounts>,
}

/// The place of a reason.
fn place_of(why: Closing) -> usize {
    match why {
        Closing::Ended => 0,
        Closing::Cut => 1,
        Closing::TooLong => 2,
        Closing::Late => 3,
        Closing::TooMany => 4,
        Closing::TooMuchWaiting => 5,
        Closing::Failed => 6,
        Closing::NoMemory => 7,
        Closing::Stopped => 8,
    }
}

/// A reason in a word.
pub(crate) fn word_of(why: Closing) -> &'static str {
    match REASONS.get(place_of(why)) {
        Some(word) => *word,
        None => "",
    }
}

/// Adds one to the count at a place.
fn count(counts: &mut [u64], place: usize) {
    if let Some(it) = counts.get_mut(place) {
        *it = it.saturating_add(1);
    }
}

impl Counts {
    pub(crate) fn new(alloc: Global) -> Result<Counts, AllocError> {
        Ok(Counts {
            accepted: 0,
            not_accepted: 0,
            closed: vec![in alloc; 0u64; 9]?,
            received: 0,
            sent: 0,
            requests: 0,
            micros: 0,
            refusals: vec![in alloc; 0u64; CODES]?,
            buckets: vec![in alloc; 0u64; 8]?,
            rollbacks: 0,
            tenants: Vec::new(alloc),
        })
    }

    /// How many connections there are.
    pub(crate) fn connections(&self) -> u64 {
        let mut left = self.accepted;
        for closed in &self.closed {
            left = left.saturating_sub(*closed);
        }
        left
    }

    pub(crate) fn note_accepted(&mut self) {
        self.accepted = self.accepted.saturating_add(1);
    }

    pub(crate) fn note_not_accepted(&mut self) {
        self.not_accepted = self.not_accepted.saturating_add(1);
    }

    pub(crate) fn note_closed(&mut self, why: Closing) {
        count(&mut self.closed, place_of(why));
    }

    pub(crate) fn note_received(&mut self, received: &Received) {
        if let Received::Bytes(n) = received {
            self.received = self.received.saturating_add(*n as u64);
        }
    }

    pub(crate) fn note_sent(&mut self, sent: &Sent) {
        if let Sent::Taken(n) = sent {
            self.sent = self.sent.saturating_add(*n as u64);
        }
    }

    /// A request was answered, to a connection that has shown a token of this tenant.
    pub(crate) fn note_reply(&mut self, tenant: Option<usize>, reply: &ReplyNote) {
        self.requests = self.requests.saturating_add(1);
        self.micros = self.micros.saturating_add(reply.micros);
        let mut bucket = 0usize;
        for most in &BUCKETS {
            if *most < reply.micros {
                bucket = 1usize.saturating_add(bucket);
            }
        }
        count(&mut self.buckets, bucket);
        if reply.code != 0 {
            count(&mut self.refusals, reply.code as usize);
        }
        if let Some(place) = tenant {
            self.note_tenant(place, reply);
        }
    }

    pub(crate) fn note_rollback(&mut self) {
        self.rollbacks = self.rollbacks.saturating_add(1);
    }

    fn note_tenant(&mut self, place: usize, reply: &ReplyNote) {
        if let Some(tenant) = self.tenant(place) {
            tenant.requests = tenant.requests.saturating_add(1);
            tenant.micros = tenant.micros.saturating_add(reply.micros);
            if reply.code != 0 {
                tenant.refusals = tenant.refusals.saturating_add(1);
            }
        }
    }

    /// The counts of the tenant at a place, made where they aren't there yet and there is memory for them.
    fn tenant(&mut self, place: usize) -> Option<&mut TenantCounts> {
        if MOST_TENANTS <= place {
            return None;
        }
        for _made in self.tenants.len()..place.saturating_add(1) {
            let none = TenantCounts {
                requests: 0,
                refusals: 0,
                micros: 0,
            };
            self.tenants.push(none).ok()?;
        }
        self.tenants.get_mut(place)
    }
}
