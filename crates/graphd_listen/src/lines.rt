//! The lines of the log, each an object of JSON.
use crate::log::Losses;
use std::alloc::{AllocError, Global};
use std::fmt;
use std::net::SocketAddr;

/// Seconds with six digits behind the point, of so many microseconds.
#[derive(Clone, Copy)]
pub(crate) struct Seconds(pub(crate) u64);

impl fmt::Display for Seconds {
    fn fmt<W: fmt::Write>(&self, f: &mut fmt::Formatter<W>) -> fmt::Result {
        let seconds = self.0 / 1_000_000;
        let micros = self.0 % 1_000_000;
        write!(f, "{seconds}.{micros:06}")
    }
}

/// The place of a tenant, or null.
#[derive(Clone, Copy)]
struct Place(Option<usize>);

impl fmt::Display for Place {
    fn fmt<W: fmt::Write>(&self, f: &mut fmt::Formatter<W>) -> fmt::Result {
        match self.0 {
            Some(place) => write!(f, "{place}"),
            None => write!(f, "null"),
        }
    }
}

/// A connection, as lines name it.
#[derive(Clone, Copy)]
pub(crate) struct Peer {
    pub(crate) client: u64,
    pub(crate) address: SocketAddr,
}

pub(crate) fn start_line(
    alloc: Global,
    time: Seconds,
    address: SocketAddr,
) -> Result<String, AllocError> {
    format!(in alloc; "{{\"time\":{time},\"event\":\"start\",\"address\":\"{address}\"}}\n")
}

/// Requests of the journal were answered again.
pub(crate) fn answered_line(
    alloc: Global,
    time: Seconds,
    requests: u64,
) -> Result<String, AllocError> {
    format!(in alloc; "{{\"time\":{time},\"event\":\"journal\",\"requests\":{requests}}}\n")
}

pub(crate) fn stop_line(alloc: Global, time: Seconds, why: &str) -> Result<String, AllocError> {
    format!(in alloc; "{{\"time\":{time},\"event\":\"stop\",\"why\":\"{why}\"}}\n")
}

/// A connection was cut off, or not served.
pub(crate) fn closed_line(
    alloc: Global,
    time: Seconds,
    peer: Peer,
    why: &str,
) -> Result<String, AllocError> {
    let client = peer.client;
    let address = peer.address;
    format!(in alloc;
        "{{\"time\":{time},\"event\":\"closed\",\"client\":{client},\"address\":\"{address}\",\"why\":\"{why}\"}}\n"
    )
}

/// A request was refused.
pub(crate) fn refused_line(
    alloc: Global,
    time: Seconds,
    peer: Peer,
    tenant: Option<usize>,
    code: u8,
) -> Result<String, AllocError> {
    let client = peer.client;
    let address = peer.address;
    let place = Place(tenant);
    format!(in alloc;
        "{{\"time\":{time},\"event\":\"refused\",\"client\":{client},\"address\":\"{address}\",\"tenant\":{place},\"code\":{code}}}\n"
    )
}

/// A transaction was rolled back whose client is gone, or it was tried to.
pub(crate) fn rolled_back_line(
    alloc: Global,
    time: Seconds,
    tenant: usize,
    code: u8,
) -> Result<String, AllocError> {
    format!(in alloc;
        "{{\"time\":{time},\"event\":\"rolled_back\",\"tenant\":{tenant},\"code\":{code}}}\n"
    )
}

/// A client couldn't be accepted.
pub(crate) fn not_accepted_line(alloc: Global, time: Seconds) -> Result<String, AllocError> {
    format!(in alloc; "{{\"time\":{time},\"event\":\"not_accepted\"}}\n")
}

/// Lines were dropped, or writes failed.
pub(crate) fn lost_line(
    alloc: Global,
    time: Seconds,
    losses: Losses,
) -> Result<String, AllocError> {
    let lines = losses.lines;
    let writes = losses.writes;
    format!(in alloc;
        "{{\"time\":{time},\"event\":\"lost\",\"lines\":{lines},\"failed_writes\":{writes}}}\n"
    )
}
