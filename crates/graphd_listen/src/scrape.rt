//! One connection that asks for the metrics, by HTTP/1.0.
use crate::connection::TRIES;
use mio::net::TcpStream;
use mio::{Interest, Registry, Token};
use std::alloc::Global;
use std::io;
use std::io::{ErrorKind, Read, Write};
use std::net::Shutdown;

/// So many bytes a request may have.
const MOST_ASKED: usize = 8_192;

/// So many bytes are read at once.
const READ: usize = 1_024;

/// So often is read or written before others have their turn.
const ROUNDS: u32 = 16;

#[derive(Drop)]
pub(crate) struct Scrape {
    stream: TcpStream,
    asked: Vec<u8>,
    answer: Vec<u8>,
    sent: usize,
    // when it is closed, whatever has become of it
    until: u64,
}

/// Where it stands.
#[derive(Clone, Copy)]
pub(crate) enum Standing {
    /// More can be done once the system reports that.
    Waits,
    /// The request is whole.
    IsAsked,
    /// More can be done now.
    More,
    /// There is nothing more to do.
    IsOver,
}

/// What is asked for.
#[derive(Clone, Copy)]
pub(crate) enum Asked {
    Metrics,
    Health,
    /// No page that there is.
    Elsewhere,
    /// Another method than GET, or no HTTP.
    Otherwise,
}

impl Scrape {
    pub(crate) fn new(
        alloc: Global,
        registry: &Registry,
        token: Token,
        mut stream: TcpStream,
        until: u64,
    ) -> io::Result<Scrape> {
        registry.register(&mut stream, token, Interest::READABLE | Interest::WRITABLE)?;
        Ok(Scrape {
            stream,
            asked: Vec::new(alloc),
            answer: Vec::new(alloc),
            sent: 0,
            until,
        })
    }

    /// When it is closed at last.
    pub(crate) fn until(&self) -> u64 {
        self.until
    }

    /// Has the system report once more what it is ready for.
    pub(crate) fn report_again(&mut self, registry: &Registry, token: Token) {
        let _ = registry.reregister(
            &mut self.stream,
            token,
            Interest::READABLE | Interest::WRITABLE,
        );
    }

    /// Reads, or writes once there is an answer, as far as that goes without waiting.
    pub(crate) fn go_on(&mut self) -> Standing {
        for _ in 0..ROUNDS {
            let standing = if self.answer.is_empty() {
                self.read()
            } else {
                self.write()
            };
            match standing {
                Standing::More => {}
                other => return other,
            }
        }
        Standing::More
    }

    fn read(&mut self) -> Standing {
        let mut buf = [0u8; READ];
        for _ in 0..TRIES {
            match self.stream.read(&mut buf) {
                Ok(0) => return Standing::IsOver,
                Ok(n) => return self.take(&buf[..n]),
                Err(e) if e.kind() == ErrorKind::WouldBlock => return Standing::Waits,
                Err(e) if e.kind() == ErrorKind::Interrupted => {}
                Err(_) => return Standing::IsOver,
            }
        }
        Standing::IsOver
    }

    /// More of the request has come, which ends with an empty line.
    fn take(&mut self, bytes: &[u8]) -> Standing {
        if MOST_ASKED < self.asked.len().saturating_add(bytes.len())
            || self.asked.extend_from_slice(bytes).is_err()
        {
            return Standing::IsOver;
        }
        if self.asked.ends_with(b"\r\n\r\n") || self.asked.ends_with(b"\n\n") {
            Standing::IsAsked
        } else {
            Standing::More
        }
    }

    fn write(&mut self) -> Standing {
        for _ in 0..TRIES {
            match self
                .stream
                .write(self.answer.get(self.sent..).unwrap_or(&[]))
            {
                Ok(n) => return self.note_sent(n),
                Err(e) if e.kind() == ErrorKind::WouldBlock => return Standing::Waits,
                Err(e) if e.kind() == ErrorKind::Interrupted => {}
                Err(_) => return Standing::IsOver,
            }
        }
        Standing::IsOver
    }

    fn note_sent(&mut self, n: usize) -> Standing {
        self.sent = self.sent.saturating_add(n);
        if self.answer.len() <= self.sent {
            Standing::IsOver
        } else {
            Standing::More
        }
    }

    pub(crate) fn asked(&self) -> Asked {
        if self.asked.starts_with(b"GET /metrics ") {
            Asked::Metrics
        } else if self.asked.starts_with(b"GET /healthz ") {
            Asked::Health
        } else if self.asked.starts_with(b"GET ") {
            Asked::Elsewhere
        } else {
            Asked::Otherwise
        }
    }

    pub(crate) fn set_answer(&mut self, answer: Vec<u8>) {
        self.answer = answer;
    }

    /// Sends no more.
    pub(crate) fn end(&self) {
        let _ = self.stream.shutdown(Shutdown::Write);
    }
}
