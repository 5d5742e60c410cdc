//! Who asks for the metrics: a few connections beside those of clients.
use crate::counts::Counts;
use crate::log::Losses;
use crate::page::page_of;
use crate::scrape::{Asked, Scrape, Standing};
use mio::net::{TcpListener, TcpStream};
use mio::{Interest, Registry, Token};
use std::alloc::{AllocError, Global};
use std::io;
use std::io::ErrorKind;
use std::net::{Net, SocketAddr};

/// So many connections there may be at once; one more takes the place of the oldest.
const MOST_SCRAPES: usize = 8;

/// For how many microseconds a connection may last.
const PATIENCE: u64 = 5_000_000;

/// For how many microseconds a page is good, so that asking for it again and again takes no more time.
const GOOD: u64 = 100_000;

/// So many are accepted before others have their turn.
const ACCEPTED_AT_ONCE: u32 = 16;

const TEXT: &str = "text/plain; version=0.0.4; charset=utf-8";

/// What is known when a page is asked for.
#[derive(Clone, Copy)]
pub(crate) struct Known<'a> {
    pub(crate) counts: &'a Counts,
    pub(crate) lost: Losses,
    pub(crate) is_stopping: bool,
    pub(crate) now: u64,
}

#[derive(Drop)]
pub(crate) struct Scrapes {
    alloc: Global,
    listener: TcpListener,
    // the listener's token, and that of the first place
    listening: Token,
    first: usize,
    places: Vec<Option<Scrape>>,
    page: String,
    // until then the page is good
    until: u64,
}

impl Scrapes {
    /// Listens at the address, under a token, and gives connections the tokens from the first one on.
    pub(crate) fn bind<N: Net>(
        alloc: Global,
        registry: &Registry,
        address: SocketAddr,
        net: &N,
        token: Token,
        first: usize,
    ) -> io::Result<Scrapes> {
        let mut listener = TcpListener::bind(net, address)?;
        registry.register(&mut listener, token, Interest::READABLE)?;
        Ok(Scrapes {
            alloc,
            listener,
            listening: token,
            first,
            places: free_places(alloc)?,
            page: String::new(alloc),
            until: 0,
        })
    }

    pub(crate) fn address(&self) -> io::Result<SocketAddr> {
        self.listener.local_addr()
    }

    fn token(&self, place: usize) -> Token {
        Token(self.first.saturating_add(place))
    }

    /// A free place, or that of the oldest.
    fn place(&self) -> usize {
        let mut found = 0;
        let mut least = u64::MAX;
        for (place, it) in self.places.iter().enumerate() {
            let until = match it {
                Some(scrape) => scrape.until(),
                None => 0,
            };
            if until < least {
                least = until;
                found = place;
            }
        }
        found
    }

    /// Takes who is there, so many at once.
    pub(crate) fn accept(&mut self, registry: &Registry, known: Known<'_>) {
        for _ in 0..ACCEPTED_AT_ONCE {
            match self.listener.accept() {
                Ok((stream, _)) => self.take(registry, stream, known),
                Err(e) if e.kind() == ErrorKind::ConnectionAborted => {}
                Err(_) => return,
            }
        }
        // (what is ready is reported once, so those who are left wouldn't be)
        let _ = registry.reregister(&mut self.listener, self.listening, Interest::READABLE);
    }

    fn take(&mut self, registry: &Registry, stream: TcpStream, known: Known<'_>) {
        let place = self.place();
        let token = self.token(place);
        let until = known.now.saturating_add(PATIENCE);
        self.remove(place);
        if let Ok(scrape) = Scrape::new(self.alloc, registry, token, stream, until) {
            self.put(place, scrape);
            self.go_on(registry, place, known);
        }
    }

    fn put(&mut self, place: usize, scrape: Scrape) {
        if let Some(it) = self.places.get_mut(place) {
            *it = Some(scrape);
        }
    }

    fn remove(&mut self, place: usize) {
        if let Some(it) = self.places.get_mut(place) {
            if let Some(scrape) = it.take() {
                scrape.end();
            }
        }
    }

    /// The system reported something of the connection with this token, if there is one.
    pub(crate) fn note(&mut self, registry: &Registry, token: Token, known: Known<'_>) {
        self.go_on(registry, token.0.saturating_sub(self.first), known);
    }

    fn go_on(&mut self, registry: &Registry, place: usize, known: Known<'_>) {
        match self.advance(place, known) {
            Standing::IsOver => self.remove(place),
            Standing::More => self.report_again(registry, place),
            Standing::Waits | Standing::IsAsked => {}
        }
    }

    fn report_again(&mut self, registry: &Registry, place: usize) {
        let token = self.token(place);
        if let Some(Some(scrape)) = self.places.get_mut(place) {
            scrape.report_again(registry, token);
        }
    }

    /// Reads, answers and writes, as far as that goes without waiting.
    fn advance(&mut self, place: usize, known: Known<'_>) -> Standing {
        let Some(Some(scrape)) = self.places.get_mut(place) else {
            return Standing::Waits;
        };
        let standing = scrape.go_on();
        if !matches!(standing, Standing::IsAsked) {
            return standing;
        }
        let asked = scrape.asked();
        match self.answer(asked, known) {
            Ok(answer) => self.send(place, answer),
            Err(_) => Standing::IsOver,
        }
    }

    fn send(&mut self, place: usize, answer: Vec<u8>) -> Standing {
        let Some(Some(scrape)) = self.places.get_mut(place) else {
            return Standing::Waits;
        };
        scrape.set_answer(answer);
        scrape.go_on()
    }

    fn answer(&mut self, asked: Asked, known: Known<'_>) -> Result<Vec<u8>, AllocError> {
        match asked {
            Asked::Metrics => {
                self.make_page(known)?;
                answer_of(self.alloc, "200 OK", &self.page)
            }
            Asked::Health if known.is_stopping => {
                answer_of(self.alloc, "503 Service Unavailable", "stopping\n")
            }
            Asked::Health => answer_of(self.alloc, "200 OK", "ok\n"),
            Asked::Elsewhere => answer_of(self.alloc, "404 Not Found", "not found\n"),
            Asked::Otherwise => answer_of(self.alloc, "405 Method Not Allowed", "GET alone\n"),
        }
    }

    /// Makes the page, unless it was made a moment ago.
    fn make_page(&mut self, known: Known<'_>) -> Result<(), AllocError> {
        if self.until <= known.now {
            self.page = page_of(self.alloc, known.counts, known.lost)?;
            self.until = known.now.saturating_add(GOOD);
        }
        Ok(())
    }

    /// Closes those that have lasted for long enough.
    pub(crate) fn give_up(&mut self, now: u64) {
        for place in 0..MOST_SCRAPES {
            if self.is_late(place, now) {
                self.remove(place);
            }
        }
    }

    fn is_late(&self, place: usize, now: u64) -> bool {
        match self.places.get(place) {
            Some(Some(scrape)) => scrape.until() <= now,
            _ => false,
        }
    }
}

/// Places for connections, of which none is there.
fn free_places(alloc: Global) -> Result<Vec<Option<Scrape>>, AllocError> {
    let mut places = Vec::new(alloc);
    for _ in 0..MOST_SCRAPES {
        places.push(None)?;
    }
    Ok(places)
}

/// A whole answer of HTTP/1.0.
fn answer_of(alloc: Global, status: &str, body: &str) -> Result<Vec<u8>, AllocError> {
    let length = body.len();
    let text = format!(in alloc;
        "HTTP/1.0 {status}\r\nContent-Type: {TEXT}\r\nContent-Length: {length}\r\nConnection: close\r\n\r\n{body}"
    )?;
    Ok(text.into_bytes())
}
