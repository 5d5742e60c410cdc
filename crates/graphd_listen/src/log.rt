//! Lines for an operator, in a file or on standard error.
use std::alloc::Global;
use std::fs::File;
use std::io;
use std::io::Write;
use std::rt::Stderr;

/// So many bytes of lines may come in a second, and so many may wait to be written.
const MOST: usize = 65_536;

/// For how many microseconds behind a write no further one is tried, so that lines that come together are written at once.
const PAUSE: u64 = 100_000;

/// For how many behind one that failed.
const PAUSE_OF_FAULT: u64 = 1_000_000;

/// How often what is left is written at the end.
const LAST_WRITES: u32 = 16;

/// Where lines go.
#[derive(Drop)]
pub(crate) enum Sink {
    Nowhere,
    File(File),
    Stderr(Stderr),
}

impl Sink {
    fn write(&mut self, bytes: &[u8]) -> io::Result<usize> {
        match self {
            Sink::Nowhere => Ok(bytes.len()),
            Sink::File(file) => file.write(bytes),
            Sink::Stderr(stderr) => stderr.write(bytes),
        }
    }
}

/// What was lost.
#[derive(Clone, Copy)]
pub(crate) struct Losses {
    /// Lines that were dropped.
    pub(crate) lines: u64,
    /// Writes that failed.
    pub(crate) writes: u64,
}

const NO_LOSSES: Losses = Losses {
    lines: 0,
    writes: 0,
};

#[derive(Drop)]
pub(crate) struct Log {
    sink: Sink,
    waiting: Vec<u8>,
    // how many bytes may still come in this second
    room: usize,
    // what was lost and isn't said yet, and what was lost at all
    unsaid: Losses,
    lost: Losses,
    // before this no write is tried
    pause: u64,
}

impl Log {
    pub(crate) fn new(alloc: Global, sink: Sink) -> Log {
        Log {
            sink,
            waiting: Vec::new(alloc),
            room: MOST,
            unsaid: NO_LOSSES,
            lost: NO_LOSSES,
            pause: 0,
        }
    }

    /// Whether one more line has room; where it has none, it counts as dropped.
    pub(crate) fn has_room(&mut self) -> bool {
        if matches!(self.sink, Sink::Nowhere) {
            return false;
        }
        if self.room == 0 || MOST <= self.waiting.len() {
            self.drop_line();
            return false;
        }
        true
    }

    fn drop_line(&mut self) {
        self.unsaid.lines = self.unsaid.lines.saturating_add(1);
        self.lost.lines = self.lost.lines.saturating_add(1);
    }

    /// Takes a line, or drops it where it has no room.
    pub(crate) fn push(&mut self, line: &str) {
        let length = line.len();
        if self.room < length || MOST.saturating_sub(self.waiting.len()) < length {
            // so that a shorter one doesn't come before what says how many were dropped
            self.room = 0;
            return self.drop_line();
        }
        match self.waiting.extend_from_slice(line.as_bytes()) {
            Ok(()) => self.room = self.room.saturating_sub(length),
            Err(_) => self.drop_line(),
        }
    }

    /// A second has gone by. Tells what was lost and isn't said yet.
    pub(crate) fn begin_second(&mut self) -> Option<Losses> {
        self.room = MOST;
        if self.unsaid.lines == 0 && self.unsaid.writes == 0 {
            return None;
        }
        Some(self.unsaid)
    }

    /// Takes the line that says what was lost; where it has no room, that is said later.
    pub(crate) fn say_losses(&mut self, line: &str) {
        let length = line.len();
        if length <= MOST.saturating_sub(self.waiting.len())
            && self.waiting.extend_from_slice(line.as_bytes()).is_ok()
        {
            self.unsaid = NO_LOSSES;
        }
    }

    /// Takes the last line, whatever room there is.
    pub(crate) fn say_last(&mut self, line: &str) {
        if self.waiting.extend_from_slice(line.as_bytes()).is_err() {
            self.drop_line();
        }
    }

    /// Writes what waits, once, unless the last write was a moment ago.
    pub(crate) fn write(&mut self, now: u64) {
        if now < self.pause || self.waiting.is_empty() {
            return;
        }
        self.pause = now.saturating_add(PAUSE);
        if !self.write_once() {
            self.pause = now.saturating_add(PAUSE_OF_FAULT);
        }
    }

    /// Whether something was written.
    fn write_once(&mut self) -> bool {
        match self.sink.write(&self.waiting) {
            Ok(n) if n > 0 => {
                self.take(n);
                true
            }
            Err(e) if e.kind() == io::ErrorKind::Interrupted => true,
            _ => {
                self.unsaid.writes = self.unsaid.writes.saturating_add(1);
                self.lost.writes = self.lost.writes.saturating_add(1);
                false
            }
        }
    }

    /// The first bytes are written.
    fn take(&mut self, n: usize) {
        let left = self.waiting.len().saturating_sub(n);
        let taken = n.min(self.waiting.len());
        self.waiting.rotate_left(taken);
        self.waiting.truncate(left);
    }

    /// How many microseconds there are until something is to be written.
    pub(crate) fn rest(&self, now: u64) -> u64 {
        if self.waiting.is_empty() {
            u64::MAX
        } else {
            self.pause.saturating_sub(now)
        }
    }

    /// Writes what is left, at the end.
    pub(crate) fn finish(&mut self) {
        for _ in 0..LAST_WRITES {
            if self.waiting.is_empty() || !self.write_once() {
                return;
            }
        }
    }

    pub(crate) fn lost(&self) -> Losses {
        self.lost
    }
}
