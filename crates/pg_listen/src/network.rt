//! The connections of many clients, each known by a number.
ghost use Rattle.std.specs.Prelude.{◌≡◌, ℕ, List, [], ◌∷◌, Option, None};
ghost use Rattle.pg_listen.specs.Events.{Event, Adds};
ghost use Rattle.pg_listen.specs.Network.{IsReceived, IsSent};

/// What a read answered.
#[derive(Clone, Copy)]
pub enum Received {
    /// So many bytes of the buffer.
    Bytes(usize),
    /// None is there now.
    Waits,
    /// There will be none.
    Ended,
    /// The connection is broken.
    Failed,
}

/// What a write answered.
#[derive(Clone, Copy)]
pub enum Sent {
    /// So many bytes were taken.
    Taken(usize),
    /// None can be taken now.
    Full,
    /// None will be taken.
    Failed,
}

/// What is to be done next.
#[derive(Clone, Copy)]
pub enum Signal {
    /// Nothing for now.
    Nothing,
    /// A client may be there to be accepted.
    Arrival,
    /// This client may have sent or taken bytes.
    Ready(u64),
    /// A while has gone by.
    Tick,
    /// No more clients are wanted.
    Stop,
    /// The network can't go on.
    Failed,
}

/// Why a connection is closed.
#[derive(Clone, Copy)]
pub enum Closing {
    /// The client sends no more, and has all its replies.
    Ended,
    /// The client ended in the middle of a frame.
    Cut,
    /// A frame was too long, and its refusal is sent.
    TooLong,
    /// A frame, a reply or the first token took longer than it may.
    Late,
    /// The client's tenant has as many connections as it may.
    TooMany,
    /// More bytes of replies waited, over all clients, than may, and most of them for this one.
    TooMuchWaiting,
    /// The connection is broken.
    Failed,
    NoMemory,
    /// No more clients are wanted, and this one waits for nothing.
    Stopped,
}

/// What is told of a reply.
#[derive(Clone, Copy)]
pub struct ReplyNote {
    /// Its code, which is 0 where the request was done.
    pub code: u8,
    /// For how many microseconds its request was worked on.
    pub micros: u64,
}

/// Calls that don't wait, but `next`.
pub trait Network {
    // What it has read and written, in order, where that is known.
    ghost trace: { Self → Option (List Event) } = { λ _. None };

    /// What is to be done next. It waits for that only where it is told to.
    fn next(&mut self, waits: bool) -> Signal
        ensures { Adds (trace self.old) (trace self.new) [] };

    /// Microseconds since some moment.
    fn now(&self) -> u64;

    /// Whether there was a client, which has this number from now on.
    fn accept(&mut self, client: u64) -> bool
        ensures { Adds (trace self.old) (trace self.new) [] };

    fn receive(&mut self, client: u64, buf: &mut [u8]) -> Received
        ensures { IsReceived (trace self.old) (trace self.new) client buf.new result };

    fn send(&mut self, client: u64, bytes: &[u8]) -> Sent
        ensures { IsSent (trace self.old) (trace self.new) client bytes.now result };

    fn close(&mut self, client: u64, why: Closing)
        ensures { Adds (trace self.old) (trace self.new) [] };

    /// Is told of the replies that were made for a client in a turn, with the place of the tenant whose token it has
    /// shown, if it has.
    fn note(&mut self, client: u64, tenant: Option<usize>, replies: &[ReplyNote])
        ensures { Adds (trace self.old) (trace self.new) [] };

    /// Is told that the transaction of the tenant at a place was rolled back, or that it was tried to, with the reply, since the client is
    /// gone that began it.
    fn note_rollback(&mut self, tenant: usize, reply: &ReplyNote)
        ensures { Adds (trace self.old) (trace self.new) [] };

    /// Accepts no more.
    fn stop(&mut self)
        ensures { Adds (trace self.old) (trace self.new) [] };
}
