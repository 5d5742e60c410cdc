//! How a run ends.
ghost use Rattle.std.specs.Prelude.{◌≡◌};
ghost use Rattle.pg_server.specs.Ends.{end_line, end_status};

/// How a run of the server ended.
#[derive(Clone, Copy)]
pub enum End {
    /// The input ended between frames, or as many frames were served as were asked for.
    Done,
    /// The input ended inside a frame, which got no reply.
    Cut,
    /// A frame was too long. It got its reply, and its body wasn't read.
    TooLong,
    ReadFailed,
    WriteFailed,
    /// There was no memory for a body. Nothing was read.
    NoMemory,
}

impl End {
    /// What an operator is told: a line, or nothing after a run that is done.
    pub fn line(&self) -> &str
        ensures { result.now ≡ end_line self.now }
    {
        match self {
            End::Done => "",
            End::Cut => "input ended inside a frame",
            End::TooLong => "frame too long",
            End::ReadFailed => "read failed",
            End::WriteFailed => "write failed",
            End::NoMemory => "out of memory",
        }
    }

    /// The exit status of a program that ran the server once.
    pub fn status(&self) -> u8
        ensures { result ≡ end_status self.now }
    {
        match self {
            End::Done => 0,
            _ => 1,
        }
    }
}
