//! Why connections are served no longer.
ghost use Rattle.std.specs.Prelude.{◌≡◌};
ghost use Rattle.pg_server.specs.Connections.{serve_line, serve_status};

use thiserror::Error;

/// Why a server stopped serving connections.
#[derive(Clone, Copy, Debug, Error)]
pub enum ServeFault {
    /// No connection could be accepted.
    #[error("cannot listen")]
    Accept,
}

impl ServeFault {
    /// What an operator is told.
    pub fn line(&self) -> &str
        ensures { result.now ≡ serve_line self.now }
    {
        match self {
            ServeFault::Accept => "cannot listen",
        }
    }

    /// The exit status of a program that found the fault.
    pub fn status(&self) -> u8
        ensures { result ≡ serve_status self.now }
    {
        match self {
            ServeFault::Accept => 1,
        }
    }
}
