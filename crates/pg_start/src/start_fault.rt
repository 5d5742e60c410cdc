//! Why a server isn't started.
ghost use Rattle.std.specs.Prelude.{◌≡◌};
ghost use Rattle.pg_start.specs.Lines.{start_line, start_status};
ghost use Rattle.pg_start.specs.declared.start_fault.StartFault.TheVariants.{OutOfMemory, Config};

use pg_server::ConfigFault;
use std::alloc::AllocError;

#[derive(Debug, Drop)]
pub enum StartFault {
    /// The file of the configuration can't be read.
    Unreadable,
    Config(ConfigFault),
    /// The system gives no random numbers for the keys of hashes.
    NoRandomNumbers,
    OutOfMemory,
}

impl From<ConfigFault> for StartFault {
    ghost from_gives = { λ e f. f ≡ Config e };

    fn from(fault: ConfigFault) -> Self {
        StartFault::Config(fault)
    }
}

impl From<AllocError> for StartFault {
    ghost from_gives = { λ e f. f ≡ OutOfMemory };

    fn from(_: AllocError) -> Self {
        StartFault::OutOfMemory
    }
}

impl StartFault {
    /// What an operator is told.
    pub fn line(&self) -> &str
        ensures { result.now ≡ start_line self.now }
    {
        match self {
            StartFault::Unreadable => "cannot read the configuration",
            StartFault::Config(fault) => fault.line(),
            StartFault::NoRandomNumbers => "no random numbers",
            StartFault::OutOfMemory => "out of memory",
        }
    }

    /// The exit status of a program that ends by the fault.
    pub fn status(&self) -> u8
        ensures { result ≡ start_status self.now }
    {
        match self {
            StartFault::Unreadable => 2,
            StartFault::Config(fault) => fault.status(),
            StartFault::NoRandomNumbers | StartFault::OutOfMemory => 1,
        }
    }
}
