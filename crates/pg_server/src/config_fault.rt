//! What can be wrong with a configuration.
ghost use Rattle.std.specs.Prelude.{◌≡◌};
ghost use Rattle.pg_server.specs.declared.config_fault.ConfigFault.TheVariants.{Memory};
ghost use Rattle.pg_server.specs.ConfigLines.{config_line, config_status};

use std::alloc::{AllocError, AllocFailed};
use thiserror::Error;

/// The first fault of a configuration, in the order of the variants.
#[derive(Debug, Drop, Error)]
pub enum ConfigFault {
    #[error("configuration: not JSON")]
    NotJson,
    /// A key is missing or unknown, or a value isn't of its kind.
    #[error("configuration: wrong shape")]
    WrongShape,
    #[error("configuration: number out of range")]
    OutOfRange,
    #[error("configuration: token used twice")]
    TokenTwice,
    #[error("out of memory")]
    Memory,
}

impl From<AllocError> for ConfigFault {
    ghost from_gives = { λ e f. f ≡ Memory };

    fn from(_: AllocError) -> Self {
        ConfigFault::Memory
    }
}

impl<T: Drop> From<AllocFailed<T>> for ConfigFault {
    ghost from_gives = { λ e f. f ≡ Memory };

    fn from(_: AllocFailed<T>) -> Self {
        ConfigFault::Memory
    }
}

impl ConfigFault {
    /// What an operator is told.
    pub fn line(&self) -> &str
        ensures { result.now ≡ config_line self.now }
    {
        match self {
            ConfigFault::NotJson => "configuration: not JSON",
            ConfigFault::WrongShape => "configuration: wrong shape",
            ConfigFault::OutOfRange => "configuration: number out of range",
            ConfigFault::TokenTwice => "configuration: token used twice",
            ConfigFault::Memory => "out of memory",
        }
    }

    /// The exit status of a program that found the fault.
    pub fn status(&self) -> u8
        ensures { result ≡ config_status self.now }
    {
        match self {
            ConfigFault::Memory => 1,
            _ => 2,
        }
    }
}
