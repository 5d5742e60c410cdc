use pg_meaning::Fault;
use std::alloc::{AllocError, AllocFailed};

/// Why there is no tree.
#[derive(Drop)]
pub enum ParseError {
    OutOfMemory,
    BadSyntax,
}

impl From<AllocError> for ParseError {
    ghost use Rattle.std.specs.Prelude.{◌≡◌};
    ghost use Rattle.pg_syntax_tokens.specs.declared.error.ParseError.TheVariants.{OutOfMemory};

    ghost from_gives = { λ _ e. e ≡ OutOfMemory };

    fn from(_: AllocError) -> ParseError {
        ParseError::OutOfMemory
    }
}

impl<T: Drop> From<AllocFailed<T>> for ParseError {
    ghost use Rattle.std.specs.Prelude.{◌≡◌};
    ghost use Rattle.pg_syntax_tokens.specs.declared.error.ParseError.TheVariants.{OutOfMemory};

    ghost from_gives = { λ _ e. e ≡ OutOfMemory };

    fn from(_: AllocFailed<T>) -> ParseError {
        ParseError::OutOfMemory
    }
}

impl From<ParseError> for Fault {
    ghost use Rattle.std.specs.Prelude.{◌≡◌};
    ghost use Rattle.pg_syntax_tokens.specs.Gives.{fault_of};

    ghost from_gives = { λ e f. f ≡ fault_of e };

    fn from(error: ParseError) -> Fault {
        match error {
            ParseError::OutOfMemory => Fault::OutOfMemory,
            ParseError::BadSyntax => Fault::BadSyntax,
        }
    }
}
