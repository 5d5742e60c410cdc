//! What is told when the program ends.
ghost use Rattle.std.specs.Prelude.{◌≡◌};
ghost use Rattle.graphd.specs.Lines.{outcome_line, outcome_status};

use crate::fault::ProgramFault;
use pg_server::End;

/// The line on standard error behind the program's name, or nothing after a good end.
pub(crate) fn line_of(outcome: &Result<End, ProgramFault>) -> &str
    ensures { result.now ≡ outcome_line outcome.now }
{
    match outcome {
        Ok(end) => end.line(),
        Err(fault) => fault.line(),
    }
}

/// The exit status.
pub(crate) fn status_of(outcome: &Result<End, ProgramFault>) -> u8
    ensures { result ≡ outcome_status outcome.now }
{
    match outcome {
        Ok(end) => end.status(),
        Err(fault) => fault.status(),
    }
}
