//! Why the program ends with an error.
ghost use Rattle.std.specs.Prelude.{◌≡◌};
ghost use Rattle.graphd_listen.specs.Lines.{journal_line, journal_status, program_line, program_status};
ghost use Rattle.graphd_listen.specs.declared.fault.ProgramFault.TheVariants.{Start};
ghost use Rattle.pg_start.specs.declared.start_fault.StartFault.TheVariants.{OutOfMemory};

use pg_journal::JournalError;
use pg_start::StartFault;
use std::alloc::AllocError;
use std::io;

#[derive(Debug, Drop)]
pub(crate) enum ProgramFault {
    /// The words of the command line are none of the program's.
    Usage,
    /// No server was made.
    Start(StartFault),
    /// The log can't be opened.
    Log,
    /// The journal can't be opened.
    OpenJournal,
    /// Two tenants have one name, and a journal knows tenants by their names.
    NameTwice,
    /// The server isn't as its journal has it.
    Journal(JournalError),
    /// What was done can't be kept.
    NotKept,
    /// The address can't be listened on.
    Listen,
    /// The system tells no more what connections are ready for, or what time it is.
    Wait,
}

impl From<StartFault> for ProgramFault {
    ghost from_gives = { λ e f. f ≡ Start e };

    fn from(fault: StartFault) -> Self {
        ProgramFault::Start(fault)
    }
}

impl From<AllocError> for ProgramFault {
    ghost from_gives = { λ e f. f ≡ Start OutOfMemory };

    fn from(_: AllocError) -> Self {
        ProgramFault::Start(StartFault::OutOfMemory)
    }
}

impl From<io::Error> for ProgramFault {
    /// From the words of the command line, which may not be UTF-8.
    fn from(e: io::Error) -> Self {
        match e.kind() {
            io::ErrorKind::OutOfMemory => ProgramFault::Start(StartFault::OutOfMemory),
            _ => ProgramFault::Usage,
        }
    }
}

impl ProgramFault {
    /// What is told on standard error, behind the program's name.
    pub(crate) fn line(&self) -> &str
        ensures { result.now ≡ program_line self.now }
    {
        match self {
            ProgramFault::Usage => {
                "usage: graphd_listen CONFIG ADDRESS:PORT [--clients N] [--patience SECONDS] [--tenant-clients N] [--keep-open] [--log FILE] [--metrics ADDRESS:PORT] [--journal FILE] [--sync every|turn|SECONDS] | graphd_listen --check CONFIG"
            }
            ProgramFault::Start(fault) => fault.line(),
            ProgramFault::Log => "cannot open the log",
            ProgramFault::OpenJournal => "cannot open the journal",
            ProgramFault::NameTwice => "with a journal, each tenant needs a name of its own",
            ProgramFault::Journal(fault) => line_of(*fault),
            ProgramFault::NotKept => "cannot keep requests in the journal",
            ProgramFault::Listen => "cannot listen",
            ProgramFault::Wait => "cannot wait for connections",
        }
    }

    /// The exit status of the program.
    pub(crate) fn status(&self) -> u8
        ensures { result ≡ program_status self.now }
    {
        match self {
            ProgramFault::Usage | ProgramFault::NameTwice => 2,
            ProgramFault::Start(fault) => fault.status(),
            ProgramFault::Journal(fault) => status_of(*fault),
            ProgramFault::NotKept => 6,
            ProgramFault::Log
            | ProgramFault::OpenJournal
            | ProgramFault::Listen
            | ProgramFault::Wait => 1,
        }
    }
}

/// What is told of a journal.
fn line_of(fault: JournalError) -> &'static str
    ensures { result.now ≡ journal_line fault }
{
    match fault {
        JournalError::Memory => "out of memory",
        JournalError::Failed => "the disk of the journal has failed",
        JournalError::Full => "the journal can't grow further",
        JournalError::Foreign => "the file is no journal",
        JournalError::Damaged => "the journal is damaged",
        JournalError::Differs => "a request of the journal is answered otherwise than before",
    }
}

fn status_of(fault: JournalError) -> u8
    ensures { result ≡ journal_status fault }
{
    match fault {
        JournalError::Memory | JournalError::Failed | JournalError::Full => 1,
        JournalError::Foreign => 3,
        JournalError::Damaged => 4,
        JournalError::Differs => 5,
    }
}
