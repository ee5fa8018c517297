//! How the program ends.
ghost use Rattle.std.specs.Prelude.{◌≡◌};
ghost use Rattle.std.specs.Process.{exit_status};
ghost use Rattle.pdpd.specs.Exit.{status_of};

use crate::replay::transcript_fault::TranscriptFault;
use std::alloc::{AllocError, AllocFailed};
use std::fmt;
use std::io::{self, ErrorKind};
use std::process::ExitCode;

/// How the program ends: its exit status tells it.
#[derive(Clone, Copy)]
pub enum Exit {
    /// What was asked for is done.
    Done,
    /// Standard input or output failed.
    Failed,
    /// The command line, the address, a setting or the token is malformed, or the token file can't be
    /// read.
    Usage,
    /// That entry of the transcript, counted from 1, is malformed or cut. The replies to the
    /// entries before it are written.
    Malformed { entry: u64, fault: TranscriptFault },
    /// The store can't be opened, can't go on, or can't be closed.
    Store,
    /// The socket or the clock failed.
    Socket,
    /// There was no memory for it.
    Memory,
}

impl Exit {
    /// The status with which the program ends.
    pub fn status(self) -> ExitCode
        ensures { exit_status result ≡ status_of self }
    {
        ExitCode::from(match self {
            Exit::Done => 0,
            Exit::Failed => 1,
            Exit::Usage => 2,
            Exit::Malformed { .. } => 3,
            Exit::Store => 4,
            Exit::Socket => 5,
            Exit::Memory => 6,
        })
    }
}

impl fmt::Display for Exit {
    fn fmt<W: fmt::Write>(&self, f: &mut fmt::Formatter<W>) -> fmt::Result {
        // `Done` and `Socket` are never shown: `report` omits the first, and a `FaultLine` tells the other.
        let text = match self {
            Exit::Done => "pdpd: done",
            Exit::Failed => "pdpd: standard input or output failed",
            Exit::Usage =>
                "usage: pdpd listen DATABASE ADDRESS TOKEN-FILE [CHANGES-ADDRESS], pdpd serve DATABASE ADDRESS TOKEN-FILE CONNECTIONS, or pdpd replay OPERATOR-TOKEN (8 to 64 visible ASCII characters); pdpd --help says more",
            Exit::Malformed { entry, fault } => return write!(f, "pdpd: entry {entry}: {fault}"),
            Exit::Store => "pdpd: the store failed",
            Exit::Socket => "pdpd: the socket or the clock failed",
            Exit::Memory => "pdpd: out of memory",
        };
        f.write_str(text)
    }
}

impl From<AllocError> for Exit {
    ghost use Rattle.std.specs.Prelude.{◌≡◌};
    ghost use Rattle.pdpd.specs.declared.exit.Exit.TheVariants.{Memory};

    ghost from_gives = { λ _ exit. exit ≡ Memory };

    fn from(_: AllocError) -> Exit {
        Exit::Memory
    }
}

impl<T: Drop> From<AllocFailed<T>> for Exit {
    ghost use Rattle.std.specs.Prelude.{◌≡◌};
    ghost use Rattle.pdpd.specs.declared.exit.Exit.TheVariants.{Memory};

    ghost from_gives = { λ _ exit. exit ≡ Memory };

    fn from(_: AllocFailed<T>) -> Exit {
        Exit::Memory
    }
}

impl From<io::Error> for Exit {
    ghost use Rattle.std.specs.Prelude.{◌≡◌};
    ghost use Rattle.std.specs.IoError.{error_kind};
    ghost use Rattle.pdpd.specs.Exit.{exit_of};

    ghost from_gives = { λ error exit. exit ≡ exit_of (error_kind error) };

    fn from(error: io::Error) -> Exit {
        match error.kind() {
            ErrorKind::OutOfMemory => Exit::Memory,
            _ => Exit::Failed,
        }
    }
}
