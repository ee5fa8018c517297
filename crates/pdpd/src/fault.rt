//! Why `pdpd listen` or `pdpd serve` ends before its connections have ended, and the line that says what to
//! do.
ghost use Rattle.std.specs.Prelude.{◌≡◌};
ghost use Rattle.pdpd.specs.Fault.{exit_of_door, exit_of_fault};

use crate::exit::Exit;
use crate::serve::setting::Setting;
use std::alloc::{AllocError, AllocFailed};
use std::fmt;
use xa_server::AcceptError;

/// Why a store can't be opened, or closed.
#[derive(Clone, Copy)]
pub enum StoreFault {
    /// The folder of the file isn't there.
    NoFolder,
    /// The file isn't there and can't be made, or can't be opened.
    Unopened,
    /// Another program has it open.
    Busy,
    /// The file is no database that can be read.
    NoDatabase,
    /// The file's pages are damaged.
    Corrupt,
    /// It has other tables.
    Schema,
    /// It has other tables, indexes, views or triggers beside the program's.
    Foreign,
    /// Its tables have the names of the program's, and were made otherwise.
    MadeOtherwise,
    /// A row is damaged.
    Row,
    /// The disk is full.
    Full,
    /// The disk failed.
    Disk,
    /// The file isn't there, or is empty, and beside it is a log with room for commits.
    LogAlone,
    /// The file has no tables, and its log isn't there.
    FileAlone,
    /// Its log can't be written back into it.
    Unclosed,
}

impl StoreFault {
    /// What to do about it.
    fn advice(self) -> &'static str {
        match self {
            StoreFault::NoFolder => "can't be opened; its folder isn't there, make that first",
            StoreFault::Unopened =>
                "can't be opened; it has to be a file, and this user has to be allowed to read and write it, and to write in its folder",
            StoreFault::Busy => "in use: another program has it open; stop that one first",
            StoreFault::NoDatabase =>
                "not a database of SQLite that can be read; name another file",
            StoreFault::Corrupt =>
                "the file's pages are damaged, or another program has written it and spoiled their sums; put back a backup",
            StoreFault::Schema => "not a store of this program (schema); name another file",
            StoreFault::Foreign =>
                "other tables, indexes, views or triggers stand beside the program's (the line before names them), and nothing would be proved of what is kept there; drop them",
            StoreFault::MadeOtherwise =>
                "its tables weren't made as this program makes them (in another order, say), and nothing would be proved of what is kept there; carry their rows into a new store",
            StoreFault::Row => "a row of the store is damaged; put back a backup",
            StoreFault::Full => "the disk is full; make room on it",
            StoreFault::Disk => "the disk failed; look after it, or put back a backup",
            StoreFault::LogAlone =>
                "the file isn't there, or is empty, and a store's log is (-wal); put the file back, or move the log away to begin a new store",
            StoreFault::FileAlone =>
                "the file has no tables, and its log isn't there (-wal); put the log back, or move the file away to begin a new store",
            StoreFault::Unclosed =>
                "its log (-wal) can't be written back into the file; keep both, which have all that was answered unless another program wrote over one",
        }
    }
}

/// Why no connections can be taken at the address for changes.
#[derive(Clone, Copy)]
pub enum DoorFault {
    /// The address is none, and no path of a Unix socket.
    Place,
    /// No connections can be taken there.
    Socket,
    /// Something else than a socket stands at the path of a Unix socket.
    Occupied,
    /// Another program takes connections there.
    Taken,
    /// No Unix socket can be made there.
    Unmade,
}

impl DoorFault {
    /// How the program ends.
    fn exit(self) -> Exit
        ensures { result ≡ exit_of_door self }
    {
        match self {
            DoorFault::Place => Exit::Usage,
            DoorFault::Socket | DoorFault::Occupied => Exit::Socket,
            DoorFault::Taken | DoorFault::Unmade => Exit::Socket,
        }
    }

    /// What to do about it, which is the same at any address.
    fn advice(self) -> &'static str {
        match self {
            DoorFault::Place =>
                "not an IP address, `:` and a port, such as 127.0.0.1:8080, nor `unix:` and a path of up to 107 bytes",
            DoorFault::Socket =>
                "no connections can be taken there; another program may have the port, or this machine another address",
            DoorFault::Occupied =>
                "something else than a socket stands there; name another path, or move it away",
            DoorFault::Taken =>
                "another program takes connections there; stop that one first, or name another path",
            DoorFault::Unmade =>
                "no socket can be made there; its folder has to be there, and this user has to be allowed to write in it",
        }
    }
}

/// Why connections aren't served, or no more of them.
#[derive(Clone, Copy)]
pub enum Fault {
    /// The address is no IP address with a port.
    Address,
    /// The address is none, and no path of a Unix socket.
    Place,
    /// No connections can be taken at the address for changes.
    Changes(DoorFault),
    /// PDPD_END is set to another word than `input`.
    End,
    /// The variable of that setting is set to no number.
    Setting(Setting),
    /// The token file can't be read.
    TokenUnread,
    /// Its first line is no token.
    TokenBad,
    /// The store can't be opened, or closed.
    Store(StoreFault),
    /// A message was refused for want of storage, and the store can't go on.
    Shut,
    /// No connections can be taken at the address.
    Socket,
    /// Something else than a socket stands at the path of a Unix socket.
    Occupied,
    /// Another program takes connections there.
    Taken,
    /// No Unix socket can be made there.
    Unmade,
    /// The end of standard input can't be watched.
    Input,
    /// Taking a connection failed.
    Connection,
    /// Waiting for connections failed.
    Waiting,
    /// The clock can't be read.
    Clock,
    /// Standard output failed.
    Output,
    /// There was no memory.
    Memory,
}

impl Fault {
    /// How the program ends.
    pub fn exit(self) -> Exit
        ensures exit { result ≡ exit_of_fault self }
    {
        match self {
            Fault::Address | Fault::Place | Fault::End => Exit::Usage,
            Fault::Changes(fault) => fault.exit(),
            Fault::Setting(_) | Fault::TokenUnread | Fault::TokenBad => Exit::Usage,
            Fault::Store(_) | Fault::Shut => Exit::Store,
            Fault::Socket | Fault::Occupied | Fault::Taken | Fault::Unmade => Exit::Socket,
            Fault::Input | Fault::Connection | Fault::Waiting | Fault::Clock => Exit::Socket,
            Fault::Output => Exit::Failed,
            Fault::Memory => Exit::Memory,
        }
    }

    /// What to do about it.
    fn advice(self) -> &'static str {
        match self {
            Fault::Address => "not an IP address, `:` and a port, such as 127.0.0.1:8080",
            Fault::Place => DoorFault::Place.advice(),
            Fault::Changes(fault) => fault.advice(),
            Fault::End => "PDPD_END is to be `input`, or not set",
            Fault::Setting(setting) => setting.advice(),
            Fault::TokenUnread =>
                "can't be read; its first line is to be the operator's token (8 to 64 visible ASCII characters)",
            Fault::TokenBad => "its first line is no token (8 to 64 visible ASCII characters)",
            Fault::Store(fault) => fault.advice(),
            Fault::Shut =>
                "writing or reading it failed, and it can't go on; look after the disk, then start the program again",
            Fault::Socket => DoorFault::Socket.advice(),
            Fault::Occupied => DoorFault::Occupied.advice(),
            Fault::Taken => DoorFault::Taken.advice(),
            Fault::Unmade => DoorFault::Unmade.advice(),
            Fault::Input =>
                "the end of standard input can't be watched (PDPD_END); it is to be a pipe, a socket or a terminal",
            Fault::Connection => "taking a connection failed; start the program again",
            Fault::Waiting => "waiting for connections failed; start the program again",
            Fault::Clock => "the clock can't be read, or is before 1970 or after 9999; set it",
            Fault::Output => "standard output failed",
            Fault::Memory => "out of memory",
        }
    }

    /// What the fault is about: a path or an address of the command line.
    fn subject<'a>(self, asked: Asked<'a>) -> Option<&'a str> {
        match self {
            Fault::TokenUnread | Fault::TokenBad => Some(asked.token_file),
            Fault::Store(_) | Fault::Shut => Some(asked.database),
            Fault::Address | Fault::Place | Fault::Socket | Fault::Occupied => Some(asked.address),
            Fault::Taken | Fault::Unmade => Some(asked.address),
            Fault::Connection | Fault::Waiting => Some(asked.address),
            Fault::Changes(_) => asked.changes,
            Fault::Setting(_) | Fault::End | Fault::Input | Fault::Clock => None,
            Fault::Output | Fault::Memory => None,
        }
    }
}

impl From<AllocError> for Fault {
    ghost use Rattle.std.specs.Prelude.{◌≡◌};
    ghost use Rattle.pdpd.specs.declared.fault.Fault.TheVariants.{Memory};

    ghost from_gives = { λ _ fault. fault ≡ Memory };

    fn from(_: AllocError) -> Fault {
        Fault::Memory
    }
}

impl<T: Drop> From<AllocFailed<T>> for Fault {
    ghost use Rattle.std.specs.Prelude.{◌≡◌};
    ghost use Rattle.pdpd.specs.declared.fault.Fault.TheVariants.{Memory};

    ghost from_gives = { λ _ fault. fault ≡ Memory };

    fn from(_: AllocFailed<T>) -> Fault {
        Fault::Memory
    }
}

impl From<AcceptError> for Fault {
    ghost use Rattle.std.specs.Prelude.{◌≡◌};
    ghost use Rattle.pdpd.specs.Fault.{fault_of_accepting};

    ghost from_gives = { λ error fault. fault ≡ fault_of_accepting error };

    fn from(error: AcceptError) -> Fault {
        match error {
            AcceptError::Failed => Fault::Connection,
            AcceptError::Memory => Fault::Memory,
        }
    }
}

/// A text on one line. A control character in it, such as a line feed, is shown by its number.
#[derive(Clone, Copy)]
pub struct OneLine<'a> {
    /// The text.
    pub text: &'a str,
}

impl fmt::Display for OneLine<'_> {
    fn fmt<W: fmt::Write>(&self, f: &mut fmt::Formatter<W>) -> fmt::Result {
        for character in self.text.chars() {
            if character.is_control() {
                write!(f, "\\u{{{:x}}}", u32::from(character))?;
            } else {
                write!(f, "{character}")?;
            }
        }
        Ok(())
    }
}

/// A file or an address that the command line names, at the beginning of a line about it.
#[derive(Clone, Copy)]
pub struct Named<'a> {
    /// The command.
    pub command: &'a str,
    /// The file's path, or the address.
    pub path: &'a str,
}

impl fmt::Display for Named<'_> {
    fn fmt<W: fmt::Write>(&self, f: &mut fmt::Formatter<W>) -> fmt::Result {
        write!(f, "pdpd {}: {}", self.command, OneLine { text: self.path })
    }
}

/// What the program was asked to serve.
#[derive(Clone, Copy)]
pub struct Asked<'a> {
    /// By which command.
    pub command: &'a str,
    /// The path of the store.
    pub database: &'a str,
    /// Where connections are taken.
    pub address: &'a str,
    /// The path of the file whose first line is the operator's token.
    pub token_file: &'a str,
    /// Where connections for changes are taken, if that is an address of their own.
    pub changes: Option<&'a str>,
}

impl<'a> Asked<'a> {
    /// The store's file.
    pub fn database(self) -> Named<'a> {
        Named {
            command: self.command,
            path: self.database,
        }
    }

    /// The token file.
    pub fn token_file(self) -> Named<'a> {
        Named {
            command: self.command,
            path: self.token_file,
        }
    }

    /// The address.
    pub fn address(self) -> Named<'a> {
        Named {
            command: self.command,
            path: self.address,
        }
    }
}

/// The line that tells a fault.
#[derive(Drop)]
pub struct FaultLine<'a> {
    /// What the program was asked to serve.
    pub asked: Asked<'a>,
    /// Why it ends.
    pub fault: Fault,
}

impl fmt::Display for FaultLine<'_> {
    fn fmt<W: fmt::Write>(&self, f: &mut fmt::Formatter<W>) -> fmt::Result {
        let command = self.asked.command;
        let advice = self.fault.advice();
        match self.fault.subject(self.asked) {
            Some(path) => write!(f, "{}: {advice}", Named { command, path }),
            None => write!(f, "pdpd {command}: {advice}"),
        }
    }
}
