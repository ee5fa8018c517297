//! What serving has come to.
ghost use Rattle.std.specs.Prelude.{◌≡◌, None, Some};
ghost use Rattle.pdpd.specs.Ending.{exit_of_end, fault_in_end};

use crate::exit::Exit;
use crate::fault::{Asked, Fault, FaultLine, StoreFault};
use crate::store::closed::ClosedStore;
use sqlite::FileStore;
use sqlite_disk::Disk;
use std::rt::HostRuntime;
use xa_records::Records;
use xa_server::Front;

/// A front that has served.
#[derive(Drop)]
pub struct Serving<R: Records> {
    /// The front, as the connections have left it.
    pub front: Front<R>,
    /// Whether all connections were served, or the fault that has ended it.
    pub result: Result<(), Fault>,
}

/// How serving has ended, and what it leaves. No code reads what it leaves: clauses speak of it.
#[derive(Drop)]
pub enum Ended<D: Disk, R: Records> {
    /// All connections were served, and then the store's files were closed.
    Closed(ClosedStore<D>),
    /// All connections were served, and then the files couldn't be closed. This is the store, as that has
    /// left it.
    Unclosed(FileStore<D>),
    /// A fault has ended serving. This is the front, as the connections have left it.
    Broken(Front<R>, Fault),
    /// A fault has come before any connection.
    Unbegun(Fault),
}

impl<D: Disk, R: Records> Ended<D, R> {
    /// The fault by which it has ended, if it has ended by one.
    fn fault(&self) -> Option<Fault>
        ensures { result ≡ fault_in_end self.now }
    {
        match self {
            Ended::Closed(_) => None,
            Ended::Unclosed(_) => Some(Fault::Store(StoreFault::Unclosed)),
            Ended::Broken(_, fault) => Some(*fault),
            Ended::Unbegun(fault) => Some(*fault),
        }
    }

    /// How the program ends.
    fn exit(&self) -> Exit
        ensures { result ≡ exit_of_end self.now }
    {
        match self.fault() {
            None => Exit::Done,
            Some(fault) => fault.exit(),
        }
    }
}

/// How the program ends, and how serving has ended, if a store was to be served.
#[derive(Drop)]
pub struct Served<D: Disk, R: Records> {
    /// How the program ends.
    pub exit: Exit,
    /// How serving has ended.
    pub ended: Option<Ended<D, R>>,
}

impl<D: Disk, R: Records> Served<D, R> {
    /// So the program ends, and no store was to be served.
    pub fn nothing(exit: Exit) -> Served<D, R>
        ensures { result ≡ record { exit = exit; ended = None } }
    {
        Served { exit, ended: None }
    }

    /// The program ends as serving has ended. A line on standard error tells of a fault.
    pub fn by(rt: &HostRuntime, asked: Asked<'_>, ended: Ended<D, R>) -> Served<D, R>
        ensures { result ≡ record { exit = exit_of_end ended; ended = Some ended } }
    {
        if let Some(fault) = ended.fault() {
            let _ = rt.eprintln(FaultLine { asked, fault });
        }
        Served {
            exit: ended.exit(),
            ended: Some(ended),
        }
    }
}
