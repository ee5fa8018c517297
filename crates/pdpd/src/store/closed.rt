//! A store that was closed.
ghost use Rattle.std.specs.Prelude.{◌≡◌, IsTrue};

use sqlite::Files;
use sqlite_disk::Disk;

/// The two files of a store that was closed. No code reads them: clauses speak of what they hold.
#[derive(Drop)]
pub struct ClosedStore<D: Disk> {
    /// The log, and the database's file.
    files: Files<D>,
    /// No sync of either has failed.
    ghost usable: { IsTrue (D.Disk.is_usable files.log) × IsTrue (D.Disk.is_usable files.db) },
}

impl<D: Disk> ClosedStore<D> {
    /// Those files.
    pub(crate) fn of(files: Files<D>) -> ClosedStore<D>
        requires { IsTrue (D.Disk.is_usable files.log) × IsTrue (D.Disk.is_usable files.db) }
        ensures { result.files ≡ files }
    {
        ClosedStore { files }
    }
}
