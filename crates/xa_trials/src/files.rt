//! Stores over two files in memory, the database's and its log, and what a crash leaves of these.
use crate::keepers::open_keeper;
use crate::no_answer::NoAnswer;
use sqlite::{Alter, Connection, FileStore, Files, Options};
use sqlite_disk::{Crash, Disk, Fuse, Memory};
use std::alloc::Global;
use xa_store::SqlRecords;

/// A file in memory, which passes on so many calls, and then is frozen.
pub type File = Fuse<Memory>;

/// One of the two files.
#[derive(Clone, Copy)]
pub enum FileName {
    /// The log.
    Log,
    /// The database's file.
    Database,
}

/// The options of a store. It holds so few pages that both files are written and read again and again.
const OPTIONS: Options = Options {
    cache_pages: 4,
    spill_pages: 4,
    checkpoint_frames: 4,
    seed: 1,
};

/// An empty log and an empty file. Each passes on more calls than any row makes.
pub fn new_files(alloc: Global) -> Files<File> {
    Files {
        log: Fuse::new(Memory::new(alloc), u64::MAX),
        db: Fuse::new(Memory::new(alloc), u64::MAX),
    }
}

/// A store over two files. There is one, but rows know it by this trait alone: a function in which a
/// connection to `FileStore` stands takes the prover twenty seconds and more, whatever else it does.
pub trait StoreOfFiles: Alter + Drop {
    /// A connection to the store in the files; the files, if it can't be opened.
    fn connection_to(alloc: Global, files: Files<File>) -> Result<Connection<Self>, Files<File>>;

    /// The files under the store. Nothing is written to them.
    fn into_closed_files(self) -> Files<File>;
}

impl StoreOfFiles for FileStore<File> {
    fn connection_to(
        alloc: Global,
        files: Files<File>,
    ) -> Result<Connection<FileStore<File>>, Files<File>> {
        if !files.may_be_used() {
            return Err(files);
        }
        match Connection::open_files(alloc, files, OPTIONS) {
            Ok(conn) => Ok(conn),
            Err((_, left)) => Err(left.into_files()),
        }
    }

    fn into_closed_files(self) -> Files<File> {
        self.close()
    }
}

/// The files under the connection. Nothing is written to them.
pub fn files_under<S: StoreOfFiles>(conn: Connection<S>) -> Files<File> {
    conn.into_store().into_closed_files()
}

/// A keeper of the store in the files; the files, if it can't be opened.
pub fn keeper_of<S: StoreOfFiles>(
    alloc: Global,
    files: Files<File>,
) -> Result<SqlRecords<S>, Files<File>> {
    match open_keeper(alloc, S::connection_to(alloc, files)?) {
        Ok(records) => Ok(records),
        Err((_, conn)) => Err(files_under(conn)),
    }
}

/// A file with all that was written to this one, which passes on so many calls.
fn copy_of(alloc: Global, file: &File, calls: u64) -> Result<File, NoAnswer> {
    let mut copy = Memory::new(alloc);
    copy.write_at(0, file.inner().bytes())?;
    copy.sync()?;
    Ok(Fuse::new(copy, calls))
}

/// The file of that name.
pub fn file_named(word: &str) -> Result<FileName, NoAnswer> {
    match word {
        "log" => Ok(FileName::Log),
        "db" => Ok(FileName::Database),
        _ => Err(NoAnswer::Malformed),
    }
}

/// Files with all that was written to these. That one passes on so many calls, and the other more than any
/// row makes.
pub fn files_of(
    alloc: Global,
    held: &Files<File>,
    name: FileName,
    calls: u64,
) -> Result<Files<File>, NoAnswer> {
    let (log, db) = match name {
        FileName::Log => (calls, u64::MAX),
        FileName::Database => (u64::MAX, calls),
    };
    Ok(Files {
        log: copy_of(alloc, &held.log, log)?,
        db: copy_of(alloc, &held.db, db)?,
    })
}

/// What a crash leaves at its two ends: only what was synced, and all that was written.
pub fn after_crash(
    alloc: Global,
    mut files: Files<File>,
) -> Result<(Files<File>, Files<File>), NoAnswer> {
    let written = files_of(alloc, &files, FileName::Log, u64::MAX)?;
    files.log.crash();
    files.db.crash();
    Ok((files, written))
}
