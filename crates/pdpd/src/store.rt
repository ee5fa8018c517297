//! The store that `pdpd listen` and `pdpd serve` serve, and that of `pdpd replay`.
ghost use Rattle.std.specs.Prelude.{◌≡◌, ◌≢◌, ◌⊎◌, false, IfErr, IfOk, IsTrue, MatchResult};
ghost use Rattle.sqlite.specs.Closing.{IsCopied};
ghost use Rattle.sqlite.specs.Files.{IsClosed, file_state, over_files};
ghost use Rattle.sqlite.specs.Held.{state};
ghost use Rattle.sqlite.specs.State.{HasCleanDisk};
ghost use Rattle.sqlite.specs.Steps.{over_memory};
ghost use Rattle.sqlite.specs.WalFiles.{image_at};
ghost use Rattle.xa_records.specs.Kept.{nothing_kept};
ghost use Rattle.xa_store.specs.Keeper.{IsSound};
ghost use Rattle.xa_store.specs.KeeperReading.{kept_by};
ghost use Rattle.pdpd.specs.Beginning.{HasCleanFiles, IsLeftIn, IsLeftUnclosed};
ghost use Rattle.pdpd.specs.declared.exit.Exit.TheVariants.{Memory, Store, Usage};
ghost use Rattle.pdpd.specs.declared.fault.Fault.TheVariants as fault;
ghost use Rattle.pdpd.specs.declared.fault.StoreFault.TheVariants.{MadeOtherwise};
ghost use Rattle.pdpd.specs.Fault.{IsFaultAt, IsOfStore, fault_of_file, fault_of_tables};
ghost use Rattle.pdpd.specs.running.Opening.{IsKeeperFrom, IsKeeperOver};

pub(crate) mod closed;
mod foreign;
mod halves;

use crate::exit::Exit;
use crate::fault::{Fault, Named, StoreFault};
use crate::mode::lets_others_read;
use crate::store::closed::ClosedStore;
use crate::store::foreign::{DropsForeign, OBJECTS, Objects, objects_in};
use crate::store::halves::{Halves, halves_at};
use sqlite::{Alter, Connection, Error, ErrorCode, FileFrom, FileStore, MemStore, Start};
use sqlite_disk::Disk;
use std::alloc::Global;
use std::fs::{self, OpenOptions};
use std::os::unix::fs::{OpenOptionsExt, PermissionsExt};
use xa_records::Records;
use xa_store::{OpenError, SqlRecords};

/// What keeps domains in two files that held what `S` says.
pub type FileRecords<S> = SqlRecords<FileStore<FileFrom<S>>>;

/// What keeps domains in memory.
pub type MemoryRecords = SqlRecords<MemStore>;

/// Why the file can't be opened.
fn fault_of_file(error: Error) -> Fault
    ensures fault { result ≡ fault_of_file error }
    ensures store { IsOfStore result }
{
    match error {
        Error::SqliteFailure(ErrorCode::OutOfMemory) => Fault::Memory,
        Error::SqliteFailure(ErrorCode::DatabaseBusy) => Fault::Store(StoreFault::Busy),
        Error::SqliteFailure(ErrorCode::NotADatabase) => Fault::Store(StoreFault::NoDatabase),
        Error::SqliteFailure(ErrorCode::DatabaseCorrupt) => Fault::Store(StoreFault::Corrupt),
        Error::SqliteFailure(ErrorCode::DiskFull) => Fault::Store(StoreFault::Full),
        Error::SqliteFailure(ErrorCode::SystemIoFailure) => Fault::Store(StoreFault::Disk),
        _ => Fault::Store(StoreFault::Unopened),
    }
}

/// Whether the folder of a file isn't there.
fn has_no_folder(rt: &HostRuntime, path: &str) -> bool {
    match path.rsplit_once('/') {
        Some((folder, _)) if !folder.is_empty() => matches!(fs::exists(rt, folder), Ok(false)),
        _ => false,
    }
}

/// Why the file can't be opened: by that fault, or because its folder isn't there.
fn fault_at(rt: &HostRuntime, path: &str, fault: Fault) -> Fault
    ensures fault { IsFaultAt fault result }
    ensures store { IsOfStore fault → IsOfStore result }
{
    if matches!(fault, Fault::Store(StoreFault::Unopened)) && has_no_folder(rt, path) {
        Fault::Store(StoreFault::NoFolder)
    } else {
        fault
    }
}

/// Why a store's tables can't be opened.
fn fault_of_tables(error: OpenError) -> Fault
    ensures fault { result ≡ fault_of_tables error }
    ensures store { IsOfStore result }
{
    match error {
        OpenError::NotThisSchema => Fault::Store(StoreFault::Schema),
        OpenError::Damaged => Fault::Store(StoreFault::Row),
        OpenError::Store => Fault::Store(StoreFault::Disk),
        OpenError::Memory => Fault::Memory,
    }
}

/// Warns, by a line on standard error, of a file without its log.
fn warn_of_log(rt: &HostRuntime, file: Named<'_>) {
    let _ = eprintln!(rt;
        "{file}: its log isn't there (-wal); if the file wasn't closed, by `pdpd` or by SQLite, the last changes are missing"
    );
}

/// Looks whether both halves of a store are there, its file and its log, or neither. No store is begun
/// over a half.
fn look_at_halves(rt: &HostRuntime, file: Named<'_>) -> Result<(), Fault>
    ensures { IfErr result IsOfStore }
{
    match halves_at(rt, file.path)? {
        Halves::Whole => Ok(()),
        Halves::LogAlone => Err(Fault::Store(StoreFault::LogAlone)),
        Halves::FileAlone => Err(Fault::Store(StoreFault::FileAlone)),
        Halves::NoLog => {
            warn_of_log(rt, file);
            Ok(())
        }
    }
}

/// Warns, by a line on standard error, of a file that others can read.
fn warn_of_readers(rt: &HostRuntime, file: Named<'_>) {
    if matches!(fs::metadata(rt, file.path), Ok(found) if lets_others_read(found.permissions().mode()))
    {
        let _ = eprintln!(rt;
            "{file}: others than its owner can read what is kept; chmod 600, and its log too (-wal)"
        );
    }
}

/// Makes the file if it isn't there. Its owner alone can read it, and SQLite gives its log the same
/// mode. If it can't be made, opening it says why.
fn make_file(rt: &HostRuntime, path: &str) {
    // `Connection::open_from` refuses these names, so no file is made.
    if path == ":memory:" || path.starts_with("file:") {
        return;
    }
    let _ = OpenOptions::new()
        .write(true)
        .create_new(true)
        .mode(0o600)
        .open(rt, path);
}

/// The keeper, if its store has the program's tables as they are made, and no others: of another one no
/// clause says what it holds, so none is served.
fn with_only_our_tables<T: Alter + Drop>(records: SqlRecords<T>) -> Result<SqlRecords<T>, Fault>
    ensures { MatchResult result (λ k. (k ≡ records) × IsTrue k.had_only_our_tables)
        (λ e. (e ≡ fault.Store MadeOtherwise) × (records.had_only_our_tables ≡ false)) }
{
    if records.has_only_our_tables() {
        Ok(records)
    } else {
        Err(Fault::Store(StoreFault::MadeOtherwise))
    }
}

/// The keeper that opening the connection gives.
fn records_of<T: Alter + Drop>(alloc: Global, conn: Connection<T>) -> Result<SqlRecords<T>, Fault>
    ensures keeper { IfOk result (IsKeeperOver T.Store (state T.Store conn)) }
    ensures sound { IfOk result (λ k. IsTrue (state T.Store k.conn).is_open → IsSound T.Store k) }
    ensures clean { IfOk result (λ k. HasCleanDisk (state T.Store k.conn)
        → HasCleanDisk (state T.Store conn)) }
    ensures err { IfErr result IsOfStore }
{
    match SqlRecords::open(alloc, conn) {
        Ok(records) => with_only_our_tables(records),
        Err((error, _)) => Err(fault_of_tables(error)),
    }
}

/// Names, by a line on standard error, what stands in a store beside the program's tables, by the statements
/// that drop it.
fn name_foreign<T: Alter + Drop>(rt: &HostRuntime, file: Named<'_>, mut conn: Connection<T>) {
    if let Ok(rows) = conn.query_all(OBJECTS, &[]) {
        let _ = eprintln!(rt;
            "{file}: beside the program's tables stands what isn't the program's; what removes it:{}",
            DropsForeign {
                rows: rows.as_slice()
            }
        );
    }
}

/// The keeper over a connection, whose store's tables are made if there are none. A store with other tables
/// and not these, or others beside these, is refused before anything is written.
fn records_over<T: Alter + Drop>(
    rt: &HostRuntime,
    file: Named<'_>,
    conn: Connection<T>,
) -> Result<SqlRecords<T>, Fault>
    ensures keeper { IfOk result (IsKeeperOver T.Store (state T.Store conn)) }
    ensures sound { IfOk result (λ k. IsTrue (state T.Store k.conn).is_open → IsSound T.Store k) }
    ensures clean { IfOk result (λ k. HasCleanDisk (state T.Store k.conn)
        → HasCleanDisk (state T.Store conn)) }
    ensures err { IfErr result IsOfStore }
{
    match objects_in(conn.schema()) {
        Objects::Own => records_of(rt.alloc(), conn),
        Objects::OfAnother => Err(Fault::Store(StoreFault::Schema)),
        Objects::Foreign => {
            name_foreign(rt, file, conn);
            Err(Fault::Store(StoreFault::Foreign))
        }
    }
}

/// The keeper over the file, which is made if it isn't there, with sums if that is asked for. `start` stands
/// for what the file and its log hold, and no clause ties that to the path. Lines on standard error warn of
/// a log that isn't there, and of a file that others can read.
pub fn records_in_file<S: Start>(
    rt: &HostRuntime,
    file: Named<'_>,
    new_has_sums: bool,
    start: S,
) -> Result<FileRecords<S>, Fault>
    ensures sound { IfOk result (λ k. IsTrue (file_state k.conn).is_open → IsSound over_files k) }
    ensures keeper { IfOk result (λ k. HasCleanDisk (file_state k.conn)
        → IsKeeperFrom (image_at S.Start) new_has_sums k) }
    ensures err { IfErr result IsOfStore }
{
    look_at_halves(rt, file)?;
    make_file(rt, file.path);
    warn_of_readers(rt, file);
    match Connection::open_from(rt, file.path, new_has_sums, start) {
        Ok(conn) => records_over(rt, file, conn),
        Err((error, _)) => Err(fault_at(rt, file.path, fault_of_file(error))),
    }
}

/// Closes the files of a connection, and gives them back. The log is written back into the file, so that
/// the store is this one file, and a log without commits. If it can't be, the store is given back, as that
/// has left it.
fn close<D: Disk + Drop>(conn: Connection<FileStore<D>>) -> Result<ClosedStore<D>, FileStore<D>>
    ensures copied { IfOk result (λ closed. HasCleanFiles closed → IsCopied conn closed.files) }
    ensures left { IfErr result (IsClosed conn) }
{
    match conn.close_files() {
        Ok(files) => Ok(ClosedStore::of(files)),
        Err((_, store)) => Err(store),
    }
}

/// The store of a keeper, whose files are left as they are.
fn leave<D: Disk + Drop>(records: SqlRecords<FileStore<D>>) -> FileStore<D>
    ensures { IsLeftUnclosed records result }
{
    records.into_connection().into_store()
}

/// Closes the files of a keeper, and gives them back; or its store, if they can't be closed. One of other
/// tables than the program's isn't closed, since no clause says what it holds; none is opened. Nor is one
/// that can't go on: its files are left as they are.
pub fn close_records<D: Disk + Drop>(
    records: SqlRecords<FileStore<D>>,
) -> Result<ClosedStore<D>, FileStore<D>>
    ensures closed { IfOk result (λ closed. HasCleanFiles closed
        → IsSound over_files records × IsLeftIn closed (kept_by over_files records)) }
    ensures left { IfErr result (IsLeftUnclosed records) }
{
    records.stays_sound_while_open();
    if !records.has_only_our_tables() {
        return Err(leave(records));
    }
    if !records.is_open() {
        return Err(leave(records));
    }
    close(records.into_connection())
}

/// A keeper in memory, which keeps no domains yet.
pub fn records_in_memory(alloc: Global) -> Result<MemoryRecords, Exit>
    ensures nothing { IfOk result (λ records. kept_by over_memory records ≡ nothing_kept) }
    ensures sound { IfOk result (IsSound over_memory) }
    ensures end { IfErr result (λ exit. (exit ≡ Memory) ⊎ (exit ≡ Store)) }
    ensures err { IfErr result (λ exit. exit ≢ Usage) }
{
    let conn = Connection::open_in_memory(alloc)?;
    match SqlRecords::open(alloc, conn) {
        Ok(records) => Ok(records),
        Err((OpenError::Memory, _)) => Err(Exit::Memory),
        Err(_) => Err(Exit::Store),
    }
}
