//! Which half of a store isn't there.
ghost use Rattle.std.specs.Prelude.{◌≡◌, ◌++◌, codes, string_bytes, IfOk, MatchResult};
ghost use Rattle.std.specs.Path.{path_buf_bytes};
ghost use Rattle.pdpd.specs.Halves.{halves_of};

use std::alloc::{AllocError, Global};
use std::fs;
use std::io::{self, ErrorKind, Read};
use std::path::PathBuf;

/// A shorter log has no room for a commit: 32 bytes of its header and 24 of a frame's (SQLite's file
/// format, 4.1).
const LEAST_LOG_BYTES: u64 = 56;

/// A file of up to this length has no room for tables if its pages have 4,096 bytes, as this program makes
/// them: it is one page. A foreign file of smaller pages may have tables, and is told falsely that it hasn't.
const MOST_BLANK_BYTES: u64 = 4_096;

/// Where in a file's head its write version stands (SQLite's file format, 1.3).
const WRITE_VERSION_AT: usize = 18;

/// How many bytes of a file's head are read. The first 16 say that it is SQLite's, and the last is its
/// write version.
const HEAD_BYTES: u64 = 19;

/// Which halves of a store are there.
#[derive(Clone, Copy, Debug, PartialEq, Eq)]
pub enum Halves {
    /// Both halves, or neither, or a file that needs no log.
    Whole,
    /// The log, which may hold commits, and no file, or an empty one.
    LogAlone,
    /// A file without tables, and without the log that has its first commits.
    FileAlone,
    /// A file with tables, and no log. It is whole if it was closed, else it lacks the last changes.
    NoLog,
}

/// Which halves of a store are there: by the length of its file, 0 if there is none; by the length of
/// its log; and by whether its commits are in a log first.
fn halves_of(file: u64, log: Option<u64>, is_logged: bool) -> Halves
    ensures { result ≡ halves_of file log is_logged }
{
    match log {
        Some(log) if file == 0 && log >= LEAST_LOG_BYTES => Halves::LogAlone,
        Some(_) => Halves::Whole,
        None if !is_logged => Halves::Whole,
        None if file <= MOST_BLANK_BYTES => Halves::FileAlone,
        None => Halves::NoLog,
    }
}

/// The length of the file at the path, if one is there.
fn length_at(rt: &HostRuntime, path: &str) -> Result<Option<u64>, AllocError> {
    match fs::metadata(rt, path) {
        Ok(found) if found.is_file() => Ok(Some(found.len())),
        Err(error) if error.kind() == ErrorKind::OutOfMemory => Err(AllocError),
        _ => Ok(None),
    }
}

/// The first bytes of the file at the path.
fn head_at(rt: &HostRuntime, path: &str) -> io::Result<Vec<u8>> {
    let mut head = Vec::new(rt.alloc());
    fs::open(rt, path)?.take(HEAD_BYTES).read_to_end(&mut head)?;
    Ok(head)
}

/// Whether a file with that head is one of SQLite whose commits are in a log first: its write version
/// is 2 (SQLite's file format, 1.3).
fn is_logged(head: &[u8]) -> bool {
    head.starts_with(b"SQLite format 3\0") && head.get(WRITE_VERSION_AT) == Some(&2)
}

/// Whether the file at the path is one whose commits are in a log first. One that can't be read isn't:
/// opening it says why.
fn is_logged_at(rt: &HostRuntime, path: &str) -> Result<bool, AllocError> {
    match head_at(rt, path) {
        Ok(head) => Ok(is_logged(&head)),
        Err(error) if error.kind() == ErrorKind::OutOfMemory => Err(AllocError),
        Err(_) => Ok(false),
    }
}

/// The file that is meant by the path: what it leads to if it is a link, and the path as it is if that can't
/// be told.
fn file_meant<'a>(path: &'a str, target: &'a io::Result<PathBuf>) -> Result<&'a str, AllocError>
    ensures { IfOk result (λ file. MatchResult target.now
        (λ found. file.now ≡ path_buf_bytes found) (λ _. file.now ≡ path.now)) }
{
    match target {
        Ok(found) => Ok(found.as_str()),
        Err(error) if error.kind() == ErrorKind::OutOfMemory => Err(AllocError),
        Err(_) => Ok(path),
    }
}

/// The path of the log beside a file, by the name that SQLite gives it.
fn log_beside(alloc: Global, file: &str) -> Result<String, AllocError>
    ensures { IfOk result (λ log. string_bytes log ≡ file.now ++ codes "-wal") }
{
    let mut log = String::from_str(alloc, file)?;
    log.push_str("-wal")?;
    Ok(log)
}

/// Which halves of the store at the path are there. If the path is a link, they are its target and the
/// log beside that.
pub fn halves_at(rt: &HostRuntime, path: &str) -> Result<Halves, AllocError> {
    let target = fs::canonicalize(rt, path);
    let path = file_meant(path, &target)?;
    let log = log_beside(rt.alloc(), path)?;
    let file = length_at(rt, path)?.unwrap_or(0);
    let is_logged = file > 0 && is_logged_at(rt, path)?;
    Ok(halves_of(file, length_at(rt, log.as_str())?, is_logged))
}
