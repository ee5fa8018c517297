//! Rows of stops: a script of messages over tables in two files. In each run one of the files is frozen at
//! another call. The run ends with the first message that is refused, the one that the stop has struck.
//! Then a crash is taken, the files are opened again, and the rest of the script is answered from what
//! was left.
pub(crate) mod resumption;
pub(crate) mod run;
pub(crate) mod script;
pub(crate) mod sweep;

use crate::answer::Answer;
use crate::field::first_field_and_rest;
use crate::files::{File, FileName, StoreOfFiles, after_crash, file_named, files_of};
use crate::no_answer::NoAnswer;
use crate::stops::resumption::is_resumed;
use crate::stops::run::{Run, run_of};
use crate::stops::script::{Script, script_of};
use crate::stops::sweep::Sweep;
use sqlite::Files;

/// A stop: after how many calls it came, and which message it has struck.
#[derive(Clone, Copy)]
struct Stop {
    /// After how many calls it came.
    calls: u64,
    /// The number of the message that it has struck.
    struck: usize,
}

/// A script that is run again and again, and what its stops have struck.
#[derive(Drop)]
struct Stopping {
    /// The script.
    script: Script,
    /// The file that is frozen.
    frozen: FileName,
    /// What its stops have struck.
    sweep: Sweep,
}

impl Stopping {
    /// Takes the files up after the stop. If the rest of the script isn't answered rightly, that is the
    /// row's whole answer.
    fn resume<S: StoreOfFiles>(
        &self,
        answer: &mut Answer,
        files: Files<File>,
        stop: Stop,
    ) -> Result<(), NoAnswer> {
        if is_resumed::<S>(answer.alloc(), files, &self.script, stop.struck)? {
            return Ok(());
        }
        answer.push_shown("!Differs ", &stop.calls);
        Err(NoAnswer::Answered)
    }

    /// Takes up, after the stop, what a crash has left at both of its ends.
    fn resume_both<S: StoreOfFiles>(
        &self,
        answer: &mut Answer,
        synced: Files<File>,
        written: Files<File>,
        stop: Stop,
    ) -> Result<(), NoAnswer> {
        self.resume::<S>(answer, synced, stop)?;
        self.resume::<S>(answer, written, stop)
    }

    /// Takes a crash of the files, and takes up what it leaves at both of its ends. What the last crash has
    /// left isn't taken up again.
    fn resume_after_crash<S: StoreOfFiles>(
        &mut self,
        answer: &mut Answer,
        files: Files<File>,
        stop: Stop,
    ) -> Result<(), NoAnswer> {
        let alloc = answer.alloc();
        let (synced, written) = after_crash(alloc, files)?;
        let mut left = Vec::new(alloc);
        push_files(&mut left, &synced, &written)?;
        if !self.sweep.note(stop.struck, left) {
            return Ok(());
        }
        self.resume_both::<S>(answer, synced, written, stop)
    }

    /// Runs the script with the file frozen after so many calls, and goes on after the stop. Whether a
    /// stop has come.
    fn stop_behind<S: StoreOfFiles>(
        &mut self,
        answer: &mut Answer,
        calls: u64,
    ) -> Result<bool, NoAnswer> {
        let alloc = answer.alloc();
        let files = files_of(alloc, &self.script.files, self.frozen, calls)?;
        let run = run_of::<S>(alloc, files, &self.script.messages)?;
        match run {
            Run::Stopped(struck, files) => {
                self.sweep.count(struck);
                let stop = Stop { calls, struck };
                self.resume_after_crash::<S>(answer, files, stop)?;
                Ok(true)
            }
            Run::Ended => Ok(false),
        }
    }

    /// Freezes the file at each of its calls in turn, until a run meets no stop.
    fn stop_at_each<S: StoreOfFiles>(&mut self, answer: &mut Answer) -> Result<(), NoAnswer> {
        for calls in 0..u64::MAX {
            if !self.stop_behind::<S>(answer, calls)? {
                return Ok(());
            }
        }
        Ok(())
    }

    /// Stops at each call, adds what was struck, and takes up the files that were never frozen.
    fn run<S: StoreOfFiles>(&mut self, answer: &mut Answer) -> Result<(), NoAnswer> {
        self.stop_at_each::<S>(answer)?;
        self.sweep.push(answer);
        let files = files_of(answer.alloc(), &self.script.files, self.frozen, u64::MAX)?;
        let stop = Stop {
            calls: u64::MAX,
            struck: 0,
        };
        self.resume::<S>(answer, files, stop)
    }
}

/// Adds the bytes of a file, after their number.
fn push_file(all: &mut Vec<u8>, file: &File) -> Result<(), NoAnswer> {
    let bytes = file.inner().bytes();
    all.extend_from_slice(&bytes.len().to_le_bytes())?;
    all.extend_from_slice(bytes)?;
    Ok(())
}

/// Adds the bytes of both files, at both ends of a crash.
fn push_files(
    all: &mut Vec<u8>,
    synced: &Files<File>,
    written: &Files<File>,
) -> Result<(), NoAnswer> {
    push_file(all, &synced.log)?;
    push_file(all, &synced.db)?;
    push_file(all, &written.log)?;
    push_file(all, &written.db)
}

/// How many stops come if the file that the word names is frozen at each of its calls in turn, and which
/// messages they strike. After each stop the rest of the script has to be answered rightly; if none comes,
/// all of it.
pub fn stops<S: StoreOfFiles>(answer: &mut Answer, fields: &[&str]) -> Result<(), NoAnswer> {
    let (word, fields) = first_field_and_rest(fields)?;
    let frozen = file_named(word)?;
    let script = script_of::<S>(answer.alloc(), fields)?;
    let sweep = Sweep::new(answer.alloc(), script.messages.len())?;
    let mut stopping = Stopping {
        script,
        frozen,
        sweep,
    };
    stopping.run::<S>(answer)
}
