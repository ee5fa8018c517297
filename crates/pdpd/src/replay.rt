//! The replay of a transcript.
ghost use Rattle.std.specs.Prelude.{◌≡◌, ◌≢◌, ◌↔◌, ⊤, IsFalse, IfErr};
ghost use Rattle.std.specs.Prelude.{MatchOption, Option, None, List, ℕ};
ghost use Rattle.std.specs.Io.Buffered.{writer_contents, writer_inner};
ghost use Rattle.sha2.specs.Sha256.{sha256};
ghost use Rattle.sqlite.specs.Steps.{over_memory};
ghost use Rattle.xa_notation.specs.Tokens.{is_token};
ghost use Rattle.xa_server.specs.Lines.{all_open};
ghost use Rattle.pdpd.specs.Exit.{tells_of_entries};
ghost use Rattle.pdpd.specs.Replay.{IsReplayed, IsReplayedFromNothing, IsSomeRun, IsTranscriptRead, Replays};
ghost use Rattle.pdpd.specs.running.Reading.{remaining_of};
ghost use Rattle.pdpd.specs.running.Replaying.{AreReady, end_of};
ghost use Rattle.pdpd.specs.declared.exit.Exit.TheVariants.{Usage};

pub(crate) mod heading;
mod read_buffer;
mod replayer;
mod telling;
mod transcript;
pub(crate) mod transcript_fault;
mod writing;

use crate::exit::Exit;
use crate::replay::replayer::Replayer;
use crate::replay::transcript::Transcript;
use crate::store::{MemoryRecords, records_in_memory};
use std::alloc::Global;
use std::io::{Read, Write};
use xa_notation::is_token;
use xa_records::Records;

/// A transcript that was replayed.
#[derive(Drop)]
pub struct Replayed<R: Records + Drop, W: Write + Drop> {
    /// How the program ends by it.
    pub exit: Exit,
    /// What the program holds then; nothing if no entry was looked at. No code reads it: clauses speak of
    /// it.
    replayer: Option<Replayer<R, W>>,
}

impl<R: Records + Drop, W: Write + Drop> Replayed<R, W> {
    /// A transcript of which no entry was looked at, and how the program ends.
    fn without_entries(exit: Exit) -> Replayed<R, W>
        ensures exit { result.exit ≡ exit }
        ensures nothing { result.replayer ≡ None }
    {
        Replayed {
            exit,
            replayer: None,
        }
    }
}

/// Answers the entries of a transcript, one after another.
#[tactic(auto, using(crate::proofs::RunLemmas::some_none, crate::proofs::ReplayLemmas::given_none, crate::proofs::ReplayLemmas::given_more, crate::proofs::ReplayLemmas::given_all, crate::proofs::ReplayLemmas::given_badly, crate::proofs::ReplayLemmas::answered_none, crate::proofs::ReplayLemmas::answered_more, crate::proofs::ReplayLemmas::answered_all, crate::proofs::ReplayLemmas::answered_badly, crate::proofs::ReplayLemmas::broken_off))]
fn answer_entries<I: Read, R: Records + Drop, W: Write + Drop>(
    transcript: &mut Transcript<I>,
    replayer: &mut Replayer<R, W>,
) -> Result<(), Exit>
    requires { AreReady replayer.old.front.lines }
    ensures replayed { IsTranscriptRead
        (Replays R.custody replayer.old.front replayer.new.front
        (writer_contents W.contents replayer.old.writer) (writer_contents W.contents replayer.new.writer))
        (remaining_of I.remaining transcript.old) (remaining_of I.remaining transcript.new) (end_of result) }
    ensures read { IsTranscriptRead (λ _. ⊤)
        (remaining_of I.remaining transcript.old) (remaining_of I.remaining transcript.new) (end_of result) }
    ensures served { IsSomeRun R.custody replayer.old.front.server replayer.new.front.server }
    ensures err { IfErr result (λ exit. exit ≢ Usage) }
{
    let mut bytes = Vec::new(replayer.alloc);
    for number in 1..u64::MAX {
        let next = match transcript.next_entry(&mut bytes) {
            Ok(next) => next,
            Err(fault) => return Err(fault.exit(number)),
        };
        let Some(heading) = next else {
            return Ok(());
        };
        replayer.answer_entry(&heading, &bytes)?;
    }
    // No reader gives so many entries.
    Err(Exit::Failed)
}

/// Answers the entries of a transcript, each message at the moment of the entry that makes it
/// whole, and writes the replies. What was answered is written, however it ends. All connections are
/// open when it begins, and nothing has come on them.
#[tactic(auto, using(crate::proofs::ReplayLemmas::replayed_all, crate::proofs::ReplayLemmas::broken_off, crate::proofs::ReadyLemmas::all_ready))]
fn replay_all<I: Read, R: Records + Drop, W: Write + Drop>(
    transcript: &mut Transcript<I>,
    replayer: &mut Replayer<R, W>,
) -> Exit
    requires { replayer.old.front.lines ≡ all_open }
    ensures replayed { IsTranscriptRead
        (Replays R.custody replayer.old.front replayer.new.front
        (writer_contents W.contents replayer.old.writer) (W.contents (writer_inner replayer.new.writer)))
        (remaining_of I.remaining transcript.old) (remaining_of I.remaining transcript.new) result }
    ensures served { IsSomeRun R.custody replayer.old.front.server replayer.new.front.server }
    ensures read { IsTranscriptRead (λ _. ⊤)
        (remaining_of I.remaining transcript.old) (remaining_of I.remaining transcript.new) result }
    ensures other { result ≢ Usage }
{
    let exit = match answer_entries(transcript, replayer) {
        Ok(()) => Exit::Done,
        Err(exit) => exit,
    };
    match replayer.writer.flush() {
        Ok(()) => exit,
        Err(error) => Exit::from(error),
    }
}

/// Replays a transcript over a keeper. `token` is the operator's.
fn replay_over<R: Records + Drop, I: Read + Drop, W: Write + Drop>(
    alloc: Global,
    records: R,
    reader: I,
    writer: W,
    token: &str,
) -> Replayed<R, W>
    ensures replayed { MatchOption result.replayer (IsFalse (tells_of_entries result.exit))
        (λ replayer. IsReplayed R.custody (sha256 token.now) records (I.remaining reader)
        (W.contents writer) (W.contents (writer_inner replayer.writer)) result.exit replayer.front) }
    ensures read { (rest : Option (List ℕ))
        × IsTranscriptRead (λ _. ⊤) (I.remaining reader) rest result.exit }
    ensures other { result.exit ≢ Usage }
{
    let mut replayer = match Replayer::new(alloc, records, writer, token) {
        Ok(replayer) => replayer,
        Err(exit) => return Replayed::without_entries(exit),
    };
    match Transcript::new(alloc, reader) {
        Ok(mut transcript) => {
            let exit = replay_all(&mut transcript, &mut replayer);
            Replayed {
                exit,
                replayer: Some(replayer),
            }
        }
        Err(error) => Replayed::without_entries(Exit::from(error)),
    }
}

/// Answers the messages of a transcript, each at the moment of the entry that makes it whole, over a store
/// in memory that keeps no domains yet, and writes the replies. `token` is the operator's. Gives how the
/// program ends, and what it then holds: clauses say what was answered and written by that.
pub fn replay<I: Read + Drop, W: Write + Drop>(
    alloc: Global,
    reader: I,
    writer: W,
    token: &str,
) -> Replayed<MemoryRecords, W>
    ensures usage { (result.exit ≡ Usage) ↔ IsFalse (is_token token.now) }
    ensures replayed { MatchOption result.replayer (IsFalse (tells_of_entries result.exit))
        (λ replayer. IsReplayedFromNothing over_memory (sha256 token.now) (I.remaining reader)
        (W.contents writer) (W.contents (writer_inner replayer.writer)) result.exit replayer.front) }
    ensures read { (rest : Option (List ℕ))
        × IsTranscriptRead (λ _. ⊤) (I.remaining reader) rest result.exit }
{
    if !is_token(token.as_bytes()) {
        return Replayed::without_entries(Exit::Usage);
    }
    match records_in_memory(alloc) {
        Ok(records) => replay_over(alloc, records, reader, writer, token),
        Err(exit) => Replayed::without_entries(exit),
    }
}
