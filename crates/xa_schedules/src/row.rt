//! A row: what its fields do, and what they answer.
ghost use Rattle.std.specs.Prelude.{◌≡◌, true, IfOk, OnOk};
ghost use Rattle.xa_server.specs.Lines.{none_open};
ghost use Rattle.xa_reactor.specs.Turn.{AreAlike, no_lanes};

use crate::bytes::push_bytes;
use crate::no_answer::NoAnswer;
use crate::world::{World, limits_of};
use std::alloc::Global;
use std::fmt::Write;
use std::time::Duration;
use xa_reactor::{Halt, Limits, Reactor, Timer};
use xa_records::{Digest, PlainRecords};
use xa_server::{Front, Server};

/// How many bytes are read at once.
const PIECE_BYTES: usize = 65_536;

/// The operator's token.
const OPERATOR: &[u8] = b"operator-token-1";

/// What the fields of a row act on.
#[derive(Drop)]
pub struct Row {
    /// Where memory comes from.
    alloc: Global,
    /// The server and its connections.
    front: Front<PlainRecords>,
    /// What is tried.
    reactor: Reactor,
    /// Whether changes have an address of their own.
    is_split: bool,
    /// The peers, the clock and the time.
    world: World,
}

/// A front at which nobody is, over a server that keeps no domain.
fn new_front(alloc: Global) -> Result<Front<PlainRecords>, NoAnswer>
    ensures { IfOk result (λ front. front.lines ≡ none_open) }
{
    let server = Server::new(alloc, PlainRecords::new(alloc), Digest::of(OPERATOR))?;
    Ok(Front::new(alloc, server)?)
}

/// A reactor at which nobody is, with one address or with two.
fn new_reactor(alloc: Global, limits: Limits, is_split: bool) -> Result<Reactor, NoAnswer>
    ensures { IfOk result (λ reactor. reactor.lanes ≡ no_lanes) }
{
    let reactor = Reactor::new(alloc, limits)?;
    if is_split {
        return Ok(reactor.with_changes());
    }
    Ok(reactor)
}

impl Row {
    /// Nobody is there, no domain is kept, and each limit is that of a program of which none is set.
    #[tactic(auto, using(crate::proofs::BeginningLemmas::begins_alike))]
    pub fn new(alloc: Global) -> Result<Row, NoAnswer>
        ensures { IfOk result (λ row. AreAlike row.reactor.lanes row.front.lines) }
    {
        let limits = Limits {
            idle: Some(Duration::from_secs(30)),
            message: Some(Duration::from_secs(10)),
        };
        Ok(Row {
            alloc,
            front: new_front(alloc)?,
            reactor: new_reactor(alloc, limits, false)?,
            is_split: false,
            world: World::new(alloc),
        })
    }

    /// Does what the fields of a line say, and writes what they answer.
    pub fn answer(&mut self, line: &str, answer: &mut String) -> Result<(), NoAnswer>
        requires { AreAlike self.old.reactor.lanes self.old.front.lines }
    {
        for field in line.split('\t') {
            let (word, text) = match field.split_once(':') {
                Some(parts) => parts,
                None => (field, ""),
            };
            if !self.happens(word, text, answer)? {
                return Ok(());
            }
        }
        Ok(())
    }

    /// Does what a field says. Whether the row goes on.
    fn happens(&mut self, word: &str, text: &str, answer: &mut String) -> Result<bool, NoAnswer>
        requires { AreAlike self.old.reactor.lanes self.old.front.lines }
        ensures { IfOk result (λ goes_on. goes_on ≡ true
            → AreAlike self.new.reactor.lanes self.new.front.lines) }
    {
        match word {
            "turn" => self.turn(answer),
            "limits" => {
                self.limits(text)?;
                Ok(true)
            }
            "split" => {
                self.is_split = true;
                self.limits("30000:10000")?;
                Ok(true)
            }
            "got" => {
                self.shows(text, answer)?;
                Ok(true)
            }
            _ => {
                self.world.happens(self.alloc, word, text)?;
                Ok(true)
            }
        }
    }

    /// Begins anew with these limits, before anybody was taken.
    #[tactic(auto, using(crate::proofs::BeginningLemmas::begins_alike))]
    fn limits(&mut self, text: &str) -> Result<(), NoAnswer>
        ensures { OnOk result (AreAlike self.new.reactor.lanes self.new.front.lines) }
    {
        let limits = limits_of(text)?;
        self.front = new_front(self.alloc)?;
        self.reactor = new_reactor(self.alloc, limits, self.is_split)?;
        Ok(())
    }

    /// What a peer has got.
    fn shows(&self, text: &str, answer: &mut String) -> Result<(), NoAnswer> {
        let got = self.world.got(text)?;
        answer.push_str("got ")?;
        push_bytes(answer, got)?;
        answer.push_str("\t")?;
        Ok(())
    }

    /// Waits, and takes a turn.
    fn take_turn(&mut self) -> Result<Option<Duration>, Halt>
        requires { AreAlike self.old.reactor.lanes self.old.front.lines }
        ensures { OnOk result (AreAlike self.new.reactor.lanes self.new.front.lines) }
    {
        let mut room = [0; PIECE_BYTES];
        self.reactor.wait(&mut self.world.network, None)?;
        let Some(now) = self.world.timer.elapsed() else {
            return Err(Halt::NoTimer);
        };
        self.reactor.turn(
            &mut self.front,
            &mut self.world.network,
            &mut self.world.clock,
            &mut self.world.timer,
            &mut room,
            now,
        )
    }

    /// Takes a turn, and writes what was done in it. Whether the row goes on.
    fn turn(&mut self, answer: &mut String) -> Result<bool, NoAnswer>
        requires { AreAlike self.old.reactor.lanes self.old.front.lines }
        ensures { IfOk result (λ goes_on. goes_on ≡ true
            → AreAlike self.new.reactor.lanes self.new.front.lines) }
    {
        match self.take_turn() {
            Ok(rest) => {
                self.world.tell_deeds(answer)?;
                push_rest(answer, rest)?;
                Ok(true)
            }
            Err(halt) => {
                self.world.tell_deeds(answer)?;
                push_halt(answer, halt)?;
                Ok(false)
            }
        }
    }
}

/// Writes for how many milliseconds a turn rests.
fn push_rest(answer: &mut String, rest: Option<Duration>) -> Result<(), NoAnswer> {
    let written = match rest {
        Some(rest) => write!(answer, " rests {}\t", rest.as_millis()),
        None => write!(answer, " rests\t"),
    };
    written.map_err(|_| NoAnswer::Memory)
}

/// Writes why a turn halts.
fn push_halt(answer: &mut String, halt: Halt) -> Result<(), NoAnswer> {
    write!(answer, " halts {halt:?}\t").map_err(|_| NoAnswer::Memory)
}
