//! `pdpd listen DATABASE ADDRESS TOKEN-FILE [CHANGES-ADDRESS]`: answers the messages of connections, 64 at
//! once, over a store in a file; `pdpd serve DATABASE ADDRESS TOKEN-FILE CONNECTIONS`: those of so many
//! connections, one after another; and `pdpd replay OPERATOR-TOKEN`: those of a transcript. `pdpd --help` and
//! `pdpd --version` say how it is called, and which version it is.
#![tactic(auto)]

ghost use Rattle.std.specs.Prelude.{◌≡◌, ◌⊎◌, ◌↔◌, IsFalse, map, string_bytes};
ghost use Rattle.sqlite.specs.WalFiles.{image_at};
ghost use Rattle.xa_notation.specs.Tokens.{is_token};
ghost use Rattle.pdpd.specs.Beginning.{known_text};
ghost use Rattle.pdpd.specs.declared.exit.Exit.TheVariants.{Done, Failed, Usage};
ghost use Rattle.pdpd.specs.declared.fault.Fault.TheVariants.{Address};
ghost use Rattle.pdpd.specs.declared.serve.served.Ended.TheVariants.{Unbegun};
ghost use Rattle.pdpd.specs.CommandLine.{command_of};
ghost use Rattle.pdpd.specs.Ending.{HasServed, MayEnd};
ghost use Rattle.pdpd.specs.Fault.{IsNoAddress};

// What is asked for, and how the program ends.
mod command_line;
mod exit;
mod fault;
mod help;
mod usage;

// What it does.
mod listen;
mod replay;
mod serve;

// The store, and what else it asks of the system.
mod mode;
mod refusals;
mod stack;
mod store;

use command_line::{Command, ServeCommand, command_of};
use exit::Exit;
use listen::files::listen_and_close;
use serve::served::{Ended, Served};
use serve::wall_clock::WallClock;
use sqlite::{FileFrom, Start, Unknown};
use std::env;
use std::fs::{File, OpenFile};
use std::io::{self, ErrorKind, Read};
use std::process::ExitCode;
use store::closed::ClosedStore;
use store::{FileRecords, close_records};
use usage::{UsageFault, usage_fault};
use xa_server::Clock;

/// The words of the command line, the program's name first.
fn words(rt: &HostRuntime) -> Result<Vec<String>, Exit> {
    match env::args(rt) {
        Ok(words) => Ok(words.collect(rt.alloc())?),
        Err(error) if error.kind() == ErrorKind::OutOfMemory => Err(Exit::Memory),
        Err(_) => Err(Exit::Usage),
    }
}

/// Tells of the exit by a line on standard error, unless it is `Done`, and gives it.
fn report(rt: &HostRuntime, exit: Exit) -> Exit
    ensures { result ≡ exit }
{
    if !matches!(exit, Exit::Done) {
        let _ = rt.eprintln(exit);
    }
    exit
}

/// Prints a text.
fn print(rt: &HostRuntime, text: &str) -> Exit
    ensures { (result ≡ Done) ⊎ (result ≡ Failed) }
{
    match rt.println(text) {
        Ok(()) => Exit::Done,
        Err(_) => report(rt, Exit::Failed),
    }
}

/// Serves connections, and then closes the store's files. `token` is the token file as it was opened.
fn serve_and_close<S: Start, F: OpenFile + Read + Drop, C: Clock>(
    rt: &HostRuntime,
    serving: &ServeCommand<'_>,
    token: io::Result<F>,
    start: S,
    clock: &mut C,
) -> Ended<FileFrom<S>, FileRecords<S>>
    ensures served { HasServed (image_at S.Start) (known_text F.remaining token) (C.told clock.old)
        (C.told clock.new) serving.now.connections result }
    ensures address { IsNoAddress serving.now.address → result ≡ Unbegun Address }
{
    let left = match serve::serve(rt, serving, token, start, clock) {
        Ok(left) => left,
        Err(fault) => return Ended::Unbegun(fault),
    };
    if let Err(fault) = left.result {
        return Ended::Broken(left.front, fault);
    }
    match close_records(left.front.into_server().into_records()) {
        Ok(closed) => Ended::Closed(closed),
        Err(store) => Ended::Unclosed(store),
    }
}

/// Tells what is wrong with the words of a command line, and how the program is called.
fn report_usage(rt: &HostRuntime, fault: UsageFault<'_>) -> Exit
    ensures { result ≡ Usage }
{
    let exit = Exit::Usage;
    let _ = eprintln!(rt; "{fault}; {exit}");
    exit
}

/// Replays the transcript on standard input, and gives the exit.
fn exit_of_replaying(rt: &HostRuntime, token: &str) -> Exit
    ensures { (result ≡ Usage) ↔ IsFalse (is_token token.now) }
{
    match replay::replay(rt.alloc(), rt.stdin(), rt.stdout(), token).exit {
        Exit::Usage => report_usage(rt, UsageFault::Token),
        exit => report(rt, exit),
    }
}

/// Does what the words of the command line ask for, and says how that ended. `start` stands for what the
/// files of a store hold.
fn exit_of_words<S: Start, C: Clock>(
    rt: &HostRuntime,
    words: &[String],
    start: S,
    clock: &mut C,
) -> Served<FileFrom<S>, FileRecords<S>>
    ensures { MayEnd (image_at S.Start) (C.told clock.old) (C.told clock.new)
        (command_of (map string_bytes words.now)) result }
{
    match command_of(words) {
        Some(Command::Help) => Served::nothing(print(rt, help::HELP)),
        Some(Command::Version) => Served::nothing(print(rt, help::VERSION)),
        Some(Command::Replay(token)) => Served::nothing(exit_of_replaying(rt, token.as_str())),
        Some(Command::Serve(serving)) => {
            let token = File::open(rt, serving.token_file.as_str());
            let ended = serve_and_close(rt, &serving, token, start, clock);
            Served::by(rt, serving.asked(), ended)
        }
        Some(Command::Listen(listening)) => {
            let token_file = File::open(rt, listening.token_file.as_str());
            let ended = listen_and_close(rt, &listening, token_file, start, clock);
            Served::by(rt, listening.asked(), ended)
        }
        None => Served::nothing(report_usage(rt, usage_fault(words))),
    }
}

fn main(rt: HostRuntime) -> ExitCode {
    match words(&rt) {
        Ok(words) => {
            let _touched = stack::touch(words.len());
            let clock = &mut WallClock::new(&rt);
            exit_of_words(&rt, &words, Unknown, clock).exit.status()
        }
        Err(Exit::Usage) => report_usage(&rt, UsageFault::NoText).status(),
        Err(exit) => report(&rt, exit).status(),
    }
}
