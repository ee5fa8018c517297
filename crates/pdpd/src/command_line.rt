//! The command line.
ghost use Rattle.std.specs.Prelude.{◌≡◌, map, option_map, string_bytes};
ghost use Rattle.pdpd.specs.CommandLine as spec;

use crate::fault::Asked;
use std::alloc::Allocator;
use xa_value::{TextRef, number_up_to};

/// At most this many connections are served, so that each run ends, and its file is closed. For more, the
/// program is started again.
const MAX_CONNECTIONS: usize = 1_000_000;

/// What `pdpd serve` is asked to do.
#[derive(Drop)]
pub struct ServeCommand<'a> {
    /// The path of the store.
    pub database: TextRef<'a>,
    /// The address at which connections are taken.
    pub address: TextRef<'a>,
    /// The path of the file whose first line is the operator's token.
    pub token_file: TextRef<'a>,
    /// How many connections are served.
    pub connections: usize,
}

impl ServeCommand<'_> {
    /// What is served.
    pub fn asked(&self) -> Asked<'_> {
        Asked {
            command: "serve",
            database: self.database.as_str(),
            address: self.address.as_str(),
            token_file: self.token_file.as_str(),
            changes: None,
        }
    }
}

/// What `pdpd listen` is asked to do.
#[derive(Drop)]
pub struct ListenCommand<'a> {
    /// The path of the store.
    pub database: TextRef<'a>,
    /// Where connections are taken: an address, or `unix:` and a path.
    pub address: TextRef<'a>,
    /// The path of the file whose first line is the operator's token.
    pub token_file: TextRef<'a>,
    /// Where connections for changes are taken, if that is an address of their own.
    pub changes: Option<TextRef<'a>>,
}

impl ListenCommand<'_> {
    /// Where connections for changes are taken, if that is an address of their own.
    pub fn changes(&self) -> Option<&str>
        ensures { option_map (λ text. text.now) result ≡ self.now.changes }
    {
        match &self.changes {
            Some(changes) => Some(changes.as_str()),
            None => None,
        }
    }

    /// What is served.
    pub fn asked(&self) -> Asked<'_> {
        Asked {
            command: "listen",
            database: self.database.as_str(),
            address: self.address.as_str(),
            token_file: self.token_file.as_str(),
            changes: self.changes(),
        }
    }
}

/// What the command line asks for.
#[derive(Drop)]
pub enum Command<'a> {
    /// How the program is called.
    Help,
    /// Its version.
    Version,
    /// A transcript to be replayed, with that operator's token.
    Replay(TextRef<'a>),
    /// Connections to be served, one after another.
    Serve(ServeCommand<'a>),
    /// Connections to be served at once.
    Listen(ListenCommand<'a>),
}

/// The number of connections that a word of the command line writes.
#[tactic(auto, unfolding(crate::specs::CommandLine::connections_of))]
fn connections_of(text: &str) -> Option<usize>
    ensures { result ≡ spec.connections_of text.now }
{
    match number_up_to(MAX_CONNECTIONS, text.as_bytes())? {
        0 => None,
        connections => Some(connections),
    }
}

/// What one word asks for.
#[tactic(auto, unfolding(crate::specs::CommandLine::option_of))]
fn option_of(word: &str) -> Option<Command<'_>>
    ensures { result ≡ spec.option_of word.now }
{
    match word {
        "--help" => Some(Command::Help),
        "--version" => Some(Command::Version),
        _ => None,
    }
}

/// What the four words after `serve` ask for.
#[tactic(auto, unfolding(crate::specs::CommandLine::serving_of))]
fn serving_of<'a>(
    database: &'a str,
    address: &'a str,
    token_file: &'a str,
    connections: &str,
) -> Option<Command<'a>>
    ensures { result ≡ spec.serving_of database.now address.now token_file.now connections.now }
{
    Some(Command::Serve(ServeCommand {
        database: TextRef::new(database),
        address: TextRef::new(address),
        token_file: TextRef::new(token_file),
        connections: connections_of(connections)?,
    }))
}

/// What the two words after the program's name ask for.
#[tactic(auto, unfolding(crate::specs::CommandLine::of_two_words))]
fn of_two_words<'a>(command: &str, token: &'a str) -> Option<Command<'a>>
    ensures { result ≡ spec.of_two_words command.now token.now }
{
    match command {
        "replay" => Some(Command::Replay(TextRef::new(token))),
        _ => None,
    }
}

/// What the four words after the program's name ask for.
#[tactic(auto, unfolding(crate::specs::CommandLine::of_four_words))]
fn of_four_words<'a>(
    command: &str,
    file: &'a str,
    address: &'a str,
    token_file: &'a str,
) -> Option<Command<'a>>
    ensures { result ≡ spec.of_four_words command.now file.now address.now token_file.now }
{
    match command {
        "listen" => Some(Command::Listen(ListenCommand {
            database: TextRef::new(file),
            address: TextRef::new(address),
            token_file: TextRef::new(token_file),
            changes: None,
        })),
        _ => None,
    }
}

/// What the five words after the program's name ask for.
#[tactic(auto, unfolding(crate::specs::CommandLine::of_five_words))]
fn of_five_words<'a>(
    command: &str,
    file: &'a str,
    address: &'a str,
    token_file: &'a str,
    last: &'a str,
) -> Option<Command<'a>>
    ensures { result ≡ spec.of_five_words command.now file.now address.now token_file.now last.now }
{
    match command {
        "listen" => Some(Command::Listen(ListenCommand {
            database: TextRef::new(file),
            address: TextRef::new(address),
            token_file: TextRef::new(token_file),
            changes: Some(TextRef::new(last)),
        })),
        "serve" => serving_of(file, address, token_file, last),
        _ => None,
    }
}

/// What the words of a command line ask for. The first of them is the program's name.
#[tactic(auto, using(crate::proofs::CommandLineLemmas::none_of_few, crate::proofs::CommandLineLemmas::none_of_four, crate::proofs::CommandLineLemmas::none_of_many))]
pub fn command_of<A: Allocator>(words: &[String<A>]) -> Option<Command<'_>>
    ensures { result ≡ spec.command_of (map string_bytes words.now) }
{
    match words {
        [_program, word] => option_of(word.as_str()),
        [_program, command, token] => of_two_words(command.as_str(), token.as_str()),
        [_program, command, database, address, token_file] => of_four_words(
            command.as_str(),
            database.as_str(),
            address.as_str(),
            token_file.as_str(),
        ),
        [_program, command, database, address, token_file, last] => of_five_words(
            command.as_str(),
            database.as_str(),
            address.as_str(),
            token_file.as_str(),
            last.as_str(),
        ),
        _ => None,
    }
}
