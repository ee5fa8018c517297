//! What is wrong with the words of a command line.
use crate::fault::OneLine;
use std::fmt;

/// What is wrong with the words of a command line.
#[derive(Clone, Copy)]
pub enum UsageFault<'a> {
    /// There is no command.
    NoCommand,
    /// There is no such command.
    NoSuchCommand(&'a str),
    /// That command takes other words.
    Words {
        /// The command.
        command: &'a str,
        /// The words that it takes.
        words: &'static str,
    },
    /// That is no number of connections.
    Connections(&'a str),
    /// The operator's token, which isn't shown, is none.
    Token,
    /// A word isn't in UTF-8.
    NoText,
}

/// The words that a command takes, if there is such a command.
fn words_of(command: &str) -> Option<&'static str> {
    match command {
        "listen" => Some("DATABASE ADDRESS TOKEN-FILE [CHANGES-ADDRESS]"),
        "serve" => Some("DATABASE ADDRESS TOKEN-FILE CONNECTIONS"),
        "replay" => Some("OPERATOR-TOKEN"),
        "--help" | "--version" => Some("no words"),
        _ => None,
    }
}

/// What is wrong with the words of a command line that asks for nothing. The first of them is the
/// program's name.
pub fn usage_fault(words: &[String]) -> UsageFault<'_> {
    let [_program, command, others @ ..] = words else {
        return UsageFault::NoCommand;
    };
    let command = command.as_str();
    let Some(takes) = words_of(command) else {
        return UsageFault::NoSuchCommand(command);
    };
    match others {
        [_database, _address, _token_file, connections] if command == "serve" => {
            UsageFault::Connections(connections.as_str())
        }
        _ => UsageFault::Words {
            command,
            words: takes,
        },
    }
}

impl fmt::Display for UsageFault<'_> {
    fn fmt<W: fmt::Write>(&self, f: &mut fmt::Formatter<W>) -> fmt::Result {
        match self {
            UsageFault::NoCommand => f.write_str("pdpd: no command"),
            UsageFault::NoSuchCommand(text) => {
                write!(f, "pdpd: no command `{}`", OneLine { text })
            }
            UsageFault::Words { command, words } => write!(f, "pdpd {command} takes {words}"),
            UsageFault::Connections(text) => write!(
                f,
                "pdpd serve: CONNECTIONS `{}` is no number from 1 to 1000000; for any number: pdpd listen",
                OneLine { text }
            ),
            UsageFault::Token => f.write_str("pdpd replay: OPERATOR-TOKEN is no token"),
            UsageFault::NoText => f.write_str("pdpd: a word of the command line isn't in UTF-8"),
        }
    }
}
