//! Rows of connections: what a client of this process receives from a server over a socket. Events are as
//! in rows of messages. The client writes `piece:BYTES`. The server's clock stands at `moment:SECONDS` from
//! then on. `close:` ends the connection, and the next begins. Both ends of a connection are in one thread,
//! one after the other. The client connects, writes, and ends its writing side; then the server takes the
//! connection, answers it and closes it; then the client reads.
use crate::answer::Answer;
use crate::clock::{StandingClock, moment_of};
use crate::field::{bytes_of, word_and_text};
use crate::front_calls::FrontCalls;
use crate::keepers::tables;
use crate::no_answer::{NoAnswer, unless_answered};
use crate::setup::{Setup, front_made, setup_and_events};
use std::alloc::Global;
use std::io::{Read, Write};
use std::net::{Ipv4Addr, Shutdown, TcpListener, TcpStream};
use std::rt::HostRuntime;
use xa_records::Records;
use xa_server::DriveEnd;
use xa_value::Moment;

/// A front, where it takes connections, and what the client of the next one writes.
#[derive(Drop)]
struct Sockets<F: FrontCalls + Drop> {
    /// The runtime, by which clients connect.
    rt: HostRuntime,
    /// The front.
    front: F,
    /// Where it takes connections.
    listener: TcpListener,
    /// The server's clock.
    clock: StandingClock,
    /// What the client of the next connection writes.
    written: Vec<u8>,
}

impl<F: FrontCalls + Drop> Sockets<F> {
    /// A client that has connected, and has written all that it writes.
    fn client(&mut self) -> Result<TcpStream, NoAnswer> {
        let mut client = TcpStream::connect(&self.rt, self.listener.local_addr()?)?;
        client.write_all(&self.written)?;
        client.shutdown(Shutdown::Write)?;
        self.written.clear();
        Ok(client)
    }

    /// Has the server take the next connection, answer it and close it. How that has ended.
    fn serve_next(&mut self) -> Result<DriveEnd, NoAnswer> {
        let conn = self.front.begin()?;
        let (stream, _peer) = self.listener.accept()?;
        let end = self
            .front
            .drive(conn, &mut &stream, &mut &stream, &mut self.clock);
        self.front.finish(conn)?;
        Ok(end)
    }

    /// Adds how a connection of the next client has ended for the server, and what the client has received.
    fn connection(&mut self, answer: &mut Answer) -> Result<(), NoAnswer> {
        let mut client = self.client()?;
        let end = self.serve_next()?;
        let mut received = Vec::new(answer.alloc());
        client.read_to_end(&mut received)?;
        answer.push_shown("", &end);
        if !received.is_empty() {
            answer.push_field("", &received);
        }
        Ok(())
    }

    /// Takes in what the client writes next.
    fn piece(&mut self, alloc: Global, text: &str) -> Result<(), NoAnswer> {
        let bytes = bytes_of(alloc, text)?;
        self.written.extend_from_slice(&bytes)?;
        Ok(())
    }

    /// Runs the event of the word and the text after it.
    fn run_event(&mut self, answer: &mut Answer, word: &str, text: &str) -> Result<(), NoAnswer> {
        match word {
            "piece" => self.piece(answer.alloc(), text),
            "close" => self.connection(answer),
            "moment" => {
                self.clock.set(moment_of(text)?);
                Ok(())
            }
            _ => Err(NoAnswer::Malformed),
        }
    }

    /// Runs the events, one after another, and ends the last connection.
    fn run_events(&mut self, answer: &mut Answer, events: &[&str]) -> Result<(), NoAnswer> {
        for event in events {
            let (word, text) = word_and_text(event);
            self.run_event(answer, word, text)?;
        }
        self.connection(answer)
    }
}

/// Runs the events over sockets of the front, whose clock stands at that moment.
fn run_socket_events<F: FrontCalls + Drop>(
    answer: &mut Answer,
    rt: &HostRuntime,
    listener: TcpListener,
    front: F,
    moment: Moment,
    events: &[&str],
) -> Result<(), NoAnswer> {
    let mut sockets = Sockets {
        rt: *rt,
        front,
        listener,
        clock: StandingClock::new(moment, u64::MAX),
        written: Vec::new(answer.alloc()),
    };
    sockets.run_events(answer, events)
}

/// Runs the events over sockets of a server over the keeper.
fn run_over_sockets<R: Records + Drop>(
    answer: &mut Answer,
    rt: &HostRuntime,
    listener: TcpListener,
    records: R,
    setup: &Setup,
    events: &[&str],
) -> Result<(), NoAnswer> {
    let front = front_made(answer, records, setup)?;
    run_socket_events(answer, rt, listener, front, setup.moment, events)
}

/// What clients receive when the events happen to a server over a keeper of tables, which takes
/// connections at a free port.
pub fn loopback(answer: &mut Answer, rt: &HostRuntime, fields: &[&str]) -> Result<(), NoAnswer> {
    let listener = TcpListener::bind(rt, (Ipv4Addr::LOCALHOST, 0))?;
    let (setup, events) = setup_and_events(answer.alloc(), fields)?;
    let records = tables(answer.alloc())?;
    unless_answered(run_over_sockets(answer, rt, listener, records, &setup, events))
}
