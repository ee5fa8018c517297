//! The sockets of the system as a network.
ghost use Rattle.std.specs.Prelude.{◌≡◌};
ghost use Rattle.pdpd.specs.Listening.{arrival_after};

use crate::fault::Fault;
use crate::listen::door::Door;
use crate::listen::input::Input;
use crate::listen::stream::Stream;
use crate::listen::telling::Telling;
use crate::refusals::Refusals;
use crate::serve::listening::{goes_on_after, is_want_of_room, number_of};
use mio::event::Event;
use mio::{Events, Poll, Token};
use std::io::{self, ErrorKind};
use std::rt::HostRuntime;
use std::time::Duration;
use xa_reactor::{Arrival, Board, Network, PLACES, Ready, Reason};
use xa_server::RefusedMessage;

/// The token of the door. Those below are places of connections.
const DOOR: usize = PLACES;

/// The token of standard input.
const INPUT: usize = PLACES + 1;

/// The token of the door for changes.
const CHANGES: usize = PLACES + 2;

/// The sockets of the system.
#[derive(Drop)]
pub struct Sockets<'a> {
    /// What tells of their readiness.
    poll: Poll,
    /// What it has told last.
    events: Events,
    /// Where connections are taken, unless no more are.
    door: Option<Door>,
    /// Where those for changes are, if that is an address of their own, unless no more are.
    changes: Option<Door>,
    /// The connection that was taken last, unless it is seated.
    guest: Option<Stream>,
    /// The connections that are seated, by their places.
    seats: Vec<Option<Stream>>,
    /// Standard input, which is watched if the program ends with it.
    input: Input,
    /// Where lines about them are written.
    telling: Telling<'a>,
    /// Where lines about messages are written that were refused.
    refusals: Refusals,
}

/// The seats, of which none is taken.
fn free_seats(rt: &HostRuntime) -> Result<Vec<Option<Stream>>, Fault> {
    let mut seats = Vec::with_capacity(rt.alloc(), PLACES)?;
    for _ in 0..PLACES {
        seats.push(None)?;
    }
    Ok(seats)
}

/// Notes an event.
fn note(board: &mut Board, event: &Event, input: &Input, poll: &Poll) {
    match event.token().0 {
        DOOR => board.door = true,
        CHANGES => board.changes = true,
        INPUT => board.end |= input.has_ended(poll.registry(), event),
        place => board.note(
            place,
            Ready {
                readable: event.is_readable() || event.is_read_closed() || event.is_error(),
                writable: event.is_writable() || event.is_write_closed() || event.is_error(),
                ends: event.is_read_closed() || event.is_error(),
            },
        ),
    }
}

/// How an attempt to take a connection ended that failed for such a reason.
fn arrival_after(kind: ErrorKind, number: u32) -> Arrival
    ensures { result ≡ arrival_after kind number }
{
    if matches!(kind, ErrorKind::WouldBlock) {
        Arrival::Nobody
    } else if is_want_of_room(number) {
        Arrival::NoRoom
    } else if goes_on_after(kind, number) {
        Arrival::Passed
    } else {
        Arrival::Failed
    }
}

/// The failure of a call at a place at which nobody sits.
fn nobody() -> io::Error {
    io::Error::from(ErrorKind::NotConnected)
}

/// Takes a connection that waits at a door, if there is one.
fn take_at(door: &Option<Door>, guest: &mut Option<Stream>) -> Arrival {
    let Some(door) = door else {
        return Arrival::Nobody;
    };
    match door.accept() {
        Ok(stream) => {
            *guest = Some(stream);
            Arrival::Came
        }
        Err(error) => arrival_after(error.kind(), number_of(&error)),
    }
}

/// Has the readiness of the door for changes told, if there is one.
fn watch_changes(poll: &Poll, changes: &mut Option<Door>) -> Result<(), Fault> {
    match changes {
        Some(door) => door
            .register(poll.registry(), Token(CHANGES))
            .map_err(|_| Fault::Waiting),
        None => Ok(()),
    }
}

impl<'a> Sockets<'a> {
    /// Takes connections at the door, and at that for changes, if there is one. If `ends_with_input`, the end
    /// of standard input is told, too.
    pub fn new(
        rt: &HostRuntime,
        mut door: Door,
        mut changes: Option<Door>,
        ends_with_input: bool,
        telling: Telling<'a>,
    ) -> Result<Sockets<'a>, Fault> {
        let Ok(poll) = Poll::new(rt) else {
            return Err(Fault::Waiting);
        };
        if door.register(poll.registry(), Token(DOOR)).is_err() {
            return Err(Fault::Waiting);
        }
        watch_changes(&poll, &mut changes)?;
        let input = Input::new(rt);
        if ends_with_input && input.watch(poll.registry(), Token(INPUT)).is_err() {
            return Err(Fault::Input);
        }
        Ok(Sockets {
            poll,
            events: Events::with_capacity(rt.alloc(), PLACES + 3)?,
            door: Some(door),
            changes,
            guest: None,
            seats: free_seats(rt)?,
            input,
            telling,
            refusals: Refusals::new(rt),
        })
    }

    /// Tells that of the program.
    pub fn tell(&self, what: &str) {
        self.telling.tell(what);
    }

    /// Tells that the program ends in good order, if it does; else the fault's line tells why.
    pub fn tell_of_end(&self, in_good_order: bool) {
        if in_good_order {
            self.tell("ends: its connections have ended, and its input before them");
        }
    }
}

impl Network for Sockets<'_> {
    fn wait(&mut self, board: &mut Board, timeout: Option<Duration>) -> io::Result<()> {
        self.poll.poll(&mut self.events, timeout)?;
        for event in &self.events {
            note(board, event, &self.input, &self.poll);
        }
        Ok(())
    }

    fn accept(&mut self) -> Arrival {
        take_at(&self.door, &mut self.guest)
    }

    fn accept_change(&mut self) -> Arrival {
        take_at(&self.changes, &mut self.guest)
    }

    fn seat(&mut self, place: usize) {
        let Some(mut guest) = self.guest.take() else {
            return;
        };
        // If this fails nobody sits there, and the next read says so.
        if guest.register(self.poll.registry(), Token(place)).is_ok() {
            if let Some(seat) = self.seats.get_mut(place) {
                *seat = Some(guest);
            }
        }
    }

    fn receive(&mut self, place: usize, room: &mut [u8]) -> io::Result<usize> {
        match self.seats.get_mut(place) {
            Some(Some(stream)) => stream.receive(room),
            _ => Err(nobody()),
        }
    }

    fn send(&mut self, place: usize, bytes: &[u8]) -> io::Result<usize> {
        match self.seats.get_mut(place) {
            Some(Some(stream)) => stream.send(bytes),
            _ => Err(nobody()),
        }
    }

    fn part(&mut self, place: usize) {
        if let Some(Some(stream)) = self.seats.get(place) {
            stream.part();
        }
    }

    fn leave(&mut self, place: usize, reason: Reason) {
        let Some(seat) = self.seats.get_mut(place) else {
            return;
        };
        let Some(stream) = seat.take() else {
            return;
        };
        if reason == Reason::Late {
            self.telling.tell_of_drop(stream.peer());
        }
    }

    fn shut_door(&mut self) {
        self.door = None;
        self.changes = None;
    }

    fn tell_of_refused(&mut self, refused: &RefusedMessage) {
        self.refusals.tell(refused);
    }
}
