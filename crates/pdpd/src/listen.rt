//! `pdpd listen`: connections, 64 at once.
ghost use Rattle.std.specs.Prelude.{◌≡◌, ◌↔◌, false, Err, IfErr, IfOk, None, OnErr, is_some};
ghost use Rattle.sqlite.specs.WalFiles.{image_at};
ghost use Rattle.xa_server.specs.Lines.{none_open};
ghost use Rattle.pdpd.specs.Beginning.{known_text};
ghost use Rattle.xa_reactor.specs.Turn.{no_lanes};
ghost use Rattle.pdpd.specs.declared.fault.DoorFault.TheVariants as doors;
ghost use Rattle.pdpd.specs.declared.fault.Fault.TheVariants as faults;
ghost use Rattle.pdpd.specs.Fault.{comes_of_serving};
ghost use Rattle.pdpd.specs.Listening.{IsNoPlace, ServesAtOnce, ServesAtOnceFrom};
ghost use Rattle.pdpd.specs.Listening.{ServesAtOnceOver, fault_of_halt};

mod door;
pub(crate) mod files;
mod input;
mod place;
mod settings;
mod sockets;
mod stream;
mod telling;

use crate::command_line::ListenCommand;
use crate::fault::{DoorFault, Fault};
use crate::listen::door::Door;
use crate::listen::place::{Place, place_of};
use crate::listen::settings::ListenSettings;
use crate::listen::sockets::Sockets;
use crate::listen::telling::Telling;
use crate::serve::front_of_files;
use crate::serve::served::Serving;
use crate::store::FileRecords;
use sqlite::Start;
use std::fs::OpenFile;
use std::io::{self, Read};
use std::rt::HostRuntime;
use std::time::{Clock as Time, Duration};
use xa_reactor::{Halt, Limits, Network, NotedNetwork, Reactor, Timer};
use xa_records::Records;
use xa_server::{Clock, Front};

/// The machine's clock that isn't set.
#[derive(Drop)]
struct MachineTimer {
    /// The runtime, which has the clock.
    rt: HostRuntime,
}

impl Timer for MachineTimer {
    fn elapsed(&mut self) -> Option<Duration> {
        self.rt.monotonic().ok()
    }
}

/// Why the program ends by a reactor that halted.
fn fault_of_halt(halt: Halt) -> Fault
    ensures { result ≡ fault_of_halt halt }
{
    match halt {
        Halt::NoClock | Halt::NoTimer => Fault::Clock,
        Halt::Shut => Fault::Shut,
        Halt::Door => Fault::Connection,
        Halt::Network | Halt::TooManyTurns => Fault::Waiting,
    }
}

/// A reactor at which nobody is, with one address or with two.
fn new_reactor(rt: &HostRuntime, limits: Limits, is_split: bool) -> Result<Reactor, Fault>
    ensures nobody { IfOk result (λ reactor. reactor.lanes ≡ no_lanes) }
    ensures stays { IfOk result (λ reactor. reactor.leaving ≡ None) }
    ensures split { IfOk result (λ reactor. reactor.is_split ≡ is_split) }
{
    let Ok(reactor) = Reactor::new(rt.alloc(), limits) else {
        return Err(Fault::Memory);
    };
    if is_split {
        return Ok(reactor.with_changes());
    }
    Ok(reactor)
}

/// Serves connections at once over a network, until the program is told to end and all have ended.
#[tactic(auto, using(crate::proofs::ListeningLemmas::served_over))]
fn serve_at_once<R: Records, N: Network, C: Clock>(
    rt: &HostRuntime,
    front: &mut Front<R>,
    network: &mut N,
    limits: Limits,
    is_split: bool,
    clock: &mut C,
) -> Result<(), Fault>
    requires { front.old.lines ≡ none_open }
    ensures { ServesAtOnceOver R.custody N.done is_split result front.old front.new network.old network.new }
{
    let mut reactor = match new_reactor(rt, limits, is_split) {
        Ok(reactor) => reactor,
        Err(fault) => return Err(fault),
    };
    let mut timer = MachineTimer { rt: *rt };
    match reactor.run(front, network, clock, &mut timer) {
        Ok(()) => Ok(()),
        Err(halt) => Err(fault_of_halt(halt)),
    }
}

/// A fault of a door, as one of that for changes.
fn at_changes(fault: Fault) -> Fault {
    match fault {
        Fault::Place => Fault::Changes(DoorFault::Place),
        Fault::Socket => Fault::Changes(DoorFault::Socket),
        Fault::Occupied => Fault::Changes(DoorFault::Occupied),
        Fault::Taken => Fault::Changes(DoorFault::Taken),
        Fault::Unmade => Fault::Changes(DoorFault::Unmade),
        other => other,
    }
}

/// The door for changes, if there is one.
fn door_for_changes(rt: &HostRuntime, place: Option<Place<'_>>) -> Result<Option<Door>, Fault> {
    match place {
        Some(place) => Ok(Some(Door::open(rt, place).map_err(at_changes)?)),
        None => Ok(None),
    }
}

/// The sockets of the system, with the door at that place, and that for changes, if there is one. Says that
/// connections are taken there.
fn sockets_at<'a>(
    rt: &HostRuntime,
    place: Place<'_>,
    changes: Option<Place<'_>>,
    address: &'a str,
    ends_with_input: bool,
) -> Result<Sockets<'a>, Fault> {
    let door = Door::open(rt, place)?;
    let changes = door_for_changes(rt, changes)?;
    let telling = Telling::new(rt, address);
    let sockets = Sockets::new(rt, door, changes, ends_with_input, telling)?;
    if println!(rt; "listening {address}").is_err() {
        return Err(Fault::Output);
    }
    Ok(sockets)
}

/// Takes connections at that place, says so, and serves them at once.
#[tactic(auto, using(crate::proofs::ListeningLemmas::served_at_once))]
fn listen_at<R: Records, C: Clock>(
    rt: &HostRuntime,
    front: &mut Front<R>,
    place: Place<'_>,
    changes: Option<Place<'_>>,
    address: &str,
    settings: ListenSettings,
    clock: &mut C,
) -> Result<(), Fault>
    requires { front.old.lines ≡ none_open }
    ensures { ServesAtOnce R.custody (is_some changes.entry) result front.old front.new }
{
    let is_split = changes.is_some();
    let sockets = match sockets_at(rt, place, changes, address, settings.ends_with_input) {
        Ok(sockets) => sockets,
        Err(fault) => return Err(fault),
    };
    sockets.tell("begins");
    let mut noted = NotedNetwork::new(sockets);
    let result = serve_at_once(rt, front, &mut noted, settings.limits(), is_split, clock);
    noted.network.tell_of_end(result.is_ok());
    result
}

/// Where connections for changes are taken, if that is an address of their own.
fn place_for_changes(word: Option<&str>) -> Result<Option<Place<'_>>, Fault>
    ensures place { IfOk result (λ place. is_some place ≡ is_some word.entry) }
    ensures err { IfErr result (λ fault. fault ≡ faults.Changes doors.Place) }
{
    let Some(word) = word else {
        return Ok(None);
    };
    match place_of(word) {
        Ok(place) => Ok(Some(place)),
        Err(_) => Err(Fault::Changes(DoorFault::Place)),
    }
}

/// Serves connections over the store in the file, 64 at once, for the operator whose token is the first
/// line of the token file. Fails with why nothing was served. `token` is the token file as it was opened,
/// and `start` stands for what the store's two files hold: no clause ties either to its path. Faults are
/// looked for in this order: the address, that for changes, PDPD_WORK, PDPD_REPLY, PDPD_READING, PDPD_VIEWS,
/// PDPD_IDLE, PDPD_SUMS, PDPD_MESSAGE, PDPD_END, the token file, the store, the socket, that for changes,
/// standard input.
#[tactic(auto, using(crate::proofs::ListeningLemmas::listen_settings_not_place, crate::proofs::ListeningLemmas::files_not_place, crate::proofs::ListeningLemmas::place_found, crate::proofs::ListeningLemmas::listen_settings_before, crate::proofs::ListeningLemmas::place_before, crate::proofs::ListeningLemmas::changes_not_place, crate::proofs::ListeningLemmas::changes_before, crate::proofs::ServingLemmas::files_before))]
pub fn listen<S: Start, F: OpenFile + Read + Drop, C: Clock>(
    rt: &HostRuntime,
    listening: &ListenCommand<'_>,
    token: io::Result<F>,
    start: S,
    clock: &mut C,
) -> Result<Serving<FileRecords<S>>, Fault>
    ensures served { IfOk result (λ is. ServesAtOnceFrom (image_at S.Start) (known_text F.remaining token)
        (is_some listening.now.changes) is.result is.front) }
    ensures before { IfErr result (λ fault. comes_of_serving fault ≡ false) }
    ensures unasked { OnErr result (clock.new ≡ clock.old) }
    ensures place { (result ≡ Err faults.Place) ↔ IsNoPlace listening.now.address }
{
    let place = place_of(listening.address.as_str())?;
    let changes = place_for_changes(listening.changes())?;
    let settings = ListenSettings::read(rt)?;
    let mut front = front_of_files(rt, listening.asked(), settings.server, token, start)?;
    let address = listening.address.as_str();
    let result = listen_at(rt, &mut front, place, changes, address, settings, clock);
    Ok(Serving { front, result })
}
