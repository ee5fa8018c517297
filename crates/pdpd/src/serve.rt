//! `pdpd serve`: connections, one after another.
ghost use Rattle.std.specs.Prelude.{◌≡◌, ◌↔◌, IfErr, IfOk, MatchResult, OnErr};
ghost use Rattle.std.specs.Prelude.{false, Err, None, Some};
ghost use Rattle.std.specs.Net.Grammar.{IsSocketText, Parses};
ghost use Rattle.sqlite.specs.Files.{over_files};
ghost use Rattle.sqlite.specs.WalFiles.{image_at};
ghost use Rattle.xa_server.specs.Front.{front_is_clean, front_state};
ghost use Rattle.xa_server.specs.Lines.{none_open};
ghost use Rattle.xa_store.specs.Keeper.{IsSound};
ghost use Rattle.xa_store.specs.KeeperReading.{custody_by};
ghost use Rattle.pdpd.specs.declared.fault.Fault.TheVariants.{Address};
ghost use Rattle.pdpd.specs.Beginning.{Begins, known_text};
ghost use Rattle.pdpd.specs.Connections.{AreIsolatedOver, ServesFrom, at_clock};
ghost use Rattle.pdpd.specs.Fault.{IsNoAddress, IsOfConnections, IsOfFiles, IsOfServing, comes_of_serving};
ghost use Rattle.pdpd.specs.Fault.{fault_of_end};
ghost use Rattle.pdpd.specs.running.Serving.{Serves, ServesNextOver, WasSound};

pub(crate) mod listening;
mod parting;
pub(crate) mod served;
pub(crate) mod setting;
pub(crate) mod settings;
mod token;
mod unknown;
pub(crate) mod wall_clock;

use crate::command_line::ServeCommand;
use crate::fault::{Asked, Fault};
use crate::refusals::Refusals;
use crate::serve::listening::Listening;
use crate::serve::served::Serving;
use crate::serve::settings::{Settings, front_of_tables};
use crate::serve::token::operator_of_file;
use crate::store::{FileRecords, records_in_file};
use sqlite::Start;
use std::fs::OpenFile;
use std::io::{self, Read};
use std::net::{SocketAddr, TcpListener};
use std::rt::HostRuntime;
use xa_records::Records;
use xa_server::{Clock, DriveEnd, Front, Peers, drive_next};

/// Fails if a connection that ended so ends the program, too. The fault says why.
fn check_end(end: DriveEnd) -> Result<(), Fault>
    ensures after { MatchResult result (λ _. fault_of_end end ≡ None)
        (λ fault. fault_of_end end ≡ Some fault) }
    ensures err { IfErr result IsOfConnections }
{
    match end {
        DriveEnd::NoClock => Err(Fault::Clock),
        DriveEnd::Memory => Err(Fault::Memory),
        DriveEnd::Shut => Err(Fault::Shut),
        DriveEnd::Ended | DriveEnd::ReadFault | DriveEnd::WriteFault | DriveEnd::TooManyReads => {
            Ok(())
        }
    }
}

/// Takes a connection and serves it, each message at the clock's moment, until it ends (`xa_server`,
/// `drive_next`).
fn serve_next<R: Records, P: Peers, C: Clock>(
    front: &mut Front<R>,
    peers: &mut P,
    clock: &mut C,
    refusals: &mut Refusals,
) -> Result<(), Fault>
    requires { front.old.lines ≡ none_open }
    ensures served { ServesNextOver R.custody P.came P.parted result
        (at_clock front.old (C.told clock.old)) (at_clock front.new (C.told clock.new)) peers.old peers.new }
    ensures closed { front.new.lines ≡ none_open }
    ensures sound { WasSound R.custody front.old front.new }
    ensures err { IfErr result IsOfConnections }
{
    let end = drive_next(&mut front.server, peers, clock)?;
    refusals.tell_of_last(front);
    check_end(end)
}

/// Serves that many connections, one after another.
fn serve_connections<R: Records, P: Peers, C: Clock>(
    front: &mut Front<R>,
    peers: &mut P,
    clock: &mut C,
    connections: usize,
    refusals: &mut Refusals,
) -> Result<(), Fault>
    requires { front.old.lines ≡ none_open }
    ensures served { AreIsolatedOver R.custody P.came P.parted connections result
        (at_clock front.old (C.told clock.old)) (at_clock front.new (C.told clock.new)) peers.old peers.new }
    ensures closed { front.new.lines ≡ none_open }
    ensures sound { WasSound R.custody front.old front.new }
    ensures err { IfErr result IsOfConnections }
{
    for _served in 0..connections {
        serve_next(front, peers, clock, refusals)?;
    }
    Ok(())
}

/// Takes connections at the address, says so, and serves them.
#[tactic(auto, using(crate::proofs::ServingLemmas::connections_are_served, crate::proofs::ServingLemmas::served_unbegun, crate::proofs::ServingLemmas::served_some))]
fn serve_at<R: Records, C: Clock>(
    rt: &HostRuntime,
    front: &mut Front<R>,
    address: SocketAddr,
    serving: &ServeCommand<'_>,
    idle: usize,
    clock: &mut C,
) -> Result<(), Fault>
    requires { front.old.lines ≡ none_open }
    ensures served { Serves R.custody serving.now.connections result
        (at_clock front.old (C.told clock.old)) (at_clock front.new (C.told clock.new)) }
    ensures sound { WasSound R.custody front.old front.new }
    ensures err { IfErr result IsOfServing }
{
    let Ok(listener) = TcpListener::bind(rt, address) else {
        return Err(Fault::Socket);
    };
    if println!(rt; "listening {}", serving.address.as_str()).is_err() {
        return Err(Fault::Output);
    }
    let mut listening = Listening::new(rt, listener, serving.connections, idle);
    let mut refusals = Refusals::new(rt);
    serve_connections(
        front,
        &mut listening,
        clock,
        serving.connections,
        &mut refusals,
    )
}

/// The address that the word of the command line writes.
pub(crate) fn address_of(word: &str) -> Result<SocketAddr, Fault>
    ensures address { Parses IsSocketText word.now result }
    ensures err { IfErr result (λ fault. fault ≡ Address) }
{
    SocketAddr::parse_ascii(word.as_bytes()).map_err(|_| Fault::Address)
}

/// The front of a server over the store in the file, for the operator whose token is the first line
/// of the token file, which was opened.
pub(crate) fn front_of_files<S: Start, F: OpenFile + Read + Drop>(
    rt: &HostRuntime,
    asked: Asked<'_>,
    settings: Settings,
    token: io::Result<F>,
    start: S,
) -> Result<Front<FileRecords<S>>, Fault>
    ensures begins { IfOk result (λ front. front_is_clean (custody_by over_files) front
        → Begins (IsSound over_files front.server.records) (image_at S.Start) (known_text F.remaining token)
        (front_state (custody_by over_files) front)) }
    ensures closed { IfOk result (λ front. front.lines ≡ none_open) }
    ensures err { IfErr result IsOfFiles }
{
    let operator = operator_of_file(rt, asked.token_file(), token)?;
    let records = records_in_file(rt, asked.database(), settings.sums, start)?;
    front_of_tables(rt.alloc(), records, operator, settings)
}

/// Serves connections over the store in the file, for the operator whose token is the first line of the
/// token file. Fails with why there was no front to serve with. `token` is the token file as it was opened,
/// and `start` stands for what the store's two files hold: no clause ties either to its path. Faults are
/// looked for in this order: the address, PDPD_WORK, PDPD_REPLY, PDPD_READING, PDPD_VIEWS, PDPD_IDLE,
/// PDPD_SUMS, the token file, the store, the socket.
#[tactic(auto, using(crate::proofs::ServingLemmas::settings_not_address, crate::proofs::ServingLemmas::files_not_address, crate::proofs::ServingLemmas::address_found, crate::proofs::ServingLemmas::settings_before, crate::proofs::ServingLemmas::files_before))]
pub fn serve<S: Start, F: OpenFile + Read + Drop, C: Clock>(
    rt: &HostRuntime,
    serving: &ServeCommand<'_>,
    token: io::Result<F>,
    start: S,
    clock: &mut C,
) -> Result<Serving<FileRecords<S>>, Fault>
    ensures served { IfOk result (λ it. ServesFrom (image_at S.Start) (known_text F.remaining token)
        (C.told clock.old) serving.now.connections it.result (at_clock it.front (C.told clock.new))) }
    ensures before { IfErr result (λ fault. comes_of_serving fault ≡ false) }
    ensures unasked { OnErr result (clock.new ≡ clock.old) }
    ensures address { (result ≡ Err Address) ↔ IsNoAddress serving.now.address }
{
    let address = address_of(serving.address.as_str())?;
    let settings = Settings::read(rt)?;
    let mut front = front_of_files(rt, serving.asked(), settings, token, start)?;
    let result = serve_at(rt, &mut front, address, serving, settings.idle, clock);
    Ok(Serving { front, result })
}
