//! Parting with a connection behind the reply to a fault, so that this isn't lost by a reset.
use std::io::{ErrorKind, Read};
use std::net::{Shutdown, TcpStream};
use std::rt::{Clock, HostRuntime};
use std::time::Duration;
use xa_server::MAX_READS;

/// For how many seconds what comes is dropped.
const PARTING_SECONDS: u64 = 2;

/// How often a connection is read from then at most: 64 MiB, as by `listen`.
const MAX_DROPPED: u32 = 1_024;

/// How many bytes are read at once.
const PIECE_BYTES: usize = 65_536;

/// How much is left of the time of parting that began then; nothing if the clock can't be read.
fn time_left(rt: &HostRuntime, began: Duration) -> Duration {
    match rt.monotonic() {
        Ok(now) => Duration::from_secs(PARTING_SECONDS).saturating_sub(now.saturating_sub(began)),
        Err(_) => Duration::ZERO,
    }
}

/// Drops what comes, once. Whether more may come.
fn drops(mut stream: &TcpStream, left: Duration, room: &mut [u8; PIECE_BYTES]) -> bool {
    if left.is_zero() || stream.set_read_timeout(Some(left)).is_err() {
        return false;
    }
    match stream.read(room) {
        Ok(count) => count > 0,
        Err(error) => error.kind() == ErrorKind::Interrupted,
    }
}

/// Tells the peer that nothing more is sent, and drops what still comes, until its stream ends: for two
/// seconds and 1,024 reads at most, which are among those of `MAX_READS`, as the `reads` before them are. A
/// socket that is closed before it is empty resets its connection, and the peer may lose what was sent last
/// (RFC 9112, section 9.6). Behind its last message a peer sends nothing, so it isn't waited for there.
pub(super) fn part_with(rt: &HostRuntime, stream: &TcpStream, reads: u32) {
    let Ok(began) = rt.monotonic() else {
        return;
    };
    if stream.shutdown(Shutdown::Write).is_err() {
        return;
    }
    let mut room = [0; PIECE_BYTES];
    for _ in 0..MAX_READS.saturating_sub(reads).min(MAX_DROPPED) {
        if !drops(stream, time_left(rt, began), &mut room) {
            return;
        }
    }
}
