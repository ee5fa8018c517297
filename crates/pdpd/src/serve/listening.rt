//! Taking connections: one that fails is passed over, unless the listener failed.
ghost use Rattle.std.specs.Prelude.{◌≡◌, IfErr, IsFalse, IsTrue, MatchResult, Some};
ghost use Rattle.std.specs.Io.{ReadsAtMost, WritesAtMost};
ghost use Rattle.xa_server.specs.declared.accept_error.AcceptError.TheVariants.{Failed, Memory};
ghost use Rattle.pdpd.specs.Fault.{goes_on_after, is_of_network, is_passing, is_want_of_room};

use crate::serve::parting::part_with;
use std::alloc::Global;
use std::io::{self, ErrorKind, Read, Write};
use std::net::{TcpListener, TcpStream};
use std::rc::Rc;
use std::rt::HostRuntime;
use std::thread;
use std::time::Duration;
use xa_server::{AcceptError, Noted, PeerCall, Peers, ReadCall, Reader, WriteCall, Writer};

/// How often in a row taking a connection may fail. Peers that close first end the program only if so
/// many do in a row.
const MAX_FAILURES: u32 = 1_000;

/// How many milliseconds pass after a failure for want of room: 1,000 such failures in a row take ten
/// seconds.
const PAUSE_MILLISECONDS: u64 = 10;

// Linux's numbers of the failures after which the next connection may be taken (errno(3), accept(2)).

/// The kernel has no memory for it.
const ENOMEM: u32 = 12;

/// Too many files are open in the whole system.
const ENFILE: u32 = 23;

/// Too many files are open in this program.
const EMFILE: u32 = 24;

/// The machine is on no network.
const ENONET: u32 = 64;

/// The protocol failed.
const EPROTO: u32 = 71;

/// The protocol isn't available.
const ENOPROTOOPT: u32 = 92;

/// The kind of socket has no such operation.
const EOPNOTSUPP: u32 = 95;

/// The kernel has no room for the socket's buffers.
const ENOBUFS: u32 = 105;

/// The peer's host is down.
const EHOSTDOWN: u32 = 112;

/// A listener, and what is set of each connection that it takes.
#[derive(Drop)]
pub struct Listening {
    /// The runtime, which waits if there is no room for a connection.
    rt: HostRuntime,
    /// The socket at which connections come, until the last has come.
    listener: Option<TcpListener>,
    /// How many are still taken.
    left: usize,
    /// For how many seconds each connection may give nothing, or take nothing; 0 for ever.
    idle: usize,
    /// The connections that were given, for clauses alone.
    came: Noted<PeerCall>,
    /// Those that were taken back, too.
    parted: Noted<PeerCall>,
}

impl Listening {
    /// Takes so many connections by that listener. Each may be idle for so many seconds; 0 for ever.
    pub fn new(
        rt: &HostRuntime,
        listener: TcpListener,
        connections: usize,
        idle: usize,
    ) -> Listening {
        Listening {
            rt: *rt,
            listener: Some(listener),
            left: connections,
            idle,
            came: Noted::new(),
            parted: Noted::new(),
        }
    }

    /// Takes the next connection, and prepares it.
    fn next_connection(&self) -> Result<TcpStream, AcceptError>
        ensures { IfErr result (λ error. error ≡ Failed) }
    {
        let Some(listener) = &self.listener else {
            return Err(AcceptError::Failed);
        };
        for _ in 0..MAX_FAILURES {
            match listener.accept() {
                Ok((stream, _peer)) => {
                    prepare(&stream, self.idle);
                    return Ok(stream);
                }
                Err(error) => pass_over(&self.rt, error.kind(), number_of(&error))?,
            }
        }
        Err(AcceptError::Failed)
    }
}

/// Reads from a socket.
fn read_from(mut stream: &TcpStream, room: &mut [u8]) -> io::Result<usize>
    ensures { ReadsAtMost result room.new }
{
    stream.read(room)
}

/// Writes to a socket.
fn write_to(mut stream: &TcpStream, bytes: &[u8]) -> io::Result<usize>
    ensures { WritesAtMost result bytes.now }
{
    stream.write(bytes)
}

/// Flushes a socket.
fn flush(mut stream: &TcpStream) -> io::Result<()> {
    stream.flush()
}

/// What a connection is read from.
#[derive(Drop)]
pub struct Input {
    /// The socket, which the output shares.
    stream: Rc<TcpStream>,
    /// How often it was read from.
    count: u32,
    /// How the reads have ended, for clauses alone.
    reads: Noted<ReadCall>,
}

impl Reader for Input {
    ghost reads = { λ input. Some input.reads.calls };

    fn receive(&mut self, room: &mut [u8]) -> io::Result<usize> {
        self.count = self.count.saturating_add(1);
        let result = read_from(&self.stream, room);
        self.reads.note_read(&result, room);
        result
    }
}

/// What a connection is written to.
#[derive(Drop)]
pub struct Output {
    /// The socket, which the input shares.
    stream: Rc<TcpStream>,
    /// How the writes and flushes have ended, for clauses alone.
    writes: Noted<WriteCall>,
}

impl Writer for Output {
    ghost writes = { λ output. Some output.writes.calls };

    fn send(&mut self, bytes: &[u8]) -> io::Result<usize> {
        let result = write_to(&self.stream, bytes);
        self.writes.note_write(&result, bytes);
        result
    }

    fn deliver(&mut self) -> io::Result<()> {
        let result = flush(&self.stream);
        self.writes.note_flush(&result);
        result
    }
}

/// The connection, to be read from and to be written to.
fn shared(alloc: Global, stream: TcpStream) -> Result<(Input, Output), AcceptError>
    ensures { IfErr result (λ error. error ≡ Memory) }
{
    let Ok(input) = Rc::new(alloc, stream) else {
        return Err(AcceptError::Memory);
    };
    let Ok(output) = input.clone() else {
        return Err(AcceptError::Memory);
    };
    Ok((
        Input {
            stream: input,
            count: 0,
            reads: Noted::new(),
        },
        Output {
            stream: output,
            writes: Noted::new(),
        },
    ))
}

impl Peers for Listening {
    type Input = Input;

    type Output = Output;

    ghost came = { λ listening. Some listening.came.calls };

    ghost parted = { λ listening. Some listening.parted.calls };

    fn next(&mut self) -> Result<(Input, Output), AcceptError> {
        let stream = self.next_connection()?;
        self.left = self.left.saturating_sub(1);
        if self.left == 0 {
            self.listener = None;
        }
        let (input, output) = shared(self.rt.alloc(), stream)?;
        self.came.note_peer(&input, &output);
        Ok((input, output))
    }

    fn part(&mut self, input: Input, output: Output, by_fault: bool) {
        self.parted.note_peer(&input, &output);
        if by_fault {
            part_with(&self.rt, &input.stream, input.count);
        }
    }
}

/// Whether the next connection may be taken after a failure of that kind. It was the peer's or the
/// network's, not the listener's (accept(2)).
fn is_passing(kind: ErrorKind) -> bool
    ensures { result ≡ is_passing kind }
{
    matches!(
        kind,
        ErrorKind::ConnectionAborted
            | ErrorKind::ConnectionReset
            | ErrorKind::HostUnreachable
            | ErrorKind::NetworkUnreachable
            | ErrorKind::NetworkDown
            | ErrorKind::TimedOut
            | ErrorKind::Interrupted
    )
}

/// Whether a failure of that number was the network's. These have no kind of their own.
fn is_of_network(number: u32) -> bool
    ensures { result ≡ is_of_network number }
{
    matches!(
        number,
        EPROTO | ENOPROTOOPT | EHOSTDOWN | ENONET | EOPNOTSUPP
    )
}

/// Whether a failure of that number says that there was no room for a connection.
pub(crate) fn is_want_of_room(number: u32) -> bool
    ensures { result ≡ is_want_of_room number }
{
    matches!(number, EMFILE | ENFILE | ENOMEM | ENOBUFS)
}

/// The system's number of a failure; 0 if it has none.
pub(crate) fn number_of(error: &io::Error) -> u32 {
    error.raw_os_error().unwrap_or(0).unsigned_abs()
}

/// Whether the next connection may be taken after a failure of that kind and number.
pub(crate) fn goes_on_after(kind: ErrorKind, number: u32) -> bool
    ensures { result ≡ goes_on_after kind number }
{
    is_want_of_room(number) || is_passing(kind) || is_of_network(number)
}

/// Passes over that failure, after a pause if there was no room; or none is taken any more.
fn pass_over(rt: &HostRuntime, kind: ErrorKind, number: u32) -> Result<(), AcceptError>
    ensures { MatchResult result (λ _. IsTrue (goes_on_after kind number))
        (λ error. (error ≡ Failed) × IsFalse (goes_on_after kind number)) }
{
    if is_want_of_room(number) {
        thread::sleep(rt, Duration::from_millis(PAUSE_MILLISECONDS));
        return Ok(());
    }
    if is_passing(kind) || is_of_network(number) {
        return Ok(());
    }
    Err(AcceptError::Failed)
}

/// Lets replies go out at once, without Nagle's algorithm (RFC 9293, section 3.7.4). Sets for how many
/// seconds a connection may give nothing, or take nothing; 0 for ever. A read or write that waits longer
/// fails.
fn prepare(stream: &TcpStream, idle: usize) {
    // If this fails, replies may wait for the peer's acknowledgements: they come later, and are no others.
    let _ = stream.set_nodelay(true);
    if idle == 0 {
        return;
    }
    let wait = Duration::from_secs(idle as u64);
    // These fail only at a wait of no time, or at a stream that is gone: then the next read fails.
    let _ = stream.set_read_timeout(Some(wait));
    let _ = stream.set_write_timeout(Some(wait));
}
