//! The operator's token in a file.
ghost use Rattle.std.specs.Prelude.{◌≡◌, IfErr, IfOk, IfSome, IsFalse, IsTrue, MatchResult, take};
ghost use Rattle.std.specs.IoError.{error_kind};
ghost use Rattle.sha2.specs.Sha256.{sha256};
ghost use Rattle.xa_notation.specs.Tokens.{is_token};
ghost use Rattle.pdpd.specs.declared.fault.Fault.TheVariants.{TokenBad};
ghost use Rattle.pdpd.specs.Fault.{IsOfToken, fault_of_reading};
ghost use Rattle.pdpd.specs.Beginning.{known_text};
ghost use Rattle.pdpd.specs.Token.{IsOperatorIn, first_line};

use crate::fault::{Fault, Named};
use crate::mode::lets_others_read;
use std::alloc::Global;
use std::fs::OpenFile;
use std::io::{self, ErrorKind, Read};
use std::os::unix::fs::PermissionsExt;
use xa_notation::is_token;
use xa_records::Digest;

/// At most this many bytes of the file are read: a token is shorter.
const MAX_BYTES: u64 = 128;

/// A text up to its first line feed, or to its end.
#[tactic(auto, using(crate::proofs::TokenLemmas::no_feed_more))]
fn first_line(text: &[u8]) -> &[u8]
    ensures { result.now ≡ first_line text.now }
{
    for (i, byte) in text.iter().enumerate() {
        if *byte == b'\n' {
            return &text[..i];
        }
    }
    text
}

/// The digest of the token in the first line of a text.
fn operator_in(text: &[u8]) -> Result<Digest, Fault>
    ensures { let line = first_line text.now in
        MatchResult result (λ operator. (operator ≡ sha256 line) × IsTrue (is_token line))
        (λ fault. (fault ≡ TokenBad) × IsFalse (is_token line)) }
{
    let token = first_line(text);
    if is_token(token) {
        Ok(Digest::of(token))
    } else {
        Err(Fault::TokenBad)
    }
}

/// The beginning of what a reader gives.
fn beginning_of<R: Read + Drop>(alloc: Global, reader: R) -> io::Result<Vec<u8>>
    ensures { IfOk result (λ bytes. IfSome (R.remaining reader) (λ text. bytes.items ≡ take 128 text)) }
{
    let mut bytes = Vec::new(alloc);
    reader.take(MAX_BYTES).read_to_end(&mut bytes)?;
    Ok(bytes)
}

/// Why there is no token: the file can't be read.
fn fault_of_reading(error: io::Error) -> Fault
    ensures fault { result ≡ fault_of_reading (error_kind error) }
    ensures token { IsOfToken result }
{
    match error.kind() {
        ErrorKind::OutOfMemory => Fault::Memory,
        _ => Fault::TokenUnread,
    }
}

/// The digest of the operator's token, which is the first line of what a reader gives.
fn operator_of<R: Read + Drop>(alloc: Global, reader: R) -> Result<Digest, Fault>
    ensures operator { IfOk result (IsOperatorIn (R.remaining reader)) }
    ensures err { IfErr result IsOfToken }
{
    match beginning_of(alloc, reader) {
        Ok(bytes) => operator_in(&bytes),
        Err(error) => Err(fault_of_reading(error)),
    }
}

/// Whether others than its owner can read the file.
fn is_open_to_others(file: &impl OpenFile) -> bool {
    matches!(file.metadata(), Ok(found) if lets_others_read(found.permissions().mode()))
}

/// The digest of the operator's token, which is the first line of the token file. `opened` is that file, or
/// why it can't be opened. A line on standard error tells of a file that others can read.
pub fn operator_of_file<F: OpenFile + Read + Drop>(
    rt: &HostRuntime,
    named: Named<'_>,
    opened: io::Result<F>,
) -> Result<Digest, Fault>
    ensures operator { IfOk result (IsOperatorIn (known_text F.remaining opened)) }
    ensures err { IfErr result IsOfToken }
{
    let file = match opened {
        Ok(file) => file,
        Err(error) => return Err(fault_of_reading(error)),
    };
    if is_open_to_others(&file) {
        let _ = eprintln!(rt;
            "{named}: others than its owner can read the operator's token; chmod 600"
        );
    }
    operator_of(rt.alloc(), file)
}
