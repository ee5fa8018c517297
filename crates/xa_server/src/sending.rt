//! What is sent to the peer of a connection.
ghost use Rattle.std.specs.Prelude.{◌<◌, length, option_map};
ghost use Rattle.xa_server.specs.handling.Sending.{SendsOnce};
ghost use Rattle.xa_server.specs.Transfers.{IsWritten};

use crate::writer::Writer;
use std::io::ErrorKind;

/// Sends some of the bytes, from their front, and says what is left of them; nothing if that failed, or if
/// none are taken any more.
#[tactic(auto, using(crate::proofs::SendingLemmas::took_none, crate::proofs::SendingLemmas::took_some, crate::proofs::SendingLemmas::unsent))]
fn send_some<'a, W: Writer>(writer: &mut W, bytes: &'a [u8]) -> Option<&'a [u8]>
    requires { 0 < length bytes.now }
    ensures { SendsOnce bytes.now (option_map (λ left. left.now) result)
        (W.contents writer.old) (W.contents writer.new) (W.writes writer.old) (W.writes writer.new) }
{
    match writer.send(bytes) {
        Ok(0) => None,
        Ok(count) => Some(bytes.split_at(count).1),
        Err(error) if error.kind() == ErrorKind::Interrupted => Some(bytes),
        Err(_) => None,
    }
}

/// Sends the bytes, whole and once, and lets none be held back. Whether that went well; if not, a part
/// from their front may have been sent.
#[tactic(auto, using(crate::proofs::SendingLemmas::nothing_sent))]
pub(crate) fn send_whole<W: Writer>(writer: &mut W, bytes: &[u8]) -> bool
    ensures { IsWritten result bytes.now (W.contents writer.old) (W.contents writer.new)
        (W.writes writer.old) (W.writes writer.new) }
{
    let mut left = bytes;
    // Bounded, so that it ends whatever the writer answers.
    for _tried in 0..u64::MAX {
        if left.is_empty() {
            return writer.deliver().is_ok();
        }
        let Some(rest) = send_some(writer, left) else {
            return false;
        };
        left = rest;
    }
    false
}
