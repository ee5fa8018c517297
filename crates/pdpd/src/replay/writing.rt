//! What is written: an entry for each reply.
ghost use Rattle.std.specs.Prelude.{OnOk};
ghost use Rattle.std.specs.Io.KnownBytes.{Appends};
ghost use Rattle.pdpd.specs.Entry.{reply_entry};

use std::io::{self, Write};

/// Writes a reply: a line of its connection and the count of its bytes, the bytes, and a line feed.
pub fn write_reply<W: Write>(writer: &mut W, connection: usize, bytes: &[u8]) -> io::Result<()>
    ensures { OnOk result
        (Appends (W.contents writer.old) (W.contents writer.new) (reply_entry connection bytes.now)) }
{
    let count = bytes.len();
    writeln!(writer, "{connection} {count}")?;
    writer.write_all(bytes)?;
    writer.write_all(b"\n")
}
