//! How much a domain may keep.
ghost use Rattle.std.specs.Prelude.{◌≡◌, length, nat_le};

use xa_decide::SourceRow;
use xa_value::Items;

/// A domain keeps at most this many tokens, so that it can't fill the memory and the disk of the others.
pub const MAX_TOKENS: usize = 32;

/// A domain keeps at most this many documents, for the same reason; the size of each is bounded, too.
pub const MAX_DOCUMENTS: usize = 1_024;

/// The attribute source of a domain has at most this many rows, for the same reason.
pub const MAX_SOURCE_ROWS: usize = 4_096;

/// Whether a domain may keep so many rows.
pub fn may_be_kept(rows: &Items<SourceRow>) -> bool
    ensures { result ≡ nat_le (length rows.now) 4_096 }
{
    rows.len() <= MAX_SOURCE_ROWS
}
