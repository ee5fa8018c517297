//! The bounds of a message.

/// A head has at most this many bytes, the empty lines before it included: a client can't make the
/// server hold more of one.
pub const MAX_HEAD_BYTES: usize = 16_384;

/// A head has at most this many field lines: the offsets of that many are read without an allocation.
pub const MAX_FIELDS: usize = 64;

/// A body has at most this many bytes. That bounds what a message costs, and there is room for the 4,096
/// rows of a domain's source, at up to 126 bytes each. A message that announces more is refused by its
/// head, and isn't waited for.
pub const MAX_BODY_BYTES: usize = 524_288;
