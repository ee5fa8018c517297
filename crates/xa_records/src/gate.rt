//! A domain's gate: the tokens by which messages are let in.
use crate::digest::Digest;
use xa_notation::Role;
use xa_value::Items;

/// A token of a domain: its digest, and its role there.
#[derive(Clone, Copy, Debug, PartialEq, Eq)]
pub struct Token {
    /// The token's digest.
    pub digest: Digest,
    /// What it may do.
    pub role: Role,
}

/// A domain's tokens, with its number and its epoch. While both stay, so do its documents, its root and
/// its source rows.
#[derive(Debug, Drop)]
pub struct Gate {
    /// The domain's number, from 1 on, which no other domain ever has, nor a later one of its name.
    pub number: u64,
    /// How often its documents, its root or its source rows have changed.
    pub epoch: u64,
    /// Its tokens, in the order of their digests.
    pub tokens: Items<Token>,
}
