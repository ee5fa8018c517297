//! A keeper in memory.
mod documents;
mod domain;
mod domains;
mod raising;
mod records;
mod tokens;

pub use records::PlainRecords;
