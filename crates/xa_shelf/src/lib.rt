//! Documents that were read and are shared: one text is read once for all who use it; and how much is
//! read for one message.
#![tactic(auto)]

mod shelf;
mod text_reader;

pub use shelf::Shelf;
pub use text_reader::TextReader;
