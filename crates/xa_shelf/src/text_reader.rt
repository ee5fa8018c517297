//! How much is read for one message.
ghost use Rattle.std.specs.Prelude.{◌≡◌, false, length, nat_le, Err};
ghost use Rattle.xa_value.specs.declared.or_memory.OrMemory.TheVariants.{Memory};
ghost use Rattle.xa_value.specs.Gives.{Gives};
ghost use Rattle.xa_notation.specs.Document.{document_of};
ghost use Rattle.xa_shelf.specs.Allowance.{allowed, asked};

use crate::shelf::Shelf;
use std::marker::Model;
use xa_notation::{NotationError, Parsed};
use xa_value::{OrMemory, Shared};

/// Reads texts for one message, by a shelf, up to a limit of bytes together, if there is one. A text that is
/// held counts like any other, so that what others have had read makes no difference. Contracts see whether
/// there is a limit, how many bytes are left, and whether more were asked for than a limit allows.
#[derive(Drop)]
pub struct TextReader<'a> {
    shelf: &'a mut Shelf,
    /// Whether there is a limit.
    is_limited: bool,
    /// How many bytes may yet be asked for; without a limit as many as can be counted.
    left: u64,
    /// Whether more were asked for than the limit allows.
    is_spent: bool,
}

impl<'a> Model for TextReader<'a> {
    ghost use Rattle.xa_shelf.specs.Allowance.{Allowance};

    ghost Value = { Allowance };

    ghost view = { λ r. record { is_limited = r.is_limited; left = r.left; is_spent = r.is_spent } };
}

impl<'a> TextReader<'a> {
    /// A reader by the shelf, of texts of at most this many bytes together; none is no limit.
    pub fn new(shelf: &'a mut Shelf, limit: Option<u64>) -> TextReader<'a>
        ensures { result ≡ allowed limit }
    {
        TextReader {
            shelf,
            is_limited: limit.is_some(),
            left: limit.unwrap_or(u64::MAX),
            is_spent: false,
        }
    }

    /// A share of the text's document, or the text's first fault. A text longer than what is left is refused
    /// as want of memory, and so is every later one that isn't empty.
    pub fn read(&mut self, text: &[u8]) -> Result<Shared<Parsed>, OrMemory<NotationError>>
        ensures value { Gives result (document_of text.now) }
        ensures spends { self.new ≡ asked (length text.now) self.old }
        ensures refuses { nat_le (length text.now) self.old.left ≡ false → result ≡ Err Memory }
    {
        let bytes = text.len() as u64;
        if bytes > self.left {
            self.left = 0;
            self.is_spent |= self.is_limited;
            return Err(OrMemory::Memory);
        }
        self.left -= bytes;
        self.shelf.get_or_read(text)
    }

    /// How many bytes may yet be asked for; without a limit as many as can be counted.
    pub fn left(&self) -> u64
        ensures { result ≡ self.now.left }
    {
        self.left
    }

    /// Whether more bytes were asked for than the limit allows; never without one.
    pub fn is_spent(&self) -> bool
        ensures { result ≡ self.now.is_spent }
    {
        self.is_spent
    }
}
