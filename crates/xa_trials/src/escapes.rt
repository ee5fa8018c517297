//! Texts with escapes, which begin with a backslash, as they are read.
use crate::no_answer::NoAnswer;
use std::alloc::Global;

/// The bytes for which a text stands, as far as it is read.
#[derive(Drop)]
pub struct Escapes {
    /// Where memory comes from.
    alloc: Global,
    /// The bytes.
    bytes: Vec<u8>,
    /// Whether what comes next follows a backslash.
    is_escaped: bool,
}

impl Escapes {
    /// No bytes, of a text of which nothing is read.
    pub fn new(alloc: Global) -> Escapes {
        Escapes {
            alloc,
            bytes: Vec::new(alloc),
            is_escaped: false,
        }
    }

    /// Puts the bytes.
    pub fn put(&mut self, bytes: &[u8]) -> Result<(), NoAnswer> {
        self.bytes.extend_from_slice(bytes)?;
        Ok(())
    }

    /// Puts a byte, and those after it.
    pub fn put_byte(&mut self, byte: u8, rest: &[u8]) -> Result<(), NoAnswer> {
        self.bytes.push(byte)?;
        self.put(rest)
    }

    /// Takes the next of the parts between backslashes. If it is an escape, gives its letter and the bytes
    /// after it. Else it is put as it is, and two backslashes in a row as `backslashes`.
    pub fn take<'a>(
        &mut self,
        part: &'a str,
        backslashes: &[u8],
    ) -> Result<Option<(u8, &'a [u8])>, NoAnswer> {
        if !self.is_escaped {
            self.is_escaped = true;
            self.put(part.as_bytes())?;
            return Ok(None);
        }
        match part.as_bytes() {
            [letter, rest @ ..] => Ok(Some((*letter, rest))),
            [] => {
                self.is_escaped = false;
                self.put(backslashes)?;
                Ok(None)
            }
        }
    }

    /// Takes off the bytes from that place on.
    pub fn take_off(&mut self, start: usize) -> Result<Vec<u8>, NoAnswer> {
        let bytes = Vec::from_slice(self.alloc, self.bytes.get(start..).unwrap_or(&[]))?;
        self.bytes.truncate(start);
        Ok(bytes)
    }

    /// How many bytes there are.
    pub fn len(&self) -> usize {
        self.bytes.len()
    }

    /// The bytes.
    pub fn into_bytes(self) -> Vec<u8> {
        self.bytes
    }
}
