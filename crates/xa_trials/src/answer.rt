//! The answer to a row: a line of fields with a tab between.
use crate::field::push_bytes;
use std::alloc::Global;
use std::fmt::Debug;
use xa_value::{OrMemory, Value};

/// The answer to a row, as far as it is written. One that finds no memory is cut: it takes what else
/// comes, and shows none of it.
#[derive(Drop)]
pub struct Answer {
    /// Where memory comes from.
    alloc: Global,
    /// The fields that are added, with a tab between.
    line: String,
    /// Whether it found no memory.
    is_cut: bool,
}

impl Answer {
    /// The answer without a field.
    pub fn new(alloc: Global) -> Answer {
        Answer {
            alloc,
            line: String::new(alloc),
            is_cut: false,
        }
    }

    /// The allocator of its line.
    pub fn alloc(&self) -> Global {
        self.alloc
    }

    /// The line; `!Memory` of an answer that is cut.
    pub fn line(&self) -> &str {
        if self.is_cut {
            return "!Memory";
        }
        self.line.as_str()
    }

    /// Cuts the answer.
    pub fn cut(&mut self) {
        self.is_cut = true;
    }

    /// Adds a field that is a word of the program.
    pub fn push_word(&mut self, word: &str) {
        let tab = if self.line.is_empty() { "" } else { "\t" };
        if write!(self.line, "{tab}{word}").is_err() {
            self.cut();
        }
    }

    /// Adds bytes to the last field.
    pub fn append_bytes(&mut self, bytes: &[u8]) {
        if push_bytes(&mut self.line, bytes).is_err() {
            self.cut();
        }
    }

    /// Adds a field: a word of the program, and bytes.
    pub fn push_field(&mut self, word: &str, bytes: &[u8]) {
        self.push_word(word);
        self.append_bytes(bytes);
    }

    /// Adds a word to the last field, and something by its name in the code.
    pub fn append_shown(&mut self, word: &str, shown: &impl Debug) {
        if write!(self.line, "{word}{shown:?}").is_err() {
            self.cut();
        }
    }

    /// Adds a field: a word of the program, and something by its name in the code.
    pub fn push_shown(&mut self, word: &str, shown: &impl Debug) {
        self.push_word("");
        self.append_shown(word, shown);
    }

    /// Adds a field: a word of the program, and the value's text.
    pub fn push_text(&mut self, word: &str, value: &Value) {
        match value.to_text(self.alloc) {
            Ok(text) => self.push_field(word, text.as_bytes()),
            Err(_) => self.cut(),
        }
    }

    /// Adds a field `TYPE:TEXT`.
    pub fn push_value(&mut self, value: &Value) {
        match format!(in self.alloc; "{}:", value.data_type().name()) {
            Ok(word) => self.push_text(word.as_str(), value),
            Err(_) => self.cut(),
        }
    }

    /// Adds a field that shows something by its name in the code; `!None` if there is nothing.
    pub fn push_shown_or_none<T: Debug + Drop>(&mut self, shown: Option<T>) {
        match shown {
            Some(shown) => self.push_shown("", &shown),
            None => self.push_word("!None"),
        }
    }

    /// What a call gave. If it gave an error, that is answered.
    pub fn success<T: Drop, E: Debug + Drop>(
        &mut self,
        given: Result<T, OrMemory<E>>,
    ) -> Option<T> {
        match given {
            Ok(given) => Some(given),
            Err(OrMemory::Error(error)) => {
                self.push_shown("!", &error);
                None
            }
            Err(OrMemory::Memory) => {
                self.cut();
                None
            }
        }
    }

    /// Adds the other answer to the same row, if it differs.
    pub fn compare(&mut self, other: &Answer) {
        if self.line() != other.line() {
            self.push_field("!Differs ", other.line().as_bytes());
        }
    }
}
