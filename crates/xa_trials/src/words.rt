//! Rows in short. `\(WORD)` stands for the text that a row `define WORD TEXT` above gave.
//! `\[COUNT,TEXT\]` stands for the text so often, and `\[FIRST-LAST,TEXT\]` for the text once with each
//! of these numbers, in which `\#` stands for the number and `\-` for the one before. Repetitions may
//! stand in one another: a number is that of the innermost that has numbers. All other escapes stay as
//! they are, two backslashes too. They are read with the field (`field.rt`), which repeats a text of its
//! own, as `\{COUNT,TEXT\}`, and knows no numbers.
use crate::escapes::Escapes;
use crate::field::number_of;
use crate::no_answer::NoAnswer;
use std::alloc::Global;

/// What stands in a repeated text for the number, until it is known.
const NUMBER: u8 = 1;

/// What stands there for the number before.
const NUMBER_BEFORE: u8 = 2;

/// A text with its word.
#[derive(Drop)]
struct Word {
    /// The word.
    word: String,
    /// The text for which it stands.
    text: String,
}

/// The words that are defined.
#[derive(Drop)]
pub struct Words {
    /// Where memory comes from.
    alloc: Global,
    /// The words, in the order of their definitions.
    words: Vec<Word>,
}

impl Words {
    /// No word is defined.
    pub fn new(alloc: Global) -> Words {
        Words {
            alloc,
            words: Vec::new(alloc),
        }
    }

    /// The text for which the word stands.
    fn text(&self, word: &str) -> Result<&str, NoAnswer> {
        for defined in &self.words {
            if defined.word.as_str() == word {
                return Ok(defined.text.as_str());
            }
        }
        Err(NoAnswer::Malformed)
    }

    /// Defines the word before the first tab by what stands after it. A word is defined once.
    pub fn define(&mut self, definition: &str) -> Result<(), NoAnswer> {
        let (word, text) = definition.split_once('\t').unwrap_or((definition, ""));
        if self.text(word).is_ok() {
            return Err(NoAnswer::Malformed);
        }
        self.words.push(Word {
            word: String::from_str(self.alloc, word)?,
            text: String::from_str(self.alloc, text)?,
        })?;
        Ok(())
    }

    /// The row that the line stands for.
    pub fn row(&self, line: &str) -> Result<String, NoAnswer> {
        let mut row = Row {
            alloc: self.alloc,
            words: self,
            text: Escapes::new(self.alloc),
            repeated: Vec::new(self.alloc),
        };
        row.take(line)?;
        String::from_utf8(row.text.into_bytes())
            .ok()
            .ok_or(NoAnswer::Malformed)
    }
}

/// A repeated text: where it begins, and the numbers that it has, or only how often it stands there.
#[derive(Clone, Copy)]
struct Repeated {
    /// Where it begins.
    start: usize,
    /// The first number.
    first: u64,
    /// The last number.
    last: u64,
    /// Whether it has numbers; else they only say how often it stands there.
    has_numbers: bool,
}

/// A row as far as it is written out.
#[derive(Drop)]
struct Row<'a> {
    /// Where memory comes from.
    alloc: Global,
    /// The words that are defined.
    words: &'a Words,
    /// The text that is written out.
    text: Escapes,
    /// The repeated texts whose end hasn't come, the innermost last.
    repeated: Vec<Repeated>,
}

impl Row<'_> {
    /// Puts the text of a word, and what stands after the word.
    fn put_word(&mut self, part: &str) -> Result<(), NoAnswer> {
        let (word, rest) = part.split_once(')').ok_or(NoAnswer::Malformed)?;
        let text = self.words.text(word.strip_prefix("(").unwrap_or(word))?;
        self.text.put(text.as_bytes())?;
        self.text.put(rest.as_bytes())
    }

    /// Takes how often a text stands there, or its numbers, and the beginning of the text.
    fn begin(&mut self, part: &str) -> Result<(), NoAnswer> {
        let (numbers, rest) = part.split_once(',').ok_or(NoAnswer::Malformed)?;
        let numbers = numbers.strip_prefix("[").unwrap_or(numbers);
        let (first, last) = numbers.split_once('-').unwrap_or(("1", numbers));
        let repeated = Repeated {
            start: self.text.len(),
            first: number_of(first)?,
            last: number_of(last)?,
            has_numbers: numbers.contains('-'),
        };
        self.repeated.push(repeated)?;
        self.text.put(rest.as_bytes())
    }

    /// Puts the text with that number.
    fn put_numbered(&mut self, text: &[u8], number: u64) -> Result<(), NoAnswer> {
        let before = number.saturating_sub(1);
        let before = format!(in self.alloc; "{before}")?;
        let number = format!(in self.alloc; "{number}")?;
        for byte in text {
            match *byte {
                NUMBER => self.text.put(number.as_bytes())?,
                NUMBER_BEFORE => self.text.put(before.as_bytes())?,
                other => self.text.put_byte(other, &[])?,
            }
        }
        Ok(())
    }

    /// Puts the text that ends here as often as it stands there, and the bytes after it.
    fn end(&mut self, rest: &[u8]) -> Result<(), NoAnswer> {
        let repeated = self.repeated.pop().ok_or(NoAnswer::Malformed)?;
        let text = self.text.take_off(repeated.start)?;
        for number in repeated.first..=repeated.last {
            if repeated.has_numbers {
                self.put_numbered(&text, number)?;
            } else {
                self.text.put(&text)?;
            }
        }
        self.text.put(rest)
    }

    /// Takes the letter of an escape and the bytes after it, which are that part.
    fn escape(&mut self, part: &str, letter: u8, rest: &[u8]) -> Result<(), NoAnswer> {
        match letter {
            b'(' => self.put_word(part),
            b'[' => self.begin(part),
            b']' => self.end(rest),
            b'#' => self.text.put_byte(NUMBER, rest),
            b'-' => self.text.put_byte(NUMBER_BEFORE, rest),
            _ => self.text.put_byte(b'\\', part.as_bytes()),
        }
    }

    /// Takes the line, in which each repeated text has to end.
    fn take(&mut self, line: &str) -> Result<(), NoAnswer> {
        for part in line.split('\\') {
            if let Some((letter, rest)) = self.text.take(part, b"\\\\")? {
                self.escape(part, letter, rest)?;
            }
        }
        if self.repeated.is_empty() {
            Ok(())
        } else {
            Err(NoAnswer::Malformed)
        }
    }
}
