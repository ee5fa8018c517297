//! What the text of a field stands for, and how bytes are written as a field. The escapes of rows in
//! short are others (`words.rt`): when a field is read, they have given way to what they stand for.
use crate::escapes::Escapes;
use crate::no_answer::NoAnswer;
use std::alloc::{AllocError, Global};
use std::str::FromStr;
use xa_value::Text;

/// A field as far as it is read.
#[derive(Drop)]
struct Field {
    /// The bytes for which it stands.
    text: Escapes,
    /// Where the text that is repeated begins.
    start: usize,
    /// How often that text stands there in all, until its end has come.
    count: Option<usize>,
}

impl Field {
    /// Takes the byte of two hexadecimal digits, and the bytes after them.
    fn put_hexadecimal(&mut self, bytes: &[u8]) -> Result<(), NoAnswer> {
        match bytes {
            [first, second, rest @ ..] => {
                let (first, second) = (digit(*first)?, digit(*second)?);
                let byte = first.wrapping_mul(16).wrapping_add(second);
                self.text.put_byte(byte, rest)
            }
            _ => Err(NoAnswer::Malformed),
        }
    }

    /// Takes how often a text stands there, and the beginning of the text. No other is repeated in it.
    fn begin(&mut self, part: &str) -> Result<(), NoAnswer> {
        if self.count.is_some() {
            return Err(NoAnswer::Malformed);
        }
        let (digits, rest) = part.split_once(',').ok_or(NoAnswer::Malformed)?;
        self.count = Some(number_of(digits.strip_prefix("{").unwrap_or(digits))?);
        self.start = self.text.len();
        self.text.put(rest.as_bytes())
    }

    /// Puts the text since the start as often as was said, and the bytes after it.
    fn repeat(&mut self, rest: &[u8]) -> Result<(), NoAnswer> {
        let count = self.count.take().ok_or(NoAnswer::Malformed)?;
        let bytes = self.text.take_off(self.start)?;
        for _ in 0..count {
            self.text.put(&bytes)?;
        }
        self.text.put(rest)
    }

    /// Takes the letter of an escape and the bytes after it, which are that part.
    fn escape(&mut self, part: &str, letter: u8, rest: &[u8]) -> Result<(), NoAnswer> {
        match letter {
            b'n' => self.text.put_byte(b'\n', rest),
            b'r' => self.text.put_byte(b'\r', rest),
            b't' => self.text.put_byte(b'\t', rest),
            b'x' => self.put_hexadecimal(rest),
            b'{' => self.begin(part),
            b'}' => self.repeat(rest),
            other => self.text.put_byte(other, rest),
        }
    }

    /// Takes the field, in which a repetition has to end.
    fn take(&mut self, field: &str) -> Result<(), NoAnswer> {
        for part in field.split('\\') {
            if let Some((letter, rest)) = self.text.take(part, b"\\")? {
                self.escape(part, letter, rest)?;
            }
        }
        match self.count {
            Some(_) => Err(NoAnswer::Malformed),
            None => Ok(()),
        }
    }
}

/// The value of a hexadecimal digit.
fn digit(byte: u8) -> Result<u8, NoAnswer> {
    match byte {
        b'0'..=b'9' => Ok(byte - b'0'),
        b'a'..=b'f' => Ok(byte - b'a' + 10),
        b'A'..=b'F' => Ok(byte - b'A' + 10),
        _ => Err(NoAnswer::Malformed),
    }
}

/// The word of a field, which stands before its first colon, and the text after that; a field without a
/// colon is a word alone.
pub fn word_and_text(field: &str) -> (&str, &str) {
    field.split_once(':').unwrap_or((field, ""))
}

/// The text before the first space, and the text after it.
pub fn first_word_and_rest(text: &str) -> (&str, &str) {
    text.split_once(' ').unwrap_or((text, ""))
}

/// The fields at the beginning whose word is this one, and the rest.
pub fn leading_and_rest<'a>(fields: &'a [&'a str], word: &str) -> (&'a [&'a str], &'a [&'a str]) {
    let mut count = 0usize;
    for field in fields {
        if word_and_text(field).0 != word {
            break;
        }
        count = count.saturating_add(1);
    }
    let leading = fields.get(..count).unwrap_or(&[]);
    let rest = fields.get(count..).unwrap_or(&[]);
    (leading, rest)
}

/// The only field after the kind.
pub fn only_field<'a>(fields: &'a [&'a str]) -> Result<&'a str, NoAnswer> {
    match fields {
        [field] => Ok(*field),
        _ => Err(NoAnswer::FieldCount),
    }
}

/// The two fields after the kind.
pub fn two_fields<'a>(fields: &'a [&'a str]) -> Result<(&'a str, &'a str), NoAnswer> {
    match fields {
        [first, second] => Ok((*first, *second)),
        _ => Err(NoAnswer::FieldCount),
    }
}

/// The first field after the kind, and those after it.
pub fn first_field_and_rest<'a>(
    fields: &'a [&'a str],
) -> Result<(&'a str, &'a [&'a str]), NoAnswer> {
    match fields {
        [first, rest @ ..] => Ok((*first, rest)),
        _ => Err(NoAnswer::FieldCount),
    }
}

/// The number that the text is.
pub fn number_of<T: FromStr + Drop>(text: &str) -> Result<T, NoAnswer>
where
    T::Err: Drop,
{
    text.parse::<T>().ok().ok_or(NoAnswer::Malformed)
}

/// The two numbers of a text `FIRST-LAST`; a number alone is both.
pub fn first_and_last<T: FromStr + Drop>(text: &str) -> Result<(T, T), NoAnswer>
where
    T::Err: Drop,
{
    let (first, last) = text.split_once('-').unwrap_or((text, text));
    Ok((number_of(first)?, number_of(last)?))
}

/// The bytes that the field stands for. `\n`, `\r`, `\t` and `\xHH` are a byte. `\{COUNT,TEXT\}` is the
/// text COUNT times, in which no other is repeated. Any other letter after a backslash stands for itself.
pub fn bytes_of(alloc: Global, field: &str) -> Result<Vec<u8>, NoAnswer> {
    let mut read = Field {
        text: Escapes::new(alloc),
        start: 0,
        count: None,
    };
    read.take(field)?;
    Ok(read.text.into_bytes())
}

/// The text that the field stands for.
pub fn text_of(alloc: Global, field: &str) -> Result<String, NoAnswer> {
    String::from_utf8(bytes_of(alloc, field)?)
        .ok()
        .ok_or(NoAnswer::Malformed)
}

/// The bytes that the only field stands for.
pub fn only_bytes(alloc: Global, fields: &[&str]) -> Result<Vec<u8>, NoAnswer> {
    bytes_of(alloc, only_field(fields)?)
}

/// The text that the only field stands for.
pub fn only_text(alloc: Global, fields: &[&str]) -> Result<String, NoAnswer> {
    text_of(alloc, only_field(fields)?)
}

/// The number that the only field is.
pub fn only_number<T: FromStr + Drop>(fields: &[&str]) -> Result<T, NoAnswer>
where
    T::Err: Drop,
{
    number_of(only_field(fields)?)
}

/// The text that the field stands for, as it is kept.
pub fn kept_text(alloc: Global, field: &str) -> Result<Text, NoAnswer> {
    Ok(Text::from_string(text_of(alloc, field)?))
}

/// Adds the bytes to the line as a field has them: in ASCII, with no tab and no line feed.
pub fn push_bytes(line: &mut String, bytes: &[u8]) -> Result<(), AllocError> {
    for byte in bytes {
        match *byte {
            b'\n' => line.push_str("\\n")?,
            b'\r' => line.push_str("\\r")?,
            b'\t' => line.push_str("\\t")?,
            b'\\' => line.push_str("\\\\")?,
            b' '..=b'~' => line.push(char::from(*byte))?,
            other => write!(line, "\\x{other:02x}")?,
        }
    }
    Ok(())
}
