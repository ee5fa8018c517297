//! The values that policies and requests speak of, and the types by which contracts see them.
//!
//! A `value` is of a `data_type`. `reading` reads it from a text by `number`, `time`, `calendar`, `duration`
//! or `binary`; times and dates may end in a `zone`, and all stand on `lexical`. A `read_error` says why a
//! text is no value. `printing` writes it by the same files and `duration_printing`, and `round_trip` says
//! that what was read and is written reads as it was. `plain` has it as a text, a boolean or a number of
//! another notation. `order` compares values by a `sort_key`, and days and times by an `instant`.
//!
//! A `moment` shows a date and a time. A `category` of attributes has a URI and a shorthand. `digits` reads
//! numbers that are no values, such as those of a version.
//!
//! Contracts see a `text`, `bytes`, `items` and what is `boxed` or `shared` as what is in them. Want of
//! memory goes by `or_memory`.
#![tactic(auto)]

mod binary;
mod boxed;
mod bytes;
mod calendar;
mod category;
mod data_type;
mod digits;
mod duration;
mod duration_printing;
mod instant;
mod items;
mod lexical;
mod moment;
mod number;
mod or_memory;
mod order;
mod plain;
mod printing;
mod read_error;
mod reading;
mod round_trip;
mod shared;
mod sort_key;
mod text;
mod time;
mod value;
mod zone;

pub use boxed::Boxed;
pub use bytes::Bytes;
pub use calendar::{Date, DateTime};
pub use category::{Category, category_uri};
pub use data_type::DataType;
pub use digits::{is_number, number_up_to};
pub use duration::{DayTimeDuration, YearMonthDuration};
pub use items::Items;
pub use moment::Moment;
pub use or_memory::{OrMemory, map_error, memory_apart};
pub use plain::Plain;
pub use read_error::ReadError;
pub use shared::Shared;
pub use sort_key::SortKey;
pub use text::{Text, TextRef};
pub use time::{DAY_NANOS, MINUTE_NANOS, Time};
pub use value::Value;
pub use zone::Offset;
