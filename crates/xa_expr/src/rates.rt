//! What a call of a function of values costs beside a step and its arguments. A unit should take at most
//! 1.6 ns: what was measured to take longer is charged more (`bench/units.py` measures all of it).
use crate::work::STEP;
use xa_func::{FuncId, TextFunction, TextPart};
use xa_value::DataType;

/// What a call costs.
#[derive(Clone, Copy)]
struct Rate {
    /// The units of the call itself.
    call: u64,
    /// How often the units of the arguments are taken.
    times: u64,
}

/// The units of printing a value of the type, beside those of the value itself.
pub fn units_of_printing(data_type: DataType) -> u64 {
    match data_type {
        DataType::DateTime | DataType::DayTimeDuration => 6 * STEP,
        DataType::Time => 4 * STEP,
        DataType::Date => 3 * STEP,
        DataType::YearMonthDuration | DataType::HexBinary | DataType::Base64Binary => 2 * STEP,
        DataType::Boolean | DataType::Integer => STEP,
        DataType::String | DataType::AnyUri => 0,
    }
}

/// What a call of the function costs. A text that a function gives is made; a substring is made of a list
/// of characters. A search for a text in another begins with tables of the first, and may go back at each
/// byte.
fn rate_of(function: FuncId) -> Rate {
    match function {
        FuncId::Text(TextFunction::Substring) => Rate {
            call: STEP,
            times: 3,
        },
        FuncId::Text(TextFunction::NormalizeSpace | TextFunction::Concatenate) => Rate {
            call: STEP,
            times: 1,
        },
        FuncId::Part(TextPart::Contains, _) => Rate {
            call: 4 * STEP,
            times: 4,
        },
        FuncId::StringFrom(printed) => Rate {
            call: STEP.saturating_add(units_of_printing(printed.data_type())),
            times: 1,
        },
        FuncId::FromString(_) | FuncId::Move(..) => Rate {
            call: 2 * STEP,
            times: 1,
        },
        _ => Rate { call: 0, times: 1 },
    }
}

/// The units of this many calls of the function, beside a step for each. Their arguments together have
/// these units.
pub(crate) fn units_of_calls(function: FuncId, count: u64, arguments: u64) -> u64 {
    let rate = rate_of(function);
    rate.call
        .saturating_mul(count)
        .saturating_add(rate.times.saturating_mul(arguments))
}
