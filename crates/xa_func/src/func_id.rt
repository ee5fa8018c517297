//! The functions, as families over operations and types.
ghost use Rattle.std.specs.Prelude.{◌≡◌};
ghost use Rattle.xa_func.specs.Table.{is_scalar, ordered_type, text_type, printed_type};

use xa_value::DataType;

/// A function of the standard (XACML 3.0, core, appendix A.3).
#[derive(Clone, Copy, Debug, PartialEq, Eq)]
pub enum FuncId {
    /// Whether two values of the type are equal.
    Equal(DataType),
    /// Whether two values of the type compare as asked.
    Compare(Comparison, OrderedType),
    /// A function of integers, from left to right.
    Arithmetic(Arithmetic),
    /// The absolute value of an integer.
    IntegerAbs,
    /// A function of booleans.
    Logic(Logic),
    /// A function of texts that gives a text.
    Text(TextFunction),
    /// Whether a text is part of another.
    Part(TextPart, TextType),
    /// The text of a value.
    StringFrom(PrintedType),
    /// The value of a text.
    FromString(PrintedType),
    /// A date, or a date with a time, moved by a duration.
    Move(Moved, Direction),
    /// Whether a time lies in a range of times.
    TimeInRange,
    /// A function of bags of the type.
    Bag(BagFunction, DataType),
    /// A higher-order function.
    HigherOrder(HigherOrder),
}

/// A question on the order of two values (XACML 3.0, core, appendix A.3.6 and A.3.8).
#[derive(Clone, Copy, Debug, PartialEq, Eq)]
pub enum Comparison {
    /// The first is greater.
    GreaterThan,
    /// The first is greater, or they are equal.
    GreaterThanOrEqual,
    /// The first is less.
    LessThan,
    /// The first is less, or they are equal.
    LessThanOrEqual,
}

/// A type whose values have an order (XACML 3.0, core, appendix A.3.6 and A.3.8).
#[derive(Clone, Copy, Debug, PartialEq, Eq)]
pub enum OrderedType {
    /// Whole numbers.
    Integer,
    /// Texts, by their bytes.
    String,
    /// Times of day.
    Time,
    /// Days.
    Date,
    /// Days with a time.
    DateTime,
}

/// A function of integers, from left to right (XACML 3.0, core, appendix A.3.2).
#[derive(Clone, Copy, Debug, PartialEq, Eq)]
pub enum Arithmetic {
    /// The sum of two or more.
    Add,
    /// The product of two or more.
    Multiply,
    /// The difference.
    Subtract,
    /// The quotient, truncated toward zero.
    Divide,
    /// The remainder, with the sign of the dividend.
    Mod,
}

/// A function of booleans (XACML 3.0, core, appendix A.3.5).
#[derive(Clone, Copy, Debug, PartialEq, Eq)]
pub enum Logic {
    /// Whether one is true.
    Or,
    /// Whether all are true.
    And,
    /// Whether at least this many are true.
    NOf,
    /// The negation.
    Not,
}

/// A function of texts that gives a text (XACML 3.0, core, appendix A.3.3 and A.3.9).
#[derive(Clone, Copy, Debug, PartialEq, Eq)]
pub enum TextFunction {
    /// The text without white space at its ends.
    NormalizeSpace,
    /// Two or more texts, one after another.
    Concatenate,
    /// The characters from one place up to another.
    Substring,
}

/// Where a text stands in another (XACML 3.0, core, appendix A.3.9).
#[derive(Clone, Copy, Debug, PartialEq, Eq)]
pub enum TextPart {
    /// At its start.
    StartsWith,
    /// At its end.
    EndsWith,
    /// Anywhere.
    Contains,
}

/// A type whose values are texts (XACML 3.0, core, appendix A.3.9).
#[derive(Clone, Copy, Debug, PartialEq, Eq)]
pub enum TextType {
    /// Any text.
    String,
    /// A URI.
    AnyUri,
}

/// A type whose values are printed as a string, and read from one (XACML 3.0, core, appendix A.3.9).
#[derive(Clone, Copy, Debug, PartialEq, Eq)]
pub enum PrintedType {
    /// True or false.
    Boolean,
    /// A whole number.
    Integer,
    /// A day.
    Date,
    /// A time of day.
    Time,
    /// A day and a time of day.
    DateTime,
    /// A URI.
    AnyUri,
    /// A duration in days, hours, minutes and seconds.
    DayTimeDuration,
    /// A duration in years and months.
    YearMonthDuration,
}

/// What is moved, and by which duration (XACML 3.0, core, appendix A.3.7).
#[derive(Clone, Copy, Debug, PartialEq, Eq)]
pub enum Moved {
    /// A day and time, by days, hours, minutes and seconds.
    DateTimeByDayTime,
    /// A day and time, by years and months.
    DateTimeByYearMonth,
    /// A day, by years and months.
    DateByYearMonth,
}

/// To later, or to earlier (XACML 3.0, core, appendix A.3.7).
#[derive(Clone, Copy, Debug, PartialEq, Eq)]
pub enum Direction {
    /// The duration is added.
    Add,
    /// The duration is subtracted.
    Subtract,
}

/// A function of bags of one type (XACML 3.0, core, appendix A.3.10 and A.3.11).
#[derive(Clone, Copy, Debug, PartialEq, Eq)]
pub enum BagFunction {
    /// The one value of the bag.
    OneAndOnly,
    /// How many values the bag has.
    BagSize,
    /// Whether the bag has the value.
    IsIn,
    /// The bag of the values.
    Bag,
    /// The values that both bags have.
    Intersection,
    /// The values that one of the bags has.
    Union,
    /// Whether the second bag has a value of the first.
    AtLeastOneMemberOf,
    /// Whether the second bag has each value of the first.
    Subset,
    /// Whether each bag has each value of the other.
    SetEquals,
}

/// A higher-order function: it takes another function (XACML 3.0, core, appendix A.3.12).
#[derive(Clone, Copy, Debug, PartialEq, Eq)]
pub enum HigherOrder {
    /// Whether it is true of a value of the bag.
    AnyOf,
    /// Whether it is true of all values of the bag.
    AllOf,
    /// Whether it is true of some choice of a value from each bag.
    AnyOfAny,
    /// The bag of its results.
    Map,
    /// Whether it is true of each value of the first bag with some value of the second.
    AllOfAny,
    /// Whether it is true of each value of the first bag with each of the second.
    AllOfAll,
}

impl FuncId {
    /// Whether the function takes values alone, and gives one: no bag and no function.
    pub fn is_scalar(self) -> bool
        ensures { result ≡ is_scalar self }
    {
        !matches!(self, FuncId::Bag(..) | FuncId::HigherOrder(_))
    }
}

impl OrderedType {
    /// The type itself.
    pub fn data_type(self) -> DataType
        ensures { result ≡ ordered_type self }
    {
        match self {
            OrderedType::Integer => DataType::Integer,
            OrderedType::String => DataType::String,
            OrderedType::Time => DataType::Time,
            OrderedType::Date => DataType::Date,
            OrderedType::DateTime => DataType::DateTime,
        }
    }
}

impl TextType {
    /// The type itself.
    pub fn data_type(self) -> DataType
        ensures { result ≡ text_type self }
    {
        match self {
            TextType::String => DataType::String,
            TextType::AnyUri => DataType::AnyUri,
        }
    }
}

impl PrintedType {
    /// The type itself.
    pub fn data_type(self) -> DataType
        ensures { result ≡ printed_type self }
    {
        match self {
            PrintedType::Boolean => DataType::Boolean,
            PrintedType::Integer => DataType::Integer,
            PrintedType::Date => DataType::Date,
            PrintedType::Time => DataType::Time,
            PrintedType::DateTime => DataType::DateTime,
            PrintedType::AnyUri => DataType::AnyUri,
            PrintedType::DayTimeDuration => DataType::DayTimeDuration,
            PrintedType::YearMonthDuration => DataType::YearMonthDuration,
        }
    }
}
