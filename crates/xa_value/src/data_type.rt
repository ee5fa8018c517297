//! The data types, with their names and numbers.
ghost use Rattle.std.specs.Prelude.{◌≡◌, true, find};
ghost use Rattle.std.specs.Option.{option_copied};
ghost use Rattle.xa_value.specs.Types.{name_of, uri_of, place_of, type_at, same_type, names, type_named};

/// A data type (XACML 3.0, core, appendix A.2).
#[derive(Clone, Copy, Debug, PartialEq, Eq)]
pub enum DataType {
    /// Any text.
    String,
    /// True or false.
    Boolean,
    /// A whole number.
    Integer,
    /// A day, with or without a zone.
    Date,
    /// A time of day, with or without a zone.
    Time,
    /// A day and a time of day, with or without a zone.
    DateTime,
    /// A duration in days, hours, minutes and seconds.
    DayTimeDuration,
    /// A duration in years and months.
    YearMonthDuration,
    /// A URI, which is any text.
    AnyUri,
    /// Bytes, written as hexadecimal digits.
    HexBinary,
    /// Bytes, written in base64.
    Base64Binary,
}

impl DataType {
    /// All data types.
    pub const ALL: [DataType; 11] = [
        DataType::String,
        DataType::Boolean,
        DataType::Integer,
        DataType::Date,
        DataType::Time,
        DataType::DateTime,
        DataType::DayTimeDuration,
        DataType::YearMonthDuration,
        DataType::AnyUri,
        DataType::HexBinary,
        DataType::Base64Binary,
    ];

    /// The type that the text names, by its whole URI or by the name alone.
    #[tactic(auto, unfolding(crate::specs::Types::type_named))]
    pub fn from_uri(text: &str) -> Option<DataType>
        ensures { result ≡ type_named text.now }
    {
        first_named(&DataType::ALL, text).copied()
    }

    /// The type of that number, its place among all types.
    #[tactic(auto, using(crate::proofs::TypeLemmas::type_got))]
    pub fn from_number(number: u8) -> Option<DataType>
        ensures { result ≡ type_at number }
    {
        DataType::ALL.get(usize::from(number)).copied()
    }

    /// The type's number: its place among all types, from 0 to 10.
    pub fn number(self) -> u8
        ensures value { result ≡ place_of self }
        ensures inverse { type_at (place_of self) ≡ Some self }
    {
        self as u8
    }

    /// Whether the types are the same, as `==` says. For the prover: its clauses are those that contracts
    /// cite.
    pub fn is_same(self, other: DataType) -> bool
        ensures value { result ≡ same_type self other }
        ensures same { result ≡ true → self ≡ other }
    {
        self == other
    }

    /// Whether the text is the type's URI or its name alone.
    #[tactic(auto, unfolding(crate::specs::Types::names))]
    fn is_named(&self, text: &str) -> bool
        ensures { result ≡ names text.now self.now }
    {
        text == self.uri() || text == self.name()
    }

    /// The type's name in XML Schema.
    pub fn name(self) -> &'static str
        ensures { result.now ≡ name_of self }
    {
        match self {
            DataType::String => "string",
            DataType::Boolean => "boolean",
            DataType::Integer => "integer",
            DataType::Date => "date",
            DataType::Time => "time",
            DataType::DateTime => "dateTime",
            DataType::DayTimeDuration => "dayTimeDuration",
            DataType::YearMonthDuration => "yearMonthDuration",
            DataType::AnyUri => "anyURI",
            DataType::HexBinary => "hexBinary",
            DataType::Base64Binary => "base64Binary",
        }
    }

    /// The type's URI (XACML 3.0, core, appendix B.3).
    pub fn uri(self) -> &'static str
        ensures { result.now ≡ uri_of self }
    {
        match self {
            DataType::String => "http://www.w3.org/2001/XMLSchema#string",
            DataType::Boolean => "http://www.w3.org/2001/XMLSchema#boolean",
            DataType::Integer => "http://www.w3.org/2001/XMLSchema#integer",
            DataType::Date => "http://www.w3.org/2001/XMLSchema#date",
            DataType::Time => "http://www.w3.org/2001/XMLSchema#time",
            DataType::DateTime => "http://www.w3.org/2001/XMLSchema#dateTime",
            DataType::DayTimeDuration => "http://www.w3.org/2001/XMLSchema#dayTimeDuration",
            DataType::YearMonthDuration => "http://www.w3.org/2001/XMLSchema#yearMonthDuration",
            DataType::AnyUri => "http://www.w3.org/2001/XMLSchema#anyURI",
            DataType::HexBinary => "http://www.w3.org/2001/XMLSchema#hexBinary",
            DataType::Base64Binary => "http://www.w3.org/2001/XMLSchema#base64Binary",
        }
    }
}

/// The first of the types that the text names.
fn first_named<'a>(types: &'a [DataType], text: &str) -> Option<&'a DataType>
    ensures { option_copied result ≡ find (names text.now) types.now }
{
    types.iter().find(|data_type| data_type.is_named(text))
}
