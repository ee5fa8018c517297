//! What each function is called: its name in the version of the standard that brought it, and in a later one.
ghost use Rattle.std.specs.Prelude.{◌≡◌, ◌++◌, bytes_eq};
ghost use Rattle.xa_func.specs.Table.{row, row_of, text_row, move_row, higher_row, comparison_verb};
ghost use Rattle.xa_func.specs.Table.{arithmetic_verb, logic_verb, part_verb, printed_verb, bag_verb};
ghost use Rattle.xa_func.specs.Table.{has_later_name, is_duration, names};
ghost use Rattle.xa_func.specs.declared.func_id.FuncId.TheVariants as function_id;

use crate::func_id::{
    Arithmetic, BagFunction, Comparison, Direction, FuncId, HigherOrder, Logic, Moved, PrintedType,
    TextFunction, TextPart,
};
use std::marker::Model;
use xa_value::DataType;

/// What version 1.0 of the standard puts before the names of its functions.
const VERSION_1: &str = "urn:oasis:names:tc:xacml:1.0:function:";

/// What version 2.0 of the standard puts before the names of its functions.
const VERSION_2: &str = "urn:oasis:names:tc:xacml:2.0:function:";

/// What version 3.0 of the standard puts before the names of its functions.
const VERSION_3: &str = "urn:oasis:names:tc:xacml:3.0:function:";

/// A name: the version of the standard, what the function is of, and what it does.
#[derive(Drop)]
struct Name {
    version: &'static str,
    subject: &'static str,
    verb: &'static str,
}

impl Model for Name {
    ghost use Rattle.xa_func.specs.Table.{Name as Row};

    ghost Value = { Row };

    ghost view = { λ n. record { version = n.version.now; subject = n.subject.now; verb = n.verb.now } };
}

impl Name {
    /// The name of the three parts.
    fn new(version: &'static str, subject: &'static str, verb: &'static str) -> Name
        ensures { result ≡ row version.now subject.now verb.now }
    {
        Name {
            version,
            subject,
            verb,
        }
    }

    /// Whether the text is the name, in the version that brought it.
    fn is_written_in_own_version(&self, uri: &str) -> bool
        ensures { result ≡ bytes_eq uri.now (self.now.version ++ (self.now.subject ++ self.now.verb)) }
    {
        self.is_written(self.version, uri)
    }

    /// Whether the text is the name, in the version.
    #[tactic(auto, using(crate::proofs::NameLemmas::stripped, crate::proofs::NameLemmas::unstripped))]
    fn is_written(&self, version: &str, uri: &str) -> bool
        ensures { result ≡ bytes_eq uri.now (version.now ++ (self.now.subject ++ self.now.verb)) }
    {
        match uri.as_bytes().strip_prefix(version.as_bytes()) {
            None => false,
            Some(name) => is_joined(name, self.subject.as_bytes(), self.verb.as_bytes()),
        }
    }
}

impl Comparison {
    /// What the comparison asks, as its name says.
    fn verb(self) -> &'static str
        ensures { result.now ≡ comparison_verb self }
    {
        match self {
            Comparison::GreaterThan => "-greater-than",
            Comparison::GreaterThanOrEqual => "-greater-than-or-equal",
            Comparison::LessThan => "-less-than",
            Comparison::LessThanOrEqual => "-less-than-or-equal",
        }
    }
}

impl Arithmetic {
    /// What the function of integers does, as its name says.
    fn verb(self) -> &'static str
        ensures { result.now ≡ arithmetic_verb self }
    {
        match self {
            Arithmetic::Add => "-add",
            Arithmetic::Multiply => "-multiply",
            Arithmetic::Subtract => "-subtract",
            Arithmetic::Divide => "-divide",
            Arithmetic::Mod => "-mod",
        }
    }
}

impl Logic {
    /// What the function of booleans does, as its name says.
    fn verb(self) -> &'static str
        ensures { result.now ≡ logic_verb self }
    {
        match self {
            Logic::Or => "or",
            Logic::And => "and",
            Logic::NOf => "n-of",
            Logic::Not => "not",
        }
    }
}

impl TextPart {
    /// What the function asks about a part of a text, as its name says.
    fn verb(self) -> &'static str
        ensures { result.now ≡ part_verb self }
    {
        match self {
            TextPart::StartsWith => "-starts-with",
            TextPart::EndsWith => "-ends-with",
            TextPart::Contains => "-contains",
        }
    }
}

impl PrintedType {
    /// What a function that gives a string reads, as its name says.
    fn verb(self) -> &'static str
        ensures { result.now ≡ printed_verb self }
    {
        match self {
            PrintedType::Boolean => "-from-boolean",
            PrintedType::Integer => "-from-integer",
            PrintedType::Date => "-from-date",
            PrintedType::Time => "-from-time",
            PrintedType::DateTime => "-from-dateTime",
            PrintedType::AnyUri => "-from-anyURI",
            PrintedType::DayTimeDuration => "-from-dayTimeDuration",
            PrintedType::YearMonthDuration => "-from-yearMonthDuration",
        }
    }
}

impl BagFunction {
    /// What the function of bags does, as its name says.
    fn verb(self) -> &'static str
        ensures { result.now ≡ bag_verb self }
    {
        match self {
            BagFunction::OneAndOnly => "-one-and-only",
            BagFunction::BagSize => "-bag-size",
            BagFunction::IsIn => "-is-in",
            BagFunction::Bag => "-bag",
            BagFunction::Intersection => "-intersection",
            BagFunction::Union => "-union",
            BagFunction::AtLeastOneMemberOf => "-at-least-one-member-of",
            BagFunction::Subset => "-subset",
            BagFunction::SetEquals => "-set-equals",
        }
    }
}

impl FuncId {
    /// The function's name, in the version that brought it.
    fn name(self) -> Name
        ensures { result ≡ row_of self }
    {
        match self {
            FuncId::Equal(data_type) => equality_name(data_type),
            FuncId::Compare(comparison, ordered) => Name::new(
                VERSION_1,
                ordered.data_type().name(),
                comparison.verb(),
            ),
            FuncId::Arithmetic(function) => Name::new(VERSION_1, "integer", function.verb()),
            FuncId::IntegerAbs => Name::new(VERSION_1, "integer", "-abs"),
            FuncId::Logic(function) => Name::new(VERSION_1, "", function.verb()),
            FuncId::Text(function) => text_name(function),
            FuncId::Part(part, text_type) => Name::new(
                VERSION_3,
                text_type.data_type().name(),
                part.verb(),
            ),
            FuncId::StringFrom(printed) => Name::new(VERSION_3, "string", printed.verb()),
            FuncId::FromString(printed) => Name::new(
                VERSION_3,
                printed.data_type().name(),
                "-from-string",
            ),
            FuncId::Move(moved, direction) => move_name(moved, direction),
            FuncId::TimeInRange => Name::new(VERSION_2, "", "time-in-range"),
            FuncId::Bag(function, data_type) => Name::new(
                VERSION_1,
                data_type.name(),
                function.verb(),
            ),
            FuncId::HigherOrder(function) => higher_name(function),
        }
    }

    /// Whether the function has a name in the third version beside that in the first.
    fn has_later_name(self) -> bool
        ensures { result ≡ has_later_name self }
    {
        match self {
            FuncId::Bag(_, data_type) => is_duration(data_type),
            _ => false,
        }
    }

    /// Whether the text is a name of the function.
    #[tactic(auto, unfolding(crate::specs::Table::names))]
    pub(crate) fn is_named(self, uri: &str) -> bool
        ensures { result ≡ names uri.now self }
    {
        let name = self.name();
        name.is_written_in_own_version(uri)
            || (self.has_later_name() && name.is_written(VERSION_3, uri))
    }
}

/// Whether the text is the head and then the rest.
#[tactic(auto, using(crate::proofs::NameLemmas::stripped, crate::proofs::NameLemmas::unstripped))]
fn is_joined(text: &[u8], head: &[u8], rest: &[u8]) -> bool
    ensures { result ≡ bytes_eq text.now (head.now ++ rest.now) }
{
    match text.strip_prefix(head) {
        None => false,
        Some(found) => found == rest,
    }
}

/// Whether the data type is one of the two durations.
fn is_duration(data_type: DataType) -> bool
    ensures { result ≡ is_duration data_type }
{
    matches!(
        data_type,
        DataType::DayTimeDuration | DataType::YearMonthDuration
    )
}

/// The name of the equality of the type.
fn equality_name(data_type: DataType) -> Name
    ensures { result ≡ row_of (function_id.Equal data_type) }
{
    let version = if is_duration(data_type) {
        VERSION_3
    } else {
        VERSION_1
    };
    Name::new(version, data_type.name(), "-equal")
}

/// The name of a function of texts.
fn text_name(function: TextFunction) -> Name
    ensures { result ≡ text_row function }
{
    match function {
        TextFunction::NormalizeSpace => Name::new(VERSION_1, "string", "-normalize-space"),
        TextFunction::Concatenate => Name::new(VERSION_2, "string", "-concatenate"),
        TextFunction::Substring => Name::new(VERSION_3, "string", "-substring"),
    }
}

/// The name of a function that moves a date, or a date with a time.
fn move_name(moved: Moved, direction: Direction) -> Name
    ensures { result ≡ move_row moved direction }
{
    match (moved, direction) {
        (Moved::DateTimeByDayTime, Direction::Add) => Name::new(
            VERSION_3,
            "dateTime",
            "-add-dayTimeDuration",
        ),
        (Moved::DateTimeByDayTime, Direction::Subtract) => Name::new(
            VERSION_3,
            "dateTime",
            "-subtract-dayTimeDuration",
        ),
        (Moved::DateTimeByYearMonth, Direction::Add) => Name::new(
            VERSION_3,
            "dateTime",
            "-add-yearMonthDuration",
        ),
        (Moved::DateTimeByYearMonth, Direction::Subtract) => Name::new(
            VERSION_3,
            "dateTime",
            "-subtract-yearMonthDuration",
        ),
        (Moved::DateByYearMonth, Direction::Add) => Name::new(
            VERSION_3,
            "date",
            "-add-yearMonthDuration",
        ),
        (Moved::DateByYearMonth, Direction::Subtract) => Name::new(
            VERSION_3,
            "date",
            "-subtract-yearMonthDuration",
        ),
    }
}

/// The name of a higher-order function.
fn higher_name(function: HigherOrder) -> Name
    ensures { result ≡ higher_row function }
{
    match function {
        HigherOrder::AnyOf => Name::new(VERSION_3, "", "any-of"),
        HigherOrder::AllOf => Name::new(VERSION_3, "", "all-of"),
        HigherOrder::AnyOfAny => Name::new(VERSION_3, "", "any-of-any"),
        HigherOrder::Map => Name::new(VERSION_3, "", "map"),
        HigherOrder::AllOfAny => Name::new(VERSION_1, "", "all-of-any"),
        HigherOrder::AllOfAll => Name::new(VERSION_1, "", "all-of-all"),
    }
}
