//! The function that a URI names.
ghost use Rattle.std.specs.Prelude.{◌≡◌, ◌↔◌, map, find, flat_map, IsTrue, Some};
ghost use Rattle.xa_func.specs.Names.{function_named};
ghost use Rattle.xa_func.specs.Table.{names};
ghost use Rattle.xa_func.specs.declared.func_id.FuncId.{FuncId};
ghost use Rattle.xa_func.specs.declared.func_id.FuncId.TheVariants as function_id;

use crate::func_id::{
    Arithmetic, BagFunction, Comparison, Direction, FuncId, HigherOrder, Logic, Moved, OrderedType,
    PrintedType, TextFunction, TextPart, TextType,
};
use xa_value::DataType;

impl Comparison {
    /// All comparisons.
    const ALL: [Comparison; 4] = [
        Comparison::GreaterThan,
        Comparison::GreaterThanOrEqual,
        Comparison::LessThan,
        Comparison::LessThanOrEqual,
    ];
}

impl OrderedType {
    /// All types that have an order.
    const ALL: [OrderedType; 5] = [
        OrderedType::Integer,
        OrderedType::String,
        OrderedType::Time,
        OrderedType::Date,
        OrderedType::DateTime,
    ];
}

impl PrintedType {
    /// All types that are printed as a string.
    const ALL: [PrintedType; 8] = [
        PrintedType::Boolean,
        PrintedType::Integer,
        PrintedType::Date,
        PrintedType::Time,
        PrintedType::DateTime,
        PrintedType::AnyUri,
        PrintedType::DayTimeDuration,
        PrintedType::YearMonthDuration,
    ];
}

impl BagFunction {
    /// All functions of bags.
    const ALL: [BagFunction; 9] = [
        BagFunction::OneAndOnly,
        BagFunction::BagSize,
        BagFunction::IsIn,
        BagFunction::Bag,
        BagFunction::Intersection,
        BagFunction::Union,
        BagFunction::AtLeastOneMemberOf,
        BagFunction::Subset,
        BagFunction::SetEquals,
    ];
}

/// The functions that are listed one by one: they stand alone, or their family is small.
const SINGLE: [FuncId; 32] = [
    FuncId::Arithmetic(Arithmetic::Add),
    FuncId::Arithmetic(Arithmetic::Multiply),
    FuncId::Arithmetic(Arithmetic::Subtract),
    FuncId::Arithmetic(Arithmetic::Divide),
    FuncId::Arithmetic(Arithmetic::Mod),
    FuncId::IntegerAbs,
    FuncId::Logic(Logic::Or),
    FuncId::Logic(Logic::And),
    FuncId::Logic(Logic::NOf),
    FuncId::Logic(Logic::Not),
    FuncId::Text(TextFunction::NormalizeSpace),
    FuncId::Text(TextFunction::Concatenate),
    FuncId::Text(TextFunction::Substring),
    FuncId::Part(TextPart::StartsWith, TextType::String),
    FuncId::Part(TextPart::EndsWith, TextType::String),
    FuncId::Part(TextPart::Contains, TextType::String),
    FuncId::Part(TextPart::StartsWith, TextType::AnyUri),
    FuncId::Part(TextPart::EndsWith, TextType::AnyUri),
    FuncId::Part(TextPart::Contains, TextType::AnyUri),
    FuncId::Move(Moved::DateTimeByDayTime, Direction::Add),
    FuncId::Move(Moved::DateTimeByDayTime, Direction::Subtract),
    FuncId::Move(Moved::DateTimeByYearMonth, Direction::Add),
    FuncId::Move(Moved::DateTimeByYearMonth, Direction::Subtract),
    FuncId::Move(Moved::DateByYearMonth, Direction::Add),
    FuncId::Move(Moved::DateByYearMonth, Direction::Subtract),
    FuncId::TimeInRange,
    FuncId::HigherOrder(HigherOrder::AnyOf),
    FuncId::HigherOrder(HigherOrder::AllOf),
    FuncId::HigherOrder(HigherOrder::AnyOfAny),
    FuncId::HigherOrder(HigherOrder::Map),
    FuncId::HigherOrder(HigherOrder::AllOfAny),
    FuncId::HigherOrder(HigherOrder::AllOfAll),
];

impl FuncId {
    /// The function that the URI names (XACML 3.0, core, appendix A.3); none, if it names no
    /// function that is known here.
    pub fn from_uri(uri: &str) -> Option<FuncId>
        ensures each { (f : FuncId) → (result ≡ Some f) ↔ IsTrue (names uri.now f) }
        ensures named { result ≡ function_named uri.now }
    {
        if let Some(function) = first_named(&SINGLE, uri) {
            return Some(function);
        }
        if let Some(function) = equality_named(uri) {
            return Some(function);
        }
        if let Some(function) = string_from_named(uri) {
            return Some(function);
        }
        if let Some(function) = from_string_named(uri) {
            return Some(function);
        }
        if let Some(function) = comparison_of_sorts(&Comparison::ALL, uri) {
            return Some(function);
        }
        bag_function_of_sorts(&BagFunction::ALL, uri)
    }
}

/// The first of the functions that the text names.
fn first_named(functions: &[FuncId], uri: &str) -> Option<FuncId>
    ensures { result ≡ find (names uri.now) functions.now }
{
    functions
        .iter()
        .copied()
        .find(|function| function.is_named(uri))
}

/// The equality that the text names.
fn equality_named(uri: &str) -> Option<FuncId>
    ensures { result ≡ find (names uri.now) (map function_id.Equal DataType.ALL) }
{
    DataType::ALL
        .iter()
        .map(|data_type| FuncId::Equal(*data_type))
        .find(|function| function.is_named(uri))
}

/// The function to a string that the text names.
fn string_from_named(uri: &str) -> Option<FuncId>
    ensures { result ≡ find (names uri.now) (map function_id.StringFrom PrintedType.ALL) }
{
    PrintedType::ALL
        .iter()
        .map(|printed| FuncId::StringFrom(*printed))
        .find(|function| function.is_named(uri))
}

/// The function from a string that the text names.
fn from_string_named(uri: &str) -> Option<FuncId>
    ensures { result ≡ find (names uri.now) (map function_id.FromString PrintedType.ALL) }
{
    PrintedType::ALL
        .iter()
        .map(|printed| FuncId::FromString(*printed))
        .find(|function| function.is_named(uri))
}

/// The comparison of this sort that the text names.
fn comparison_of_sort(comparison: Comparison, uri: &str) -> Option<FuncId>
    ensures { result ≡ find (names uri.now) (map (function_id.Compare comparison) OrderedType.ALL) }
{
    OrderedType::ALL
        .iter()
        .map(|ordered| FuncId::Compare(comparison, *ordered))
        .find(|function| function.is_named(uri))
}

/// The comparison of one of these sorts that the text names.
fn comparison_of_sorts(comparisons: &[Comparison], uri: &str) -> Option<FuncId>
    ensures { result
        ≡ find (names uri.now) (flat_map (λ c. map (function_id.Compare c) OrderedType.ALL) comparisons.now) }
{
    for comparison in comparisons {
        if let Some(function) = comparison_of_sort(*comparison, uri) {
            return Some(function);
        }
    }
    None
}

/// The function of this sort, of bags, that the text names.
fn bag_function_of_sort(function: BagFunction, uri: &str) -> Option<FuncId>
    ensures { result ≡ find (names uri.now) (map (function_id.Bag function) DataType.ALL) }
{
    DataType::ALL
        .iter()
        .map(|data_type| FuncId::Bag(function, *data_type))
        .find(|found| found.is_named(uri))
}

/// The function of one of these sorts, of bags, that the text names.
fn bag_function_of_sorts(functions: &[BagFunction], uri: &str) -> Option<FuncId>
    ensures { result
        ≡ find (names uri.now) (flat_map (λ f. map (function_id.Bag f) DataType.ALL) functions.now) }
{
    for function in functions {
        if let Some(found) = bag_function_of_sort(*function, uri) {
            return Some(found);
        }
    }
    None
}
