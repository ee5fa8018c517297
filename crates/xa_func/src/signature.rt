//! What each function takes and gives.
ghost use Rattle.std.specs.Prelude.{◌≡◌, slice_get};
ghost use Rattle.xa_func.specs.Signature.{takes, kind_at, IsByPlaces, of_values, question, type_of_kind};
ghost use Rattle.xa_func.specs.Signature.{of_each, result_type_of, one_value, two_values};
ghost use Rattle.xa_func.specs.Signature.{arithmetic_parameters, logic_parameters, text_parameters};
ghost use Rattle.xa_func.specs.Signature.{moving, move_signature, bag_signature, signature_of};

use crate::func_id::{Arithmetic, BagFunction, FuncId, HigherOrder, Logic, Moved, TextFunction};
use xa_value::DataType;

/// What an expression gives: a value of a type, or a bag of values of it.
#[derive(Clone, Copy, Debug, PartialEq, Eq)]
pub enum Kind {
    /// One value.
    Value(DataType),
    /// Any number of values.
    Bag(DataType),
}

/// The arguments that a function takes.
#[derive(Clone, Copy, Debug, PartialEq, Eq)]
pub enum Parameters {
    /// One argument.
    One(Kind),
    /// Two arguments.
    Two(Kind, Kind),
    /// Three arguments.
    Three(Kind, Kind, Kind),
    /// This many arguments of one kind, and any number more.
    AtLeast(usize, Kind),
    /// One argument, and any number of the second kind.
    OneAndMore(Kind, Kind),
}

/// What a function takes and gives (XACML 3.0, core, appendix A.3).
#[derive(Clone, Copy, Debug, PartialEq, Eq)]
pub enum Signature {
    /// A function of values and bags, with the kind of its result.
    FirstOrder(Parameters, Kind),
    /// A function whose first argument is a function of values, which decides what the others are.
    HigherOrder(HigherOrder),
}

/// One boolean.
const BOOLEAN: Kind = Kind::Value(DataType::Boolean);

/// One integer.
const INTEGER: Kind = Kind::Value(DataType::Integer);

/// One string.
const STRING: Kind = Kind::Value(DataType::String);

/// One time of day.
const TIME: Kind = Kind::Value(DataType::Time);

impl Kind {
    /// The data type of the value, or of the bag's values.
    pub fn data_type(self) -> DataType
        ensures { result ≡ type_of_kind self }
    {
        match self {
            Kind::Value(data_type) | Kind::Bag(data_type) => data_type,
        }
    }

    /// The kind of one of the values.
    pub fn of_each(self) -> Kind
        ensures { result ≡ of_each self }
    {
        Kind::Value(self.data_type())
    }
}

impl Parameters {
    /// Whether the function takes this many arguments. Clause `law`: arguments fit exactly if
    /// their number does, and each of them at its place.
    #[tactic(auto, using(crate::proofs::PlaceLemmas::by_places))]
    pub fn takes(self, count: usize) -> bool
        ensures value { result ≡ takes self count }
        ensures law { IsByPlaces self }
    {
        match self {
            Parameters::One(_) => count == 1,
            Parameters::Two(..) => count == 2,
            Parameters::Three(..) => count == 3,
            Parameters::AtLeast(least, _) => least <= count,
            Parameters::OneAndMore(..) => 1 <= count,
        }
    }

    /// The kind of the argument at the place, if an argument may stand there.
    pub fn kind_at(self, place: usize) -> Option<Kind>
        ensures { result ≡ kind_at self place }
    {
        match self {
            Parameters::One(kind) => kind_among(&[kind], place),
            Parameters::Two(first, second) => kind_among(&[first, second], place),
            Parameters::Three(first, second, third) => kind_among(&[first, second, third], place),
            Parameters::AtLeast(_, kind) => Some(kind),
            Parameters::OneAndMore(first, more) => Some(if place == 0 { first } else { more }),
        }
    }
}

impl Signature {
    /// The type of what a function of the signature gives. A function that takes a function counts
    /// as one that gives a boolean.
    pub fn result_type(self) -> DataType
        ensures { result ≡ result_type_of self }
    {
        match self {
            Signature::FirstOrder(_, kind) => kind.data_type(),
            Signature::HigherOrder(_) => DataType::Boolean,
        }
    }
}

impl FuncId {
    /// What the function takes and gives (XACML 3.0, core, appendix A.3).
    pub fn signature(self) -> Signature
        ensures { result ≡ signature_of self }
    {
        match self {
            FuncId::Equal(data_type) => question(two_values(data_type)),
            FuncId::Compare(_, ordered) => question(two_values(ordered.data_type())),
            FuncId::Arithmetic(function) => of_values(
                arithmetic_parameters(function),
                DataType::Integer,
            ),
            FuncId::IntegerAbs => of_values(one_value(DataType::Integer), DataType::Integer),
            FuncId::Logic(function) => question(logic_parameters(function)),
            FuncId::Text(function) => of_values(text_parameters(function), DataType::String),
            FuncId::Part(_, text) => question(Parameters::Two(
                STRING,
                Kind::Value(text.data_type()),
            )),
            FuncId::StringFrom(printed) => of_values(
                one_value(printed.data_type()),
                DataType::String,
            ),
            FuncId::FromString(printed) => of_values(
                one_value(DataType::String),
                printed.data_type(),
            ),
            FuncId::Move(moved, _) => move_signature(moved),
            FuncId::TimeInRange => question(Parameters::Three(TIME, TIME, TIME)),
            FuncId::Bag(function, data_type) => bag_signature(function, data_type),
            FuncId::HigherOrder(function) => Signature::HigherOrder(function),
        }
    }
}

/// A function that gives a value of the type.
fn of_values(parameters: Parameters, result_type: DataType) -> Signature
    ensures { result ≡ of_values parameters result_type }
{
    Signature::FirstOrder(parameters, Kind::Value(result_type))
}

/// A function that gives a boolean.
fn question(parameters: Parameters) -> Signature
    ensures { result ≡ question parameters }
{
    of_values(parameters, DataType::Boolean)
}

/// One value of the type.
fn one_value(data_type: DataType) -> Parameters
    ensures { result ≡ one_value data_type }
{
    Parameters::One(Kind::Value(data_type))
}

/// Two values of the type.
fn two_values(data_type: DataType) -> Parameters
    ensures { result ≡ two_values data_type }
{
    Parameters::Two(Kind::Value(data_type), Kind::Value(data_type))
}

/// What a function of integers takes from left to right.
fn arithmetic_parameters(function: Arithmetic) -> Parameters
    ensures { result ≡ arithmetic_parameters function }
{
    match function {
        Arithmetic::Add | Arithmetic::Multiply => Parameters::AtLeast(2, INTEGER),
        Arithmetic::Subtract | Arithmetic::Divide | Arithmetic::Mod => {
            two_values(DataType::Integer)
        }
    }
}

/// What a function of booleans takes.
fn logic_parameters(function: Logic) -> Parameters
    ensures { result ≡ logic_parameters function }
{
    match function {
        Logic::Or | Logic::And => Parameters::AtLeast(0, BOOLEAN),
        Logic::NOf => Parameters::OneAndMore(INTEGER, BOOLEAN),
        Logic::Not => one_value(DataType::Boolean),
    }
}

/// What a function that gives a text takes.
fn text_parameters(function: TextFunction) -> Parameters
    ensures { result ≡ text_parameters function }
{
    match function {
        TextFunction::NormalizeSpace => one_value(DataType::String),
        TextFunction::Concatenate => Parameters::AtLeast(2, STRING),
        TextFunction::Substring => Parameters::Three(STRING, INTEGER, INTEGER),
    }
}

/// A function that gives a value of a type, moved by one of the other.
fn moving(data_type: DataType, duration: DataType) -> Signature
    ensures { result ≡ moving data_type duration }
{
    of_values(
        Parameters::Two(Kind::Value(data_type), Kind::Value(duration)),
        data_type,
    )
}

/// What a date, or a date with a time, is moved by, and what that gives.
fn move_signature(moved: Moved) -> Signature
    ensures { result ≡ move_signature moved }
{
    match moved {
        Moved::DateTimeByDayTime => moving(DataType::DateTime, DataType::DayTimeDuration),
        Moved::DateTimeByYearMonth => moving(DataType::DateTime, DataType::YearMonthDuration),
        Moved::DateByYearMonth => moving(DataType::Date, DataType::YearMonthDuration),
    }
}

/// What a function of bags takes and gives.
fn bag_signature(function: BagFunction, data_type: DataType) -> Signature
    ensures { result ≡ bag_signature function data_type }
{
    let value = Kind::Value(data_type);
    let bag = Kind::Bag(data_type);
    match function {
        BagFunction::OneAndOnly => Signature::FirstOrder(Parameters::One(bag), value),
        BagFunction::BagSize => Signature::FirstOrder(Parameters::One(bag), INTEGER),
        BagFunction::IsIn => question(Parameters::Two(value, bag)),
        BagFunction::Bag => Signature::FirstOrder(Parameters::AtLeast(0, value), bag),
        BagFunction::Intersection => Signature::FirstOrder(Parameters::Two(bag, bag), bag),
        BagFunction::Union => Signature::FirstOrder(Parameters::AtLeast(2, bag), bag),
        BagFunction::AtLeastOneMemberOf | BagFunction::Subset | BagFunction::SetEquals => {
            question(Parameters::Two(bag, bag))
        }
    }
}

/// The kind at the place.
fn kind_among(kinds: &[Kind], place: usize) -> Option<Kind>
    ensures { result ≡ slice_get kinds.now place }
{
    kinds.get(place).copied()
}
