//! The functions of XACML 3.0 on values: their names, their signatures and what they give (core,
//! appendix A.3).
//!
//! A function is a `func_id`. `names` finds it by the `name` that a URI is. `acceptance` says whether
//! arguments fit its `signature`. `application` takes them from `arguments` and calls what computes the
//! function: `arithmetic`, `comparison`, `conversion`, `dates`, `logic` or `text`. A `fault` stands for a
//! `status`.
#![tactic(auto)]

mod acceptance;
mod application;
mod arguments;
mod arithmetic;
mod comparison;
mod conversion;
mod dates;
mod fault;
mod func_id;
mod logic;
mod name;
mod names;
mod signature;
mod status;
mod text;

pub use acceptance::HasKind;
pub use comparison::is_as_asked;
pub use fault::FuncFault;
pub use func_id::{
    Arithmetic, BagFunction, Comparison, Direction, FuncId, HigherOrder, Logic, Moved, OrderedType,
    PrintedType, TextFunction, TextPart, TextType,
};
pub use signature::{Kind, Parameters, Signature};
pub use status::Status;
