//! Expressions with their types and values, and targets (XACML 3.0, core, sections 5.6 to 5.9, 5.23 to
//! 5.25, 5.27 to 5.29, 5.31 and 7.3 to 7.8).
//!
//! An expression is read as an `expr`. `checking` finds its functions and the `variables` that it names, and
//! makes a `typed` of it, or gives a `check_error`.
//!
//! An `evaluator` goes by a `context`, which gives the bag of a `designator`. It has the variables worked
//! out by `working_out`, and then the expression by `evaluation`. This reads what was worked out from its
//! `scope`, and calls a `function`, whose inner function is `charged`. Whatever has no value is a `fault`.
//!
//! A `target` is made of matches (`match_`: `match` is a keyword), each of which goes by `looked` or by
//! `answering`. What each part comes to is a `matching`. `timeless` finds whether the clock is asked.
//!
//! `work` says what each step costs and counts what is left; `rates` says what calls cost beside that.
#![tactic(auto)]

mod answering;
mod charged;
mod check_error;
mod checking;
mod context;
mod designator;
mod evaluation;
mod evaluator;
mod expr;
mod fault;
mod function;
mod looked;
mod match_;
mod matching;
mod rates;
mod scope;
mod target;
mod timeless;
mod typed;
mod variables;
mod work;
mod working_out;

pub use check_error::CheckError;
pub use checking::check;
pub use context::Context;
pub use designator::Designator;
pub use evaluator::{Evaluator, value};
pub use expr::Expr;
pub use fault::Fault;
pub use looked::Looked;
pub use match_::Match;
pub use matching::Matching;
pub use rates::units_of_printing;
pub use target::{AllOf, AnyOf, Target};
pub use timeless::{HasDesignators, all_timeless, is_clock_id};
pub use typed::Typed;
pub use variables::{Definition, Variables};
pub use work::{
    LOOK, STEP, is_of_one_size, units_of, units_of_bag, units_of_given, units_of_values,
};
