//! Bags of values, and the bag, set and higher-order functions of XACML 3.0 (core, appendix A.3.10
//! to A.3.12).
//!
//! A function is given a `value_or_bag` for each argument: a value, or a `bag` of them. `apply` takes them
//! apart by `arguments`, and calls `sets` or `higher_order`. Sets of many values are searched as `members`,
//! and made as `distinct`. A `fault` says why there is no value.
//!
//! A higher-order function calls an `inner` one for each choice that `choosing` finds, up to the one that
//! settles its `quantifier`. A `function` of values is inner: if it can be asked at once of all choices, that
//! is by `relation` or `logic_at_once`.
#![tactic(auto)]

mod apply;
mod arguments;
mod bag;
mod choosing;
mod distinct;
mod fault;
mod function;
mod higher_order;
mod inner;
mod logic_at_once;
mod members;
mod quantifier;
mod relation;
mod sets;
mod value_or_bag;

pub use apply::{apply_bag_function, apply_higher_order};
pub use bag::Bag;
pub use choosing::push_copy;
pub use fault::BagFault;
pub use inner::Inner;
pub use members::Members;
pub use quantifier::Quantifier;
pub use sets::{
    at_least_one_member_of, bag_size, intersection, is_in, one_and_only, set_equals, subset,
};
pub use value_or_bag::ValueOrBag;
