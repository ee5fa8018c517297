//! Requests of the JSON Profile of XACML 3.0, the individual requests that they stand for, and responses.
//!
//! `request` reads a body: `tree`, with `number`, makes JSON of it, and `reading` its members, of which
//! `category_object` and `attribute` make objects.
//!
//! `individuals` gives the individual requests: by references, through `objects_by_id`, or as
//! `combinations` of the objects that `grouping` finds of each category. `repetition` and `distinct` look
//! whether something stands twice.
//!
//! `response` writes results by `writing`, with `included` for the attributes of the request and
//! `identifiers` for the policies that are named.
#![tactic(auto)]

mod attribute;
mod category_object;
mod combinations;
mod distinct;
mod grouping;
mod identifiers;
mod included;
mod individuals;
mod member;
mod number;
mod objects_by_id;
mod reading;
mod repetition;
mod request;
mod request_error;
mod response;
mod tree;
mod writing;

pub use attribute::Attribute;
pub use category_object::CategoryObject;
pub use individuals::{Individual, TooMany};
pub use request::Request;
pub use request_error::RequestError;
pub use response::{Response, ResultObject};
pub use writing::{ToJson, write_items};
