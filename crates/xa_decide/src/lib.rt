//! The decision on a request: each of its individual requests in its context, by the tree of policies
//! that the root stands for.
//!
//! Files of calls: `view` is what a domain's decisions depend on, with its `source` of rows, each a
//! `source_row`, which `rows` reads and writes. `request_body` holds a request, and `asked` says whether
//! that asks the policies. `deciding` decides its individual requests, by which `decision` decides and
//! responds, and `timeless` says which answers are the same at every moment.
//!
//! Files of values: the `context` of an individual request looks for those of an `attribute` among its
//! `individual_objects`, each an `indexed_object`; then it asks the `clock`, and then the source, for the
//! `entity` that the objects are `naming`. There are two ways over the same objects and rows: values are
//! copied into a `bag`, or a `look` goes over them where they are.
//!
//! Files of indexes and of cost: what is sought is a `key`, which `keys` makes, and it is found by the
//! `order` of the items' keys. A message is paid for from its `work`, a `budget` by its `limits`;
//! `response_work` says what it costs to write a result, as a sum of `writing_cost`s.
#![tactic(auto)]

mod asked;
mod attribute;
mod bag;
mod budget;
mod clock;
mod context;
mod deciding;
mod decision;
mod entity;
mod indexed_object;
mod individual_objects;
mod key;
mod keys;
mod limits;
mod look;
mod naming;
mod order;
mod request_body;
mod response_work;
mod rows;
mod source;
mod source_row;
mod timeless;
mod view;
mod work;
mod writing_cost;

pub use asked::{asks_policies, others_are_answered_alike};
pub use decision::{Decided, Responded, answer, decide, respond};
pub use limits::{Limits, OverLimit};
pub use request_body::RequestBody;
pub use rows::{read_rows, write_rows};
pub use source_row::SourceRow;
pub use timeless::timeless_answers_stay;
pub use view::View;
