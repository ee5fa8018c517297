//! A keeper of domains over the tables of a database. Its readings are queries, and each change is a
//! plan of steps that one transaction takes.
//!
//! `opening` makes a connection a `keeper`, with its readings, changes and laws. `schema` has the two
//! schemas, their shape, creation and migration, and `check` looks at each row when a store is opened. A
//! `query` asks the tables. A `change` is planned by queries, or refused, and a `step` of the plan is one
//! statement of its transaction.
//!
//! `sql` has all texts of SQL, and `parameter` what these are given for kinds, roles, types and texts.
//! `error` says why a store isn't opened, and `failure` what an error of the database means.
#![tactic(auto)]

mod change;
mod check;
mod error;
mod failure;
mod keeper;
mod opening;
mod parameter;
mod query;
mod schema;
mod sql;
mod step;

pub use error::OpenError;
pub use keeper::SqlRecords;
