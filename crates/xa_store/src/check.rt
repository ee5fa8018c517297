//! The check of a store that has tables, when it is opened: each row has to be one that a keeper writes.

pub(crate) mod cell;
pub(crate) mod columns;
pub(crate) mod cursor;
pub(crate) mod query;
pub(crate) mod rollback;
pub(crate) mod row;
pub(crate) mod tables;
