//! The tables of a keeper: their two schemas, the shape of each table, and how they are made and
//! migrated.

pub(crate) mod checked_table;
pub(crate) mod columns;
pub(crate) mod creation;
pub(crate) mod indexes;
pub(crate) mod migration;
pub(crate) mod shape;
pub(crate) mod trees;
pub(crate) mod version;
