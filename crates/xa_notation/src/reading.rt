//! How an object of this notation is read from JSON: first its members by its table, and then their
//! values in table order. Crates above read objects of their own by it (`xa_decide`, rows).

pub use crate::attribute::literal;
pub use crate::json::{
    Reader, check_members, each, items, json, member_at, needed_member, optional_text, text_copy,
};
pub use crate::plain_members::{category, data_type};
pub use crate::tables::Object;
