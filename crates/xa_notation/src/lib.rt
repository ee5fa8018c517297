//! Policy documents, read from their JSON notation (XACML 3.0, core, section 5), and the bodies of
//! messages that administer a domain.
//!
//! `document` reads a text in two steps. First its shape: `json` reads objects by the tables of members in
//! `tables` and `member`; `document_shape` reads the whole document, and goes down by `policy_set`,
//! `reference`, `policy`, `rule`, `target`, `variables` and `duties` to `expression`, `attribute` and
//! `plain_members`, with `algorithm` for names. What it gives is `written`. Then its types: `typing` makes
//! policies and policy sets of it.
//!
//! `root_body` and `token_body`, with `token`, read the bodies. By `reading` crates above read objects of
//! their own.
#![tactic(auto)]

mod algorithm;
mod attribute;
mod document;
mod document_shape;
mod duties;
mod expression;
mod json;
mod member;
mod notation_error;
mod plain_members;
mod policy;
mod policy_set;
pub mod reading;
mod reference;
mod root_body;
mod rule;
mod tables;
mod target;
mod token;
mod token_body;
mod typing;
mod variables;
mod written;

pub use document::{Document, Parsed};
pub use member::Member;
pub use notation_error::NotationError;
pub use root_body::read_root;
pub use token::{Role, is_token};
pub use token_body::{NewToken, read_new_token, read_old_token};
