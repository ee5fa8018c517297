//! What is kept of all domains, their tokens, documents, roots and source rows, and how it is changed.
//!
//! `records` has the trait of a keeper. A reading gives a `gate` of tokens with their `digest`s, a
//! `kept_view` of `active_text`s, or documents as they are `listed`; `listing` writes bodies of these. A
//! change is made, fails or is refused (`refusal`); an `upload` tells what it did. What every keeper asks
//! before a change stands in `domain_name`, `limits` and `sameness`.
//!
//! `plain` is the keeper in memory: `plain::records` over `domains`, each a `domain` with its `tokens` and
//! `documents`; their numbers rise by `raising`.
#![tactic(auto)]

mod active_text;
mod digest;
mod domain_name;
mod gate;
mod kept_view;
mod limits;
mod listed;
mod listing;
mod plain;
mod records;
mod refusal;
mod sameness;
mod upload;

pub use active_text::ActiveText;
pub use digest::Digest;
pub use domain_name::is_domain_name;
pub use gate::{Gate, Token};
pub use kept_view::KeptView;
pub use limits::{MAX_DOCUMENTS, MAX_SOURCE_ROWS, MAX_TOKENS, may_be_kept};
pub use listed::Listed;
pub use listing::{write_listing, write_names};
pub use plain::PlainRecords;
pub use records::Records;
pub use refusal::{ChangeError, Failure, Refusal, count_failure};
pub use sameness::{is_same_activity, is_same_root, is_same_source, is_same_value};
pub use upload::Upload;
