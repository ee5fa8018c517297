//! Cached decisions: the body of each, under its domain's number and epoch and the body of its request.
#![tactic(auto)]

mod cache;
mod key;
mod seeded;

pub use cache::{Cache, fits};
pub use key::Key;
