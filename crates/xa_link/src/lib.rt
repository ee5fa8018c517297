//! The documents that references stand for, and the trees that they are linked to (XACML 3.0, core,
//! sections 5.10 to 5.13).
//!
//! `resolution` says which of the active documents (`active`) a reference stands for. If many are asked for,
//! `index` finds it by an `order`, by what patterns of one shape see of versions (`seen`), and keeps one for
//! each shape (`orders`). `resolved` reads a document once and has its references resolved (`placed`).
//! `reach` reads all to which the root leads; `linking` makes the tree, which has no more parts than `room`
//! leaves.
#![tactic(auto)]

mod active;
mod index;
mod link_error;
mod linking;
mod order;
mod orders;
mod placed;
mod reach;
mod resolution;
mod resolved;
mod room;
mod seen;

pub use active::Active;
pub use link_error::LinkError;
pub use linking::link;
pub use resolution::{matches, one_place_for_each_version, resolve};
