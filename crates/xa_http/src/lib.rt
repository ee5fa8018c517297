//! HTTP/1.x as this server speaks it: the messages of a stream, what a message's path asks for, and
//! the bytes of a reply.
//!
//! `session` cuts messages from a stream. `beginning` reads the head at its front, which `head` copies;
//! `length` and `closing` look into its `fields`. `open_head` follows one that isn't whole yet. A stream
//! that can't go on has a `fault`. `laws` says that pieces make no difference.
//!
//! `routes` gives the `route` of a message: `parts` splits its path, `table` finds the place there and what
//! the `method` asks for, which is a `command`, and `content_type` judges the body's media type. `replies`
//! writes the bytes of a reply. `white_space` around values is left out by `closing` and `content_type`.
#![tactic(auto)]

mod beginning;
mod closing;
mod command;
mod content_type;
mod fault;
mod fields;
mod head;
mod laws;
mod length;
mod limits;
mod message;
mod method;
mod open_head;
mod parts;
mod replies;
mod route;
mod routes;
mod session;
mod table;
mod white_space;

pub use command::{DocumentCommand, DomainCommand, OperatorCommand};
pub use fault::SessionFault;
pub use laws::pieces_make_no_difference;
pub use limits::{MAX_BODY_BYTES, MAX_FIELDS, MAX_HEAD_BYTES};
pub use message::{Field, Message};
pub use replies::{Extra, Media, reply};
pub use route::{DocumentParts, Route, RouteFault};
pub use routes::Routes;
pub use session::{Look, Next, Session};
pub use table::Place;
