//! The decision server: one message after another, each answered by the machine of its own domain.
//!
//! Files in the order of a message: `server` makes a `received_message`, with what else its answer depends
//! on, and `dispatch` answers it. That reads the domain and the document from the path (`domain_name`,
//! `document_key`), asks `admission` whether the message is let in, and goes on to `changes`, `readings` or
//! `asks`.
//! `admission` asks `authorization` and `gates`; `asks` asks `decisions`, `views`, `view` and `oversized`. A
//! `cached_view` is that of a `revision` of its domain. All that is cached stands in `resources`, and the
//! `limits` of a message. What is not answered with success is a `handling_error`: an error answer, or a
//! `cause` of a refusal. The bytes of replies come from `replies` and `error_code`.
//!
//! Files of connections: a `connection` cuts its messages from its own bytes, tells its `holding`, and has a
//! server answer them, at a moment or at a `clock`'s. A `front` is a server beside its connections, the
//! `lines`. Its calls are values of `event`, its refusals are `front_error`. In the folders of both,
//! `turning_away` answers a message without a server. `driving` reads a connection from a `reader` until it
//! ends as `drive_end` says, and sends each reply by `sending` to a `writer`. `peers` give connections, or an
//! `accept_error`. What was told and done can be `noted`, for clauses alone. `interruption` has the law of a
//! crash at any moment.
//!
//! In a file of functions each stands after those that it calls. In a file of a type its methods come first.
#![tactic(auto)]

mod accept_error;
mod admission;
mod asks;
mod authorization;
mod cached_view;
mod cause;
mod changes;
mod clock;
mod connection;
mod decisions;
mod dispatch;
mod document_key;
mod domain_name;
mod drive_end;
mod driving;
mod error_code;
mod event;
mod front;
mod front_error;
mod gates;
mod handling_error;
mod holding;
mod interruption;
mod limits;
mod lines;
mod noted;
mod oversized;
mod peers;
mod reader;
mod readings;
mod received_message;
mod replies;
mod resources;
mod revision;
mod sending;
mod server;
mod view;
mod views;
mod writer;

pub use accept_error::AcceptError;
pub use cause::{Cause, RefusedMessage, Unanswered};
pub use clock::Clock;
pub use connection::{Answer, Answered, Connection, TakeError};
pub use drive_end::DriveEnd;
pub use driving::{MAX_READS, drive};
pub use error_code::{ErrorCode, fault_reply};
pub use event::{Event, Outcome};
pub use front::{Front, lines_are_streams, unchanging_messages_leave_the_state};
pub use front_error::FrontError;
pub use holding::Holding;
pub use lines::{Conn, Lines};
pub use noted::{Noted, Notes, PeerCall, ReadCall, WriteCall};
pub use peers::{Peers, drive_next};
pub use reader::Reader;
pub use replies::Reply;
pub use server::{Server, two_worlds_agree};
pub use writer::Writer;
