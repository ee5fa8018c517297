//! Calls of `Front` as values, which `play` makes one after another, and what they have given.
use crate::connection::Answer;
use crate::front_error::FrontError;
use crate::lines::Conn;
use xa_value::Moment;

/// Something that comes of a connection, or is to be done for it: a call of `Front`, with its arguments.
#[derive(Clone, Copy)]
pub enum Event<'a> {
    /// Opens a connection: `Front::open`.
    Begin,
    /// Takes a piece of a connection's stream: `Front::piece`.
    Piece(Conn, &'a [u8]),
    /// Answers the next of a connection at that moment: `Front::answer`.
    Answer(Conn, Moment),
    /// Closes a connection: `Front::close`.
    Finish(Conn),
}

/// What came of an event: what that call has given.
#[derive(Debug, Drop)]
pub enum Outcome {
    /// Of `Begin`: the connection that is open now.
    Begun(Result<Conn, FrontError>),
    /// Of `Piece`: that it was taken, whole.
    Held(Result<(), FrontError>),
    /// Of `Answer`: the answer, if there was something to answer.
    Answered(Result<Option<Answer>, FrontError>),
    /// Of `Finish`: that the connection is closed.
    Finished(Result<(), FrontError>),
}
