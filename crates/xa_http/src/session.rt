//! The session of one stream: its whole messages, in whatever pieces the bytes come.
ghost use Rattle.std.specs.Prelude.{◌≡◌, ◌≤◌, ◌++◌, [], true, false, length, drop};
ghost use Rattle.std.specs.Prelude.{IfOk, IsTrue, MatchResult, Ok, OnOk, OnErr};
ghost use Rattle.xa_http.specs.Changing.{TellsChange};
ghost use Rattle.xa_http.specs.parsing.Front.{HasHead, IsFront};
ghost use Rattle.xa_http.specs.Messages.{IsCut, IsLook, IsNext, IsUnfinished, StandsAtFront};
ghost use Rattle.xa_http.specs.declared.session.Look.TheVariants as look;
ghost use Rattle.xa_http.specs.declared.session.Next.TheVariants.{Ended};

use crate::beginning::{Beginning, Head, is_whole, read_front, whole_body};
use crate::fault::SessionFault;
use crate::message::Message;
use crate::open_head::OpenHead;
use crate::routes::Routes;
use std::alloc::{AllocError, Global};
use std::marker::Model;

/// What a session answers when it is asked for the next message.
#[derive(Debug, Drop)]
pub enum Next {
    /// The next whole message. The session has ended with it, if the message closes its stream.
    Message(Message),
    /// No whole message has come yet.
    More,
    /// The stream doesn't go on with a message. The session has ended.
    Fault(SessionFault),
    /// The session has ended before.
    Ended,
}

/// What a session would answer if it were asked for the next message.
#[derive(Clone, Copy, Debug, PartialEq, Eq)]
pub enum Look {
    /// A whole message.
    Message,
    /// No whole message yet.
    More,
    /// The stream doesn't go on with a message, and why.
    Fault(SessionFault),
    /// The session has ended.
    Ended,
}

/// The messages of one stream, in whatever pieces its bytes come.
#[derive(Drop)]
pub struct Session {
    /// Where memory comes from.
    alloc: Global,
    /// The bytes that have come. Those before the start were answered, and aren't dropped yet.
    buffer: Vec<u8>,
    /// Where the held bytes begin.
    start: usize,
    /// The head at the start, if it was read and its body wasn't whole then.
    head: Option<Head>,
    /// How far the head at the start was followed, if it wasn't whole.
    followed: OpenHead,
    /// Whether the session has ended: no message is answered any more.
    ended: bool,
}

impl Model for Session {
    ghost use Rattle.std.specs.Prelude.{◌≤◌, length, drop};
    ghost use Rattle.xa_http.specs.parsing.Front.{KeepsHead};
    ghost use Rattle.xa_http.specs.parsing.OpenHead.{IsOpenHead};
    ghost use Rattle.xa_http.specs.Stream.{Stream};

    ghost Value = { Stream };

    ghost view = { λ s. record { held = drop s.start s.buffer.items; ended = s.ended } };

    ghost invariant = { λ s.
        (s.start ≤ length s.buffer.items) × KeepsHead (drop s.start s.buffer.items) s.head
        × IsOpenHead (drop s.start s.buffer.items) s.followed };
}

impl Session {
    /// The session of a stream of which nothing has come.
    pub fn new(alloc: Global) -> Session
        ensures { result ≡ record { held = []; ended = false } }
    {
        Session {
            alloc,
            buffer: Vec::new(alloc),
            start: 0,
            head: None,
            followed: OpenHead::new(),
            ended: false,
        }
    }

    /// Whether the session has ended: it answers no message any more.
    pub fn has_ended(&self) -> bool
        ensures { result ≡ self.now.ended }
    {
        self.ended
    }

    /// How many bytes are held: those that have come, and belong to no message that was answered.
    pub fn held_len(&self) -> usize
        ensures { result ≡ length self.now.held }
    {
        self.buffer.len() - self.start
    }

    /// The bytes that are held.
    fn held(&self) -> &[u8]
        ensures { result.now ≡ self.now.held }
    {
        &self.buffer[self.start..]
    }

    /// Ends the session: it answers no message any more, and keeps the bytes that it holds.
    pub fn end(&mut self)
        ensures { self.new ≡ record self.old { ended = true } }
    {
        self.ended = true;
    }

    /// What stands at the front of the stream. Nothing is changed, and no message is cut off. A
    /// session that has ended takes no memory for it.
    pub fn look(&mut self) -> Result<Look, AllocError>
        ensures look { IfOk result (IsLook self.old) }
        ensures same { self.new ≡ self.old }
        ensures ended { self.old.ended ≡ true → result ≡ Ok look.Ended }
    {
        if self.ended {
            return Ok(Look::Ended);
        }
        match self.front()? {
            Beginning::Head(head) => {
                let look = look_behind(self.held(), &head);
                self.head = Some(head);
                Ok(look)
            }
            Beginning::More => Ok(Look::More),
            Beginning::Fault(fault) => Ok(Look::Fault(fault)),
        }
    }

    /// Whether the message at the front of the stream asks for a change; it doesn't if none is whole. Nothing
    /// is changed. A session that has ended takes no memory for it.
    #[tactic(auto, using(crate::proofs::ChangingLemmas::none_asks, crate::proofs::ChangingLemmas::unfinished_asks, crate::proofs::ChangingLemmas::faulty_asks))]
    pub fn asks_for_change(&mut self, routes: &Routes) -> Result<bool, AllocError>
        ensures tells { IfOk result (TellsChange self.old) }
        ensures same { self.new ≡ self.old }
    {
        if self.ended {
            return Ok(false);
        }
        match self.front()? {
            Beginning::Head(head) => {
                let asks = asks_behind(self.held(), &head, routes);
                self.head = Some(head);
                Ok(asks)
            }
            Beginning::More | Beginning::Fault(_) => Ok(false),
        }
    }

    /// Takes the next piece of the stream. A session that has ended takes it too, and answers
    /// nothing to it. Without memory nothing is taken.
    pub fn feed(&mut self, piece: &[u8]) -> Result<(), AllocError>
        ensures ok { OnOk result (self.new ≡ record self.old { held = self.old.held ++ piece.now }) }
        ensures err { OnErr result (self.new ≡ self.old) }
    {
        compact(&mut self.buffer, &mut self.start);
        self.buffer.extend_from_slice(piece)?;
        Ok(())
    }

    /// The next message of the stream (RFC 9112, section 2), cut off its front. Without memory nothing is
    /// changed.
    pub fn next(&mut self) -> Result<Next, AllocError>
        ensures next { MatchResult result (λ answer. IsNext self.old answer self.new)
            (λ _. self.new ≡ self.old) }
        ensures ended { self.old.ended ≡ true → result ≡ Ok Ended }
    {
        let next = self.cut()?;
        if let Next::Fault(_) = &next {
            self.ended = true;
        }
        Ok(next)
    }

    /// `next`, but that a fault doesn't end the session yet: so who answers one may want memory for it, and
    /// then `end`s the session.
    pub fn cut(&mut self) -> Result<Next, AllocError>
        ensures cut { MatchResult result (λ answer. IsCut self.old answer self.new)
            (λ _. self.new ≡ self.old) }
        ensures ended { self.old.ended ≡ true → result ≡ Ok Ended }
    {
        if self.ended {
            return Ok(Next::Ended);
        }
        match self.front()? {
            Beginning::Head(head) => self.message_of(head),
            Beginning::More => Ok(Next::More),
            Beginning::Fault(fault) => Ok(Next::Fault(fault)),
        }
    }

    /// What stands at the front, with the head that was kept, if one was: it isn't read again.
    fn front(&mut self) -> Result<Beginning, AllocError>
        ensures front { IfOk result (IsFront self.old.held) }
        ensures same { self.new ≡ self.old }
    {
        if let Some(head) = self.head.take() {
            return Ok(Beginning::Head(head));
        }
        self.follow_begun();
        if self.is_surely_open() {
            return Ok(Beginning::More);
        }
        let front = read_front(self.alloc, self.held())?;
        if let Beginning::More = &front {
            self.follow();
        }
        Ok(front)
    }

    /// Follows the head at the start to the end of what is held.
    fn follow(&mut self)
        ensures { self.new ≡ self.old }
    {
        self.followed = self.followed.follow(self.held());
    }

    /// Follows the head at the start if some of it was followed before. A head that comes in one piece is
    /// read at once, and no byte of it is followed.
    fn follow_begun(&mut self)
        ensures { self.new ≡ self.old }
    {
        if self.followed.len > 0 {
            self.follow();
        }
    }

    /// Whether the head at the start surely isn't whole yet, as far as it was followed.
    fn is_surely_open(&self) -> bool
        ensures { IsTrue result → IsUnfinished self.now.held }
    {
        self.followed.is_unfinished(self.held())
    }

    /// The message of that head, once its body is whole; until then the head is kept, and not read again.
    fn message_of(&mut self, head: Head) -> Result<Next, AllocError>
        requires goes_on { self.old.ended ≡ false }
        requires head { HasHead self.old.held head }
        ensures { MatchResult result (λ answer. IsCut self.old answer self.new) (λ _. self.new ≡ self.old) }
    {
        let Some(body) = whole_body(self.alloc, &self.buffer[self.start..], &head)? else {
            self.head = Some(head);
            return Ok(Next::More);
        };
        self.head = None;
        self.followed = OpenHead::new();
        self.start += head.len + head.body_len;
        self.ended = head.message.close;
        let mut message = head.message;
        message.body = body;
        Ok(Next::Message(message))
    }
}

/// What stands at the front of bytes that begin with that head: a message, if the body that
/// follows it is whole.
fn look_behind(held: &[u8], head: &Head) -> Look
    requires { HasHead held.now head.now }
    ensures { StandsAtFront held.now result }
{
    if is_whole(held, head) {
        Look::Message
    } else {
        Look::More
    }
}

/// Whether the message at the front of bytes that begin with that head is whole, and asks for a change.
#[tactic(auto, using(crate::proofs::ChangingLemmas::whole_asks, crate::proofs::ChangingLemmas::unfinished_asks))]
fn asks_behind(held: &[u8], head: &Head, routes: &Routes) -> bool
    requires { HasHead held.now head.now }
    ensures { TellsChange (record { held = held.now; ended = false }) result }
{
    if !is_whole(held, head) {
        return false;
    }
    routes.asks_for_change(&head.message)
}

/// Drops the bytes before the start, if they are more than those after it.
fn compact(buffer: &mut Vec<u8>, start: &mut usize)
    requires { start.old ≤ length buffer.old.items }
    ensures held { drop start.new buffer.new.items ≡ drop start.old buffer.old.items }
    ensures within { start.new ≤ length buffer.new.items }
    ensures short { start.new ≤ length (drop start.new buffer.new.items) }
{
    let held = buffer.len() - *start;
    if *start > held {
        buffer.copy_within(*start.., 0);
        buffer.truncate(held);
        *start = 0;
    }
}
