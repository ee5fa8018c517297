//! For how long a connection is waited for.
ghost use Rattle.std.specs.Prelude.{◌≡◌, Some, false, min, option_map, true};
ghost use Rattle.std.specs.Duration.{as_nanos};
ghost use Rattle.xa_reactor.specs.Timing.{HasPassed, left_of, limit_in};
ghost use Rattle.xa_reactor.specs.Turn.{AreLimits, least_idle, least_message};

use std::time::Duration;

/// For how many seconds a reply may be under way.
const REPLY_SECONDS: u64 = 120;

/// For how many seconds it may, in which less than 65,536 bytes of it are taken.
const SLOW_SECONDS: u64 = 10;

/// For how many seconds what comes behind the last reply is dropped, so that the peer gets that reply
/// before it learns that the connection is gone.
const PARTING_SECONDS: u64 = 2;

/// For how many seconds the first byte of a message is waited for once no more connections are taken.
const LEAVING_SECONDS: u64 = 1;

/// For how many seconds a message is waited for then, if no limit is set.
const LAST_SECONDS: u64 = 10;

/// What is waited for.
#[derive(Clone, Copy, Debug, PartialEq, Eq)]
pub enum Stage {
    /// The first byte of a message. Nothing is held, and nothing is owed.
    Quiet,
    /// The rest of a message.
    Incoming,
    /// That the peer takes a reply.
    Outgoing,
    /// That the peer closes the connection, behind the last reply.
    Parting,
}

/// For how long a connection is waited for; none for ever.
#[derive(Clone, Copy)]
pub struct Limits {
    /// Until the first byte of a message.
    pub idle: Option<Duration>,
    /// For a message, from its first byte until it is whole.
    pub message: Option<Duration>,
}

/// What holds for all shares of a turn.
#[derive(Clone, Copy)]
pub struct Terms {
    /// When the turn began. What was ready then is known; so by that time a connection is late, however long
    /// the turn lasts.
    pub began: Duration,
    /// For how long a connection is waited for.
    pub limits: Limits,
    /// Whether a connection ends with the reply that it is sent.
    pub parts: bool,
}

/// The less of two times, of which each may be for ever.
pub(crate) fn least(first: Option<Duration>, second: Option<Duration>) -> Option<Duration> {
    match (first, second) {
        (Some(one), Some(other)) => Some(one.min(other)),
        (None, other) | (other, None) => other,
    }
}

/// The shorter of two times.
fn shorter(one: Duration, other: Duration) -> Duration
    ensures { as_nanos result ≡ min (as_nanos one) (as_nanos other) }
{
    if one.saturating_sub(other).is_zero() {
        one
    } else {
        other
    }
}

/// How much is left of a limit that began then.
pub(crate) fn left(limit: Duration, since: Duration, now: Duration) -> Duration
    ensures { as_nanos result ≡ left_of (as_nanos limit) (as_nanos since) (as_nanos now) }
{
    limit.saturating_sub(now.saturating_sub(since))
}

/// Whether a limit that began then has passed.
pub(crate) fn has_passed(limit: Option<Duration>, since: Duration, now: Duration) -> bool
    ensures passed { result ≡ true → HasPassed (option_map as_nanos limit) (as_nanos since) (as_nanos now) }
    ensures other { result ≡ false → HasPassed (option_map as_nanos limit) (as_nanos since) (as_nanos now)
        → ⊥ }
{
    match limit {
        Some(limit) => left(limit, since, now).is_zero(),
        None => false,
    }
}

impl Limits {
    /// How long a stage may last.
    pub(crate) fn of(&self, stage: Stage) -> Option<Duration>
        ensures { option_map as_nanos result
            ≡ limit_in (option_map as_nanos self.now.idle) (option_map as_nanos self.now.message) stage }
    {
        match stage {
            Stage::Quiet => self.idle,
            Stage::Incoming => self.message,
            Stage::Outgoing => Some(Duration::from_secs(REPLY_SECONDS)),
            Stage::Parting => Some(Duration::from_secs(PARTING_SECONDS)),
        }
    }

    /// How long the first byte of a message is waited for by a program that ends: a second, if no less.
    fn idle_leaving(&self) -> Duration
        ensures { Some (as_nanos result) ≡ least_idle (option_map as_nanos self.now.idle) }
    {
        let second = Duration::from_secs(LEAVING_SECONDS);
        match self.idle {
            Some(idle) => shorter(idle, second),
            None => second,
        }
    }

    /// For how long a message is waited for by a program that ends: as ever, but not for ever.
    fn message_leaving(&self) -> Duration
        ensures { Some (as_nanos result) ≡ least_message (option_map as_nanos self.now.message) }
    {
        match self.message {
            Some(message) => message,
            None => Duration::from_secs(LAST_SECONDS),
        }
    }

    /// The limits of a program that ends.
    pub(crate) fn leaving(&self) -> Limits
        ensures { AreLimits result self.now true }
    {
        Limits {
            idle: Some(self.idle_leaving()),
            message: Some(self.message_leaving()),
        }
    }
}

/// For how long a reply may be under way since so many bytes of it were taken last.
pub(crate) fn slow_limit() -> Duration
    ensures { as_nanos result ≡ 10_000_000_000 }
{
    Duration::from_secs(SLOW_SECONDS)
}

/// How much is left of the time of a program that ends: from then on a connection ends with the reply that it
/// is sent, and none is taken.
pub(crate) fn leaving_left(since: Duration, now: Duration) -> Duration
    ensures { as_nanos result ≡ left_of 1_000_000_000 (as_nanos since) (as_nanos now) }
{
    left(Duration::from_secs(LEAVING_SECONDS), since, now)
}
