//! A message as the server has received it.
ghost use Rattle.std.specs.Prelude.{◌≡◌};

use xa_http::Message;
use xa_records::Digest;
use xa_value::Moment;

/// A message, and all else but the state that its answer depends on.
#[derive(Drop)]
pub(crate) struct ReceivedMessage<'a> {
    /// The digest of the operator's token.
    pub(crate) operator: Digest,
    /// The message.
    pub(crate) message: &'a Message,
    /// The moment at which it is answered.
    pub(crate) moment: Moment,
}

impl<'a> ReceivedMessage<'a> {
    /// The message's body.
    pub(crate) fn body(&self) -> &[u8]
        ensures { result.now ≡ self.now.message.now.body }
    {
        self.message.body.as_slice()
    }
}
