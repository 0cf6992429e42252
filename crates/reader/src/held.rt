// The reader holds on to the message that it reads and its place in it (document 01, "Form by location"): `new` makes the struct, and
// `message` hands its slice and its place to `messages::message`, which does the work.
ghost use Rattle.std.specs.Prelude.{◌≡◌};
ghost use Rattle.message.specs.Class.{class_of};
ghost use Rattle.message.specs.Limits.{link_limits};
ghost use Rattle.message.specs.Messages.{message_at};
ghost use Rattle.message.specs.Reading.{said};

use crate::messages;
use message::{Message, Refusal};

#[derive(Clone, Copy)]
pub struct Reader<'a> {
    src: &'a [u8],
    at: usize,
}

impl<'a> Reader<'a> {
    // A message is lent to the reader, whose place is its start.
    pub fn new(src: &'a [u8]) -> Reader<'a>
        ensures { (result.src ≡ src.entry) × (result.at ≡ 0) }
    {
        Reader { src, at: 0 }
    }

    // The message that stands from the reader's place on, or its refusal.
    pub fn message(self) -> Result<Message, Refusal>
        ensures { said result ≡ message_at class_of link_limits self.entry.src.now self.entry.at }
    {
        messages::message(self.src, self.at)
    }
}
