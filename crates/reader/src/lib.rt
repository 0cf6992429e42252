// The reader: a message of restricted XML, told by its kind and its values (document 01, "The restricted XML" and "The seven messages").
#![tactic(auto)]

pub mod held;
mod kinds;
mod messages;

ghost use Rattle.std.specs.Prelude.{◌≡◌};
ghost use Rattle.message.specs.Class.{class_of};
ghost use Rattle.message.specs.Limits.{link_limits};
ghost use Rattle.message.specs.Messages.{message_of};
ghost use Rattle.message.specs.Reading.{said};

use crate::held::Reader;
use message::{Message, Refusal};

// Reads a message: its kind and values, or the reason and the place of the refusal.
pub fn read(message: &[u8]) -> Result<Message, Refusal>
    ensures { said result ≡ message_of class_of link_limits message.now }
{
    Reader::new(message).message()
}
