// The leaves of the reader: bytes and their classes, words and names (document 01, "The restricted XML").
// Each function is given the message, mostly the table of classes, and a place, and has an answer for every place and every table.
// The three stay parameters, and no struct's fields: it would be no plainer, since the crates above read further and could add no methods to it.
#![tactic(auto)]

pub mod bytes;
mod classes;
pub mod names;
pub mod words;

ghost use Rattle.std.specs.Prelude.{◌≡◌, Err};
ghost use Rattle.message.specs.Class.{class_table};

use message::{Reason, Refusal};

// A name that was read: where the part after any colon begins, and the place behind the name.
#[derive(Clone, Copy)]
pub struct Name {
    pub local: usize,
    pub end: usize,
}

// A character that was read: the place behind it, and its number.
#[derive(Clone, Copy)]
pub struct Character {
    pub end: usize,
    pub code: u32,
}

// A refusal, whatever was to be read.
pub fn refused<T>(reason: Reason, place: usize) -> Result<T, Refusal>
    ensures { result ≡ Err (record { reason = reason; place = place }) }
{
    Err(Refusal { reason, place })
}

// The table of classes. It is made once for a message and lent to the functions below.
pub fn table() -> [u8; 256]
    ensures { result ≡ class_table }
{
    classes::CLASSES
}
