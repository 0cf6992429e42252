// The XML declaration.
ghost use Rattle.std.specs.Prelude.{◌≡◌};
ghost use Rattle.message.specs.Class.{class_in};
ghost use Rattle.message.specs.Reading.{closed_at, said};
ghost use Rattle.message.specs.Markup.{declares, utf8_at, encoding_at, declaration_at};

use message::{Reason, Refusal};
use scan::{bytes, refused, words};

// The message begins with `<?xml` and white space.
pub fn declares(s: &[u8], table: &[u8; 256]) -> bool
    ensures { result ≡ declares (class_in table.now) s.now }
{
    words::spells(s, 0, b"<?xml") && bytes::space_at(s, table, 5)
}

// Reads the quotation mark at `to` that ends a value from `from` on.
#[tactic(auto, unfolding(message::specs::Reading::closed_at))]
pub fn closed(s: &[u8], from: usize, to: usize) -> Result<usize, Refusal>
    ensures { said result ≡ closed_at s.now from to }
{
    if from == 0 || s.len() < from {
        return refused(Reason::NotWellFormed, to);
    }
    bytes::byte(s, to, s[from - 1])
}

// Reads the encoding's name.
#[tactic(auto, unfolding(message::specs::Markup::utf8_at))]
fn utf8(s: &[u8], at: usize) -> Result<usize, Refusal>
    ensures { said result ≡ utf8_at s.now at }
{
    if bytes::is_at(s, at, b'u') {
        words::word(s, at, b"utf-8")
    } else {
        words::word(s, at, b"UTF-8")
    }
}

// Reads the encoding and the end of the declaration, from behind the version on.
#[tactic(auto, unfolding(message::specs::Markup::encoding_at))]
fn encoding(s: &[u8], table: &[u8; 256], at: usize) -> Result<usize, Refusal>
    ensures { said result ≡ encoding_at (class_in table.now) s.now at }
{
    bytes::space(s, table, at)?;
    let named = words::word(s, bytes::blanks(s, table, at), b"encoding")?;
    let from = bytes::opened(s, table, named)?;
    let to = utf8(s, from)?;
    let done = closed(s, from, to)?;
    words::word(s, bytes::blanks(s, table, done), b"?>")
}

// Reads the declaration from behind its `<?xml` on.
#[tactic(auto, unfolding(message::specs::Markup::declaration_at))]
pub fn declaration(s: &[u8], table: &[u8; 256], at: usize) -> Result<usize, Refusal>
    ensures { said result ≡ declaration_at (class_in table.now) s.now at }
{
    let named = words::word(s, bytes::blanks(s, table, at), b"version")?;
    let from = bytes::opened(s, table, named)?;
    let to = words::word(s, from, b"1.0")?;
    let done = closed(s, from, to)?;
    let end = bytes::blanks(s, table, done);
    if bytes::is_at(s, end, b'?') {
        return words::word(s, end, b"?>");
    }
    encoding(s, table, done)
}
