// Comments where markup may begin, the openings of refusal 12, and what may stand around the root.
ghost use Rattle.std.specs.Prelude.{◌≡◌, suc, length};
ghost use Rattle.message.specs.Class.{class_in};
ghost use Rattle.message.specs.Markup.{bang_at, around_at, opens_at};
ghost use Rattle.message.specs.Reading.{said};

use crate::runs;
use message::{Reason, Refusal};
use scan::{bytes, refused, words};

// `<` and the byte b stand at the place.
#[tactic(auto, using(message::proofs::Laws::has_lt))]
pub fn opens_at(s: &[u8], at: usize, b: u8) -> bool
    ensures { result ≡ opens_at b s.now at }
{
    bytes::is_at(s, at, b'<') && bytes::is_at(s, at + 1, b)
}

// Reads a comment from its `<!` on; whole openings of what is left out are 12.
#[tactic(auto, unfolding(message::specs::Markup::bang_at))]
pub fn bang(s: &[u8], table: &[u8; 256], at: usize) -> Result<usize, Refusal>
    ensures { said result ≡ bang_at (class_in table.now) s.now at }
{
    let i = bytes::byte(s, at, b'<')?;
    let from = bytes::byte(s, i, b'!')?;
    if words::spells(s, from, b"DOCTYPE") || words::spells(s, from, b"[CDATA[") {
        return refused(Reason::LeftOut, at);
    }
    let inside = words::word(s, from, b"--")?;
    // A Result handed on as it came is copied by one move of 16 bytes out of two stores of 8, for which the processor waits; a place alone is moved as it
    // was stored. With `runs::comment` as the last line a message of short comments took 1.4 to 1.5 times as long.
    let end = runs::comment(s, table, inside)?;
    Ok(end)
}

// Reads white space and comments, up to what is neither.
pub fn around(s: &[u8], table: &[u8; 256], at: usize) -> Result<usize, Refusal>
    ensures { said result ≡ around_at (class_in table.now) (suc (length s.now)) s.now at }
{
    let mut stop = bytes::blanks(s, table, at);
    while opens_at(s, stop, b'!') {
        let next = bang(s, table, stop)?;
        stop = bytes::blanks(s, table, next);
    }
    if opens_at(s, stop, b'?') {
        return refused(Reason::LeftOut, stop);
    }
    Ok(stop)
}
