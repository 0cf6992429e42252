// Names of one part, or of two joined by a colon.
ghost use Rattle.std.specs.Prelude.{◌≡◌};
ghost use Rattle.message.specs.Class.{class_in};
ghost use Rattle.message.specs.Names.{short_at, part_at, name_at};
ghost use Rattle.message.specs.Reading.{said};
ghost use Rattle.scan.specs.Answers.{name_said};

use crate::{Name, bytes, refused};
use message::{Reason, Refusal};

// Reads the run of name bytes from a place on, which is of at most `most` bytes.
#[tactic(auto, unfolding(message::specs::Names::short_at))]
pub fn short(s: &[u8], table: &[u8; 256], at: usize, most: usize) -> Result<usize, Refusal>
    ensures { said result ≡ short_at (class_in table.now) most s.now at }
{
    let end = bytes::name_end(s, table, at);
    if most < end - at {
        return refused(Reason::NameTooLong, at);
    }
    Ok(end)
}

// Reads a part of at most `most` bytes.
#[tactic(auto, unfolding(message::specs::Names::part_at))]
pub fn part(s: &[u8], table: &[u8; 256], at: usize, most: usize) -> Result<usize, Refusal>
    ensures { said result ≡ part_at (class_in table.now) most s.now at }
{
    bytes::start(s, table, at)?;
    short(s, table, at, most)
}

// Reads a name whose parts are of at most `most` bytes, both by one call: docs/DECISIONS.md, "What the compiler makes of it".
pub fn name(s: &[u8], table: &[u8; 256], at: usize, most: usize) -> Result<Name, Refusal>
    ensures { name_said result ≡ name_at (class_in table.now) most s.now at }
{
    let mut local = at;
    loop {
        let end = part(s, table, local, most)?;
        if local != at || !bytes::is_at(s, end, b':') {
            return Ok(Name { local, end });
        }
        local = end + 1;
    }
}
