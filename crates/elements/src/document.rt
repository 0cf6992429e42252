// The whole message as XML: perhaps a declaration, one root, and white space and comments around it.
ghost use Rattle.std.specs.Prelude.{◌≡◌, cond, eqb};
ghost use Rattle.message.specs.Class.{class_in};
ghost use Rattle.message.specs.Reading.{said};
ghost use Rattle.message.specs.Reading.Reading.{whole};
ghost use Rattle.message.specs.Limits.{link_limits};
ghost use Rattle.message.specs.Elements.{end_at, declared_of, root_at, document_at};
ghost use Rattle.elements.specs.Seen.{seen};

use crate::{LEVELS, MOST_BYTES, Seen, content};
use message::{Reason, Refusal};
use scan::{bytes, refused};
use text::{declaration, markup};

// Nothing more stands at the place.
#[tactic(auto, using(message::proofs::Laws::has_lt), unfolding(message::specs::Elements::end_at))]
fn end(s: &[u8], at: usize) -> Result<usize, Refusal>
    ensures { said result ≡ end_at s.now at }
{
    if bytes::is_at(s, at, b'<') {
        return refused(Reason::NotWellFormed, at + 1);
    }
    if at < s.len() {
        return refused(Reason::NotWellFormed, at);
    }
    Ok(at)
}

// Reads the root and what stands around it, from a place on.
#[tactic(auto, using(crate::proofs::Root::root_seen))]
fn root(s: &[u8], table: &[u8; 256], at: usize) -> Result<Seen, Refusal>
    ensures { said result ≡ seen s.now (root_at (class_in table.now) s.now link_limits at) }
{
    let begin = markup::around(s, table, at)?;
    let element = content::element(s, table, begin, LEVELS)?;
    let last = markup::around(s, table, element.end)?;
    end(s, last)?;
    Ok(element)
}

// Reads the declaration, which may stand at the very start alone.
#[tactic(auto, unfolding(message::specs::Elements::declared_of))]
fn begin(s: &[u8], table: &[u8; 256], at: usize) -> Result<usize, Refusal>
    ensures { said result ≡ cond (eqb at 0) (declared_of (class_in table.now) s.now) (whole at) }
{
    if at == 0 && declaration::declares(s, table) {
        return declaration::declaration(s, table, 5);
    }
    Ok(at)
}

// Reads a message from a place on: its root.
#[tactic(auto, unfolding(message::specs::Elements::document_at))]
pub fn document(s: &[u8], table: &[u8; 256], at: usize) -> Result<Seen, Refusal>
    ensures { said result ≡ seen s.now (document_at (class_in table.now) s.now link_limits at) }
{
    if s.len() > MOST_BYTES {
        return refused(Reason::TooLong, 0);
    }
    let from = begin(s, table, at)?;
    root(s, table, from)
}
