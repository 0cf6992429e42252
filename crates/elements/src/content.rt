// Elements, by recursion: an element's content is read by the same rule one level down.
ghost use Rattle.std.specs.Prelude.{◌≡◌, true, ◌+◌, length};
ghost use Rattle.message.specs.Class.{class_in};
ghost use Rattle.message.specs.Reading.{is, has, said};
ghost use Rattle.message.specs.Limits.{link_limits};
ghost use Rattle.message.specs.Elements.{free_at, too_deep_at, start_end_at, with_name_at, start_at, element_at};
ghost use Rattle.elements.specs.Held.{NameStands, named, tag_at, started_said, empty_seen, closing};
ghost use Rattle.elements.specs.Seen.{seen};

use crate::{Inside, MOST_PART, Seen, attributes, noted, tags};
use message::{Reason, Refusal};
use scan::{Name, bytes, names, refused};
use text::{markup, runs};

// A start tag that has been read: where its name begins and what it is, and the place behind it.
#[derive(Clone, Copy)]
pub(crate) struct Start {
    pub(crate) begin: usize,
    pub(crate) name: Name,
    pub(crate) from: usize,
    pub(crate) empty: bool,
}

// A tag begins at the place.
#[tactic(auto, using(message::proofs::Laws::has_lt))]
fn tag_at(s: &[u8], at: usize) -> bool
    ensures { result ≡ tag_at s.now at }
{
    bytes::is_at(s, at, b'<') && !bytes::is_at(s, at + 1, b'!') && !bytes::is_at(s, at + 1, b'?')
}

// Reads text and comments up to the next tag. Most often it is plain text, or nothing at all.
#[tactic(auto, using(crate::proofs::FirstLooks::free_plain, crate::proofs::FirstLooks::free_behind))]
fn free(s: &[u8], table: &[u8; 256], at: usize) -> Result<usize, Refusal>
    ensures { said result ≡ free_at (class_in table.now) s.now (length s.now) at }
{
    let end = runs::plain_end(s, table, at);
    if tag_at(s, end) {
        return Ok(end);
    }
    free_by_turns(s, table, end)
}

// The same with anything that may stand there.
#[tactic(auto, using(message::proofs::Trees::text_whole, message::proofs::MarkupLoop::bang_on))]
fn free_by_turns(s: &[u8], table: &[u8; 256], at: usize) -> Result<usize, Refusal>
    ensures { said result ≡ free_at (class_in table.now) s.now (length s.now) at }
{
    let mut i = at;
    loop {
        let stop = runs::text(s, table, i)?;
        if bytes::is_at(s, stop + 1, b'!') {
            i = markup::bang(s, table, stop)?;
        } else if bytes::is_at(s, stop + 1, b'?') {
            return refused(Reason::LeftOut, stop);
        } else {
            return Ok(stop);
        }
    }
}

// Reads the `>` of a start tag; what stands before the `>` ends at `stop`.
#[tactic(auto, using(message::proofs::Laws::has_lt), unfolding(message::specs::Elements::start_end_at))]
fn start_end(s: &[u8], begin: usize, name: Name, stop: usize) -> Result<Start, Refusal>
    ensures { started_said result ≡ start_end_at s.now begin (named name) stop }
{
    let empty = bytes::is_at(s, stop, b'/');
    let from = bytes::byte(s, if empty { stop + 1 } else { stop }, b'>')?;
    Ok(Start {
        begin,
        name,
        from,
        empty,
    })
}

// Reads a start tag from its `<` on.
#[tactic(auto, unfolding(message::specs::Elements::start_at))]
fn start_tag(s: &[u8], table: &[u8; 256], at: usize) -> Result<Start, Refusal>
    ensures { started_said result ≡ start_at (class_in table.now) s.now link_limits at }
{
    let begin = bytes::byte(s, at, b'<')?;
    let name = names::name(s, table, begin, MOST_PART)?;
    with_name(s, table, begin, name)
}

// Reads a start tag from behind its name on, which stands from `begin` on. Most have their `>` at once.
#[tactic(auto, using(crate::proofs::FirstLooks::name_alone, message::proofs::Laws::has_lt))]
fn with_name(s: &[u8], table: &[u8; 256], begin: usize, name: Name) -> Result<Start, Refusal>
    ensures { started_said result ≡ with_name_at (class_in table.now) s.now link_limits begin (named name) }
{
    if tags::ends_at(s, table, name.end) {
        return Ok(Start {
            begin,
            name,
            from: name.end + 1,
            empty: false,
        });
    }
    with_attributes(s, table, begin, name)
}

// The same with attributes.
#[tactic(auto, unfolding(message::specs::Elements::with_name_at))]
fn with_attributes(s: &[u8], table: &[u8; 256], begin: usize, name: Name) -> Result<Start, Refusal>
    ensures { started_said result ≡ with_name_at (class_in table.now) s.now link_limits begin (named name) }
{
    let stop = attributes::attributes(s, table, name.end)?;
    start_end(s, begin, name, stop)
}

// An element with nothing inside, from its empty-element tag.
fn emptied(s: &[u8], start: Start) -> Seen
    ensures { result ≡ empty_seen s.now start }
{
    Seen {
        begin: start.begin,
        from: 0,
        to: 0,
        end: start.from,
        mark: noted::mark(s, start.begin, start.name),
        inside: Inside::default(),
    }
}

// Reads the end tag of an element, whose `</` stands at `stop`: what else it is is known by then.
#[tactic(auto, using(message::proofs::Laws::has_lt), unfolding(crate::specs::Held::closing))]
fn close(
    s: &[u8],
    table: &[u8; 256],
    start: Start,
    stop: usize,
    inside: Inside,
) -> Result<Seen, Refusal>
    requires name_stands { NameStands (class_in table.now) s.now start.begin (named start.name) }
    requires slash_stands { has (is 47) s.now (stop + 1) ≡ true }
    ensures { said result ≡ closing (class_in table.now) s.now start stop inside }
{
    let end = tags::end_tag(s, table, start.begin, start.name, stop + 2)?;
    Ok(Seen {
        begin: start.begin,
        from: start.from,
        to: stop,
        end,
        mark: noted::mark(s, start.begin, start.name),
        inside,
    })
}

// Reads an element of as many levels as `depth` says: its start tag, and then its content, in which elements have a level less.
#[tactic(auto, using(message::proofs::Trees::free_whole, crate::proofs::ContentLoop::seen_on))]
pub fn element(s: &[u8], table: &[u8; 256], at: usize, depth: u32) -> Result<Seen, Refusal>
    ensures { said result ≡ seen s.now (element_at (class_in table.now) s.now link_limits depth at) }
{
    if depth == 0 {
        return too_deep(s, table, at);
    }
    let start = start_tag(s, table, at)?;
    if start.empty {
        return Ok(emptied(s, start));
    }
    let mut inside = Inside::default();
    let mut i = start.from;
    loop {
        let stop = free(s, table, i)?;
        if bytes::is_at(s, stop + 1, b'/') {
            return close(s, table, start, stop, inside);
        }
        // Lent anew, and not as it came: docs/DECISIONS.md, "What the compiler makes of it".
        let child = element(&s[..], table, stop, depth - 1)?;
        inside = noted::note(inside, child);
        i = child.end;
    }
}

// The refusal of an element below the last level.
#[tactic(auto, unfolding(message::specs::Elements::too_deep_at))]
fn too_deep(s: &[u8], table: &[u8; 256], at: usize) -> Result<Seen, Refusal>
    ensures { said result ≡ seen s.now (too_deep_at (class_in table.now) s.now at) }
{
    let b = bytes::byte(s, at, b'<')?;
    bytes::start(s, table, b)?;
    refused(Reason::TooDeep, at)
}
