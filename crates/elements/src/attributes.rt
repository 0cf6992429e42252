// The attributes of a start tag: at most 16, none twice.
ghost use Rattle.std.specs.Prelude.{◌≡◌, [], ◌∷◌, ◌++◌, ◌<◌, ◌≤◌, List, length, take};
ghost use Rattle.message.specs.Class.{class_in};
ghost use Rattle.message.specs.Reading.{has, said};
ghost use Rattle.message.specs.Limits.{link_limits};
ghost use Rattle.message.specs.Elements.{ends_tag, quoted_at, fresh_at, attributes_at};
ghost use Rattle.elements.specs.Held.{names_of, one_is, span_said};
ghost use Rattle.elements.specs.declared.attributes.Span.{Span};

use crate::{MOST_PART, noted};
use message::{Reason, Refusal};
use scan::{bytes, names, refused};
use std::marker::Model;
use text::runs;

const MOST_ATTRIBUTES: usize = 16;

// Where a value stands without its quotation marks, or a name.
#[derive(Clone, Copy)]
pub struct Span {
    pub from: usize,
    pub to: usize,
}

// Where the names of the attributes read so far stand. There is no heap, so the array is as long as the most that there may be.
#[derive(Drop)]
struct Names {
    spans: [Span; 16],
    count: usize,
}

impl Model for Names {
    ghost Value = { List Span };

    ghost view = { λ n. take n.count n.spans };

    ghost invariant = { λ n. (n.count ≤ 16) × (length n.spans ≡ 16) };
}

impl Names {
    fn new() -> Self
        ensures { result ≡ [] }
    {
        // Not zeros: with the count they would be written by a call of `memset`, and the archive for C calls nothing outside it.
        Names {
            spans: [Span { from: 1, to: 1 }; 16],
            count: 0,
        }
    }

    fn len(&self) -> usize
        ensures { result ≡ length self.now }
    {
        self.count
    }

    // One of them is the word.
    #[tactic(auto, unfolding(crate::specs::Held::one_is))]
    fn contain(&self, s: &[u8], word: &[u8]) -> bool
        ensures { result ≡ one_is s.now word.now self.now }
    {
        self.spans[..self.count]
            .iter()
            .any(|name| noted::called(s, name.from, name.to, word))
    }

    fn push(&mut self, name: Span)
        requires { length self.old < 16 }
        ensures { self.new ≡ self.old ++ name ∷ [] }
    {
        self.spans[self.count] = name;
        self.count += 1;
    }
}

// `/` or `>` stands at the place.
#[tactic(auto, unfolding(message::specs::Reading::has))]
fn ends_tag(s: &[u8], at: usize) -> bool
    ensures { result ≡ has ends_tag s.now at }
{
    matches!(s.get(at), Some(b'/' | b'>'))
}

// Reads `=` and the value behind a name.
#[tactic(auto, using(message::proofs::Trees::opened_on), unfolding(message::specs::Elements::quoted_at))]
pub fn quoted(s: &[u8], table: &[u8; 256], at: usize) -> Result<Span, Refusal>
    ensures { span_said result ≡ quoted_at (class_in table.now) s.now at }
{
    let from = bytes::opened(s, table, at)?;
    let to = runs::value(s, table, from, s[from - 1])?;
    Ok(Span { from, to })
}

// Reads the name of one more attribute: it begins at p, behind the white space from `at` on.
#[tactic(auto, using(crate::proofs::HeldNames::length_names, crate::proofs::HeldNames::known_held), unfolding(message::specs::Elements::fresh_at))]
fn fresh(s: &[u8], table: &[u8; 256], at: usize, p: usize, seen: &Names) -> Result<usize, Refusal>
    ensures { said result ≡ fresh_at (class_in table.now) s.now link_limits (names_of s.now seen.now) at p }
{
    bytes::space(s, table, at)?;
    bytes::start(s, table, p)?;
    if seen.len() >= MOST_ATTRIBUTES {
        return refused(Reason::TooManyAttributes, p);
    }
    let name = names::name(s, table, p, MOST_PART)?;
    if seen.contain(s, noted::part(s, p, name.end)) {
        return refused(Reason::NotWellFormed, name.end);
    }
    Ok(name.end)
}

// Reads the attributes from behind a start tag's name on, up to the `/` or `>`. Most tags have none, and hold no names.
#[tactic(auto, using(crate::proofs::AttributeLaws::attributes_none))]
pub(crate) fn attributes(s: &[u8], table: &[u8; 256], at: usize) -> Result<usize, Refusal>
    ensures { said result ≡ attributes_at (class_in table.now) s.now link_limits (length s.now) [] at }
{
    let p = bytes::blanks(s, table, at);
    if ends_tag(s, p) {
        return Ok(p);
    }
    held(s, table, at)
}

// The same, with the names held.
#[tactic(auto, using(crate::proofs::AttributeLaws::fresh_held, message::proofs::Trees::quoted_on, message::proofs::Laws::ends_after))]
fn held(s: &[u8], table: &[u8; 256], at: usize) -> Result<usize, Refusal>
    ensures { said result ≡ attributes_at (class_in table.now) s.now link_limits (length s.now) [] at }
{
    let mut seen = Names::new();
    let mut i = at;
    loop {
        let p = bytes::blanks(s, table, i);
        if ends_tag(s, p) {
            return Ok(p);
        }
        let e = fresh(s, table, i, p, &seen)?;
        let value = quoted(s, table, e)?;
        seen.push(Span { from: p, to: e });
        i = value.to + 1;
    }
}
