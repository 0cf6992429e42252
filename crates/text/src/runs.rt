// Text between tags, attribute values and comments.
ghost use Rattle.std.specs.Prelude.{◌≡◌, true, length};
ghost use Rattle.message.specs.Class.{class_in, is_plain, is_plain_note};
ghost use Rattle.message.specs.Reading.{is, has, ends, said};
ghost use Rattle.message.specs.Text.{special_at, bracket_at, beyond_plain_in_at, beyond_plain_at, beyond_note_at, hyphens_at, text_at, value_at, comment_at};
ghost use Rattle.scan.specs.Answers.{character_said};

use crate::{characters, references};
use message::{Reason, Refusal};
use scan::{Character, bytes, refused};

// The byte goes on in a comment without a further look.
fn plain_note(table: &[u8; 256], b: u8) -> bool
    ensures { result ≡ is_plain_note (class_in table.now) b }
{
    b != b'-' && (bytes::TEXT <= bytes::class(table, b) || matches!(b, b'<' | b'&'))
}

#[tactic(auto, unfolding(message::specs::Reading::has))]
fn plain_note_at(s: &[u8], table: &[u8; 256], at: usize) -> bool
    ensures { result ≡ has (is_plain_note (class_in table.now)) s.now at }
{
    s.get(at).is_some_and(|b| plain_note(table, *b))
}

// The place behind the plain text from a place on.
pub fn plain_end(s: &[u8], table: &[u8; 256], at: usize) -> usize
    ensures { result ≡ ends (is_plain (class_in table.now)) s.now at }
{
    bytes::run_end(s, table, at, bytes::PLAIN)
}

// The same in a comment, by a loop of its own, since the one that scan has for any test is for that crate alone.
#[tactic(auto, using(message::proofs::Laws::has_lt, message::proofs::Laws::ends_more, message::proofs::Laws::ends_stop))]
pub fn plain_note_end(s: &[u8], table: &[u8; 256], at: usize) -> usize
    ensures { result ≡ ends (is_plain_note (class_in table.now)) s.now at }
{
    let mut i = at;
    while plain_note_at(s, table, i) {
        i += 1;
    }
    i
}

// Reads a reference, or a character of more than one byte. It is compiled into its callers, and `reference` is not: with `special` as a call of its own, text in
// French was read at 0.7 of the speed.
#[inline(always)]
#[tactic(auto, unfolding(message::specs::Text::special_at))]
pub fn special(s: &[u8], at: usize) -> Result<Character, Refusal>
    ensures { character_said result ≡ special_at s.now at }
{
    if bytes::is_at(s, at, b'&') {
        references::reference(s, at)
    } else {
        characters::long(s, at)
    }
}

// Reads the `]` at the place, which must not begin `]]>`.
#[tactic(auto, using(message::proofs::Laws::has_lt), unfolding(message::specs::Text::bracket_at))]
fn bracket(s: &[u8], at: usize) -> Result<usize, Refusal>
    requires { has (is 93) s.now at ≡ true }
    ensures { said result ≡ bracket_at s.now at }
{
    if bytes::is_at(s, at + 1, b']') && bytes::is_at(s, at + 2, b'>') {
        return refused(Reason::NotWellFormed, at + 2);
    }
    Ok(at + 1)
}

// Reads what is no plain text in a value.
#[tactic(auto, using(message::proofs::Laws::has_lt), unfolding(message::specs::Text::beyond_plain_in_at))]
fn beyond_plain_in(s: &[u8], table: &[u8; 256], at: usize) -> Result<usize, Refusal>
    ensures { said result ≡ beyond_plain_in_at (class_in table.now) s.now at }
{
    if bytes::least_at(s, table, at, bytes::TEXT) {
        return Ok(at + 1);
    }
    let c = special(s, at)?;
    Ok(c.end)
}

// Reads what is no plain text between tags.
#[tactic(auto, unfolding(message::specs::Text::beyond_plain_at))]
fn beyond_plain(s: &[u8], table: &[u8; 256], at: usize) -> Result<usize, Refusal>
    ensures { said result ≡ beyond_plain_at (class_in table.now) s.now at }
{
    if bytes::is_at(s, at, b']') {
        bracket(s, at)
    } else {
        beyond_plain_in(s, table, at)
    }
}

// Reads text up to the next `<`.
pub fn text(s: &[u8], table: &[u8; 256], at: usize) -> Result<usize, Refusal>
    ensures { said result ≡ text_at (class_in table.now) (length s.now) s.now at }
{
    let mut i = at;
    loop {
        let stop = plain_end(s, table, i);
        if bytes::is_at(s, stop, b'<') {
            return Ok(stop);
        }
        i = beyond_plain(s, table, stop)?;
    }
}

// Reads an attribute's value up to the quotation mark that ends it. The loop of `text` stands here again: one for both, with the step as a closure, would
// be no plainer, since it had to ask that each step goes on, and its contract could speak of neither definition.
pub fn value(s: &[u8], table: &[u8; 256], at: usize, quote: u8) -> Result<usize, Refusal>
    ensures { said result ≡ value_at (class_in table.now) (length s.now) quote s.now at }
{
    let mut i = at;
    loop {
        let stop = plain_end(s, table, i);
        if bytes::is_at(s, stop, quote) {
            return Ok(stop);
        }
        i = beyond_plain_in(s, table, stop)?;
    }
}

// Reads what is no plain byte of a comment: a `-` alone, or a character of more than one byte.
#[tactic(auto, using(message::proofs::Laws::has_lt), unfolding(message::specs::Text::beyond_note_at))]
fn beyond_note(s: &[u8], at: usize) -> Result<usize, Refusal>
    ensures { said result ≡ beyond_note_at s.now at }
{
    if bytes::is_at(s, at, b'-') {
        return Ok(at + 1);
    }
    let c = characters::long(s, at)?;
    Ok(c.end)
}

// Reads a comment after its `<!--`.
pub fn comment(s: &[u8], table: &[u8; 256], at: usize) -> Result<usize, Refusal>
    ensures { said result ≡ comment_at (class_in table.now) (length s.now) s.now at }
{
    let mut stop = plain_note_end(s, table, at);
    while !hyphens_at(s, stop) {
        let next = beyond_note(s, stop)?;
        stop = plain_note_end(s, table, next);
    }
    bytes::byte(s, stop + 2, b'>')
}

// `--` stands at the place.
#[tactic(auto, using(message::proofs::Laws::has_lt))]
fn hyphens_at(s: &[u8], at: usize) -> bool
    ensures { result ≡ hyphens_at s.now at }
{
    bytes::is_at(s, at, b'-') && bytes::is_at(s, at + 1, b'-')
}
