// What values mean: references replaced, and line ends made one.
ghost use Rattle.std.specs.Prelude.{◌≡◌, suc, ◌<◌, length, Some};
ghost use Rattle.message.specs.Class.{class_in};
ghost use Rattle.message.specs.Reading.{has, said};
ghost use Rattle.scan.specs.Answers.{character_said};
ghost use Rattle.values.specs.Pieces.{attribute_piece_at, content_piece_at, pieces_meaning, GoesOn, Reads};
ghost use Rattle.message.specs.Values.{line_end, is_break, letter_at, attribute_letter_at, text_letter_at, attribute_meaning, content_meaning, means, number_from, number_of, status_of, advice_of};

use message::{Advice, Refusal, Status};
use scan::{Character, bytes};
use text::{markup, runs};

// The place behind the line end that begins at the place.
fn line_end(s: &[u8], at: usize) -> usize
    requires { at < length s.now }
    ensures { result ≡ line_end s.now at }
{
    if bytes::is_at(s, at, b'\r') && bytes::is_at(s, at + 1, b'\n') {
        return at + 2;
    }
    at + 1
}

// Literal tab, line feed or carriage return stands at the place.
#[tactic(auto, unfolding(message::specs::Reading::has))]
fn break_at(s: &[u8], at: usize) -> bool
    ensures { result ≡ has is_break s.now at }
{
    matches!(s.get(at), Some(b'\t' | b'\n' | b'\r'))
}

// A character as it stands or as a reference names it.
#[tactic(auto, using(message::proofs::Laws::has_lt), unfolding(message::specs::Values::letter_at))]
fn letter(s: &[u8], table: &[u8; 256], at: usize) -> Result<Character, Refusal>
    ensures { character_said result ≡ letter_at (class_in table.now) s.now at }
{
    if bytes::least_at(s, table, at, bytes::TEXT) {
        return Ok(Character {
            end: at + 1,
            code: u32::from(s[at]),
        });
    }
    runs::special(s, at)
}

// A character of an attribute's value.
#[tactic(auto, using(message::proofs::Laws::has_lt), unfolding(message::specs::Values::attribute_letter_at))]
fn attribute_letter(s: &[u8], table: &[u8; 256], at: usize) -> Result<Character, Refusal>
    ensures { character_said result ≡ attribute_letter_at (class_in table.now) s.now at }
{
    if break_at(s, at) {
        return Ok(Character {
            end: line_end(s, at),
            code: 32,
        });
    }
    letter(s, table, at)
}

// A character of an element's content.
#[tactic(auto, using(message::proofs::Laws::has_lt), unfolding(message::specs::Values::text_letter_at))]
fn text_letter(s: &[u8], table: &[u8; 256], at: usize) -> Result<Character, Refusal>
    ensures { character_said result ≡ text_letter_at (class_in table.now) s.now at }
{
    if bytes::is_at(s, at, b'\r') {
        return Ok(Character {
            end: line_end(s, at),
            code: 10,
        });
    }
    letter(s, table, at)
}

// A piece of a value: the place behind it, and the number of its character. A comment has none.
#[derive(Clone, Copy)]
struct Piece {
    end: usize,
    code: Option<u32>,
}

impl From<Character> for Piece {
    ghost from_gives = { λ c piece. piece ≡ record { end = c.end; code = Some c.code } };

    fn from(c: Character) -> Piece {
        Piece {
            end: c.end,
            code: Some(c.code),
        }
    }
}

fn attribute_piece(s: &[u8], table: &[u8; 256], at: usize) -> Result<Piece, Refusal>
    ensures { said result ≡ attribute_piece_at (class_in table.now) s.now at }
{
    Ok(Piece::from(attribute_letter(s, table, at)?))
}

fn content_piece(s: &[u8], table: &[u8; 256], at: usize) -> Result<Piece, Refusal>
    ensures { said result ≡ content_piece_at (class_in table.now) s.now at }
{
    if bytes::is_at(s, at, b'<') {
        let end = markup::bang(s, table, at)?;
        return Ok(Piece { end, code: None });
    }
    Ok(Piece::from(text_letter(s, table, at)?))
}

// The pieces from `from` up to `to` spell the word.
fn spells<R: Fn(usize) -> Result<Piece, Refusal>>(
    s: &[u8],
    from: usize,
    to: usize,
    word: &[u8],
    read: R,
) -> bool
    requires callable { R.IsAlwaysCallable read }
    requires goes_on { GoesOn (R.post read) (length s.now) }
    ensures { (f : _) → Reads (R.post read) f → result ≡ means word.now (pieces_meaning f (suc (length s.now)) to from) }
{
    let mut rest = word;
    let mut i = from;
    while i < to {
        let Ok(piece) = read(i) else {
            return false;
        };
        if let Some(code) = piece.code {
            let Some((b, others)) = rest.split_first() else {
                return false;
            };
            if code != u32::from(*b) {
                return false;
            }
            rest = others;
        }
        i = piece.end;
    }
    rest.is_empty()
}

// The attribute's value from `from` up to `to` means the word.
fn attribute_means(s: &[u8], table: &[u8; 256], from: usize, to: usize, word: &[u8]) -> bool
    ensures { result ≡ means word.now (attribute_meaning (class_in table.now) s.now (suc (length s.now)) to from) }
{
    spells(s, from, to, word, |at| attribute_piece(s, table, at))
}

// The element's content from `from` up to `to` means the word; comments in it mean nothing.
fn content_means(s: &[u8], table: &[u8; 256], from: usize, to: usize, word: &[u8]) -> bool
    ensures { result ≡ means word.now (content_meaning (class_in table.now) s.now (suc (length s.now)) to from) }
{
    spells(s, from, to, word, |at| content_piece(s, table, at))
}

// The digits of a value make a number below 2^32.
fn decimal(s: &[u8], table: &[u8; 256], from: usize, to: usize) -> Option<u32>
    ensures { result ≡ number_from 0 (attribute_meaning (class_in table.now) s.now (suc (length s.now)) to from) }
{
    let mut number: u32 = 0;
    let mut i = from;
    while i < to {
        let Ok(c) = attribute_letter(s, table, i) else {
            return None;
        };
        if c.code < 48 || c.code > 57 {
            return None;
        }
        number = number.checked_mul(10)?.checked_add(c.code - 48)?;
        i = c.end;
    }
    Some(number)
}

// The number that an attribute's value names. A value is given here by its two places: this crate does not stand on elements, which has `Span`.
#[tactic(auto, using(crate::proofs::Letters::number_empty, crate::proofs::Letters::number_refused, crate::proofs::Letters::number_leading, crate::proofs::Letters::number_counted))]
pub fn number(s: &[u8], table: &[u8; 256], from: usize, to: usize) -> Option<u32>
    ensures { result ≡ number_of (attribute_meaning (class_in table.now) s.now (suc (length s.now)) to from) }
{
    if from >= to {
        return None;
    }
    let Ok(first) = attribute_letter(s, table, from) else {
        return None;
    };
    if first.code == 48 && first.end < to {
        return None;
    }
    decimal(s, table, from, to)
}

pub fn status(s: &[u8], table: &[u8; 256], from: usize, to: usize) -> Status
    ensures { result ≡ status_of (attribute_meaning (class_in table.now) s.now (suc (length s.now)) to from) }
{
    if attribute_means(s, table, from, to, b"urn:nena-org:dtc:aqstcp:status:Ok") {
        return Status::Ok;
    }
    if attribute_means(
        s,
        table,
        from,
        to,
        b"urn:nena-org:dtc:aqstcp:status:RedundantSession",
    ) {
        return Status::RedundantSession;
    }
    Status::Other
}

pub fn advice(s: &[u8], table: &[u8; 256], from: usize, to: usize) -> Advice
    ensures { result ≡ advice_of (content_meaning (class_in table.now) s.now (suc (length s.now)) to from) }
{
    if content_means(
        s,
        table,
        from,
        to,
        b"urn:nena-org:dtc:aqs:notif:advisory:appl-x:UnreadableMessage",
    ) {
        return Advice::UnreadableMessage;
    }
    Advice::Other
}
