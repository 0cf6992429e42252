// Plain text for the programs: a line that is written field by field, and the words and numbers of a line that is read.
#![tactic(auto)]

ghost use Rattle.std.specs.Prelude.{◌≡◌, ◌≤◌, ℕ, List, [], length, take, drop};
ghost use Rattle.laws.specs.Bytes.{same_bytes};
ghost use Rattle.message.specs.Values.{decimal_from, decimal_of};
ghost use Rattle.texts.specs.Fields.{field, places, last_digits, decimal, put_in, zero_alone};

use std::marker::Model;

// What stands behind a field.
pub const SPACE: u8 = b' ';

pub const LINE_END: u8 = b'\n';

// The digits of the largest number.
const MOST_DIGITS: usize = 20;

// A line of at most N bytes. There is no heap here, and std has no line of a fixed size.
#[derive(Drop)]
pub struct Line<const N: usize> {
    bytes: [u8; N],
    length: usize,
}

impl<const N: usize> Model for Line<N> {
    ghost Value = { List ℕ };

    ghost view = { λ line. take line.length line.bytes };

    ghost invariant = { λ line. line.length ≤ N };
}

impl<const N: usize> Line<N> {
    pub fn new() -> Self
        ensures { result ≡ [] }
    {
        Line {
            bytes: [0; N],
            length: 0,
        }
    }

    // A line that is written again and again is emptied in between: a new one costs a pass over all its room.
    pub fn clear(&mut self)
        ensures { self.new ≡ [] }
    {
        self.length = 0;
    }

    // Writes a text and the byte behind it. Where they have no room nothing is written.
    pub fn put(&mut self, text: &[u8], behind: u8)
        ensures { self.new ≡ put_in N self.old (field text.now behind) }
    {
        if N - self.length <= text.len() {
            return;
        }
        let end = self.length + text.len();
        let bytes = &mut self.bytes[..];
        bytes[self.length..end].copy_from_slice(text);
        bytes[end] = behind;
        self.length = end + 1;
    }

    // The same for a number, in decimal. `write!` would not do: what it writes is known only where it answers Ok, and not that it does.
    pub fn put_number(&mut self, number: u64, behind: u8)
        ensures { self.new ≡ put_in N self.old (field (decimal number) behind) }
    {
        let mut room = [0u8; MOST_DIGITS];
        let digits = &mut room[..digit_count(number)];
        write_digits(number, digits);
        self.put(digits, behind);
    }

    pub fn as_bytes(&self) -> &[u8]
        ensures { result.now ≡ self.now }
    {
        &self.bytes[..self.length]
    }
}

// How many digits hold a number.
#[tactic(auto, using(crate::proofs::Decimals::places_of_power, crate::proofs::Decimals::places_of_zero))]
fn digit_count(number: u64) -> usize
    ensures counted { result ≡ places number }
    ensures within { result ≤ 20 }
{
    number
        .checked_ilog10()
        .map_or(1, |power| power as usize + 1)
}

// Fills `out` with the last digits of a number, the last one first.
fn write_digits(number: u64, out: &mut [u8])
    ensures { out.new ≡ last_digits (length out.old) number }
{
    let mut rest = number;
    for at in (0..out.len()).rev() {
        out[at] = b'0' + (rest % 10) as u8;
        rest /= 10;
    }
}

// Whether a text begins with a word: `starts_with` under the definition's words, which callers' proofs cite.
#[tactic(auto, using(crate::proofs::Beginnings::starts_same, crate::proofs::Beginnings::too_short_lem, crate::proofs::Beginnings::starts_whole))]
pub fn begins(text: &[u8], word: &[u8]) -> bool
    ensures { result ≡ same_bytes (take (length word.now) text.now) word.now }
{
    text.starts_with(word)
}

// The number that a text has from a place on to its end, in decimal without leading zeros.
#[tactic(auto, using(crate::proofs::Numbers::no_digits, crate::proofs::Numbers::zero_first, crate::proofs::Numbers::no_zero_first))]
pub fn number(text: &[u8], from: usize) -> Option<u32>
    ensures { result ≡ decimal_of (drop from text.now) }
{
    if *text.get(from)? == b'0' {
        return zero_alone(text.len() - from);
    }
    value(&text[from..])
}

// A zero stands alone.
fn zero_alone(length: usize) -> Option<u32>
    ensures { result ≡ zero_alone length }
{
    (length == 1).then_some(0)
}

// The number of so many digits.
#[tactic(auto, using(crate::proofs::Numbers::no_digit, crate::proofs::Numbers::too_large, crate::proofs::Numbers::next_digit, crate::proofs::Numbers::no_more_digits))]
fn value(digits: &[u8]) -> Option<u32>
    ensures { result ≡ decimal_from 0 digits.now }
{
    let mut number: u32 = 0;
    for digit in digits {
        if !digit.is_ascii_digit() {
            return None;
        }
        number = number
            .checked_mul(10)?
            .checked_add(u32::from(*digit - b'0'))?;
    }
    Some(number)
}
