// References: the five predefined ones, and numbers of characters.
ghost use Rattle.std.specs.Prelude.{◌≡◌, suc, ◌≤◌, length, cond, Some, None};
ghost use Rattle.message.specs.Reading.{byte_at, has, one, said};
ghost use Rattle.message.specs.Characters.{legal, digit_of, is_digit, digits_at, closes, numbered_at, stands_at, predefined_at, reference_at};
ghost use Rattle.scan.specs.Answers.{character_said};

use crate::one_if;
use message::{Reason, Refusal};
use scan::{Character, bytes, refused, words};

const LAST_CHARACTER: u32 = 1114111;

// The number is one of a legal character.
pub fn legal(code: u32) -> bool
    ensures { result ≡ legal code }
{
    matches!(code, 9 | 10 | 13 | 32..=55295 | 57344..=65533 | 65536..=LAST_CHARACTER)
}

// What the byte counts for, if it is a digit of the base.
fn digit(b: u8, base: u32) -> Option<u32>
    ensures { result ≡ cond (is_digit base b) (Some (digit_of b)) None }
{
    let counts = match b {
        b'0'..=b'9' => b - b'0',
        b'A'..=b'F' => b - b'A' + 10,
        b'a'..=b'f' => b - b'a' + 10,
        _ => return None,
    };
    let counts = u32::from(counts);
    (counts < base).then_some(counts)
}

#[tactic(auto, unfolding(message::specs::Reading::has))]
fn digit_at(s: &[u8], at: usize, base: u32) -> Option<u32>
    ensures { result ≡ cond (has (is_digit base) s.now at) (Some (digit_of (byte_at s.now at))) None }
{
    digit(*s.get(at)?, base)
}

// Reads the digits from a place on, as far as they make no number past the last character.
fn digits(s: &[u8], at: usize, base: u32) -> Result<Character, Refusal>
    requires { base ≤ 16 }
    ensures { character_said result ≡ digits_at (suc (length s.now)) base 0 s.now at }
{
    let mut code = 0;
    let mut end = at;
    while let Some(counts) = digit_at(s, end, base) {
        let more = code * base + counts;
        if more > LAST_CHARACTER {
            return refused(Reason::NotWellFormed, end);
        }
        code = more;
        end += 1;
    }
    Ok(Character { end, code })
}

// Reads a digit of the base.
#[tactic(auto, using(message::proofs::Laws::has_lt), unfolding(message::specs::Reading::one))]
fn one_digit(s: &[u8], at: usize, base: u32) -> Result<usize, Refusal>
    ensures { said result ≡ one (is_digit base) s.now at }
{
    one_if(digit_at(s, at, base).is_some(), at)
}

// Reads the `;` behind the number of a character.
#[tactic(auto, unfolding(message::specs::Reading::one, message::specs::Reading::has))]
fn close(s: &[u8], at: usize, code: u32) -> Result<usize, Refusal>
    ensures { said result ≡ one (closes code) s.now at }
{
    one_if(bytes::is_at(s, at, b';') && legal(code), at)
}

// Reads the digits of a number and the `;` behind it.
#[tactic(auto, unfolding(message::specs::Characters::numbered_at))]
fn numbered(s: &[u8], at: usize, base: u32) -> Result<Character, Refusal>
    requires { base ≤ 16 }
    ensures { character_said result ≡ numbered_at base s.now at }
{
    one_digit(s, at, base)?;
    let number = digits(s, at, base)?;
    let end = close(s, number.end, number.code)?;
    Ok(Character { end, ..number })
}

// Reads what is left of a predefined reference, which stands for one ASCII character.
#[tactic(auto, unfolding(message::specs::Characters::stands_at))]
fn stands(s: &[u8], at: usize, word: &[u8], code: u8) -> Result<Character, Refusal>
    ensures { character_said result ≡ stands_at word.now code s.now at }
{
    let end = words::word(s, at, word)?;
    let code = u32::from(code);
    Ok(Character { end, code })
}

// Reads a predefined reference after its `&`. Byte by byte, and by no table of words: where two begin alike the first byte that fits neither is refused.
#[tactic(auto, unfolding(message::specs::Characters::predefined_at))]
fn predefined(s: &[u8], at: usize) -> Result<Character, Refusal>
    ensures { character_said result ≡ predefined_at s.now at }
{
    if bytes::is_at(s, at, b'l') {
        return stands(s, at, b"lt;", b'<');
    }
    if bytes::is_at(s, at, b'g') {
        return stands(s, at, b"gt;", b'>');
    }
    if bytes::is_at(s, at, b'q') {
        return stands(s, at, b"quot;", b'"');
    }
    let i = bytes::byte(s, at, b'a')?;
    if bytes::is_at(s, i, b'm') {
        return stands(s, i, b"mp;", b'&');
    }
    stands(s, i, b"pos;", b'\'')
}

// Reads a reference from its `&` on.
#[inline(never)]
#[tactic(auto, using(message::proofs::Laws::has_lt), unfolding(message::specs::Characters::reference_at))]
pub fn reference(s: &[u8], at: usize) -> Result<Character, Refusal>
    ensures { character_said result ≡ reference_at s.now at }
{
    let i = bytes::byte(s, at, b'&')?;
    if !bytes::is_at(s, i, b'#') {
        return predefined(s, i);
    }
    let (from, base) = if bytes::is_at(s, i + 1, b'x') {
        (i + 2, 16)
    } else {
        (i + 1, 10)
    };
    // Taken apart and made anew, as in `bang` of markup: handed on as it came, numbers were read slower.
    let Character { end, code } = numbered(s, from, base)?;
    Ok(Character { end, code })
}
