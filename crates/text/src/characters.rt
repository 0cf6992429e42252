// Characters of more than one byte, in UTF-8.
ghost use Rattle.std.specs.Prelude.{◌≡◌, ◌<◌, ◌≤◌, true};
ghost use Rattle.message.specs.Class.{between};
ghost use Rattle.message.specs.Reading.{has, one, said};
ghost use Rattle.message.specs.Characters.{joined, two_at, three_at, last_two_at, four_at, long_at};
ghost use Rattle.scan.specs.Answers.{character_said};

use crate::one_if;
use message::Refusal;
use scan::Character;

// A byte from `low` to `high` stands at the place.
#[tactic(auto, unfolding(message::specs::Reading::has))]
pub fn between_at(s: &[u8], at: usize, low: u8, high: u8) -> bool
    ensures { result ≡ has (between low high) s.now at }
{
    s.get(at).is_some_and(|b| low <= *b && *b <= high)
}

// Reads a byte from `low` to `high`.
#[tactic(auto, using(message::proofs::Laws::has_lt), unfolding(message::specs::Reading::one))]
pub fn between(s: &[u8], at: usize, low: u8, high: u8) -> Result<usize, Refusal>
    ensures { said result ≡ one (between low high) s.now at }
{
    one_if(between_at(s, at, low, high), at)
}

// The number so far, and six bits more.
fn joined(high: u32, b: u8) -> u32
    requires high_bound { high < 67108863 }
    requires le_b { 128 ≤ b }
    ensures { result ≡ joined high b }
{
    high * 64 + (u32::from(b) - 128)
}

// Reads a character of two bytes, the first of which is known to begin one. So does the next for three bytes.
#[tactic(auto, using(message::proofs::Laws::has_between, message::proofs::Laws::one_between), unfolding(message::specs::Characters::two_at))]
fn two(s: &[u8], at: usize) -> Result<Character, Refusal>
    requires { has (between 194 223) s.now at ≡ true }
    ensures { character_said result ≡ two_at s.now at }
{
    let end = between(s, at + 1, 128, 191)?;
    let code = joined(u32::from(s[at]) - 192, s[at + 1]);
    Ok(Character { end, code })
}

#[tactic(auto, using(message::proofs::Laws::has_between, message::proofs::Laws::one_between), unfolding(message::specs::Characters::three_at))]
fn three(s: &[u8], at: usize) -> Result<Character, Refusal>
    requires { has (between 224 239) s.now at ≡ true }
    ensures { character_said result ≡ three_at s.now at }
{
    let lead = s[at];
    let low = if lead == 224 { 160 } else { 128 };
    let high = if lead == 237 { 159 } else { 191 };
    let i = between(s, at + 1, low, high)?;
    let second = s[at + 1];
    let last = if lead == 239 && second == 191 {
        189
    } else {
        191
    };
    let end = between(s, i, 128, last)?;
    let code = joined(joined(u32::from(lead) - 224, second), s[i]);
    Ok(Character { end, code })
}

// Reads a character of four bytes, the first of which it tests itself: it is tried where none of two or three begins.
#[tactic(auto, using(message::proofs::Laws::has_between, message::proofs::Laws::one_between), unfolding(message::specs::Characters::four_at))]
fn four(s: &[u8], at: usize) -> Result<Character, Refusal>
    ensures { character_said result ≡ four_at s.now at }
{
    let i = between(s, at, 240, 244)?;
    let lead = s[at];
    let low = if lead == 240 { 144 } else { 128 };
    let high = if lead == 244 { 143 } else { 191 };
    let j = between(s, i, low, high)?;
    let begun = joined(u32::from(lead) - 240, s[i]);
    last_two(s, j, begun)
}

// Reads the last two bytes of a character whose bytes before them make the number `begun`.
#[tactic(auto, using(message::proofs::Laws::has_between, message::proofs::Laws::one_between), unfolding(message::specs::Characters::last_two_at))]
fn last_two(s: &[u8], at: usize, begun: u32) -> Result<Character, Refusal>
    requires { begun < 1048575 }
    ensures { character_said result ≡ last_two_at begun s.now at }
{
    let k = between(s, at, 128, 191)?;
    let end = between(s, k, 128, 191)?;
    let code = joined(joined(begun, s[at]), s[k]);
    Ok(Character { end, code })
}

// Reads a character of more than one byte.
#[tactic(auto, unfolding(message::specs::Characters::long_at))]
pub fn long(s: &[u8], at: usize) -> Result<Character, Refusal>
    ensures { character_said result ≡ long_at s.now at }
{
    if between_at(s, at, 194, 223) {
        return two(s, at);
    }
    if between_at(s, at, 224, 239) {
        return three(s, at);
    }
    four(s, at)
}
