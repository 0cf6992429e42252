// The bytes of a word.
ghost use Rattle.std.specs.Prelude.{◌≡◌};
ghost use Rattle.message.specs.Reading.{is_whole, said, word_at};

use crate::bytes;
use message::Refusal;

// Reads the bytes of a word, one by one.
#[tactic(auto, using(message::proofs::Laws::word_more, message::proofs::Laws::word_none))]
pub fn word(s: &[u8], at: usize, w: &[u8]) -> Result<usize, Refusal>
    ensures { said result ≡ word_at w.now s.now at }
{
    let mut end = at;
    for &b in w {
        end = bytes::byte(s, end, b)?;
    }
    Ok(end)
}

// The whole word stands at the place.
pub fn spells(s: &[u8], at: usize, w: &[u8]) -> bool
    ensures { result ≡ is_whole (word_at w.now s.now at) }
{
    word(s, at, w).is_ok()
}
