// The matcher, byte by byte: how much of the boundary the bytes so far end with. After a byte that does not go on with the match it
// falls back to the longest shorter match, and never starts afresh.
ghost use Rattle.std.specs.Prelude.{◌≡◌, [], ◌∷◌, ◌++◌, suc, ◌≤◌, ◌<◌, length, take};
ghost use Rattle.laws.specs.Bytes.{ends_with};
ghost use Rattle.framing.specs.Cutting.{longest_match, cut_of};

use crate::{Cut, standing};

// Whether the first `tried` bytes of the boundary end its first `matched` bytes with `byte` put behind them.
fn ends(boundary: &[u8], matched: usize, byte: u8, tried: usize) -> bool
    requires matched_in_bounds { matched < length boundary.now }
    requires tried_in_bounds { (0 < tried) × (tried ≤ suc matched) }
    ensures { result ≡ ends_with (take tried boundary.now) (take matched boundary.now ++ (byte ∷ [])) }
{
    let last = tried - 1;
    boundary[last] == byte && standing::part_stands(boundary, last, boundary, matched - last)
}

// How many bytes of the boundary are matched after `byte`, where `matched` were before it.
fn step(boundary: &[u8], matched: usize, byte: u8) -> usize
    requires { matched < length boundary.now }
    ensures { result ≡ longest_match (suc (length boundary.now)) boundary.now (take matched boundary.now ++ (byte ∷ [])) }
{
    for tried in (1..matched + 2).rev() {
        if ends(boundary, matched, byte, tried) {
            return tried;
        }
    }
    0
}

// How `piece` is cut, where `held` bytes of the boundary were matched before it.
pub(crate) fn scan(boundary: &[u8], piece: &[u8], held: usize) -> Cut
    requires { held < length boundary.now }
    ensures { result ≡ cut_of boundary.now piece.now held }
{
    let mut matched = held;
    for (i, &byte) in piece.iter().enumerate() {
        matched = step(boundary, matched, byte);
        if matched == boundary.len() {
            return Cut {
                taken: i + 1,
                matched: None,
            };
        }
    }
    Cut {
        taken: piece.len(),
        matched: Some(matched),
    }
}
