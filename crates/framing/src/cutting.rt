// How a piece is cut: by the first place at which the boundary stands whole in it. Byte by byte go only pieces shorter than the boundary, and the first bytes
// behind a match that is held from before the piece.
ghost use Rattle.std.specs.Prelude.{◌≡◌, suc, ◌≤◌, ◌<◌, length};
ghost use Rattle.framing.specs.Cutting.{longest_match, cut_of};

use crate::{Cut, matching, standing};

// How much of the boundary, but not all, the piece ends with.
fn tail(boundary: &[u8], piece: &[u8]) -> usize
    requires { (0 < length boundary.now) × (length boundary.now ≤ suc (length piece.now)) }
    ensures { result ≡ longest_match (length boundary.now) boundary.now piece.now }
{
    for tried in (1..boundary.len()).rev() {
        if standing::part_stands(boundary, tried, piece, piece.len() - tried) {
            return tried;
        }
    }
    0
}

// How a piece with room for the boundary is cut, where nothing that was held from before it comes to be the boundary.
fn cut_free(boundary: &[u8], piece: &[u8]) -> Cut
    requires { (0 < length boundary.now) × (length boundary.now ≤ 16) × (length boundary.now ≤ length piece.now) }
    ensures { result ≡ cut_of boundary.now piece.now 0 }
{
    let size = boundary.len();
    let end = piece.len() - size + 1;
    let place = standing::first_place(boundary, piece, end);
    if place < end {
        Cut {
            taken: place + size,
            matched: None,
        }
    } else {
        Cut {
            taken: piece.len(),
            matched: Some(tail(boundary, piece)),
        }
    }
}

// How `piece` is cut, where `held` bytes of the boundary were matched before it.
pub(crate) fn cut_piece(boundary: &[u8], piece: &[u8], held: usize) -> Cut
    requires { (held < length boundary.now) × (length boundary.now ≤ 16) }
    ensures { result ≡ cut_of boundary.now piece.now held }
{
    if piece.len() < boundary.len() {
        return matching::scan(boundary, piece, held);
    }
    if held != 0 {
        let seam = boundary.len() - 1;
        let cut = matching::scan(boundary, &piece[..seam], held);
        if cut.matched.is_none() {
            return cut;
        }
    }
    cut_free(boundary, piece)
}
