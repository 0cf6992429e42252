// Where the boundary stands whole in a piece. Places are looked at a block at a time, all of them with no exit between, so that the compiler makes a few vector
// moves of a block. Place by place goes what a block leaves: one in which two pairs of the boundary's bytes stand, and a piece with fewer places than a block.
// Boundary and piece travel as two slices: as the fields of a struct their clauses would begin `self.entry.boundary.now`, and be no plainer.
ghost use Rattle.std.specs.Prelude.{◌≡◌, suc, ◌+◌, ◌≤◌, ◌<◌, length};
ghost use Rattle.laws.specs.Bytes.{same_at};
ghost use Rattle.framing.specs.Standing.{stands_at, first_from, block_places, pair_in, may_stand};

// The places of a block.
const BLOCK: usize = 32;

// Whether the first `count` bytes of the boundary stand in the piece at place `at`. With `zip` and `all`, pieces of 40 bytes were cut a fifth slower, with `==`
// of slices 8 % slower.
pub(crate) fn part_stands(boundary: &[u8], count: usize, piece: &[u8], at: usize) -> bool
    requires { (count ≤ length boundary.now) × (at + count ≤ length piece.now) }
    ensures { result ≡ same_at count boundary.now 0 piece.now at }
{
    for i in 0..count {
        if piece[at + i] != boundary[i] {
            return false;
        }
    }
    true
}

// Whether the boundary's eight bytes from place `from` on stand in the piece at place `at`: one comparison of eight bytes to the compiler. With `==` of slices
// in place of the two comparisons below, the worst cases were cut at a quarter of the speed.
fn eight_stand(boundary: &[u8], from: usize, piece: &[u8], at: usize) -> bool
    requires { (from + 8 ≤ length boundary.now) × (at + 8 ≤ length piece.now) }
    ensures { result ≡ same_at 8 boundary.now from piece.now at }
{
    let mut same = true;
    for i in 0..8 {
        same &= piece[at + i] == boundary[from + i];
    }
    same
}

// Whether the boundary stands in the piece at place `at`. Its first eight bytes and its last eight are all that it has.
fn stands(boundary: &[u8], piece: &[u8], at: usize) -> bool
    requires { (length boundary.now ≤ 16) × (at + length boundary.now ≤ length piece.now) }
    ensures { result ≡ stands_at boundary.now piece.now at }
{
    let size = boundary.len();
    if size < 8 {
        return part_stands(boundary, size, piece, at);
    }
    let rest = size - 8;
    eight_stand(boundary, 0, piece, at) && eight_stand(boundary, rest, piece, at + rest)
}

// Whether at one of a block's places, the first of which is `at`, the boundary's first byte stands, and its byte at `place` where it then would.
// Written into each caller: a call for each block costs a third of the speed.
#[inline(always)]
fn pair_in(boundary: &[u8], place: usize, piece: &[u8], at: usize) -> bool
    requires { (place < length boundary.now) × (at + block_places + length boundary.now ≤ suc (length piece.now)) }
    ensures { result ≡ pair_in boundary.now place piece.now at }
{
    let first = boundary[0];
    let other = boundary[place];
    let mut found = false;
    for i in 0..BLOCK {
        found |= (piece[at + i] == first) & (piece[at + i + place] == other);
    }
    found
}

// Whether the boundary may stand at one of a block's places: its first byte does with the last one, and with the one in the middle.
fn may_stand(boundary: &[u8], piece: &[u8], at: usize) -> bool
    requires { (0 < length boundary.now) × (at + block_places + length boundary.now ≤ suc (length piece.now)) }
    ensures { result ≡ may_stand boundary.now piece.now at }
{
    let size = boundary.len();
    pair_in(boundary, size - 1, piece, at) && pair_in(boundary, size / 2, piece, at)
}

// The first place from `from` on at which the boundary stands, or `end`.
fn one_by_one(boundary: &[u8], piece: &[u8], from: usize, end: usize) -> usize
    requires { (length boundary.now ≤ 16) × (from ≤ end) × (end + length boundary.now ≤ suc (length piece.now)) }
    ensures { result ≡ first_from boundary.now piece.now from end }
{
    for at in from..end {
        if stands(boundary, piece, at) {
            return at;
        }
    }
    end
}

// The first place below `end` at which the boundary stands, or `end`. The last block lies over the one before it, so that no place is left for itself.
fn by_blocks(boundary: &[u8], piece: &[u8], end: usize) -> usize
    requires { (0 < length boundary.now) × (length boundary.now ≤ 16) × (block_places ≤ end) × (end + length boundary.now ≤ suc (length piece.now)) }
    ensures { result ≡ first_from boundary.now piece.now 0 end }
{
    let last_block = end - BLOCK;
    // No `step_by`: the last step is shorter than a block.
    let mut i = 0;
    while i < end {
        let at = i.min(last_block);
        i = at + BLOCK;
        if may_stand(boundary, piece, at) {
            let place = one_by_one(boundary, piece, at, i);
            if place < i {
                return place;
            }
        }
    }
    end
}

// The first place at which the boundary stands, or `end`, which is how many places it has room at.
pub(crate) fn first_place(boundary: &[u8], piece: &[u8], end: usize) -> usize
    requires { (0 < length boundary.now) × (length boundary.now ≤ 16) × (end + length boundary.now ≤ suc (length piece.now)) }
    ensures { result ≡ first_from boundary.now piece.now 0 end }
{
    if end < BLOCK {
        one_by_one(boundary, piece, 0, end)
    } else {
        by_blocks(boundary, piece, end)
    }
}
