// Where the boundary ends, at the start of the input.
ghost use Rattle.std.specs.Prelude.{◌≡◌, ◌<◌, length};
ghost use Rattle.items.specs.Listing.{boundary_end, refused_end};

// The longest boundary and its LF.
pub(crate) const MOST_START: usize = 17;

// The place of the first LF among the first 17 bytes, and 17 where there is none.
pub(crate) fn boundary_end(input: &[u8]) -> usize
    ensures is { result ≡ boundary_end input.now }
    ensures within { result < 17 → result < length input.now }
{
    input
        .iter()
        .take(MOST_START)
        .position(|byte| *byte == b'\n')
        .unwrap_or(MOST_START)
}

// Whether the boundary, or the input that has none, is refused.
pub(crate) fn refused_end(end: usize) -> bool
    ensures { result ≡ refused_end end }
{
    end < 1 || 16 < end
}
