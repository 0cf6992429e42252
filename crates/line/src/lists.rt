// The answer list that C lends: an answer's numbers go to its start. The C interface hands in a list, so that it and a place in it travel through the crate.
ghost use Rattle.std.specs.Prelude.{◌≡◌, ◌+◌, ◌≤◌, length};
ghost use Rattle.line.specs.Lists.{placed};

// The places that a list needs to have.
pub(crate) const PLACES: usize = 40;

// Writes `numbers` to the places of `list` from `at` on.
pub(crate) fn write(list: &mut [u64], at: usize, numbers: &[u64])
    requires { at + length numbers.now ≤ length list.old }
    ensures { list.new ≡ placed at numbers.now list.old }
{
    list[at..at + numbers.len()].copy_from_slice(numbers);
}
