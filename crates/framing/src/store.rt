// The gathering store: which of the bytes taken go into it, and their copying.
ghost use Rattle.std.specs.Prelude.{◌≡◌, ◌-◌, ◌≤◌, length};
ghost use Rattle.std.proofs.Math.Seq.{paste};
ghost use Rattle.framing.specs.Cutting.{kept};

// How many of the bytes taken go into the store.
pub(crate) fn kept(limit: u32, size: usize, gathered: u32, taken: usize) -> usize
    requires { size ≤ 16 }
    ensures { result ≡ kept limit size gathered taken }
{
    let end = limit as usize + size;
    taken.min(end.saturating_sub(gathered as usize))
}

// Copies the first `count` of `bytes` into `store` from place `at` on, which may lie past its end where there are none to copy.
// No `copy_from_slice`, which becomes a call of `memmove`: the archive for C calls nothing outside it.
pub(crate) fn lay(store: &mut [u8], at: usize, bytes: &[u8], count: usize)
    requires { (count ≤ length store.old - at) × (count ≤ length bytes.now) }
    ensures { store.new ≡ paste store.old at bytes.now count }
{
    for i in 0..count {
        store[at + i] = bytes[i];
    }
}
