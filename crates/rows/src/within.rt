// Functions that only crates of this repository call: each has a condition, and its callers' proofs show that they meet it.
ghost use Rattle.std.specs.Prelude.{◌≡◌, ◌+◌, ◌≤◌, length};
ghost use Rattle.rows.specs.Rows.{overlay};

// Writes src into out from index at on; all else of out stays.
pub fn put(out: &mut [u8], at: usize, src: &[u8])
    requires { at + length src.now ≤ length out.old }
    ensures { out.new ≡ overlay out.old at src.now }
{
    // Kept: no copy_from_slice, which calls memmove. include/lacrivosum.h says that the archive needs memcpy and memset alone.
    for (i, x) in src.iter().enumerate() {
        out[at + i] = *x;
    }
}
