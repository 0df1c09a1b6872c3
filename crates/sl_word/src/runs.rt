//! Bytes that are put over others.

ghost use Rattle.std.specs.Prelude.{◌≡◌, ℕ, ◌+◌, ◌≤◌, slice_index, length};
ghost use Rattle.sl_word.specs.Runs.{with_run};

/// Puts `count` bytes, from the one at `from` on, over those at a place. Most runs have 1, 2, 4 or 8,
/// and each of these is moved at once.
pub fn overwrite(out: &mut [u8], place: usize, bytes: &[u8], from: usize, count: usize)
    requires inside { place + count ≤ length out.old }
    requires there { from + count ≤ length bytes.now }
    ensures length { length out.new ≡ length out.old }
    ensures bytes { (k : ℕ) → slice_index out.new k
        ≡ with_run place from count (slice_index bytes.now) (slice_index out.old) k }
{
    match count {
        1 => copy(out, place, bytes, from, 1),
        2 => copy(out, place, bytes, from, 2),
        4 => copy(out, place, bytes, from, 4),
        8 => copy(out, place, bytes, from, 8),
        _ => copy(out, place, bytes, from, count),
    }
}

// The same, of any number of bytes.
pub(crate) fn copy(out: &mut [u8], place: usize, bytes: &[u8], from: usize, count: usize)
    requires inside { place + count ≤ length out.old }
    requires there { from + count ≤ length bytes.now }
    ensures length { length out.new ≡ length out.old }
    ensures bytes { (k : ℕ) → slice_index out.new k
        ≡ with_run place from count (slice_index bytes.now) (slice_index out.old) k }
{
    let run = &bytes[from..from + count];
    out[place..place + count].copy_from_slice(run);
}
