//! Parts of a run of bytes.
ghost use Rattle.std.specs.Prelude.{◌≡◌, ◌≤◌, ◌+◌, length, take, drop};

/// `len` bytes from the place `at` on.
pub(crate) fn part_of(bytes: &[u8], at: usize, len: usize) -> &[u8]
    requires { at + len ≤ length bytes.now }
    ensures here { result.now ≡ take len (drop at bytes.now) }
    ensures long { length result.now ≡ len }
{
    &bytes[at..at + len]
}
