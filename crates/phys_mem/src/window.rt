// The bytes of a bank that are kept: a window in zeros, which grows within the capacity that it has.
ghost use Rattle.std.specs.Prelude.{◌≡◌, ◌≤◌, ◌+◌, ◌++◌, length, replicate, vec_capacity};
ghost use Rattle.phys_mem.specs.Region.{in_zeros, replaced};

use crate::stretch::Stretch;

// More zeros before the window.
fn grow_down(window: &mut Vec<u8>, by: usize)
    requires room { length window.old.items + by ≤ vec_capacity window.old }
    ensures items { window.new.items ≡ replicate by 0 ++ window.old.items }
    ensures capacity { vec_capacity window.old ≤ vec_capacity window.new }
{
    if by == 0 {
        return;
    }
    match window.resize(window.len() + by, 0) {
        Ok(()) => window.rotate_right(by),
        Err(_) => unreachable!(),
    }
}

// More zeros after it.
fn grow_up(window: &mut Vec<u8>, by: usize)
    requires room { length window.old.items + by ≤ vec_capacity window.old }
    ensures items { window.new.items ≡ window.old.items ++ replicate by 0 }
    ensures capacity { vec_capacity window.old ≤ vec_capacity window.new }
{
    if by == 0 {
        return;
    }
    match window.resize(window.len() + by, 0) {
        Ok(()) => {}
        Err(_) => unreachable!(),
    }
}

// Where the window starts: an empty one may start at any place.
fn start_at(window: &[u8], len: usize, start: usize, place: usize) -> usize
    requires fits { start + length window.now ≤ len }
    requires place { place ≤ len }
    ensures fits { result + length window.now ≤ len }
    ensures same { in_zeros len result window.now ≡ in_zeros len start window.now }
{
    if window.is_empty() { place } else { start }
}

// Extends the window to the `n` bytes at a place, and returns where it then starts. The bytes of the bank are unchanged.
pub(crate) fn reach(window: &mut Vec<u8>, len: usize, start: usize, place: usize, n: usize) -> usize
    requires fits { start + length window.old.items ≤ len }
    requires room { len ≤ vec_capacity window.old }
    requires place { place + n ≤ len }
    ensures fits { result + length window.new.items ≤ len }
    ensures room { len ≤ vec_capacity window.new }
    ensures start { result ≤ place }
    ensures end { place + n ≤ result + length window.new.items }
    ensures same { in_zeros len result window.new.items ≡ in_zeros len start window.old.items }
{
    let from = start_at(window.as_slice(), len, start, place);
    grow_down(window, from.saturating_sub(place));
    let first = from.min(place);
    let end = first + window.len();
    grow_up(window, (place + n).saturating_sub(end));
    first
}

// Writes bytes over those at a place of the window.
pub(crate) fn write_over(window: &mut Vec<u8>, from: usize, bytes: &Stretch<'_>)
    requires { from + length bytes.now ≤ length window.old.items }
    ensures items { window.new.items ≡ replaced window.old.items from bytes.now }
    ensures capacity { vec_capacity window.new ≡ vec_capacity window.old }
{
    bytes.copy_to(&mut window.as_mut_slice()[from..from + bytes.len()]);
}
