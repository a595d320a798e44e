// Bytes of which the zeros at both ends are only counted.
ghost use Rattle.std.specs.Prelude.{◌≡◌, ◌≤◌, ◌+◌, IfSome, length, take, drop, replicate};
ghost use Rattle.phys_mem.specs.Region.{replaced};

use std::marker::Model;

/// Bytes in order of address. The zeros at both ends are only counted, so they need not be stored. A clause sees all bytes.
#[derive(Drop)]
pub struct Stretch<'a> {
    // How many zeros are in front.
    front: usize,
    kept: &'a [u8],
    // How many zeros are after.
    behind: usize,
}

impl<'a> Model for Stretch<'a> {
    ghost use Rattle.std.specs.Prelude.{ℕ, List, ◌+◌, ◌<◌, ◌^◌, length};
    ghost use Rattle.phys_mem.specs.Region.{amid};

    ghost Value = { List ℕ };

    ghost view = { λ p. amid p.front p.kept.now p.behind };

    ghost invariant = { λ p. p.front + length p.kept.now + p.behind < 2 ^ 64 };
}

// Fills a buffer with zeros, and writes bytes over them.
fn write_amid_zeros(into: &mut [u8], place: usize, bytes: &[u8])
    requires { place + length bytes.now ≤ length into.old }
    ensures { into.new ≡ replaced (replicate (length into.old) 0) place bytes.now }
{
    into.fill(0);
    into[place..place + bytes.len()].copy_from_slice(bytes);
}

impl<'a> Stretch<'a> {
    ghost use Rattle.std.specs.Prelude.{◌<◌, ◌^◌};
    ghost use Rattle.phys_mem.specs.Region.{amid};

    /// A stretch of these bytes.
    pub fn of(bytes: &'a [u8]) -> Stretch<'a>
        ensures { result ≡ bytes.now }
    {
        Stretch {
            front: 0,
            kept: bytes,
            behind: 0,
        }
    }

    // These bytes between two runs of zeros.
    pub(crate) fn amid(front: usize, kept: &'a [u8], behind: usize) -> Stretch<'a>
        requires { front + length kept.now + behind < 2 ^ 64 }
        ensures { result ≡ amid front kept.now behind }
    {
        Stretch {
            front,
            kept,
            behind,
        }
    }

    /// How many bytes there are.
    pub fn len(&self) -> usize
        ensures { result ≡ length self.now }
    {
        self.front + self.kept.len() + self.behind
    }

    /// The bytes from index `n` on.
    pub fn skip(&self, n: usize) -> Stretch<'a>
        requires { n ≤ length self.now }
        ensures { result ≡ drop n self.now }
    {
        let front = self.front.saturating_sub(n);
        let inner = n.saturating_sub(self.front);
        let from = inner.min(self.kept.len());
        Stretch {
            front,
            kept: &self.kept[from..],
            behind: self.behind - (inner - from),
        }
    }

    /// The first `n` bytes.
    pub fn first(&self, n: usize) -> Stretch<'a>
        requires { n ≤ length self.now }
        ensures { result ≡ take n self.now }
    {
        let front = self.front.min(n);
        let rest = n - front;
        let to = rest.min(self.kept.len());
        Stretch {
            front,
            kept: &self.kept[..to],
            behind: rest - to,
        }
    }

    /// Copies the bytes into a buffer of the same length.
    pub fn copy_to(&self, into: &mut [u8])
        requires { length into.old ≡ length self.now }
        ensures { into.new ≡ self.now }
    {
        write_amid_zeros(into, self.front, self.kept);
    }

    /// The `n` bytes at an index, if all of them are stored.
    pub fn kept(&self, at: usize, n: usize) -> Option<&'a [u8]>
        requires { at + n ≤ length self.now }
        ensures { IfSome result (λ bytes. bytes.now ≡ take n (drop at self.now)) }
    {
        if at < self.front {
            return None;
        }
        let from = at - self.front;
        if from + n > self.kept.len() {
            return None;
        }
        Some(&self.kept[from..from + n])
    }

    /// Fills a buffer with the bytes from an index on.
    pub fn get(&self, at: usize, into: &mut [u8])
        requires { at + length into.old ≤ length self.now }
        ensures { into.new ≡ take (length into.old) (drop at self.now) }
    {
        self.skip(at).first(into.len()).copy_to(into);
    }
}
