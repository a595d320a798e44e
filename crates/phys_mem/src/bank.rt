// Bytes at an address.
ghost use Rattle.std.specs.Prelude.{◌≡◌, ◌+◌, ◌<◌, ◌-◌, ◌&&◌, if◌then◌else◌, length, option_map, IfOk, replicate};
ghost use Rattle.phys_mem.specs.Region.{part_of, is_inside, replaced};

use crate::stretch::Stretch;
use crate::window::{reach, write_over};
use pi_base::{OutOfMemory, Span};
use std::alloc::Global;
use std::marker::Model;

/// RAM that can be read and written. Bytes outside a window are zero and not stored. The window has room reserved for all bytes, so no write allocates memory.
#[derive(Drop)]
pub struct Bank {
    // The address of the first byte.
    base: u64,
    // How many bytes there are.
    len: usize,
    // The place of the window's first byte.
    start: usize,
    window: Vec<u8>,
}

impl Model for Bank {
    ghost use Rattle.std.specs.Prelude.{◌+◌, ◌≤◌, length, vec_capacity};
    ghost use Rattle.phys_mem.specs.Region.{Ram, in_zeros};

    ghost Value = { Ram };

    ghost view = { λ b. record { base = b.base; bytes = in_zeros b.len b.start b.window.items } };

    ghost invariant = { λ b. (b.start + length b.window.items ≤ b.len) × (b.len ≤ vec_capacity b.window) };
}

// Whether `n` addresses from `at` on are among `len` from `base` on.
pub(crate) fn is_inside(base: u64, len: usize, at: u64, n: usize) -> bool
    ensures { result ≡ is_inside base len at n }
{
    let len = len as u64;
    let n = n as u64;
    at >= base && at - base <= len && n <= len - (at - base)
}

// The bytes at an address, if all of them are in this stretch.
pub(crate) fn part_of(base: u64, bytes: &[u8], at: u64, n: usize) -> Option<&[u8]>
    ensures { option_map (λ part. part.now) result ≡ part_of base bytes.now at n }
{
    if !is_inside(base, bytes.len(), at, n) {
        return None;
    }
    let start = (at - base) as usize;
    Some(&bytes[start..start + n])
}

impl Bank {
    // Zeros over a span.
    pub(crate) fn new(alloc: Global, span: Span) -> Result<Bank, OutOfMemory>
        ensures base { IfOk result (λ bank. bank.base ≡ span.base) }
        ensures zeros { IfOk result (λ bank. bank.bytes ≡ replicate span.len 0) }
    {
        let len = span.len as usize;
        match Vec::with_capacity(alloc, len) {
            Ok(window) => Ok(Bank {
                base: span.base,
                len,
                start: 0,
                window,
            }),
            Err(_) => Err(OutOfMemory),
        }
    }

    // Whether both ranges are in this bank.
    pub(crate) fn has_both(&self, from: u64, to: u64, n: usize) -> bool
        ensures { result ≡ (is_inside self.now.base (length self.now.bytes) from n
            && is_inside self.now.base (length self.now.bytes) to n) }
    {
        is_inside(self.base, self.len, from, n) && is_inside(self.base, self.len, to, n)
    }

    // The bytes at an address, if all of them are in this bank.
    pub(crate) fn part(&self, at: u64, n: usize) -> Option<Stretch<'_>>
        ensures { result ≡ part_of self.now.base self.now.bytes at n }
    {
        if !is_inside(self.base, self.len, at, n) {
            return None;
        }
        let kept = self.window.as_slice();
        let all = Stretch::amid(self.start, kept, self.len - (self.start + kept.len()));
        Some(all.skip((at - self.base) as usize).first(n))
    }

    // Writes bytes at an address, if all of them are in this bank.
    pub(crate) fn put(&mut self, at: u64, bytes: &Stretch<'_>) -> bool
        ensures base { self.new.base ≡ self.old.base }
        ensures put { result ≡ is_inside self.old.base (length self.old.bytes) at (length bytes.now) }
        ensures bytes { self.new.bytes
            ≡ (if result then replaced self.old.bytes (at - self.old.base) bytes.now else self.old.bytes) }
    {
        let n = bytes.len();
        if !is_inside(self.base, self.len, at, n) {
            return false;
        }
        let place = (at - self.base) as usize;
        self.start = reach(&mut self.window, self.len, self.start, place, n);
        write_over(&mut self.window, place - self.start, bytes);
        true
    }
}
