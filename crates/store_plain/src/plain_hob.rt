// A HOB whose contracts see it as the definitions do.
ghost use Rattle.std.specs.Prelude.{◌≡◌, ◌≤◌, ◌<◌, ◌+◌, ◌++◌, ◌^◌, length, take, drop, is_some, true};
ghost use Rattle.store_model.specs.{StoreState.hob_len, StoreState.body_len, Service.Pool.written, Service.Queue.zeroed};
ghost use Rattle.store_model.specs.{declared.state.Body.TheVariants.Node, Service.Descriptor.descriptor_of};
ghost use Rattle.store_plain.specs.PlainBody.{body_of, role_body, IsBytes, forgotten, renumbered};

use crate::length::{ALLOCATION_LEN, HEADER_LEN, descriptor_len};
use crate::word_bytes::{descriptor_words, long_bytes, short_bytes};
use std::marker::Model;
use store_model::{AllocationBody, DescriptorBody, NODE_LEN};

/// A body. The bytes of a node that left its list, and of a descriptor that was dropped, are in arrays, since the calls that leave them allocate nothing.
#[derive(Drop)]
pub(crate) enum PlainBody {
    Bytes(Vec<u8>),
    /// Of a node.
    NodeBytes([u8; 32]),
    /// Of a descriptor whose GUID is in a volume.
    ShortBytes([u8; 24]),
    /// Of a descriptor whose GUID is after it.
    LongBytes([u8; 40]),
    Descriptor(DescriptorBody),
    Node,
    Allocation(AllocationBody),
}

/// What a HOB has after its header.
pub(crate) enum Role<'a> {
    Bytes(&'a [u8]),
    Descriptor(DescriptorBody),
    Node,
    Allocation(AllocationBody),
}

#[derive(Drop)]
pub(crate) struct PlainHob {
    kind: u16,
    body: PlainBody,
}

impl Model for PlainHob {
    ghost use Rattle.store_model.specs.declared.state.HobEntry.{HobEntry};
    ghost use Rattle.store_model.specs.StoreState.{body_len};
    ghost use Rattle.std.specs.Prelude.{◌≤◌};
    ghost use Rattle.store_plain.specs.PlainBody.{body_of};

    ghost Value = { HobEntry };

    ghost view = { λ h. record { kind = h.kind; body = body_of h.body } };

    ghost invariant = { λ h. body_len (body_of h.body) ≤ 65520 };
}

impl PlainHob {
    // A HOB of this type and body.
    pub(crate) fn new(kind: u16, body: PlainBody) -> PlainHob
        requires { body_len (body_of body) ≤ 65520 }
        ensures { result ≡ record { kind = kind; body = body_of body } }
    {
        PlainHob { kind, body }
    }

    pub(crate) fn kind(&self) -> u16
        ensures { result ≡ self.now.kind }
    {
        self.kind
    }

    // The length, with the header.
    pub(crate) fn len(&self) -> u16
        ensures len { result ≡ hob_len self.now }
        ensures most { result ≤ 65528 }
    {
        HEADER_LEN as u16 + body_len(&self.body)
    }

    // What it has after its header.
    pub(crate) fn role(&self) -> Role<'_>
        ensures { role_body result ≡ self.now.body }
    {
        match &self.body {
            PlainBody::Bytes(bytes) => Role::Bytes(bytes.as_slice()),
            PlainBody::NodeBytes(bytes) => Role::Bytes(bytes.as_slice()),
            PlainBody::ShortBytes(bytes) => Role::Bytes(bytes.as_slice()),
            PlainBody::LongBytes(bytes) => Role::Bytes(bytes.as_slice()),
            PlainBody::Descriptor(d) => Role::Descriptor(*d),
            PlainBody::Node => Role::Node,
            PlainBody::Allocation(allocation) => Role::Allocation(*allocation),
        }
    }

    // The descriptor that is here.
    pub(crate) fn descriptor(&self) -> Option<DescriptorBody>
        ensures { result ≡ descriptor_of self.now.body }
    {
        match &self.body {
            PlainBody::Descriptor(d) => Some(*d),
            _ => None,
        }
    }

    // A node becomes zeros.
    pub(crate) fn zero(&mut self)
        requires { self.old.body ≡ Node }
        ensures zeroed { self.new ≡ record self.old { body = zeroed self.old.body } }
        ensures len { hob_len self.new ≡ hob_len self.old }
    {
        self.body = PlainBody::NodeBytes([0; 32]);
    }

    // A descriptor becomes the bytes that it has at a place of a heap.
    pub(crate) fn forget(&mut self, base: u64, place: u64)
        requires fits { base + place + 24 < 2 ^ 64 }
        requires descriptor { is_some (descriptor_of self.old.body) ≡ true }
        ensures bytes { self.new ≡ record self.old { body = forgotten base place self.old.body } }
        ensures len { hob_len self.new ≡ hob_len self.old }
    {
        let Some(d) = self.descriptor() else {
            unreachable!();
        };
        let words = descriptor_words(base, place, &d);
        self.body = match d.stands {
            None => PlainBody::LongBytes(long_bytes(&words, &d.guid.0)),
            Some(_) => PlainBody::ShortBytes(short_bytes(&words)),
        };
    }

    // A descriptor has another number.
    pub(crate) fn renumber(&mut self, number: u64)
        ensures number { self.new ≡ record self.old { body = renumbered number self.old.body } }
        ensures len { hob_len self.new ≡ hob_len self.old }
    {
        if let PlainBody::Descriptor(d) = &mut self.body {
            d.number = number;
        }
    }

    // Writes bytes over a part of its bytes.
    pub(crate) fn write(&mut self, at: usize, bytes: &[u8])
        requires bytes { IsBytes self.old.body }
        requires room { at + length bytes.now ≤ body_len self.old.body }
        ensures written { self.new ≡ record self.old { body = written at bytes.now self.old.body } }
        ensures len { hob_len self.new ≡ hob_len self.old }
    {
        match &mut self.body {
            PlainBody::Bytes(old) => write_over(old.as_mut_slice(), at, bytes),
            PlainBody::NodeBytes(old) => write_over(old.as_mut_slice(), at, bytes),
            PlainBody::ShortBytes(old) => write_over(old.as_mut_slice(), at, bytes),
            PlainBody::LongBytes(old) => write_over(old.as_mut_slice(), at, bytes),
            _ => {}
        }
    }
}

// The length of a body.
fn body_len(body: &PlainBody) -> u16
    requires { body_len (body_of body.now) ≤ 65520 }
    ensures { result ≡ body_len (body_of body.now) }
{
    match body {
        PlainBody::Bytes(bytes) => bytes.len() as u16,
        PlainBody::NodeBytes(bytes) => bytes.as_slice().len() as u16,
        PlainBody::ShortBytes(bytes) => bytes.as_slice().len() as u16,
        PlainBody::LongBytes(bytes) => bytes.as_slice().len() as u16,
        PlainBody::Descriptor(d) => descriptor_len(d.stands) as u16,
        PlainBody::Node => NODE_LEN as u16,
        PlainBody::Allocation(_) => ALLOCATION_LEN as u16,
    }
}

// Writes bytes over a part of others.
fn write_over(out: &mut [u8], at: usize, bytes: &[u8])
    requires { at + length bytes.now ≤ length out.old }
    ensures { out.new ≡ take at out.old ++ bytes.now ++ drop (at + length bytes.now) out.old }
{
    out[at..at + bytes.len()].copy_from_slice(bytes);
}
