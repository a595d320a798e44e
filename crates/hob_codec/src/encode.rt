// A HOB as bytes.
ghost use Rattle.std.specs.Prelude.{◌≡◌, ◌≤◌, ◌<◌, ◌+◌, ◌++◌, ◌^◌, length, take, Some};
ghost use Rattle.hob_codec.specs.HobBytes.{hob_bytes, hob_len, header_fields, fields_of, joined, length_of, padded_len};
ghost use Rattle.hob_codec.specs.HobValue.{kind_of, HandoffHob, AllocationHob, ResourceHob, NamedHob, VolumeHob, CpuHob, PoolHob, Volume2Hob};
ghost use Rattle.hob_codec.specs.HobView.{hob_value};

use crate::body::HANDOFF_VERSION;
use crate::field::{put_field, put_fields, put_padded};
use crate::hob::{Handoff, Hob};
use crate::kind::{ALLOCATION, CPU, HANDOFF, NAMED, POOL, RESOURCE, VOLUME, VOLUME2};
use crate::length::{HEADER_LEN, NAMED_LEN};
use pi_base::Guid;

const RESERVED: [u8; 4] = [0; 4];

const CPU_RESERVED: [u8; 6] = [0; 6];

// The type of a HOB.
fn kind_of(hob: &Hob<'_>) -> u16
    ensures { result ≡ kind_of (hob_value hob.now) }
{
    match hob {
        Hob::Handoff(_) => HANDOFF,
        Hob::Allocation { .. } => ALLOCATION,
        Hob::Resource { .. } => RESOURCE,
        Hob::Named { .. } => NAMED,
        Hob::Volume { .. } => VOLUME,
        Hob::Cpu { .. } => CPU,
        Hob::Pool { .. } => POOL,
        Hob::Volume2 { .. } => VOLUME2,
        Hob::Other { kind, .. } => *kind,
    }
}

// Writes the header.
fn put_header(out: &mut [u8], kind: u16)
    requires least { 8 ≤ length out.old }
    requires most { length out.old < 2 ^ 16 }
    ensures { take 8 out.new ≡ joined (header_fields kind (length out.old)) }
{
    let len = (out.len() as u16).to_le_bytes();
    let kind = kind.to_le_bytes();
    put_fields(
        out,
        0,
        &[kind.as_slice(), len.as_slice(), RESERVED.as_slice()],
    );
}

// Writes a hand-off after the header.
fn put_handoff(out: &mut [u8], handoff: &Handoff)
    requires { length out.old ≡ 56 }
    ensures { out.new ≡ take 8 out.old ++ joined (fields_of (HandoffHob handoff.now)) }
{
    let version = HANDOFF_VERSION.to_le_bytes();
    let boot_mode = handoff.boot_mode.to_le_bytes();
    let top = handoff.top.to_le_bytes();
    let bottom = handoff.bottom.to_le_bytes();
    let free_top = handoff.free_top.to_le_bytes();
    let free_bottom = handoff.free_bottom.to_le_bytes();
    let end = handoff.end.to_le_bytes();
    put_fields(
        out,
        HEADER_LEN,
        &[
            version.as_slice(),
            boot_mode.as_slice(),
            top.as_slice(),
            bottom.as_slice(),
            free_top.as_slice(),
            free_bottom.as_slice(),
            end.as_slice(),
        ],
    );
}

// Writes a memory allocation after the header.
fn put_allocation(out: &mut [u8], name: &Guid, base: u64, len: u64, memory_type: u32)
    requires { length out.old ≡ 48 }
    ensures { out.new ≡ take 8 out.old ++ joined (fields_of (AllocationHob name.now.0 base len memory_type)) }
{
    let base = base.to_le_bytes();
    let len = len.to_le_bytes();
    let memory_type = memory_type.to_le_bytes();
    put_fields(
        out,
        HEADER_LEN,
        &[
            name.0.as_slice(),
            base.as_slice(),
            len.as_slice(),
            memory_type.as_slice(),
            RESERVED.as_slice(),
        ],
    );
}

// Writes a resource after the header.
fn put_resource(out: &mut [u8], owner: &Guid, kind: u32, attributes: u32, start: u64, len: u64)
    requires { length out.old ≡ 48 }
    ensures { out.new ≡ take 8 out.old ++ joined (fields_of (ResourceHob owner.now.0 kind attributes start len)) }
{
    let kind = kind.to_le_bytes();
    let attributes = attributes.to_le_bytes();
    let start = start.to_le_bytes();
    let len = len.to_le_bytes();
    put_fields(
        out,
        HEADER_LEN,
        &[
            owner.0.as_slice(),
            kind.as_slice(),
            attributes.as_slice(),
            start.as_slice(),
            len.as_slice(),
        ],
    );
}

// Writes a volume after the header.
fn put_volume(out: &mut [u8], base: u64, len: u64)
    requires { length out.old ≡ 24 }
    ensures { out.new ≡ take 8 out.old ++ joined (fields_of (VolumeHob base len)) }
{
    let base = base.to_le_bytes();
    let len = len.to_le_bytes();
    put_fields(out, HEADER_LEN, &[base.as_slice(), len.as_slice()]);
}

// Writes a volume of a file after the header.
fn put_volume2(out: &mut [u8], base: u64, len: u64, volume: &Guid, file: &Guid)
    requires { length out.old ≡ 56 }
    ensures { out.new ≡ take 8 out.old ++ joined (fields_of (Volume2Hob base len volume.now.0 file.now.0)) }
{
    let base = base.to_le_bytes();
    let len = len.to_le_bytes();
    put_fields(
        out,
        HEADER_LEN,
        &[
            base.as_slice(),
            len.as_slice(),
            volume.0.as_slice(),
            file.0.as_slice(),
        ],
    );
}

// Writes the sizes of a processor's spaces after the header.
fn put_cpu(out: &mut [u8], memory: u8, io: u8)
    requires { length out.old ≡ 16 }
    ensures { out.new ≡ take 8 out.old ++ joined (fields_of (CpuHob memory io)) }
{
    let sizes = [memory, io];
    put_fields(
        out,
        HEADER_LEN,
        &[sizes.as_slice(), CPU_RESERVED.as_slice()],
    );
}

// Writes a name and data after the header.
fn put_named(out: &mut [u8], name: &Guid, body: &[u8])
    requires len { length out.old ≡ 24 + padded_len (length body.now) }
    requires most { length out.old ≤ 65528 }
    ensures { out.new ≡ take 8 out.old ++ joined (fields_of (NamedHob name.now.0 body.now)) }
{
    put_field(out, HEADER_LEN, name.0.as_slice());
    put_padded(out, NAMED_LEN, body);
}

// Writes data after the header.
fn put_data(out: &mut [u8], body: &[u8])
    requires len { length out.old ≡ 8 + padded_len (length body.now) }
    requires most { length out.old ≤ 65528 }
    ensures { out.new ≡ take 8 out.old ++ joined (fields_of (PoolHob body.now)) }
{
    put_padded(out, HEADER_LEN, body);
}

// Writes the fields after the header.
fn put_body(out: &mut [u8], hob: &Hob<'_>)
    requires len { length out.old ≡ length_of (hob_value hob.now) }
    requires most { length out.old ≤ 65528 }
    ensures { out.new ≡ take 8 out.old ++ joined (fields_of (hob_value hob.now)) }
{
    match hob {
        Hob::Handoff(handoff) => put_handoff(out, handoff),
        Hob::Allocation {
            name,
            base,
            length,
            memory_type,
        } => put_allocation(out, name, *base, *length, *memory_type),
        Hob::Resource {
            owner,
            kind,
            attributes,
            start,
            length,
        } => put_resource(out, owner, *kind, *attributes, *start, *length),
        Hob::Named { name, body } => put_named(out, name, body),
        Hob::Volume { base, length } => put_volume(out, *base, *length),
        Hob::Cpu { memory, io } => put_cpu(out, *memory, *io),
        Hob::Volume2 {
            base,
            length,
            volume,
            file,
        } => put_volume2(out, *base, *length, volume, file),
        Hob::Pool { body } | Hob::Other { body, .. } => put_data(out, body),
    }
}

/// Writes the HOB over `out`, which must have the HOB's length.
pub fn encode_into(hob: &Hob<'_>, out: &mut [u8])
    requires { hob_len (hob_value hob.now) ≡ Some (length out.old) }
    ensures { out.new ≡ hob_bytes (hob_value hob.now) }
{
    put_header(out, kind_of(hob));
    put_body(out, hob);
}
