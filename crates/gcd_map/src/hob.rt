// What a HOB says about the memory space.
ghost use Rattle.std.specs.Prelude.{◌≡◌, ◌≢◌, IfSome};
ghost use Rattle.gcd_map.specs.declared.state.GcdKind.TheVariants.{NonExistent};
ghost use Rattle.gcd_map.specs.HobMap.{used_kind, resource_at, allocation_at, cpu_at};

use crate::state::GcdKind;
use hob_codec::{Hob, read_at};

/// `EFI_RESOURCE_SYSTEM_MEMORY`.
pub const SYSTEM_MEMORY: u32 = 0;

/// `EFI_RESOURCE_MEMORY_MAPPED_IO`.
pub const MEMORY_MAPPED_IO: u32 = 1;

/// `EFI_RESOURCE_FIRMWARE_DEVICE`.
pub const FIRMWARE_DEVICE: u32 = 3;

/// `EFI_RESOURCE_MEMORY_MAPPED_IO_PORT`.
pub const MEMORY_MAPPED_IO_PORT: u32 = 4;

/// `EFI_RESOURCE_MEMORY_RESERVED`.
pub const MEMORY_RESERVED: u32 = 5;

/// A stretch of memory in a HOB, and the HOB's offset.
#[derive(Clone, Copy)]
pub(crate) struct HobStretch {
    pub at: usize,
    pub kind: GcdKind,
    pub base: u64,
    pub len: u64,
}

/// The bits of an address in a CPU HOB, and the HOB's offset.
#[derive(Clone, Copy)]
pub(crate) struct CpuSize {
    pub at: usize,
    pub bits: u8,
}

// The kind of a resource type.
fn used_kind(kind: u32) -> Option<GcdKind>
    ensures value { result ≡ used_kind kind }
    ensures used { IfSome result (λ used. used ≢ NonExistent) }
{
    if kind == SYSTEM_MEMORY {
        Some(GcdKind::System)
    } else if kind == MEMORY_MAPPED_IO || kind == FIRMWARE_DEVICE {
        Some(GcdKind::Mmio)
    } else if kind == MEMORY_MAPPED_IO_PORT || kind == MEMORY_RESERVED {
        Some(GcdKind::Reserved)
    } else {
        None
    }
}

// The resource at a place.
pub(crate) fn resource_at(bytes: &[u8], at: usize) -> Option<HobStretch>
    ensures value { result ≡ resource_at bytes.now at }
    ensures used { IfSome result (λ s. s.kind ≢ NonExistent) }
    ensures here { IfSome result (λ s. s.at ≡ at) }
{
    match read_at(bytes, at) {
        Ok(
            (
                Hob::Resource {
                    kind,
                    start,
                    length,
                    ..
                },
                _,
            ),
        ) => {
            let used = used_kind(kind)?;
            Some(HobStretch {
                at,
                kind: used,
                base: start,
                len: length,
            })
        }
        _ => None,
    }
}

// The allocation at a place.
pub(crate) fn allocation_at(bytes: &[u8], at: usize) -> Option<HobStretch>
    ensures value { result ≡ allocation_at bytes.now at }
    ensures here { IfSome result (λ s. s.at ≡ at) }
{
    match read_at(bytes, at) {
        Ok((Hob::Allocation { base, length, .. }, _)) => Some(HobStretch {
            at,
            kind: GcdKind::System,
            base,
            len: length,
        }),
        _ => None,
    }
}

// The CPU HOB at a place.
pub(crate) fn cpu_at(bytes: &[u8], at: usize) -> Option<CpuSize>
    ensures value { result ≡ cpu_at bytes.now at }
    ensures here { IfSome result (λ cpu. cpu.at ≡ at) }
{
    match read_at(bytes, at) {
        Ok((Hob::Cpu { memory, .. }, _)) => Some(CpuSize { at, bits: memory }),
        _ => None,
    }
}
