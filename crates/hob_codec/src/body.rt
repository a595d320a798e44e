// The HOB that a type and a body are.
ghost use Rattle.std.specs.Prelude.{◌≡◌, length, option_map};
ghost use Rattle.hob_codec.specs.{HobValue.HandoffHob, HobView.hob_value};
ghost use Rattle.hob_codec.specs.HobReading.{hob_of, handoff_of, allocation_of, resource_of, volume2_of};

use crate::hob::{Handoff, Hob};
use crate::kind::{ALLOCATION, CPU, END, HANDOFF, NAMED, POOL, RESOURCE, VOLUME, VOLUME2};
use pi_base::{Guid, u32_at, u64_at};

/// The Version of a hand-off HOB. PI 1.8, volume 3, `EFI_HOB_HANDOFF_TABLE_VERSION`.
pub const HANDOFF_VERSION: u32 = 9;

// The hand-off of a body of 48 bytes.
fn handoff_of(body: &[u8]) -> Handoff
    requires { length body.now ≡ 48 }
    ensures { HandoffHob result ≡ handoff_of body.now }
{
    Handoff {
        boot_mode: u32_at(body, 4),
        top: u64_at(body, 8),
        bottom: u64_at(body, 16),
        free_top: u64_at(body, 24),
        free_bottom: u64_at(body, 32),
        end: u64_at(body, 40),
    }
}

// The memory allocation of a body of 40 bytes.
fn allocation_of(body: &[u8]) -> Hob<'_>
    requires { length body.now ≡ 40 }
    ensures { hob_value result ≡ allocation_of body.now }
{
    Hob::Allocation {
        name: Guid::at(body, 0),
        base: u64_at(body, 16),
        length: u64_at(body, 24),
        memory_type: u32_at(body, 32),
    }
}

// The resource of a body of 40 bytes.
fn resource_of(body: &[u8]) -> Hob<'_>
    requires { length body.now ≡ 40 }
    ensures { hob_value result ≡ resource_of body.now }
{
    Hob::Resource {
        owner: Guid::at(body, 0),
        kind: u32_at(body, 16),
        attributes: u32_at(body, 20),
        start: u64_at(body, 24),
        length: u64_at(body, 32),
    }
}

// The volume of a body of 48 bytes.
fn volume2_of(body: &[u8]) -> Hob<'_>
    requires { length body.now ≡ 48 }
    ensures { hob_value result ≡ volume2_of body.now }
{
    Hob::Volume2 {
        base: u64_at(body, 0),
        length: u64_at(body, 8),
        volume: Guid::at(body, 16),
        file: Guid::at(body, 32),
    }
}

/// The HOB with this type and this body. None if the type may not have the body.
pub fn hob_of(kind: u16, body: &[u8]) -> Option<Hob<'_>>
    ensures { option_map hob_value result ≡ hob_of kind body.now }
{
    match (kind, body.len()) {
        (HANDOFF, 48) if u32_at(body, 0) == HANDOFF_VERSION => {
            Some(Hob::Handoff(handoff_of(body)))
        }
        (ALLOCATION, 40) => Some(allocation_of(body)),
        (RESOURCE, 40) => Some(resource_of(body)),
        (NAMED, 16..) => Some(Hob::Named {
            name: Guid::at(body, 0),
            body: &body[16..],
        }),
        (VOLUME, 16) => Some(Hob::Volume {
            base: u64_at(body, 0),
            length: u64_at(body, 8),
        }),
        (CPU, 8) => Some(Hob::Cpu {
            memory: body[0],
            io: body[1],
        }),
        (POOL, _) => Some(Hob::Pool { body }),
        (VOLUME2, 48) => Some(volume2_of(body)),
        (END, 0) => Some(Hob::Other { kind, body }),
        (HANDOFF | ALLOCATION | RESOURCE | NAMED | VOLUME | CPU | VOLUME2 | END, _) => None,
        _ => Some(Hob::Other { kind, body }),
    }
}
