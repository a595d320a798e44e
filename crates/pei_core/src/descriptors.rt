// The descriptors in registers.
ghost use Rattle.std.specs.Prelude.{◌≡◌, ◌≤◌, IfSome, length, option_map};
ghost use Rattle.boot_model.specs.Registers.{both};
ghost use Rattle.boot_model.specs.Registers as R;

use arrayvec::ArrayVec;
use boot_model::{REGISTERS, Register};
use phase_parts::descriptor_in;
use store_model::Desc;

/// How many descriptors a call takes at most.
pub const MOST_DESCRIPTORS: usize = 8;

/// The descriptors in some registers, if each holds one.
#[tactic(auto, using(crate::proofs::Collected::one_more))]
pub fn descriptors_in(
    registers: &[Register; REGISTERS],
    list: &[u8],
) -> Option<ArrayVec<Desc, MOST_DESCRIPTORS>>
    requires few { length list.now ≤ 8 }
    ensures found { option_map (λ found. found.items) result ≡ R.descriptors_in registers.now list.now }
    ensures count { IfSome result (λ found. length found.items ≡ length list.now) }
{
    let mut found = ArrayVec::new();
    'registers: for r in list {
        match descriptor_in(registers, *r) {
            Some(descriptor) => found.push(descriptor),
            None => return None,
        }
    }
    Some(found)
}

/// The descriptors in two registers, if both hold one.
pub fn two_descriptors(registers: &[Register; REGISTERS], old: u8, new: u8) -> Option<(Desc, Desc)>
    ensures { result ≡ both (R.descriptor_in registers.now old) (R.descriptor_in registers.now new) }
{
    match (descriptor_in(registers, old), descriptor_in(registers, new)) {
        (Some(one), Some(other)) => Some((one, other)),
        _ => None,
    }
}
