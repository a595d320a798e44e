// The opcodes of dependency expressions, read from bytes.
ghost use Rattle.std.specs.Prelude.{◌≡◌, option_map};
ghost use Rattle.depex_code.specs.Reading.{guid_front, instruction_at};

use crate::opcode::Opcode;
use crate::opcode_byte::{AFTER, AND, BEFORE, END, FALSE, NOT, OR, PUSH, SOR, TRUE};
use pi_base::{GUID_LEN, Guid};

/// An opcode of a dependency expression (PI 1.8, volume 1, "Dependency Expression Instruction Set"; volume 2 has `EFI_DEP_BEFORE`, `EFI_DEP_AFTER` and `EFI_DEP_SOR`).
#[derive(Clone, Copy)]
pub enum Instruction {
    /// The driver starts directly before the driver of this file name.
    Before(Guid),
    /// The driver starts directly after the driver of this file name.
    After(Guid),
    /// An opcode of a tree.
    Of(Opcode),
    /// The end of the expression.
    End,
    /// The driver waits until it is requested.
    Sor,
}

// The GUID at the front of the bytes, and the bytes after it.
fn guid_front(bytes: &[u8]) -> Option<(Guid, &[u8])>
    ensures { option_map (λ x. (x.0, x.1.now)) result ≡ guid_front bytes.now }
{
    if bytes.len() < GUID_LEN {
        return None;
    }
    Some((Guid::at(bytes, 0), &bytes[GUID_LEN..]))
}

/// The opcode at the front of the bytes, and the bytes after it. None if the bytes hold no whole opcode.
#[tactic(auto, unfolding(crate::specs::Reading::instruction_at))]
pub fn instruction_at(bytes: &[u8]) -> Option<(Instruction, &[u8])>
    ensures { option_map (λ x. (x.0, x.1.now)) result ≡ instruction_at bytes.now }
{
    let (code, rest) = bytes.split_first()?;
    let instruction = match *code {
        BEFORE | AFTER | PUSH => {
            let (guid, rest) = guid_front(rest)?;
            let instruction = match *code {
                BEFORE => Instruction::Before(guid),
                AFTER => Instruction::After(guid),
                _ => Instruction::Of(Opcode::Push(guid)),
            };
            return Some((instruction, rest));
        }
        AND => Instruction::Of(Opcode::And),
        OR => Instruction::Of(Opcode::Or),
        NOT => Instruction::Of(Opcode::Not),
        TRUE => Instruction::Of(Opcode::True),
        FALSE => Instruction::Of(Opcode::False),
        END => Instruction::End,
        SOR => Instruction::Sor,
        _ => return None,
    };
    Some((instruction, rest))
}
