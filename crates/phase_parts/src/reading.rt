//! Reading memory.
ghost use Rattle.std.specs.Prelude.{◌≤◌, ◌≡◌};
ghost use Rattle.store_model.specs.{Service.Present, Service.OfEach, StoreCall.Anything};
ghost use Rattle.phase_parts.specs.Peeked.{peeked};

use crate::registers::number_in;
use arrayvec::ArrayVec;
use boot_model::{Extra, REGISTERS, Register, SHOWN_LEN};
use pi_base::Word;
use store_model::PeiStore;

/// A result for a script that changes only the script's last status.
#[derive(Drop)]
pub struct Answer {
    pub status: Word,
    /// What its line shows.
    pub extra: Extra,
}

/// Does the action `peek`, which scripts of both phases have.
pub fn peek<M: PeiStore>(store: &M, registers: &[Register; REGISTERS], v: u8, n: u8) -> Answer
    requires few { n ≤ 64 }
    requires state { Present (M.stands_for store.now) Anything }
    ensures { OfEach (M.stands_for store.now) Anything (λ s. result ≡ peeked s registers.now v n) }
{
    match number_in(registers, v) {
        None => Answer {
            status: Word::InvalidParameter,
            extra: Extra::Nothing,
        },
        Some(at) => {
            let mut bytes = ArrayVec::from([0; SHOWN_LEN]);
            bytes.truncate(n as usize);
            if store.peek(at, bytes.as_mut_slice()) {
                Answer {
                    status: Word::Success,
                    extra: Extra::Bytes(bytes),
                }
            } else {
                Answer {
                    status: Word::NotFound,
                    extra: Extra::Nothing,
                }
            }
        }
    }
}
