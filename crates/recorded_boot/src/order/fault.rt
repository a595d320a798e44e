// Why a text is no order.

use pi_base::OutOfMemory;

/// Why a text is not an order of starts.
#[derive(Clone, Copy, Debug, PartialEq, Eq)]
pub enum OrderFault {
    /// The number, from 1, of the first line that is of no form or is after `stop`.
    Bad { line: u32 },
    /// Memory ran out.
    Memory,
}

impl From<OutOfMemory> for OrderFault {
    ghost use Rattle.std.specs.Prelude.{◌≡◌};
    ghost use Rattle.recorded_boot.specs.declared.order.fault.OrderFault.TheVariants.{Memory};

    ghost from_gives = { λ _ fault. fault ≡ Memory };

    fn from(_want: OutOfMemory) -> OrderFault {
        OrderFault::Memory
    }
}
