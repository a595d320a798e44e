// A list of events.
ghost use Rattle.std.specs.Prelude.{◌≡◌, IfOk};
ghost use Rattle.mp_core.specs.declared.limits.TheConstants.{MOST_CELLS, MOST_PROCESSORS};
ghost use Rattle.mp_core.specs.{Calls.AreEvents, Calls.IsCount, Past.replies, Past.schedule};
ghost use Rattle.mp_core.specs.OneAfterAnother.{Completes, IsIdle, IsInOrder};
ghost use Rattle.mp_core.specs.Schedule.{busy_after, cells_after, records_after};

use crate::event::MpEvent;
use crate::machine::Machine;
use crate::reply::MpOutcome;
use pi_base::{OutOfMemory, Seq};
use std::alloc::Global;

/// Runs the events from the first on, with so many processors and cells, and returns the replies and what is left.
pub fn run(
    alloc: Global,
    processors: u32,
    cells: u32,
    events: &[MpEvent],
) -> Result<MpOutcome, OutOfMemory>
    requires processors { IsCount MOST_PROCESSORS processors }
    requires cells { IsCount MOST_CELLS cells }
    requires events { AreEvents processors cells events.now }

    // The schedule's replies, cells, records and busy flags.
    ensures replies { IfOk result (λ outcome. outcome.replies ≡ replies processors events.now) }
    ensures cells { IfOk result (λ outcome. outcome.cells ≡ cells_after cells (schedule processors events.now)) }
    ensures records { IfOk result (λ outcome. outcome.records ≡ records_after processors (schedule processors events.now)) }
    ensures busy { IfOk result (λ outcome. outcome.busy ≡ busy_after processors (schedule processors events.now)) }

    // The jobs taken one after another give the same, once all are done.
    ensures idle { IfOk result (λ outcome. IsIdle outcome → IsInOrder processors cells (schedule processors events.now) outcome) }
    ensures in_time { IfOk result (Completes processors cells (schedule processors events.now)) }
{
    let mut machine = Machine::new(alloc, processors, cells)?;
    let mut replies = Seq::new(alloc);
    for event in events {
        let Ok(()) = machine.answer(event, &mut replies) else {
            drop(replies);
            drop(machine);
            return Err(OutOfMemory);
        };
    }
    machine.outcome(alloc, replies)
}
