// What is left when the events are over.
ghost use Rattle.std.specs.Prelude.{◌≡◌, ◌++◌, IfOk, OnOk, map, not};
ghost use Rattle.mp_core.specs.Past.{is_empty};

use crate::machine::Machine;
use crate::processor::Processor;
use crate::reply::{MpOutcome, MpReply};
use pi_base::{OutOfMemory, Seq};
use std::alloc::Global;

// Puts the record of each processor, and whether it is busy, after those that there are.
fn take_apart(
    processors: Vec<Processor<'_>>,
    records: &mut Seq<Seq<u64>>,
    busy: &mut Seq<bool>,
) -> Result<(), OutOfMemory>
    ensures records { OnOk result (records.new ≡ records.old ++ map (λ x. x.record) processors.entry.items) }
    ensures busy { OnOk result (busy.new ≡ busy.old ++ map (λ x. not (is_empty x.rest.now)) processors.entry.items) }
{
    for processor in processors {
        busy.push(processor.is_busy())?;
        records.push(processor.record)?;
    }
    Ok(())
}

impl<'a> Machine<'a> {
    ghost use Rattle.mp_core.specs.Machine.{IsLeft};

    /// What the machine leaves, with the replies.
    pub(crate) fn outcome(
        self,
        alloc: Global,
        replies: Seq<MpReply>,
    ) -> Result<MpOutcome, OutOfMemory>
        ensures replies { IfOk result (λ outcome. outcome.replies ≡ replies) }
        ensures left { IfOk result (IsLeft self.entry) }
    {
        let mut records = Seq::new(alloc);
        let mut busy = Seq::new(alloc);
        let taken = take_apart(self.processors, &mut records, &mut busy);
        let outcome = MpOutcome {
            replies,
            cells: self.cells,
            records,
            busy,
        };
        match taken {
            Ok(()) => Ok(outcome),
            Err(OutOfMemory) => {
                drop(outcome);
                Err(OutOfMemory)
            }
        }
    }
}
