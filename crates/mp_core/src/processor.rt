// A processor and its job.
ghost use Rattle.std.specs.Prelude.{◌≡◌, not};

use crate::op::Op;
use pi_base::Seq;
use std::alloc::Global;

/// A processor, with what is not yet done of its job.
#[derive(Drop)]
pub(crate) struct Processor<'a> {
    pub(crate) enabled: bool,
    pub(crate) rest: &'a [Op],
    pub(crate) record: Seq<u64>,
}

impl<'a> Processor<'a> {
    ghost use Rattle.mp_core.specs.Past.{is_empty};
    ghost use Rattle.mp_core.specs.Processor.{IsNew, Does};

    // An enabled processor without a job and with an empty record.
    pub(crate) fn new(alloc: Global) -> Processor<'a>
        ensures { IsNew result }
    {
        Processor {
            enabled: true,
            rest: &[],
            record: Seq::new(alloc),
        }
    }

    // Whether a part of its job is not yet done.
    pub(crate) fn is_busy(&self) -> bool
        ensures { result ≡ not (is_empty self.now.rest.now) }
    {
        !self.rest.is_empty()
    }

    // Takes the next operation off its job.
    pub(crate) fn next_op(&mut self) -> Option<Op>
        ensures { Does self.old result self.new }
    {
        match self.rest {
            [op, rest @ ..] => {
                self.rest = rest;
                Some(*op)
            }
            [] => None,
        }
    }
}
