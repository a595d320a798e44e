// What `run` needs of its events.
ghost use Rattle.std.specs.Prelude.{◌↔◌, IsTrue};
ghost use Rattle.pi_base.specs.Lists.{Each};
ghost use Rattle.mp_core.specs.Calls.{AreEvents, IsEvent, IsJob, IsOp};

use crate::event::MpEvent;
use crate::limits::MOST_OPS;
use crate::op::Op;

impl Op {
    /// Whether the cell of an `add` exists.
    pub fn fits(&self, cells: u32) -> bool
        ensures { IsTrue result ↔ IsOp cells self.now }
    {
        match self {
            Op::Add { cell, .. } => *cell < cells,
            Op::Put { .. } => true,
        }
    }
}

// Whether there are the cells of all operations.
fn ops_fit(ops: &[Op], cells: u32) -> bool
    ensures { IsTrue result ↔ Each (IsOp cells) ops.now }
{
    let mut rest = ops;
    'ops: while let [op, after @ ..] = rest {
        if !op.fits(cells) {
            return false;
        }
        rest = after;
    }
    true
}

// Whether a job is neither empty nor too long, and there are its cells.
fn job_fits(job: &[Op], cells: u32) -> bool
    ensures { IsTrue result ↔ IsJob cells job.now }
{
    1 <= job.len() && job.len() <= MOST_OPS && ops_fit(job, cells)
}

impl MpEvent {
    /// Whether its caller and its cells exist, and its job is neither empty nor too long.
    pub fn fits(&self, processors: u32, cells: u32) -> bool
        ensures { IsTrue result ↔ IsEvent processors cells self.now }
    {
        match self {
            MpEvent::All { by, job } => *by < processors && job_fits(job.as_slice(), cells),
            MpEvent::This { by, job, .. } => *by < processors && job_fits(job.as_slice(), cells),
            MpEvent::Enable { by, .. } => *by < processors,
            MpEvent::Switch { by, .. } => *by < processors,
            MpEvent::Who { by } => *by < processors,
            MpEvent::Turn { .. } => true,
        }
    }
}

/// Whether all of these events fit.
pub fn events_fit(events: &[MpEvent], processors: u32, cells: u32) -> bool
    ensures { IsTrue result ↔ AreEvents processors cells events.now }
{
    let mut rest = events;
    'events: while let [event, after @ ..] = rest {
        if !event.fits(processors, cells) {
            return false;
        }
        rest = after;
    }
    true
}
