// The processors and the shared cells.
ghost use Rattle.std.specs.Prelude.{◌≡◌, ◌==◌, ◌<◌, ◌+◌, ◌%◌, ◌^◌, length, not, replicate, slice_index, slice_set, IfOk};
ghost use Rattle.std.specs.List.{list_any};
ghost use Rattle.mp_core.specs.declared.reply.MpWord.TheVariants as word;
ghost use Rattle.mp_core.specs.Past.{enable_disable_ap, enabled_aps, is_empty, is_enabled_ap, opening, startup_all_aps, startup_this_ap};
ghost use Rattle.mp_core.specs.Schedule.{is_busy};

use crate::op::Op;
use crate::processor::Processor;
use crate::reply::MpWord;
use pi_base::{OutOfMemory, Seq};
use std::alloc::Global;

/// The processors by number, and the shared cells by index.
#[derive(Drop)]
pub(crate) struct Machine<'a> {
    pub(crate) bsp: u32,
    pub(crate) processors: Vec<Processor<'a>>,
    pub(crate) cells: Seq<u64>,
}

// So many zeros.
fn zeros(alloc: Global, count: u32) -> Result<Seq<u64>, OutOfMemory>
    ensures { IfOk result (λ zeros. zeros ≡ replicate count 0) }
{
    match vec![in alloc; 0u64; count as usize] {
        Ok(zeros) => Ok(Seq::from_vec(zeros)),
        Err(_) => Err(OutOfMemory),
    }
}

impl<'a> Machine<'a> {
    ghost use Rattle.mp_core.specs.Machine.{IsMachine, Tells};
    ghost use Rattle.mp_core.specs.Processor.{IsChanged};

    // The machine before the first event.
    pub(crate) fn new(
        alloc: Global,
        processors: u32,
        cells: u32,
    ) -> Result<Machine<'a>, OutOfMemory>
        requires { 0 < processors }
        ensures { IfOk result (λ machine. IsMachine processors cells opening machine) }
    {
        let mut idle = Vec::new(alloc);
        for _ in 0..processors {
            if idle.push(Processor::new(alloc)).is_err() {
                return Err(OutOfMemory);
            }
        }
        Ok(Machine {
            bsp: 0,
            processors: idle,
            cells: zeros(alloc, cells)?,
        })
    }

    // Whether a processor is the BSP.
    fn is_bsp(&self, p: u32) -> bool
        ensures { Tells self.now (λ processors past. p == past.bsp) result }
    {
        p == self.bsp
    }

    // Whether a processor is an enabled AP.
    pub(crate) fn is_enabled_ap(&self, p: usize) -> bool
        requires { p < length self.now.processors.items }
        ensures { Tells self.now (λ processors past. is_enabled_ap past p) result }
    {
        self.processors[p].enabled && p != self.bsp as usize
    }

    // Whether a processor is busy.
    fn is_busy(&self, p: usize) -> bool
        requires { p < length self.now.processors.items }
        ensures { Tells self.now (λ processors past. is_busy p past.steps) result }
    {
        self.processors[p].is_busy()
    }

    // Whether there is an enabled AP.
    fn has_enabled_ap(&self) -> bool
        ensures { Tells self.now (λ processors past. not (is_empty (enabled_aps processors past))) result }
    {
        for p in 0..self.processors.len() {
            if self.is_enabled_ap(p) {
                return true;
            }
        }
        false
    }

    // Whether an enabled AP is busy.
    fn has_busy_ap(&self) -> bool
        ensures { Tells self.now (λ processors past. list_any (λ p. is_busy p past.steps) (enabled_aps processors past)) result }
    {
        for p in 0..self.processors.len() {
            if self.is_enabled_ap(p) && self.is_busy(p) {
                return true;
            }
        }
        false
    }

    // What `StartupAllAPs` answers.
    pub(crate) fn all_word(&self, by: u32) -> MpWord
        ensures { Tells self.now (λ processors past. startup_all_aps processors past by) result }
    {
        if !self.is_bsp(by) {
            return MpWord::DeviceError;
        }
        if !self.has_enabled_ap() {
            return MpWord::NotStarted;
        }
        if self.has_busy_ap() {
            return MpWord::NotReady;
        }
        MpWord::Success
    }

    // What `StartupThisAP` and `SwitchBSP` answer.
    pub(crate) fn this_word(&self, by: u32, on: u32) -> MpWord
        ensures startup { Tells self.now (λ processors past. startup_this_ap processors past by on) result }
        ensures below { result ≡ word.Success → on < length self.now.processors.items }
    {
        if !self.is_bsp(by) {
            return MpWord::DeviceError;
        }
        if on as usize >= self.processors.len() {
            return MpWord::NotFound;
        }
        if !self.is_enabled_ap(on as usize) {
            return MpWord::InvalidParameter;
        }
        if self.is_busy(on as usize) {
            return MpWord::NotReady;
        }
        MpWord::Success
    }

    // What `EnableDisableAP` answers.
    pub(crate) fn enable_word(&self, by: u32, on: u32) -> MpWord
        ensures enable { Tells self.now (λ processors past. enable_disable_ap processors past by on) result }
        ensures below { result ≡ word.Success → on < length self.now.processors.items }
    {
        if !self.is_bsp(by) {
            return MpWord::DeviceError;
        }
        if on as usize >= self.processors.len() {
            return MpWord::NotFound;
        }
        if on == self.bsp {
            return MpWord::InvalidParameter;
        }
        if self.is_busy(on as usize) {
            return MpWord::Unsupported;
        }
        MpWord::Success
    }

    // A processor gets a job, of which nothing is done yet.
    pub(crate) fn start(&mut self, p: usize, job: &'a [Op])
        requires { p < length self.old.processors.items }
        ensures bsp { self.new.bsp ≡ self.old.bsp }
        ensures cells { self.new.cells ≡ self.old.cells }
        ensures count { length self.new.processors.items ≡ length self.old.processors.items }
        ensures started { IsChanged self.old.processors.items p (λ x. record x { rest = job.entry }) self.new.processors.items }
    {
        self.processors[p].rest = job;
    }

    // Enables or disables a processor.
    pub(crate) fn enable(&mut self, p: usize, enabled: bool)
        requires { p < length self.old.processors.items }
        ensures bsp { self.new.bsp ≡ self.old.bsp }
        ensures cells { self.new.cells ≡ self.old.cells }
        ensures count { length self.new.processors.items ≡ length self.old.processors.items }
        ensures enabled { IsChanged self.old.processors.items p (λ x. record x { enabled = enabled }) self.new.processors.items }
    {
        self.processors[p].enabled = enabled;
    }

    // Adds to a cell.
    pub(crate) fn add(&mut self, cell: u32, n: u64)
        requires { cell < length self.old.cells }
        ensures bsp { self.new.bsp ≡ self.old.bsp }
        ensures processors { self.new.processors.items ≡ self.old.processors.items }
        ensures sum { self.new.cells ≡ slice_set self.old.cells cell ((slice_index self.old.cells cell + n) % 2 ^ 64) }
    {
        let at = cell as usize;
        let sum = self.cells.as_slice()[at].wrapping_add(n);
        self.cells.set(at, sum);
    }
}
