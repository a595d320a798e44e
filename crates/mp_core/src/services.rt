// What the events do.
ghost use Rattle.std.specs.Prelude.{◌++◌, IfOk, OnOk, option_to_list, ⊤};
ghost use Rattle.mp_core.specs.declared.event.MpEvent.TheVariants as event;
ghost use Rattle.mp_core.specs.Calls.{IsEvent, IsJob};
ghost use Rattle.mp_core.specs.Past.{after, enable_disable_ap, reply, startup_all_aps, startup_this_ap, switch_bsp};

use crate::event::MpEvent;
use crate::machine::Machine;
use crate::op::Op;
use crate::reply::{MpReply, MpWord};
use pi_base::{OutOfMemory, Seq};

impl<'a> Machine<'a> {
    ghost use Rattle.mp_core.specs.Machine.{Becomes, Stands, StartsAll, Tells};

    // Each enabled AP starts a job.
    fn start_all(&mut self, job: &'a [Op])
        ensures { StartsAll self.old job.now self.new }
    {
        for p in 0..self.processors.len() {
            if self.is_enabled_ap(p) {
                self.start(p, job);
            }
        }
    }

    // `StartupAllAPs`.
    fn startup_all_aps(&mut self, by: u32, job: &'a [Op]) -> MpWord
        ensures word { Tells self.old (λ processors past. startup_all_aps processors past by) result }
        ensures after { Becomes self.old (λ _ cells. IsJob cells job.now)
            (λ processors past. after processors past (event.All by job.now)) self.new }
    {
        match self.all_word(by) {
            MpWord::Success => {
                self.start_all(job);
                MpWord::Success
            }
            refusal => refusal,
        }
    }

    // `StartupThisAP`.
    fn startup_this_ap(&mut self, by: u32, on: u32, job: &'a [Op]) -> MpWord
        ensures word { Tells self.old (λ processors past. startup_this_ap processors past by on) result }
        ensures after { Becomes self.old (λ _ cells. IsJob cells job.now)
            (λ processors past. after processors past (event.This by on job.now)) self.new }
    {
        match self.this_word(by, on) {
            MpWord::Success => {
                self.start(on as usize, job);
                MpWord::Success
            }
            refusal => refusal,
        }
    }

    // `EnableDisableAP`.
    fn enable_disable_ap(&mut self, by: u32, on: u32, enabled: bool) -> MpWord
        ensures word { Tells self.old (λ processors past. enable_disable_ap processors past by on) result }
        ensures after { Becomes self.old (λ _ _. ⊤) (λ processors past. after processors past (event.Enable by on enabled)) self.new }
    {
        match self.enable_word(by, on) {
            MpWord::Success => {
                self.enable(on as usize, enabled);
                MpWord::Success
            }
            refusal => refusal,
        }
    }

    // `SwitchBSP`.
    fn switch_bsp(&mut self, by: u32, on: u32, enabled: bool) -> MpWord
        requires { Stands self.old (λ _ _. ⊤) }
        ensures word { Tells self.old (λ processors past. switch_bsp processors past by on) result }
        ensures after { Becomes self.old (λ _ _. ⊤) (λ processors past. after processors past (event.Switch by on enabled)) self.new }
    {
        match self.this_word(by, on) {
            MpWord::Success => {
                self.enable(self.bsp as usize, enabled);
                self.bsp = on;
                MpWord::Success
            }
            refusal => refusal,
        }
    }

    // A processor does one operation of its job, if it is busy.
    fn turn(&mut self, on: u32) -> Result<(), OutOfMemory>
        requires { Stands self.old (λ _ _. ⊤) }
        ensures { OnOk result (Becomes self.old (λ _ _. ⊤) (λ processors past. after processors past (event.Turn on)) self.new) }
    {
        let at = on as usize;
        if at >= self.processors.len() {
            return Ok(());
        }
        match self.processors[at].next_op() {
            Some(Op::Add { cell, n }) => {
                self.add(cell, n);
                Ok(())
            }
            Some(Op::Put { n }) => self.processors[at].record.push(n),
            None => Ok(()),
        }
    }

    // What an event does, and what it answers.
    fn event(&mut self, event: &'a MpEvent) -> Result<Option<MpReply>, OutOfMemory>
        requires { Stands self.old (λ processors cells. IsEvent processors cells event.now) }
        ensures reply { IfOk result (Tells self.old (λ processors past. reply processors past event.now)) }
        ensures after { OnOk result (Becomes self.old (λ processors cells. IsEvent processors cells event.now)
            (λ processors past. after processors past event.now) self.new) }
    {
        let word = match event {
            MpEvent::All { by, job } => self.startup_all_aps(*by, job.as_slice()),
            MpEvent::This { by, on, job } => self.startup_this_ap(*by, *on, job.as_slice()),
            MpEvent::Enable { by, on, enabled } => self.enable_disable_ap(*by, *on, *enabled),
            MpEvent::Switch { by, on, enabled } => self.switch_bsp(*by, *on, *enabled),
            MpEvent::Who { by } => return Ok(Some(MpReply::Number(*by))),
            MpEvent::Turn { on } => {
                self.turn(*on)?;
                return Ok(None);
            }
        };
        Ok(Some(MpReply::Word(word)))
    }

    /// Does what an event does, and adds its reply after the earlier ones.
    pub(crate) fn answer(
        &mut self,
        event: &'a MpEvent,
        replies: &mut Seq<MpReply>,
    ) -> Result<(), OutOfMemory>
        requires { Stands self.old (λ processors cells. IsEvent processors cells event.now) }
        ensures replies { OnOk result (Tells self.old (λ processors past.
            replies.old ++ option_to_list (reply processors past event.now)) replies.new) }
        ensures after { OnOk result (Becomes self.old (λ processors cells. IsEvent processors cells event.now)
            (λ processors past. after processors past event.now) self.new) }
    {
        match self.event(event)? {
            Some(reply) => replies.push(reply),
            None => Ok(()),
        }
    }
}
