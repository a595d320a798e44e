// Doing commands.
ghost use Rattle.std.specs.Prelude.{◌≡◌, map, IfOk};
ghost use Rattle.gcd_map.specs.{SpaceMap.AfterEach, Run.CommandRow, Run.IsRun};

use crate::command::Command;
use crate::map::GcdMap;
use crate::word::GcdWord;
use pi_base::{OutOfMemory, Seq};
use std::alloc::Global;

/// The answer to a command.
#[derive(Clone, Copy, PartialEq, Eq)]
pub enum Answer {
    /// It was done.
    Done,
    /// It was done at this base.
    At(u64),
    /// It was refused, and changed nothing.
    Refused(GcdWord),
}

impl GcdMap {
    /// Runs one command.
    pub fn perform(&mut self, command: Command) -> Answer
        ensures row { AfterEach self.old self.new (λ old new. CommandRow command old result new) }
    {
        let done = match command {
            Command::Add { kind, base, len } => self.add(kind, base, len),
            Command::Allocate { kind, base, len } => self.allocate(kind, base, len),
            Command::Top { kind, align, len } => {
                return match self.top(kind, align, len) {
                    Ok(base) => Answer::At(base),
                    Err(word) => Answer::Refused(word),
                };
            }
            Command::Free { base, len } => self.free(base, len),
            Command::Remove { base, len } => self.remove(base, len),
        };
        match done {
            Ok(()) => Answer::Done,
            Err(word) => Answer::Refused(word),
        }
    }

    /// Runs commands in order, and returns each with its answer. If memory runs out for the map, the later commands are not run.
    pub fn run(
        &mut self,
        alloc: Global,
        commands: &[Command],
    ) -> Result<Seq<(Command, Answer)>, OutOfMemory>
        ensures commands { IfOk result (λ steps. map (λ step. step.0) steps ≡ commands.now) }
        ensures run { IfOk result (λ steps. AfterEach self.old self.new (λ old new. IsRun old steps new)) }
    {
        let mut steps = Seq::new(alloc);
        'commands: for command in commands {
            let answer = self.perform(*command);
            if answer == Answer::Refused(GcdWord::Memory) {
                return Err(OutOfMemory);
            }
            steps.push((*command, answer))?;
        }
        Ok(steps)
    }
}
