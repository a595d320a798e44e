// What the words and the files come to, before anything is put.
ghost use Rattle.std.specs.Prelude.{IfOk};
ghost use Rattle.boot_io.specs.Words.{words_of};
ghost use Rattle.boot_core.specs.Deciding.{CanBeDone, IsAsked, IsRefused, Names};
ghost use Rattle.boot_core.specs.Reading.{Reads};

use crate::command_line::{Command, asked_number, asked_plan};
use crate::plan_files::{Job, NoJob, read_job};
use boot_io::Files;
use boot_model::Line;
use std::alloc::Global;

/// What is asked for, with all that it takes.
#[derive(Drop)]
pub(crate) enum Asked {
    /// The boot of a plan over its images.
    Boot(Job),
    /// The audit of a plan's images.
    Audit(Job),
    /// The boot of the generated volume of so many modules.
    Generate(u32),
}

/// What the words ask for, with the plan and the images that they lead to. Or the first refusal on that way: of the words, or of a file.
pub(crate) fn decide<F: Files>(
    alloc: Global,
    words: &[String],
    files: &mut F,
) -> Result<Asked, NoJob>
    ensures row { Reads (IsAsked (F.told files.old) (words_of words.now)) (IsRefused (F.told files.old) (words_of words.now))
        (Names (F.told files.old) (words_of words.now))
        (record { before = F.faults files.old; now = F.faults files.new; missed = F.missed files.new }) result }
    ensures sound { IfOk result CanBeDone }
{
    if let Some((command, plan)) = asked_plan(words) {
        let job = read_job(alloc, plan, files)?;
        return match command {
            Command::Boot => Ok(Asked::Boot(job)),
            Command::Audit => Ok(Asked::Audit(job)),
        };
    }
    match asked_number(words) {
        Some(number) => Ok(Asked::Generate(number)),
        None => Err(NoJob::Refused(Line::RefusedUsage)),
    }
}
