// How a refusal is told.
ghost use Rattle.std.specs.Prelude.{◌≡◌};
ghost use Rattle.boot_core.specs.Refusing.{IsTold, refusal_status};

use crate::answer::answer;
use crate::plan_files::NoJob;
use crate::status::Status;
use boot_io::Sink;
use boot_model::Line;
use boot_trace::put;

// The status of a refusal's line. That of the words is the last: no other line is one of a refusal.
fn refusal_status(line: &Line) -> Status
    ensures { result ≡ refusal_status line.now }
{
    match line {
        Line::RefusedFile { .. } => Status::FileFault,
        Line::RefusedLong { .. } => Status::TooLong,
        Line::RefusedPlan { .. } => Status::PlanRefused,
        Line::RefusedImage { .. } => Status::ImageRefused,
        _ => Status::Usage,
    }
}

/// Tells why there is nothing to be done: puts the line of a refusal, and answers its status. Want of memory is answered alone.
pub(crate) fn refuse<S: Sink>(no_job: NoJob, sink: &mut S) -> Status
    ensures { IsTold no_job result
        (record { old = S.text sink.old; new = S.text sink.new; before = S.faults sink.old; now = S.faults sink.new }) }
{
    match no_job {
        NoJob::Refused(line) => {
            let put = put(sink, &line);
            answer(put, refusal_status(&line))
        }
        NoJob::Memory => Status::Memory,
    }
}
