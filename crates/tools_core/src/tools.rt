// The top call.
ghost use Rattle.std.specs.Prelude.{◌≡◌, ◌⊎◌, ◌<◌, ◌≤◌, IfNone, IfOk, IfSome, OnErr};
ghost use Rattle.boot_io.specs.{Faults.Rose, Words.words_of};
ghost use Rattle.mp_core.specs.OneAfterAnother.{CompletesInOrder, IdlesInOrder};
ghost use Rattle.tools_core.specs.Ends.{Ends, Reports, status_after};
ghost use Rattle.tools_core.specs.{Leaving.HasLeft, Leaving.HasPut, OneOutcome.AnswersExactly, TextAgain.TextsMakeVolumesAgain};
ghost use Rattle.tools_core.specs.Outcome.{limit_of, MapNames, MapOutcome, Names, Outcome, ToolOutcome};

use crate::command_line::{Tool, asked_follow, asked_map, asked_plan, asked_tool, asked_trace};
use crate::follow_tool::with_follow;
use crate::gcd_tool::map_report;
use crate::laws::one_outcome;
use crate::plan_tool::with_plan;
use crate::print::put_report;
use crate::reading::{Reading, read_file};
use crate::report::Report;
use crate::status::ToolStatus;
use crate::text_tool::content_report;
use crate::trace_tool::with_trace;
use boot_io::{Files, RealSink, Sink, SinkFault};
use mp_core::jobs_in_order;
use pi_base::OutOfMemory;
use std::alloc::Global;
use std::io::Write;
use volume_again::{made_of_its_text, refused_for_room};

// The most bytes of a HOB list, of a text and of bytes that are read.
const FILE_LIMIT: usize = 0x10_0000;

// The most bytes of a file of commands and of an MP file.
const COMMANDS_LIMIT: usize = 0x1_0000;

// The most bytes of a volume, and of a volume's text.
const SOURCE_LIMIT: usize = 0x400_0000;

// The most bytes of a tool's file.
fn limit_of(tool: Tool) -> usize
    ensures limit { result ≡ limit_of tool }
    ensures most { result ≤ SOURCE_LIMIT }
{
    match tool {
        Tool::Mp => COMMANDS_LIMIT,
        Tool::Volume | Tool::ReadVolume => SOURCE_LIMIT,
        _ => FILE_LIMIT,
    }
}

// What the files of a HOB list and of commands lead to.
fn with_map<F: Files>(
    alloc: Global,
    hobs: &str,
    commands: &str,
    files: &mut F,
) -> Result<Report, OutOfMemory>
    ensures report { IfOk result (λ report. Reports (MapOutcome (F.told files.old) hobs.now commands.now)
        (MapNames (F.told files.old) hobs.now commands.now) report
        (record { before = F.faults files.old; now = F.faults files.new; missed = F.missed files.new })) }
    ensures memory { OnErr result (F.faults files.new ≡ F.faults files.old) }
{
    let bytes = match read_file(alloc, hobs, FILE_LIMIT, files)? {
        Reading::Content(bytes) => bytes,
        Reading::Refused(report) => return Ok(report),
    };
    let lines = match read_file(alloc, commands, COMMANDS_LIMIT, files)? {
        Reading::Content(lines) => lines,
        Reading::Refused(report) => return Ok(report),
    };
    map_report(alloc, bytes.as_slice(), lines.as_slice())
}

// What a tool's file leads to.
fn with_tool<F: Files>(
    alloc: Global,
    tool: Tool,
    file: &str,
    files: &mut F,
) -> Result<Report, OutOfMemory>
    ensures report { IfOk result (λ report. Reports (ToolOutcome (F.told files.old file.now) tool file.now)
        (λ name. name ≡ file.now) report
        (record { before = F.faults files.old; now = F.faults files.new; missed = F.missed files.new })) }
    ensures memory { OnErr result (F.faults files.new ≡ F.faults files.old) }
{
    match read_file(alloc, file, limit_of(tool), files)? {
        Reading::Content(content) => content_report(alloc, tool, content.as_slice()),
        Reading::Refused(report) => Ok(report),
    }
}

// What the words lead to.
fn with_words<F: Files>(
    alloc: Global,
    words: &[String],
    files: &mut F,
) -> Result<Report, OutOfMemory>
    ensures report { IfOk result
        (λ report. Reports (Outcome (F.told files.old) (words_of words.now)) (Names (F.told files.old) (words_of words.now)) report
        (record { before = F.faults files.old; now = F.faults files.new; missed = F.missed files.new })) }
    ensures memory { OnErr result (F.faults files.new ≡ F.faults files.old) }
{
    if let Some((hobs, commands)) = asked_map(words) {
        return with_map(alloc, hobs, commands, files);
    }
    if let Some((tool, plan, trace)) = asked_trace(words) {
        return with_trace(alloc, tool, plan, trace, files);
    }
    if let Some((plan, order)) = asked_follow(words) {
        return with_follow(alloc, plan, order, files);
    }
    if let Some((tool, plan)) = asked_plan(words) {
        return with_plan(alloc, tool, plan, files);
    }
    match asked_tool(words) {
        Some((tool, file)) => with_tool(alloc, tool, file, files),
        None => Ok(Report::Usage),
    }
}

// The status of a text that was written, or the sink's failure.
fn answer(put: Result<(), SinkFault>, status: ToolStatus) -> ToolStatus
    ensures { result ≡ status_after put status }
{
    match put {
        Ok(()) => status,
        Err(SinkFault) => ToolStatus::SinkFault,
    }
}

// Does what the words ask for.
fn run_words<F: Files, S: Sink>(
    alloc: Global,
    words: &[String],
    files: &mut F,
    sink: &mut S,
) -> ToolStatus
    ensures { Ends (Outcome (F.told files.old) (words_of words.now)) (Names (F.told files.old) (words_of words.now)) result (record {
      old = S.text sink.old;
      new = S.text sink.new;
      before = S.faults sink.old;
      now = S.faults sink.new;
      files = record { before = F.faults files.old; now = F.faults files.new; missed = F.missed files.new };
    }) }
{
    match with_words(alloc, words, files) {
        Ok(report) => {
            let put = put_report(sink, &report);
            answer(put, report.status())
        }
        Err(OutOfMemory) => ToolStatus::Memory,
    }
}

/// Does what the words of a command line ask for: `check PLAN TRACE`, `follow PLAN ORDER`, `passes PLAN`, `hobs PLAN`, `explain PLAN`, both
/// also with the word `passes` behind PLAN, `explain PLAN TRACE`, `gcd HOBS COMMANDS`, `mp FILE`, `volume TEXT`, `text VOLUME`, `asm depex FILE`, `asm script FILE`, `dis pei FILE`, `dis dxe FILE` or `dis script FILE`. All files that
/// the words name are read, in their order, before the first is examined. The files of a plan's volumes are read after the plan is examined. The whole outcome
/// is decided before anything is written.
pub fn tools_main<F: Files, S: Sink>(
    alloc: Global,
    words: &[String],
    files: &mut F,
    sink: &mut S,
) -> ToolStatus
    // The text and the status are those that the words lead to by the files that are read; or the files failed, and the text names the file; or the sink
    // failed, after a part of such a text; or memory ran out, and nothing was written.
    ensures ends { Ends (Outcome (F.told files.old) (words_of words.now)) (Names (F.told files.old) (words_of words.now)) result (record {
      old = S.text sink.old;
      new = S.text sink.new;
      before = S.faults sink.old;
      now = S.faults sink.new;
      files = record { before = F.faults files.old; now = F.faults files.new; missed = F.missed files.new };
    }) }
    // If files and sink do not fail and memory does not run out, the status and the text are exactly those to which the words lead: known contents have one
    // outcome.
    ensures exactly { AnswersExactly (F.told files.old) (words_of words.now) (S.text sink.old) (S.text sink.new) result }
    // A failure of the files is returned exactly if their count rose.
    ensures file_fault { result ≡ ToolStatus.FileFault → Rose (F.faults files.old) (F.faults files.new) }
    ensures files_rose { F.faults files.old < F.faults files.new
        → (result ≡ ToolStatus.FileFault) ⊎ (result ≡ ToolStatus.SinkFault) }
    // A failure of the sink is returned exactly if its count rose, and it takes precedence. If memory runs out, nothing is written.
    ensures sink_fault { result ≡ ToolStatus.SinkFault → Rose (S.faults sink.old) (S.faults sink.new) }
    ensures sink_rose { S.faults sink.old < S.faults sink.new → result ≡ ToolStatus.SinkFault }
    ensures memory { result ≡ ToolStatus.Memory → S.text sink.new ≡ S.text sink.old }
    // At any moment of an MP file's events, what the processors have done followed by what is still to come is the jobs one after another. If no processor is
    // busy, all of it is done.
    ensures any_moment { CompletesInOrder }
    ensures idle { IdlesInOrder }
    // The text that `text` prints of a volume, `volume` makes into a volume with the same form, length, name and files, each at its place. It refuses the text
    // only if that volume cannot be built.
    ensures again { TextsMakeVolumesAgain }
{
    jobs_in_order();
    made_of_its_text();
    refused_for_room();
    one_outcome();
    run_words(alloc, words, files, sink)
}

/// Does the same as `tools_main`, and hands the text on to an output in pieces of 64 KiB. The output is returned. None if memory ran out for the pieces;
/// nothing was then done.
pub fn tools_and_print<F: Files, W: Write + Drop>(
    alloc: Global,
    words: &[String],
    files: &mut F,
    to: W,
) -> (Option<W>, ToolStatus)
    // The output holds the whole text, or with the sink's fault a beginning of it.
    ensures left { IfSome result.0 (λ output. HasLeft (HasPut (F.told files.old) (words_of words.now)
        (record { before = F.faults files.old; now = F.faults files.new; missed = F.missed files.new }) (W.contents to))
        (W.contents output) result.1) }
    // It is the outcome of the words, if neither files nor output fail and there is memory.
    ensures exactly { IfSome result.0 (λ output. AnswersExactly (F.told files.old) (words_of words.now) (W.contents to)
        (W.contents output) result.1) }
    ensures none { IfNone result.0 ((result.1 ≡ ToolStatus.Memory) × (F.faults files.new ≡ F.faults files.old)) }
{
    let mut sink = match RealSink::buffered(alloc, to) {
        Ok(sink) => sink,
        Err(OutOfMemory) => return (None, ToolStatus::Memory),
    };
    let ran = tools_main(alloc, words, files, &mut sink);
    let (output, handed) = sink.finish();
    (Some(output), answer(handed, ran))
}
