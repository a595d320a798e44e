// The summary of a boot whose lines nobody reads.
ghost use Rattle.std.specs.Prelude.{◌≡◌, [], ◌∷◌, decimal, option_map};
ghost use Rattle.boot_io.specs.{Line.line_of, Sink.Puts, Sink.SinkFaultsAfter};
ghost use Rattle.boot_model.specs.PeiMachine.{PeiMachine};
ghost use Rattle.store_model.specs.{Service.Present, StoreCall.Anything};
ghost use Rattle.mod_catalog.specs.declared.catalogue.Catalog.{Catalog};
ghost use Rattle.pei_dispatch.specs.Ends.{IsLeft};
ghost use Rattle.boot_core.specs.GeneratedOutcome.{index_text, module_index, summary_line_text, summary_lines, summary_text};

use boot_io::{Sink, SinkFault, put_line};
use boot_model::{Line, RunEnd};
use boot_trace::{count_hobs, count_ppis, put_made};
use pei_dispatch::Ended;
use pi_base::decimal;
use store_model::PeiStore;

/// A line of the summary: one variant a form, in the order of the lines.
#[derive(Clone, Copy)]
pub(crate) enum SummaryLine {
    /// How many modules the generated volume has.
    Modules(u32),
    /// How many starts there were, also second ones.
    Starts(u32),
    /// The number in its name of the module that started last.
    Last(Option<u32>),
    /// How many actions were taken.
    Actions(u32),
    /// How many PPIs are installed.
    Ppis(u32),
    /// How many HOBs there are, without the end HOB.
    Hobs(u32),
    /// The bytes of the heap up to `EfiFreeMemoryBottom`.
    Heap(u64),
    /// How the boot ended.
    Result(RunEnd),
}

// The length of the end HOB, which is a header alone.
const END_LEN: u64 = 8;

// The numbers in their names of modules, by their numbers in the catalogue.
fn index_of(n: u32, number: Option<u32>) -> Option<u32>
    ensures { result ≡ option_map (module_index n) number }
{
    match number {
        Some(number) => Some(n.saturating_sub(1).saturating_sub(number)),
        None => None,
    }
}

/// The summary of a boot of n modules that ended so, behind this end of PEI.
pub(crate) fn summary_of<M: PeiStore + Drop>(
    n: u32,
    pei: &Ended<M>,
    end: RunEnd,
) -> [SummaryLine; 8]
    requires state { Present (M.stands_for pei.now.store) Anything }
    ensures { (catalog : Catalog) (m : PeiMachine) → IsLeft M.stands_for catalog m pei.now → result ≡ summary_lines n catalog m end }
{
    let hobs = count_hobs(&pei.store);
    [
        SummaryLine::Modules(n),
        SummaryLine::Starts(pei.starts),
        SummaryLine::Last(index_of(n, pei.last_start)),
        SummaryLine::Actions(pei.actions),
        SummaryLine::Ppis(count_ppis(&pei.store)),
        SummaryLine::Hobs(hobs.hobs),
        SummaryLine::Heap(hobs.end + END_LEN),
        SummaryLine::Result(end),
    ]
}

// A keyword and a count.
fn put_count<S: Sink>(sink: &mut S, keyword: &[u8], count: u64) -> Result<(), SinkFault>
    ensures text { Puts result (S.text sink.old) (S.text sink.new) (line_of keyword.now (decimal count ∷ [])) }
    ensures cause { SinkFaultsAfter result (S.faults sink.old) (S.faults sink.new) }
{
    let mut digits = [0u8; 20];
    let len = decimal(count, &mut digits);
    let (text, _) = digits.split_at(len);
    put_line(sink, keyword, &[text])
}

// A keyword and the number of a module, or a dash.
fn put_index<S: Sink>(sink: &mut S, keyword: &[u8], index: Option<u32>) -> Result<(), SinkFault>
    ensures text { Puts result (S.text sink.old) (S.text sink.new) (line_of keyword.now (index_text index ∷ [])) }
    ensures cause { SinkFaultsAfter result (S.faults sink.old) (S.faults sink.new) }
{
    match index {
        Some(index) => put_count(sink, keyword, u64::from(index)),
        None => put_line(sink, keyword, &[b"-"]),
    }
}

// A line of the summary.
#[tactic(auto, unfolding(crate::specs::GeneratedOutcome::summary_line_text))]
fn put_summary_line<S: Sink>(sink: &mut S, line: SummaryLine) -> Result<(), SinkFault>
    ensures text { Puts result (S.text sink.old) (S.text sink.new) (summary_line_text line) }
    ensures cause { SinkFaultsAfter result (S.faults sink.old) (S.faults sink.new) }
{
    match line {
        SummaryLine::Modules(count) => put_count(sink, b"modules", u64::from(count)),
        SummaryLine::Starts(count) => put_count(sink, b"starts", u64::from(count)),
        SummaryLine::Last(index) => put_index(sink, b"last", index),
        SummaryLine::Actions(count) => put_count(sink, b"actions", u64::from(count)),
        SummaryLine::Ppis(count) => put_count(sink, b"ppis", u64::from(count)),
        SummaryLine::Hobs(count) => put_count(sink, b"hobs", u64::from(count)),
        SummaryLine::Heap(len) => put_count(sink, b"heap", len),
        SummaryLine::Result(outcome) => put_made(sink, Line::Result { outcome }),
    }
}

/// Puts lines of the summary.
pub(crate) fn put_summary<S: Sink>(sink: &mut S, lines: &[SummaryLine]) -> Result<(), SinkFault>
    ensures text { Puts result (S.text sink.old) (S.text sink.new) (summary_text lines.now) }
    ensures cause { SinkFaultsAfter result (S.faults sink.old) (S.faults sink.new) }
{
    'lines: for line in lines {
        put_summary_line(sink, *line)?;
    }
    Ok(())
}
