// What is printed of a command line.
ghost use Rattle.std.specs.Prelude.{◌≡◌};
ghost use Rattle.tools_core.specs.ReportText.{end_status, report_status};

use crate::status::ToolStatus;
use act_code::ActFault;
use boot_model::RunEnd;
use boot_plan::PlanFault;
use gcd_map::{Answer, Command, GcdFault, GcdMap};
use mod_catalog::ImageFault;
use mp_core::{MpFile, MpOutcome};
use pi_base::Seq;
use recorded_boot::follow::Followed;
use recorded_boot::passes::Passed;
use recorded_boot::trace::Verdict;
use volume_text::Fault;

/// What is printed of a command line.
#[derive(Drop)]
pub(crate) enum Report {
    /// The words have no form.
    Usage,
    /// The file of this name could not be read.
    NoFile(Seq<u8>),
    /// The file of this name is longer than its limit.
    Long(Seq<u8>),
    /// The first fault of a plan.
    Plan(PlanFault),
    /// The first fault of the images of a plan's volumes.
    Image(ImageFault),
    /// The first volume with two modules of one name.
    Twins(u32),
    /// The verdict on a trace.
    Verdict(Verdict),
    /// The first line, from 1, of an order of starts that has no form.
    Order(u32),
    /// The lines of a boot in an order of starts, and how it ended.
    Followed {
        lines: Seq<u8>,
        followed: Followed,
    },
    /// The lines of a boot in the order of EDK2's dispatchers, and how it ended.
    Passed {
        lines: Seq<u8>,
        passed: Passed,
    },
    /// The first fault of a HOB list.
    Hobs(GcdFault),
    /// The first line, from 1, that is no command.
    Command(u32),
    /// The first line, from 1, of a file of events that has no form.
    Event(u32),
    /// The line, from 1, with which a text goes wrong.
    Text(u32),
    /// The first fault of a volume's text.
    Source(Fault),
    /// A text whose bytes pass their limit.
    TextLong,
    /// The place from which on bytes are no expression.
    Malformed(u32),
    /// The first fault of a script.
    Bytes(ActFault),
    /// Commands with their answers, and the map that they leave.
    Map {
        steps: Seq<(Command, Answer)>,
        map: GcdMap,
    },
    /// The events of an MP file, and what they answer and leave.
    Mp {
        file: MpFile,
        outcome: MpOutcome,
    },
    /// How a boot ends whose PEI hands nothing on.
    Ended(RunEnd),
    /// A text, or the bytes of a HOB list or of a volume.
    Answer(Seq<u8>),
}

// The status of a boot that ends so.
fn end_status(end: RunEnd) -> ToolStatus
    ensures { result ≡ end_status end }
{
    match end {
        RunEnd::Done => ToolStatus::Done,
        RunEnd::NoMemory | RunEnd::NoIpl => ToolStatus::NoHandoff,
        RunEnd::Spent => ToolStatus::Spent,
        RunEnd::Deep => ToolStatus::Deep,
    }
}

impl Report {
    /// The status that goes with it.
    pub(crate) fn status(&self) -> ToolStatus
        ensures { result ≡ report_status self.now }
    {
        match self {
            Report::Usage => ToolStatus::Usage,
            Report::NoFile(_) => ToolStatus::FileFault,
            Report::Long(_) => ToolStatus::TooLong,
            Report::Plan(_) => ToolStatus::PlanRefused,
            Report::Image(_) => ToolStatus::ImageRefused,
            Report::Twins(_) => ToolStatus::Twins,
            Report::Verdict(Verdict::Yes) => ToolStatus::Done,
            Report::Verdict(Verdict::No { .. }) => ToolStatus::No,
            Report::Order(_) => ToolStatus::OrderRefused,
            Report::Followed { followed, .. } => match followed {
                Followed::Ended(end) => end_status(*end),
                Followed::Stopped => ToolStatus::Done,
                Followed::No { .. } => ToolStatus::No,
            },
            Report::Passed { passed, .. } => match passed {
                Passed::Ended(end) => end_status(*end),
                Passed::No(_) => ToolStatus::No,
            },
            Report::Hobs(_) => ToolStatus::HobsRefused,
            Report::Command(_) | Report::Event(_) => ToolStatus::CommandRefused,
            Report::Text(_) | Report::Source(_) | Report::TextLong => ToolStatus::TextRefused,
            Report::Malformed(_) | Report::Bytes(_) => ToolStatus::TextRefused,
            Report::Ended(end) => end_status(*end),
            Report::Map { .. } | Report::Mp { .. } | Report::Answer(_) => ToolStatus::Done,
        }
    }
}
