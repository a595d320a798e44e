//! The fixed words of lines, and the values that have them.
ghost use Rattle.std.specs.Prelude.{◌≡◌, List, ℕ, Contains};
ghost use Rattle.pi_base.specs.WordText.{word_text};
ghost use Rattle.boot_trace.specs.FixedWords.{IsPlain};
ghost use Rattle.boot_model.specs.Text.{licence_text, reason_text, end_text};

use boot_model::{CallName, Licence, Reason, RunEnd};
use boot_plan::PlanCause;
use mod_catalog::ImageCause;
use pi_base::Word;

/// Why a module starts, as a line names it.
#[tactic(auto, unfolding(boot_model::specs::Text::licence_text))]
pub fn licence_word(licence: Licence) -> &'static [u8]
    ensures { result.now ≡ licence_text licence }
{
    match licence {
        Licence::Apriori => b"apriori",
        Licence::Absent => b"absent",
        Licence::True => b"true",
        Licence::Shadow => b"shadow",
        Licence::Before => b"before",
        Licence::After => b"after",
    }
}

/// Why a module waits, as a line names it.
#[tactic(auto, unfolding(boot_model::specs::Text::reason_text))]
pub fn reason_word(reason: Reason) -> &'static [u8]
    ensures { result.now ≡ reason_text reason }
{
    match reason {
        Reason::Malformed => b"malformed",
        Reason::False => b"false",
        Reason::Shadow => b"shadow",
        Reason::Unrequested => b"unrequested",
        Reason::Before => b"before",
        Reason::After => b"after",
        Reason::Absent => b"absent",
    }
}

/// How a run ends, as a line names it.
#[tactic(auto, unfolding(boot_model::specs::Text::end_text))]
pub fn run_end_word(end: RunEnd) -> &'static [u8]
    ensures { result.now ≡ end_text end }
{
    match end {
        RunEnd::Done => b"Done",
        RunEnd::NoMemory => b"NoMemory",
        RunEnd::NoIpl => b"NoIpl",
        RunEnd::Spent => b"Spent",
        RunEnd::Deep => b"Deep",
    }
}

/// A value of few, each with a word of its own.
pub trait FixedWord: Copy + 'static {
    ghost use Rattle.std.specs.Prelude.{◌≡◌, List, ℕ};
    ghost use Rattle.std.specs.List.{Contains};
    ghost use Rattle.boot_trace.specs.FixedWords.{IsPlain};

    ghost text_of: { Self → List ℕ };

    /// Its word.
    fn word(self) -> &'static [u8]
        ensures { result.now ≡ text_of self };

    /// Each of the values.
    fn all() -> &'static [Self]
        ensures each { (value : Self) → Contains result.now value }
        ensures plain { (value : Self) → IsPlain (text_of value) };
}

impl FixedWord for Word {
    ghost use Rattle.pi_base.specs.WordText.{word_text};

    ghost text_of = { word_text };

    fn word(self) -> &'static [u8] {
        Word::text(self)
    }

    fn all() -> &'static [Word] {
        &[
            Word::Success,
            Word::InvalidParameter,
            Word::NotFound,
            Word::OutOfResources,
            Word::NotAvailableYet,
            Word::AlreadyStarted,
            Word::AccessDenied,
        ]
    }
}

impl FixedWord for Licence {
    ghost use Rattle.boot_model.specs.Text.{licence_text};

    ghost text_of = { licence_text };

    fn word(self) -> &'static [u8] {
        licence_word(self)
    }

    fn all() -> &'static [Licence] {
        &[
            Licence::Apriori,
            Licence::Absent,
            Licence::True,
            Licence::Shadow,
            Licence::Before,
            Licence::After,
        ]
    }
}

impl FixedWord for CallName {
    ghost use Rattle.boot_model.specs.Text.{call_text};

    ghost text_of = { call_text };

    #[tactic(auto, unfolding(boot_model::specs::Text::call_text))]
    fn word(self) -> &'static [u8] {
        match self {
            CallName::Pool => b"pool",
            CallName::Store => b"store",
            CallName::Peek => b"peek",
            CallName::Desc => b"desc",
            CallName::Install => b"install",
            CallName::Reinstall => b"reinstall",
            CallName::Notify => b"notify",
            CallName::Locate => b"locate",
            CallName::Hob => b"hob",
            CallName::Memory => b"memory",
            CallName::Pages => b"pages",
            CallName::BootMode => b"boot_mode",
            CallName::Shadow => b"shadow",
            CallName::Uninstall => b"uninstall",
            CallName::Schedule => b"schedule",
            CallName::Process => b"process",
            CallName::Dispatch => b"dispatch",
        }
    }

    fn all() -> &'static [CallName] {
        &[
            CallName::Pool,
            CallName::Store,
            CallName::Peek,
            CallName::Desc,
            CallName::Install,
            CallName::Reinstall,
            CallName::Notify,
            CallName::Locate,
            CallName::Hob,
            CallName::Memory,
            CallName::Pages,
            CallName::BootMode,
            CallName::Shadow,
            CallName::Uninstall,
            CallName::Schedule,
            CallName::Process,
            CallName::Dispatch,
        ]
    }
}

impl FixedWord for Reason {
    ghost use Rattle.boot_model.specs.Text.{reason_text};

    ghost text_of = { reason_text };

    fn word(self) -> &'static [u8] {
        reason_word(self)
    }

    fn all() -> &'static [Reason] {
        &[
            Reason::Malformed,
            Reason::False,
            Reason::Shadow,
            Reason::Unrequested,
            Reason::Before,
            Reason::After,
            Reason::Absent,
        ]
    }
}

impl FixedWord for RunEnd {
    ghost use Rattle.boot_model.specs.Text.{end_text};

    ghost text_of = { end_text };

    fn word(self) -> &'static [u8] {
        run_end_word(self)
    }

    fn all() -> &'static [RunEnd] {
        &[
            RunEnd::Done,
            RunEnd::NoMemory,
            RunEnd::NoIpl,
            RunEnd::Spent,
            RunEnd::Deep,
        ]
    }
}

impl FixedWord for PlanCause {
    ghost use Rattle.boot_model.specs.Text.{plan_cause_text};

    ghost text_of = { plan_cause_text };

    #[tactic(auto, unfolding(boot_model::specs::Text::plan_cause_text))]
    fn word(self) -> &'static [u8] {
        match self {
            PlanCause::Word => b"Word",
            PlanCause::Number => b"Number",
            PlanCause::Missing => b"Missing",
            PlanCause::Twice => b"Twice",
            PlanCause::Overlap => b"Overlap",
            PlanCause::Limit => b"Limit",
            PlanCause::Room => b"Room",
            PlanCause::Memory => b"Memory",
        }
    }

    fn all() -> &'static [PlanCause] {
        &[
            PlanCause::Word,
            PlanCause::Number,
            PlanCause::Missing,
            PlanCause::Twice,
            PlanCause::Overlap,
            PlanCause::Limit,
            PlanCause::Room,
            PlanCause::Memory,
        ]
    }
}

impl FixedWord for ImageCause {
    ghost use Rattle.boot_model.specs.Text.{image_cause_text};

    ghost text_of = { image_cause_text };

    #[tactic(auto, unfolding(boot_model::specs::Text::image_cause_text))]
    fn word(self) -> &'static [u8] {
        match self {
            ImageCause::Short => b"Short",
            ImageCause::Signature => b"Signature",
            ImageCause::Revision => b"Revision",
            ImageCause::FileSystem => b"FileSystem",
            ImageCause::Length => b"Length",
            ImageCause::HeaderLength => b"HeaderLength",
            ImageCause::HeaderSum => b"HeaderSum",
            ImageCause::ExtHeader => b"ExtHeader",
            ImageCause::FileSum => b"FileSum",
            ImageCause::FileSize => b"FileSize",
            ImageCause::DataSum => b"DataSum",
            ImageCause::TooManyFiles => b"TooManyFiles",
            ImageCause::Size => b"Size",
            ImageCause::Compressed => b"Compressed",
            ImageCause::GuidDefined => b"GuidDefined",
            ImageCause::TooMany => b"TooMany",
            ImageCause::Magic => b"Magic",
            ImageCause::Version => b"Version",
            ImageCause::Phase => b"Phase",
            ImageCause::Count => b"Count",
            ImageCause::Block => b"Block",
            ImageCause::Action => b"Action",
            ImageCause::Jump => b"Jump",
            ImageCause::Index => b"Index",
            ImageCause::Nesting => b"Nesting",
            ImageCause::TooManyModules => b"TooManyModules",
            ImageCause::Place => b"Place",
            ImageCause::TooManyVolumes => b"TooManyVolumes",
            ImageCause::ScriptTotal => b"ScriptTotal",
            ImageCause::Memory => b"Memory",
        }
    }

    fn all() -> &'static [ImageCause] {
        &[
            ImageCause::Short,
            ImageCause::Signature,
            ImageCause::Revision,
            ImageCause::FileSystem,
            ImageCause::Length,
            ImageCause::HeaderLength,
            ImageCause::HeaderSum,
            ImageCause::ExtHeader,
            ImageCause::FileSum,
            ImageCause::FileSize,
            ImageCause::DataSum,
            ImageCause::TooManyFiles,
            ImageCause::Size,
            ImageCause::Compressed,
            ImageCause::GuidDefined,
            ImageCause::TooMany,
            ImageCause::Magic,
            ImageCause::Version,
            ImageCause::Phase,
            ImageCause::Count,
            ImageCause::Block,
            ImageCause::Action,
            ImageCause::Jump,
            ImageCause::Index,
            ImageCause::Nesting,
            ImageCause::TooManyModules,
            ImageCause::Place,
            ImageCause::TooManyVolumes,
            ImageCause::ScriptTotal,
            ImageCause::Memory,
        ]
    }
}
