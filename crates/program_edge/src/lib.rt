//! What both programs do for a person: their words, the reader of standard error, and the reports on what was refused. For a refused plan `mistake_in` returns
//! the word at fault and the rule that it breaks. Begin with `call` and `plan_mistake`; a report reads the files and the printed text that `KeptFiles` and
//! `KeptText` keep.
//!
//! Tested by `scripts/check-words`.
#![tactic(auto)]

mod asked;
mod boot_story;
mod call;
mod file_kind;
mod heard;
mod image;
mod kept_files;
mod kept_lines;
mod kept_text;
mod kind;
mod limit_mistake;
mod line_mistake;
mod listening;
mod mistake;
mod noted_volumes;
mod plan_mistake;
mod program;
mod refusals;
mod rule;
mod scriptless;
mod shape;
mod starts;
mod version;

pub use asked::{Asked, asked_by_person};
pub use boot_story::{RefusedMemory, count_behind, first_behind, lost_drivers, refused_memory};
pub use call::Call;
pub use file_kind::{FileKind, kind_of_file};
pub use heard::Heard;
pub use kept_files::{AskedFile, Keeping, KeptFiles};
pub use kept_lines::KeptLines;
pub use kept_text::KeptText;
pub use kind::Kind;
pub use mistake::Mistake;
pub use mod_catalog::MOST_VOLUMES;
pub use noted_volumes::{NotedVolume, NotedVolumes, has_start};
pub use plan_mistake::{line_at, mistake_in};
pub use program::{Program, text_of};
pub use rule::Rule;
pub use scriptless::Scriptless;
pub use starts::{Starts, starts_in};
