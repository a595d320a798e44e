//! The MP services as a machine over a list of events, with the text of such a list and of the outcome (PI 1.8, volume 2, "MP Services Protocol"; the texts are
//! own). `run` returns the reply to each call, and what the jobs of the application processors leave in memory, in whatever order the processors proceed. Begin
//! with `event` and `running`.
//!
//! Tested in `text_trials`: `processors`.
#![tactic(auto)]

mod event;
mod event_line;
mod fault;
mod file;
mod head;
mod job;
mod keyword;
mod laws;
mod limits;
mod lines;
mod machine;
mod needs;
mod op;
mod outcome;
mod print;
mod processor;
mod reply;
mod running;
mod services;
mod status;
mod word;

pub use event::MpEvent;
pub use fault::MpFault;
pub use file::{MpFile, read_mp};
pub use laws::{each_call_is_answered, jobs_in_order, one_reading};
pub use limits::{MOST_CELLS, MOST_OPS, MOST_PROCESSORS};
pub use needs::events_fit;
pub use op::Op;
pub use print::{put_bad_line, put_outcome};
pub use reply::{MpOutcome, MpReply, MpWord};
pub use running::run;
