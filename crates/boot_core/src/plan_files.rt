//! A plan and its volumes, from their files.
//!
//! Tried in `boot_trials`: `tests`.

mod job;
mod reading;

pub use job::{Job, PLAN_LIMIT, job_of, read_job};
pub use reading::{NoJob, read_file};
