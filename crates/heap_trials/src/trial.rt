// A trial of both stores.
ghost use Rattle.store_model.specs.{Service.Present, StoreCall.Anything};

use crate::acts::{Act, are_done};
use crate::board::{lists_over, store_over};
use crate::refusals::{Row, is_so};
use crate::scene::lay;
use crate::steps::{Step, are_answered};
use boot_plan::MOST_TEMP;
use pi_base::OutOfMemory;
use std::alloc::Global;
use store_model::PeiStore;

/// What is tried in a store.
#[derive(Drop)]
pub(crate) enum Case<'a> {
    /// Steps over an empty heap.
    Steps(&'a [Step]),
    /// Calls over the scene, and then steps.
    Scene(&'a [Act], &'a [Step]),
    /// A call over the scene at a stage.
    At(&'a Row),
}

/// The bytes of temporary RAM, how many of its last bytes are for early pages, and what is tried.
pub(crate) type Trial<'a> = (u64, u64, Case<'a>);

fn run<S: PeiStore>(store: &mut S, case: &Case<'_>) -> bool
    requires { Present (S.stands_for store.old) Anything }
{
    match case {
        Case::Steps(steps) => are_answered(store, steps),
        Case::Scene(acts, steps) => {
            lay(store) && are_done(store, acts) && are_answered(store, steps)
        }
        Case::At(row) => lay(store) && is_so(store, row),
    }
}

// The same in a store, which is handed on whole: each exit of an owner is expensive to prove.
fn over<S: PeiStore + Drop>(mut store: S, case: &Case<'_>) -> bool
    requires { Present (S.stands_for store) Anything }
{
    run(&mut store, case)
}

/// Whether both stores answer so. Only this function owns a store.
pub(crate) fn passes(alloc: Global, trial: &Trial<'_>) -> Result<bool, OutOfMemory> {
    let (len, early, case) = trial;
    let (len, early) = (*len, *early);
    if len < 64 || len > MOST_TEMP || early > len - 64 {
        return Ok(false);
    }
    let lists = over(lists_over(alloc, len, early)?, case);
    let memory = over(store_over(alloc, len, early)?, case);
    Ok(lists && memory)
}

/// Whether all pass.
pub(crate) fn all_pass(alloc: Global, trials: &[Trial<'_>]) -> Result<bool, OutOfMemory> {
    for trial in trials {
        if !passes(alloc, trial)? {
            return Ok(false);
        }
    }
    Ok(true)
}
