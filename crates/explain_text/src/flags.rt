// Which modules started in a phase, and which wait.
ghost use Rattle.std.specs.Prelude.{◌≡◌, replicate, IfOk, false};
ghost use Rattle.explain_text.specs.Flags.{AddsHeld, AreStarted, flag, marked, same_phase};

use crate::reasons::{Begun, Held};
use pi_base::{OutOfMemory, Phase, Seq};
use std::alloc::Global;

/// Whether two phases are the same.
pub(crate) fn same_phase(a: Phase, b: Phase) -> bool
    ensures { result ≡ same_phase a b }
{
    match (a, b) {
        (Phase::Pei, Phase::Pei) | (Phase::Dxe, Phase::Dxe) => true,
        _ => false,
    }
}

// So many flags that are not set.
fn unset(alloc: Global, count: usize) -> Result<Seq<bool>, OutOfMemory>
    ensures { IfOk result (λ flags. flags ≡ replicate count false) }
{
    match vec![in alloc; false; count] {
        Ok(flags) => Ok(Seq::from_vec(flags)),
        Err(_) => Err(OutOfMemory),
    }
}

// Sets the flag of a module that has one.
fn mark(flags: &mut Seq<bool>, number: u32)
    ensures { flags.new ≡ marked number flags.old }
{
    if (number as usize) < flags.len() {
        flags.set(number as usize, true);
    }
}

/// The flag of a module.
pub(crate) fn flag(flags: &[bool], number: u32) -> bool
    ensures { result ≡ flag flags.now number }
{
    match flags.get(number as usize) {
        Some(set) => *set,
        None => false,
    }
}

/// Which of so many modules started in a phase.
pub(crate) fn started(
    alloc: Global,
    begun: &[Begun],
    phase: Phase,
    count: usize,
) -> Result<Seq<bool>, OutOfMemory>
    ensures { IfOk result (AreStarted begun.now phase count) }
{
    let mut flags = unset(alloc, count)?;
    'starts: for start in begun {
        if same_phase(start.phase, phase) {
            mark(&mut flags, start.number);
        }
    }
    Ok(flags)
}

/// Those that wait as well.
pub(crate) fn add_held(flags: &mut Seq<bool>, held: &[Held], phase: Phase)
    ensures { AddsHeld held.now phase flags.old flags.new }
{
    'held: for wait in held {
        if same_phase(wait.phase, phase) {
            mark(flags, wait.number);
        }
    }
}
