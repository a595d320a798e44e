// Which modules have a part of a phase in a volume, and with which rank.
ghost use Rattle.std.specs.Prelude.{◌≡◌, ◌≤◌, ◌+◌, [], ℕ, Some, false, length, option_copied};
ghost use Rattle.mod_catalog.specs.declared.limits.TheConstants.{MOST_MODULES};
ghost use Rattle.mod_catalog.specs.Parts as P;
ghost use Rattle.phase_parts.specs.Parts as W;

use mod_catalog::{Catalog, Module, Part};
use pi_base::Phase;

// The part that a module has for a phase.
fn part_of(member: &Module, phase: Phase) -> Option<&Part>
    ensures { option_copied result ≡ P.part_of phase member.now }
{
    match phase {
        Phase::Pei => member.pei.as_ref(),
        Phase::Dxe => member.dxe.as_ref(),
    }
}

/// Whether a module has a part of a phase in a volume.
pub(crate) fn is_part_in(member: &Module, phase: Phase, volume: u32) -> bool
    ensures { result ≡ P.is_part_in phase volume member.now }
{
    member.volume == volume && part_of(member, phase).is_some()
}

/// Whether a module has a part of a phase in a volume, with this rank, or without one if `wanted` is None.
pub(crate) fn is_wanted(member: &Module, phase: Phase, volume: u32, wanted: Option<u32>) -> bool
    ensures { result ≡ W.is_wanted phase wanted volume member.now }
{
    match part_of(member, phase) {
        Some(part) => member.volume == volume && part.rank == wanted,
        None => false,
    }
}

/// How many parts of a phase a volume has.
pub(crate) fn count_parts(catalog: &Catalog, phase: Phase, volume: u32) -> u64
    requires { length catalog.now.modules ≤ MOST_MODULES }
    ensures count { result ≡ length (P.parts_in phase catalog.now volume) }
    ensures few { result ≤ length catalog.now.modules }
{
    let mut count = 0;
    'modules: for module in catalog.modules.as_slice() {
        count += u64::from(is_part_in(module, phase, volume));
    }
    count
}

// One more than the rank of a module's part in a volume. 0 if it has no rank there.
fn rank_end(member: &Module, phase: Phase, volume: u32) -> u64
    ensures { (rank : ℕ) → result ≤ rank → W.is_wanted phase (Some rank) volume member.now ≡ false }
{
    match part_of(member, phase) {
        Some(part) if member.volume == volume => match part.rank {
            Some(rank) => u64::from(rank) + 1,
            None => 0,
        },
        _ => 0,
    }
}

/// One more than the last rank of a volume's parts. 0 if no part has a rank.
pub(crate) fn ranks_end(catalog: &Catalog, phase: Phase, volume: u32) -> u64
    ensures { (rank : ℕ) → result ≤ rank → W.wanted_in phase (Some rank) catalog.now volume ≡ [] }
{
    let mut end = 0;
    'modules: for module in catalog.modules.as_slice() {
        end = rank_end(module, phase, volume).max(end);
    }
    end
}
