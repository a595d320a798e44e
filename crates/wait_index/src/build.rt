// The index of a catalogue is made. After this nothing takes memory.
ghost use Rattle.std.specs.Prelude.{◌≡◌, ◌≤◌, [], false, length, replicate, IfOk, OnOk};
ghost use Rattle.pi_base.specs.{declared.guid.Guid.Guid, Lists.EachPair, GuidMap.value_of};
ghost use Rattle.boot_model.specs.declared.known_guid.TheConstants.{ARCHITECTURAL};
ghost use Rattle.mod_catalog.specs.{WellFormed.IsWellFormed, declared.limits.TheConstants.MOST_MODULES};
ghost use Rattle.wait_index.specs.Index.{IsIndex, AreWatched, order_in, owed, has_in};
ghost use Rattle.wait_index.specs.Installed.{is_there};
ghost use Rattle.wait_index.specs.Watching.{IsNumbering, Covers, modules_push};

use crate::index::WaitIndex;
use crate::installed::Installed;
use crate::place_set::unset;
use crate::places::Places;
use crate::watch::{Watch, note_modules};
use boot_model::ARCHITECTURAL;
use mod_catalog::Catalog;
use pi_base::{OutOfMemory, Phase, Seq};
use std::alloc::Global;

// In DXE the architectural protocols have slots; these are their slots.
fn protocols_of(alloc: Global, watch: &mut Watch, phase: Phase) -> Result<Seq<usize>, OutOfMemory>
    requires { IsNumbering watch.old }
    ensures numbering { OnOk result (IsNumbering watch.new) }
    ensures kept { OnOk result (Covers (λ guid. false) watch.old watch.new) }
    ensures slots { IfOk result (λ slots. phase ≡ Phase.Dxe → EachPair (λ guid slot. value_of watch.new.slots guid ≡ Some slot)
        ARCHITECTURAL slots) }
{
    match phase {
        Phase::Pei => Ok(Seq::new(alloc)),
        Phase::Dxe => watch.number_guids(alloc, &ARCHITECTURAL),
    }
}

// Each GUID that the parts push has a slot; these are the slots of the architectural protocols, and a flag for each slot.
fn numbered(
    alloc: Global,
    watch: &mut Watch,
    catalog: &Catalog,
    phase: Phase,
) -> Result<(Seq<usize>, Seq<bool>), OutOfMemory>
    requires { IsNumbering watch.old }
    ensures numbering { OnOk result (IsNumbering watch.new) }
    ensures covers { OnOk result (Covers (λ guid. modules_push phase guid catalog.now.modules) watch.old watch.new) }
    ensures slots { IfOk result (λ made. phase ≡ Phase.Dxe → EachPair (λ guid slot. value_of watch.new.slots guid ≡ Some slot)
        ARCHITECTURAL made.0) }
    ensures there { IfOk result (λ made. made.1 ≡ replicate (length watch.new.watchers) false) }
{
    watch.number_modules(alloc, phase, catalog.modules.as_slice())?;
    let protocols = protocols_of(alloc, watch, phase)?;
    let there = unset(alloc, watch.watchers.len())?;
    Ok((protocols, there))
}

// Each GUID that the parts push has a slot, with the modules that push it.
fn watched(
    alloc: Global,
    catalog: &Catalog,
    phase: Phase,
) -> Result<(Installed, Seq<Seq<u32>>), OutOfMemory>
    requires { length catalog.now.modules ≤ MOST_MODULES }
    ensures watched { IfOk result (λ made. AreWatched phase catalog.now made.0 made.1) }
    ensures nothing { IfOk result (λ made. (guid : Guid) → is_there made.0 guid ≡ false) }
{
    let mut watch = Watch::new(alloc);
    let Ok((protocols, there)) = numbered(alloc, &mut watch, catalog, phase) else {
        return Err(OutOfMemory);
    };
    let Watch { slots, watchers } = watch;
    let mut lists = watchers.into_vec();
    let Ok(()) = note_modules(&mut lists, &slots, phase, catalog.modules.as_slice()) else {
        return Err(OutOfMemory);
    };
    let installed = Installed {
        slots,
        there,
        protocols,
    };
    Ok((installed, Seq::from_vec(lists)))
}

impl WaitIndex {
    /// The index of a catalogue's parts of a phase. No volume is known in it yet, and no GUID is installed.
    pub fn build(alloc: Global, catalog: &Catalog, phase: Phase) -> Result<WaitIndex, OutOfMemory>
        requires { IsWellFormed catalog.now }
        ensures index { IfOk result (IsIndex catalog.now) }
        ensures phase { IfOk result (λ index. index.phase ≡ phase) }
        ensures empty { IfOk result (λ index. order_in index ≡ []) }
        ensures nothing { IfOk result (λ index. (guid : Guid) → has_in index guid ≡ false) }
        ensures owed { IfOk result (λ index. owed index ≡ 0) }
    {
        let (installed, watchers) = watched(alloc, catalog, phase)?;
        let Ok(places) = Places::new(alloc, catalog.modules.len()) else {
            return Err(OutOfMemory);
        };
        Ok(WaitIndex {
            phase,
            installed,
            watchers,
            places,
        })
    }
}
