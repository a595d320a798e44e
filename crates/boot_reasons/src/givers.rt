// Who has which GUIDs installed.
ghost use Rattle.std.specs.Prelude.{◌≡◌, [], ◌∷◌, OnOk};
ghost use Rattle.pi_base.specs.declared.guid.Guid.{Guid as OfGuid};
ghost use Rattle.boot_reasons.specs.Givers.{actor_by};
ghost use Rattle.boot_reasons.specs.Noting.{AreNoted, giver_behind, giver_in};
ghost use Rattle.explain_text.specs.declared.reasons.Giver.TheVariants.{Absent};

use depex_code::GuidSet;
use explain_text::Giver;
use pi_base::{Guid, GuidMap, OutOfMemory};
use std::alloc::Global;

/// Who makes a step, by the module whose script runs.
pub(crate) fn actor(running: Option<u32>) -> Giver
    ensures { result ≡ actor_by running }
{
    match running {
        Some(number) => Giver::Module(number),
        None => Giver::Core,
    }
}

// Who has a GUID installed behind a step, by who had it before, whether it is there, and who made the step.
fn giver_behind(before: Giver, there: bool, actor: Giver) -> Giver
    ensures { result ≡ giver_behind before there actor }
{
    if !there {
        return Giver::Absent;
    }
    match before {
        Giver::Absent => actor,
        _ => before,
    }
}

/// Who has which GUIDs installed.
#[derive(Drop)]
pub(crate) struct Givers {
    pub(crate) map: GuidMap<Giver>,
}

impl Givers {
    /// Nobody has any.
    pub(crate) fn new(alloc: Global) -> Givers
        ensures { (guid : OfGuid) → giver_in result.map guid ≡ Absent }
    {
        Givers {
            map: GuidMap::new(alloc),
        }
    }

    /// Who has a GUID installed.
    pub(crate) fn of(&self, guid: &Guid) -> Giver
        ensures { result ≡ giver_in self.now.map guid.now }
    {
        match self.map.get(guid) {
            Some(giver) => giver,
            None => Giver::Absent,
        }
    }

    /// Notes a GUID behind a step of which this is the set of what is installed, made by an actor.
    pub(crate) fn note<G: GuidSet>(
        &mut self,
        guid: &Guid,
        set: &G,
        actor: Giver,
    ) -> Result<(), OutOfMemory>
        requires order { G.in_order set.now }
        ensures { OnOk result (AreNoted (G.has_guid set.now) actor (guid.now ∷ []) self.old.map self.new.map) }
    {
        let giver = giver_behind(self.of(guid), set.has(guid), actor);
        self.map.insert(*guid, giver)
    }

    /// Notes these GUIDs.
    pub(crate) fn note_all<G: GuidSet>(
        &mut self,
        guids: &[Guid],
        set: &G,
        actor: Giver,
    ) -> Result<(), OutOfMemory>
        requires order { G.in_order set.now }
        ensures { OnOk result (AreNoted (G.has_guid set.now) actor guids.now self.old.map self.new.map) }
    {
        let mut rest = guids;
        'guids: while let [guid, after @ ..] = rest {
            self.note(guid, set, actor)?;
            rest = after;
        }
        Ok(())
    }
}
