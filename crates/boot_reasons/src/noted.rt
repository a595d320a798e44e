// GUIDs, each noted once.
ghost use Rattle.std.specs.Prelude.{◌≡◌, [], OnOk};
ghost use Rattle.boot_reasons.specs.Asked.{is_among};
ghost use Rattle.boot_reasons.specs.NotedOnce.{AreSeen, once_more, noted_all, noted_code, pushed_one};

use depex_code::Opcode;
use pi_base::{Guid, GuidMap, OutOfMemory, Seq};
use std::alloc::Global;

/// GUIDs, each once, in the order in which they came first.
#[derive(Drop)]
pub(crate) struct Noted {
    pub(crate) guids: Seq<Guid>,
    /// Found without a walk, however many an expression pushes.
    pub(crate) seen: GuidMap<bool>,
}

impl Noted {
    /// None.
    pub(crate) fn new(alloc: Global) -> Noted
        ensures none { result.guids ≡ [] }
        ensures seen { AreSeen result }
    {
        Noted {
            guids: Seq::new(alloc),
            seen: GuidMap::new(alloc),
        }
    }

    /// Whether a GUID was noted.
    pub(crate) fn has(&self, guid: &Guid) -> bool
        requires seen { AreSeen self.now }
        ensures { result ≡ is_among guid.now self.now.guids }
    {
        self.seen.contains_key(guid)
    }

    /// Notes a GUID, unless it was noted before.
    pub(crate) fn note(&mut self, guid: &Guid) -> Result<(), OutOfMemory>
        requires seen { AreSeen self.old }
        ensures noted { OnOk result (self.new.guids ≡ once_more self.old.guids guid.now) }
        ensures seen { OnOk result (AreSeen self.new) }
    {
        if self.has(guid) {
            return Ok(());
        }
        self.seen.insert(*guid, true)?;
        self.guids.push(*guid)?;
        Ok(())
    }

    /// Notes these GUIDs, one behind the other.
    pub(crate) fn note_all(&mut self, guids: &[Guid]) -> Result<(), OutOfMemory>
        requires seen { AreSeen self.old }
        ensures noted { OnOk result (self.new.guids ≡ noted_all self.old.guids guids.now) }
        ensures seen { OnOk result (AreSeen self.new) }
    {
        let mut rest = guids;
        'guids: while let [guid, after @ ..] = rest {
            self.note(guid)?;
            rest = after;
        }
        Ok(())
    }

    // Notes the GUID that an opcode pushes.
    fn note_pushed(&mut self, opcode: &Opcode) -> Result<(), OutOfMemory>
        requires seen { AreSeen self.old }
        ensures noted { OnOk result (self.new.guids ≡ noted_all self.old.guids (pushed_one opcode.now)) }
        ensures seen { OnOk result (AreSeen self.new) }
    {
        match opcode {
            Opcode::Push(guid) => self.note(guid),
            _ => Ok(()),
        }
    }

    /// Notes the GUIDs that opcodes push, one behind the other.
    pub(crate) fn note_code(&mut self, code: &[Opcode]) -> Result<(), OutOfMemory>
        requires seen { AreSeen self.old }
        ensures noted { OnOk result (self.new.guids ≡ noted_code self.old.guids code.now) }
        ensures seen { OnOk result (AreSeen self.new) }
    {
        let mut rest = code;
        'opcodes: while let [opcode, after @ ..] = rest {
            self.note_pushed(opcode)?;
            rest = after;
        }
        Ok(())
    }
}
