// The start of a module.
ghost use Rattle.std.specs.Prelude.{◌≡◌, ◌<◌, [], length};
ghost use Rattle.boot_model.specs.PeimState.{state_at};
ghost use Rattle.pi_base.specs.declared.phase.Phase.TheVariants.{Pei as InPei};
ghost use Rattle.phase_parts.specs.Found.{blocks_of, has_block};
ghost use Rattle.pei_core.specs.Cores.{with_started};

use crate::core_state::Core;
use mod_catalog::Catalog;
use phase_parts::begin_script;
use pi_base::Phase;

impl Core {
    /// A module starts if no script runs, and its script begins. Whether it has one.
    pub(crate) fn start(&mut self, catalog: &Catalog, number: u32) -> bool
        requires idle { self.old.frames ≡ [] }
        requires here { number < length self.old.states }
        ensures core { self.new ≡ with_started (state_at self.old.states number) number (blocks_of InPei catalog.now number) self.old }
        ensures runs { result ≡ has_block (blocks_of InPei catalog.now number) }
    {
        self.dispatch(number);
        self.sweep = None;
        self.starts = self.starts.saturating_add(1);
        self.last_start = Some(number);
        begin_script(&mut self.frames, catalog, Phase::Pei, number)
    }
}
