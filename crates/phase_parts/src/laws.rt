// A law of actions.
ghost use Rattle.boot_model.specs.{DxeAction.DxeReply, declared.driver.ProtocolSweep.ProtocolSweep, PeiAction.PeiOwn, PeiAction.Reply};
ghost use Rattle.store_model.specs.declared.store_handle.Sweep.{Sweep};
ghost use Rattle.phase_parts.specs.Alike.{AreAlike};

/// An action that both phases have does the same in each; any other action belongs to one phase.
pub fn effects_are_alike()
    ensures pei { AreAlike Sweep Reply PeiOwn }
    ensures dxe { AreAlike ProtocolSweep DxeReply ⊥ }
{}
