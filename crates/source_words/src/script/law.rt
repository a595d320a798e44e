// The law of printed actions.
ghost use Rattle.std.specs.Prelude.{◌≡◌, true, Ok};
ghost use Rattle.hex.specs.Hex.{IsBytes};
ghost use Rattle.pi_base.specs.declared.phase.Phase.{Phase};
ghost use Rattle.act_code.specs.{declared.action.Action.Action, Index.is_indexed, Script.IsAction, Script.operand_bytes};
ghost use Rattle.asm_text.specs.ActionText.{action_text};
ghost use Rattle.source_words.specs.Action.{action_of};

/// The line that `asm_text` prints of an action of a phase is read as it.
pub fn printed_actions()
    ensures { (phase : Phase) (action : Action) → IsAction phase action → is_indexed 64 action ≡ true → IsBytes (operand_bytes action)
        → action_of phase (action_text action) ≡ Ok action }
{}
