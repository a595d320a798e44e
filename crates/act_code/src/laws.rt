// Laws of scripts and of operands.
ghost use Rattle.std.specs.Prelude.{◌≡◌, ◌⊎◌, ℕ, List, flat_map, filter_map};
ghost use Rattle.pi_base.specs.Field.{AreBytes};
ghost use Rattle.act_code.specs.Operands.{Telling, IsInTurn, told, part_of, action_parts};
ghost use Rattle.act_code.specs.Table.{format_of, code_of_action, operands};
ghost use Rattle.act_code.specs.{Script.IsScript, Script.IsFault, declared.action.Action.Action, declared.action_operands.Operand.Operand};
ghost use Rattle.act_code.specs.{declared.script.Script.Script, declared.fault.ActFault.ActFault};

/// Bytes are one script, or they have one first fault, and never both. So `read_script` reads what `write_script` writes as the same script.
pub fn one_outcome()
    ensures script { (bytes : List ℕ) (s t : Script) → IsScript bytes s → IsScript bytes t → s ≡ t }
    ensures fault { (bytes : List ℕ) (f g : ActFault) → AreBytes bytes → IsFault bytes f → IsFault bytes g → f ≡ g }
    ensures apart { (bytes : List ℕ) (s : Script) (f : ActFault) → AreBytes bytes → IsScript bytes s → IsFault bytes f → ⊥ }
    ensures one { (bytes : List ℕ) → AreBytes bytes → ((s : Script) × IsScript bytes s) ⊎ ((f : ActFault) × IsFault bytes f) }
{}

/// What a function of actions says is what it says of each operand in turn, if it takes one operand after another.
pub fn operand_by_operand()
    ensures { (tell : Telling) → IsInTurn tell → (action : Action) (given : List Operand) → filter_map part_of given ≡ action_parts action
        → flat_map (told tell) given ≡ tell (format_of (code_of_action action)) (operands action) }
{}
