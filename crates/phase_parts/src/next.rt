//! The next action of the top frame.
ghost use Rattle.std.specs.Prelude.{◌≡◌, ◌<◌, List, ◌∷◌, IfSome, OnSome, length, option_copied};
ghost use Rattle.mod_catalog.specs.WellFormed.{IsWellFormed};
ghost use Rattle.phase_parts.specs.{Acted.HasActed, Found.found_action, Needs.IsScriptAction, Needs.IsWithin};
ghost use Rattle.boot_model.specs.declared.frame.Frame.{Frame as OfFrame};

use crate::actions::{Taken, take_action};
use crate::found::action_at;
use crate::fuel::Fuel;
use crate::stack::Frames;
use act_code::Action;
use boot_model::Line;
use mod_catalog::Catalog;
use pi_base::{Phase, Word};

/// The outcome of the top frame's next action.
#[derive(Drop)]
pub enum Acted<'a> {
    /// No fuel is left, and nothing is done.
    Spent,
    /// It is done, and prints nothing.
    Silent,
    /// It is done, and prints a line.
    Prints(Line),
    /// It is an action of this phase alone, which is counted and is still to be taken.
    Own(&'a Action),
}

// The next action of the top frame.
fn next_action<'a, W: Copy>(
    frames: &Frames<W>,
    catalog: &'a Catalog,
    phase: Phase,
) -> Option<&'a Action>
    requires catalog { IsWellFormed catalog.now }
    ensures found { (frame : OfFrame W) (below : List (OfFrame W)) → frames.now ≡ frame ∷ below
        → option_copied result ≡ found_action phase catalog.now frame }
    ensures fits { IfSome result (λ action. IsScriptAction phase action.now) }
    ensures place { OnSome result (IsWithin frames.now) }
    ensures here { (frame : OfFrame W) (below : List (OfFrame W)) → frames.now ≡ frame ∷ below
        → OnSome result (frame.module_number < length catalog.now.modules) }
{
    match frames.top() {
        Some(frame) => action_at(catalog, phase, frame),
        None => None,
    }
}

/// Takes the next action of the top frame, if there is fuel left and both phases have the action.
pub fn act<'a, W: Copy>(
    frames: &mut Frames<W>,
    fuel: &mut Fuel,
    catalog: &'a Catalog,
    phase: Phase,
) -> Acted<'a>
    requires catalog { IsWellFormed catalog.now }
    ensures { (frame : OfFrame W) (below : List (OfFrame W)) → frames.old ≡ frame ∷ below
        → HasActed phase catalog.now frame below fuel.old result fuel.new frames.new }
{
    if !fuel.spend() {
        return Acted::Spent;
    }
    match next_action(frames, catalog, phase) {
        None => {
            frames.end();
            Acted::Prints(Line::End {
                status: Word::Success,
            })
        }
        Some(action) => match take_action(frames, action) {
            Taken::Silent => Acted::Silent,
            Taken::Prints(line) => Acted::Prints(line),
            Taken::Own => Acted::Own(action),
        },
    }
}
