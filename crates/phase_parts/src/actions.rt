//! The actions that the scripts of both phases have.
ghost use Rattle.std.specs.Prelude.{◌≡◌, ◌≤◌, List, ◌∷◌, length, Some};
ghost use Rattle.pi_base.specs.declared.phase.Phase.{Phase as OfPhase};
ghost use Rattle.boot_model.specs.Registers as R;
ghost use Rattle.phase_parts.specs.{Needs.IsScriptAction, Needs.IsWithin, Took.Took};
ghost use Rattle.phase_parts.specs.Deed.{frame_after, number_added, number_written};
ghost use Rattle.boot_model.specs.declared.frame.Frame.{Frame as OfFrame};

use crate::registers::Writes;
use crate::stack::Frames;
use act_code::Action;
use arrayvec::ArrayVec;
use boot_model::{Line, Register, SHOWN_LEN};
use pi_base::Word;

/// The outcome of an action of the top frame.
#[derive(Drop)]
pub enum Taken {
    /// It is done, and prints nothing.
    Silent,
    /// It is done, and prints a line.
    Prints(Line),
    /// It is an action of one phase alone, and nothing is done.
    Own,
}

// A text that is logged.
fn shown(text: &[u8]) -> ArrayVec<u8, SHOWN_LEN>
    requires { length text.now ≤ 64 }
    ensures { result.items ≡ text.now }
{
    let mut shown = ArrayVec::new();
    shown.try_extend_from_slice(text).unwrap();
    shown
}

// How many actions a skip passes.
fn skipped(last: Word, condition: u8, n: u8) -> u8
    ensures { result ≡ R.skipped last condition n }
{
    if (last == Word::Success) == (condition == 0) {
        n
    } else {
        0
    }
}

// The action `set`.
fn set_number<W: Copy>(frames: &mut Frames<W>, r: u8, n: u64)
    requires { IsWithin frames.old }
    ensures { (frame : OfFrame W) (below : List (OfFrame W)) → frames.old ≡ frame ∷ below
        → frames.new ≡ frame_after frame (number_written frame.registers r (Some n)) ∷ below }
{
    frames.answer(&Writes::one(r, Register::Number(n)), Word::Success, None);
}

// The action `add`.
fn add_number<W: Copy>(frames: &mut Frames<W>, r: u8, n: u64)
    requires { IsWithin frames.old }
    ensures { (frame : OfFrame W) (below : List (OfFrame W)) → frames.old ≡ frame ∷ below
        → frames.new ≡ frame_after frame (number_added frame.registers r n) ∷ below }
{
    match frames.number_in(r) {
        Some(old) => set_number(frames, r, old.wrapping_add(n)),
        None => frames.answer(&Writes::Nothing, Word::InvalidParameter, None),
    }
}

/// Takes an action in the top frame, if both phases have the action.
pub fn take_action<W: Copy>(frames: &mut Frames<W>, action: &Action) -> Taken
    requires action { (phase : OfPhase) × IsScriptAction phase action.now }
    requires place { IsWithin frames.old }
    ensures { (frame : OfFrame W) (below : List (OfFrame W)) → frames.old ≡ frame ∷ below → Took frame below action.now result frames.new }
{
    match action {
        Action::Set { r, n } => {
            set_number(frames, *r, *n);
            Taken::Silent
        }
        Action::Add { r, n } => {
            add_number(frames, *r, *n);
            Taken::Silent
        }
        Action::Log { text } => {
            frames.advance(0);
            Taken::Prints(Line::Log {
                text: shown(text.as_slice()),
            })
        }
        Action::SkipIf { condition, n } => {
            let passed = skipped(frames.last(), *condition, *n);
            frames.advance(passed);
            Taken::Silent
        }
        Action::Ret { status } => {
            frames.end();
            Taken::Prints(Line::End { status: *status })
        }
        _ => Taken::Own,
    }
}
