//! The scripts that run, one on the other.
ghost use Rattle.std.specs.Prelude.{◌≡◌, ◌<◌, List, [], ◌∷◌, length, nat_le, option_copied};
ghost use Rattle.boot_model.specs.Registers as R;
ghost use Rattle.phase_parts.specs.{Writes.written, Needs.IsWithin};
ghost use Rattle.phase_parts.specs.Frames.{top_of, below_top, past, answered, swept, top_sweep};
ghost use Rattle.boot_model.specs.declared.frame.Frame.{Frame as OfFrame};

use crate::frame::{advance, answer};
use crate::registers::{Writes, number_in};
use arrayvec::ArrayVec;
use boot_model::{Frame, MOST_FRAMES};
use pi_base::Word;
use std::marker::Model;

/// The running scripts, the top one first.
#[derive(Drop)]
pub struct Frames<W> {
    // The top one last.
    items: ArrayVec<Frame<W>, MOST_FRAMES>,
}

impl<W> Model for Frames<W> {
    ghost use Rattle.std.specs.Prelude.{List, reverse};
    ghost use Rattle.boot_model.specs.declared.frame.Frame.{Frame};

    ghost Value = { List (Frame W) };

    ghost view = { λ f. reverse f.items.items };
}

impl<W: Copy> Frames<W> {
    /// No running script.
    pub fn new() -> Frames<W>
        ensures { result ≡ [] }
    {
        Frames {
            items: ArrayVec::new(),
        }
    }

    /// The top frame.
    pub fn top(&self) -> Option<&Frame<W>>
        ensures { option_copied result ≡ top_of self.now }
    {
        self.items.as_slice().last()
    }

    /// Whether the most frames are running.
    pub fn is_full(&self) -> bool
        ensures { result ≡ nat_le MOST_FRAMES (length self.now) }
    {
        self.items.is_full()
    }

    /// A script begins, in a new top frame.
    pub fn begin(&mut self, frame: Frame<W>)
        requires { length self.old < MOST_FRAMES }
        ensures { self.new ≡ frame ∷ self.old }
    {
        self.items.push(frame);
    }

    /// The top frame ends.
    pub fn end(&mut self)
        ensures { self.new ≡ below_top self.old }
    {
        self.items.pop();
    }

    /// The call of the top frame has visited what is before this.
    pub fn keep_sweep(&mut self, sweep: W)
        ensures { self.new ≡ swept self.old sweep }
    {
        if let Some(top) = self.items.as_mut_slice().last_mut() {
            top.sweep = Some(sweep);
        }
    }

    /// What the call of the top frame still has to visit.
    pub fn sweep(&self) -> Option<W>
        ensures { result ≡ top_sweep self.now }
    {
        match self.top() {
            Some(frame) => frame.sweep,
            None => None,
        }
    }

    /// Moves the top frame past its action and `n` more.
    pub fn advance(&mut self, n: u8)
        requires { IsWithin self.old }
        ensures { (frame : OfFrame W) (below : List (OfFrame W)) → self.old ≡ frame ∷ below → self.new ≡ past frame n ∷ below }
    {
        if let Some(top) = self.items.as_mut_slice().last_mut() {
            advance(top, n);
        }
    }

    /// Writes the registers of the top frame's action, sets its status, and records what its call still has to visit.
    pub fn answer(&mut self, writes: &Writes, status: Word, sweep: Option<W>)
        requires { IsWithin self.old }
        ensures { (frame : OfFrame W) (below : List (OfFrame W)) → self.old ≡ frame ∷ below
            → self.new ≡ answered frame (written frame.registers writes.now) status sweep ∷ below }
    {
        if let Some(top) = self.items.as_mut_slice().last_mut() {
            answer(top, writes, status, sweep);
        }
    }

    /// The status of the top frame's last call.
    pub fn last(&self) -> Word
        ensures { (frame : OfFrame W) (below : List (OfFrame W)) → self.now ≡ frame ∷ below → result ≡ frame.last }
    {
        match self.top() {
            Some(frame) => frame.last,
            None => Word::Success,
        }
    }

    // The number in a register of the top one.
    pub(crate) fn number_in(&self, r: u8) -> Option<u64>
        ensures { (frame : OfFrame W) (below : List (OfFrame W)) → self.now ≡ frame ∷ below → result ≡ R.number_in frame.registers r }
    {
        match self.top() {
            Some(frame) => number_in(&frame.registers, r),
            None => None,
        }
    }
}
