// Scripts.
use crate::action::Action;
use pi_base::{Phase, Seq};

/// A script of actions (own). Block 0 runs when the module starts, and other blocks run as notifications.
pub struct Script {
    /// The phase whose actions it has.
    pub phase: Phase,
    /// 1 to 64 blocks, each of 1 to 1,024 actions.
    pub blocks: Seq<Seq<Action>>,
}

// One drop function for all scripts keeps the proofs of the calls that own one small.
impl Drop for Script {
    fn drop(self) {
        let Script {
            phase: _,
            blocks: _,
        } = self;
    }
}
