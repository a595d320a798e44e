//! The choice by a text: it names the module whose start is the text's next line, and allows each.
ghost use Rattle.recorded_boot.specs.Starting.{NamesNext};

use crate::order::Names;
use crate::trace::Spelled;
use crate::trace::text_start::next_start;
use boot_laws::{Before, Choice};
use pi_base::Phase;

/// The module whose start is the next line of the text with which the boot is compared.
#[derive(Clone, Copy)]
pub struct ByText<'n> {
    /// The names of the modules.
    pub names: &'n Names,
}

// The module whose start in a phase is the next line of a text.
fn named_next(names: &Names, text: &Spelled<'_>, phase: Phase) -> Option<u32>
    ensures { NamesNext phase names.now.volumes.items text.now result }
{
    match next_start(text, phase) {
        Some((volume, name)) => names.number_of(volume, &name),
        None => None,
    }
}

impl<'t> Choice<Spelled<'t>> for ByText<'_> {
    ghost use Rattle.std.specs.Prelude.{◌≡◌, true, false};
    ghost use Rattle.recorded_boot.specs.Starting.{text_rules};

    ghost rules = { λ by. text_rules by.names.now.volumes.items };

    fn wants_turn(&self) -> bool
        ensures { result ≡ false }
    {
        false
    }

    fn peim(&self, sink: &Spelled<'t>, _before: Before) -> Option<u32> {
        named_next(self.names, sink, Phase::Pei)
    }

    fn driver(&self, sink: &Spelled<'t>, _before: Before) -> Option<u32> {
        named_next(self.names, sink, Phase::Dxe)
    }

    fn lets_peim(&self, _before: Before, _number: u32) -> bool
        ensures { result ≡ true }
    {
        true
    }

    fn lets_driver(&self, _before: Before, _number: u32) -> bool
        ensures { result ≡ true }
    {
        true
    }
}
