//! The parts of volumes, in order.
ghost use Rattle.std.specs.Prelude.{◌≡◌, ◌≤◌, ◌<◌, ◌++◌, ◌∷◌, [], IsTrue, if◌then◌else◌, length};
ghost use Rattle.mod_catalog.specs.{declared.limits.TheConstants.MOST_MODULES, Parts.parts_in, Parts.rank_at};
ghost use Rattle.boot_model.specs.PeiChoice.{ranked};
ghost use Rattle.phase_parts.specs.Parts.{wanted_in, unranked_parts};

use crate::wanted::{count_parts, is_part_in, is_wanted, ranks_end};
use arrayvec::ArrayVec;
use mod_catalog::{Catalog, MOST_MODULES};
use pi_base::Phase;
use std::marker::Model;

/// The parts of one phase in some volumes, by the numbers of their modules. It has room for the parts of every module, and allocates nothing.
#[derive(Drop)]
pub struct Parts {
    numbers: ArrayVec<u32, MOST_MODULES>,
}

impl Model for Parts {
    ghost use Rattle.std.specs.Prelude.{ℕ, List};

    ghost Value = { List ℕ };

    ghost view = { λ parts. parts.numbers.items };
}

impl Parts {
    /// No parts.
    pub fn new() -> Parts
        ensures { result ≡ [] }
    {
        Parts {
            numbers: ArrayVec::new(),
        }
    }

    /// The numbers of the modules, in order.
    pub fn as_slice(&self) -> &[u32]
        ensures { result.now ≡ self.now }
    {
        self.numbers.as_slice()
    }

    // Adds a number at the end, if it is wanted.
    fn push_where(&mut self, is_wanted: bool, number: u32)
        requires room { IsTrue is_wanted → length self.old < MOST_MODULES }
        ensures { self.new ≡ (if is_wanted then self.old ++ number ∷ [] else self.old) }
    {
        if is_wanted {
            self.numbers.push(number);
        }
    }

    // Adds the parts of a volume with this rank, or without one, at the end.
    fn push_wanted(&mut self, catalog: &Catalog, phase: Phase, volume: u32, wanted: Option<u32>)
        requires few { length catalog.now.modules ≤ MOST_MODULES }
        requires room { length (self.old ++ wanted_in phase wanted catalog.now volume) ≤ MOST_MODULES }
        ensures { self.new ≡ self.old ++ wanted_in phase wanted catalog.now volume }
    {
        let mut number = 0;
        'modules: for module in catalog.modules.as_slice() {
            self.push_where(is_wanted(module, phase, volume, wanted), number);
            number += 1;
        }
    }

    /// Adds the parts of a volume that are in its a priori list at the end, in list order.
    pub fn push_ranked(&mut self, catalog: &Catalog, phase: Phase, volume: u32)
        requires few { length catalog.now.modules ≤ MOST_MODULES }
        requires room { length (self.old ++ ranked (rank_at phase catalog.now) (parts_in phase catalog.now volume)) ≤ MOST_MODULES }
        ensures { self.new ≡ self.old ++ ranked (rank_at phase catalog.now) (parts_in phase catalog.now volume) }
    {
        let count = count_parts(catalog, phase, volume);
        let end = count.min(ranks_end(catalog, phase, volume));
        'ranks: for rank in 0..end as u32 {
            self.push_wanted(catalog, phase, volume, Some(rank));
        }
    }

    /// Adds the parts of a volume that are not in its a priori list at the end, by place.
    pub fn push_unranked(&mut self, catalog: &Catalog, phase: Phase, volume: u32)
        requires few { length catalog.now.modules ≤ MOST_MODULES }
        requires room { length (self.old ++ unranked_parts phase catalog.now volume) ≤ MOST_MODULES }
        ensures { self.new ≡ self.old ++ unranked_parts phase catalog.now volume }
    {
        self.push_wanted(catalog, phase, volume, None);
    }

    /// Adds all parts of a volume at the end, by place.
    pub fn push_all(&mut self, catalog: &Catalog, phase: Phase, volume: u32)
        requires few { length catalog.now.modules ≤ MOST_MODULES }
        requires room { length (self.old ++ parts_in phase catalog.now volume) ≤ MOST_MODULES }
        ensures { self.new ≡ self.old ++ parts_in phase catalog.now volume }
    {
        let mut number = 0;
        'modules: for module in catalog.modules.as_slice() {
            self.push_where(is_part_in(module, phase, volume), number);
            number += 1;
        }
    }
}
