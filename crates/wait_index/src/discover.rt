// The parts of a volume come.
ghost use Rattle.std.specs.Prelude.{◌≡◌, ◌≤◌, ◌<◌, ◌+◌, ◌++◌, length};
ghost use Rattle.mod_catalog.specs.{WellFormed.IsWellFormed, Parts.part_at};
ghost use Rattle.boot_model.specs.Licence.{AllDiffer};
ghost use Rattle.pi_base.specs.Lists.{Each};
ghost use Rattle.wait_index.specs.Discovery.{HaveCome, opens};
ghost use Rattle.wait_index.specs.Index.{IsIndex, order_in, owed};

use crate::index::WaitIndex;
use depex_code::Depex;
use mod_catalog::{Catalog, PartExpr};
use phase_parts::part_of;
use pi_base::Phase;

// Whether the part of a module is open when it comes: a driver with SOR is not.
fn opens(phase: Phase, catalog: &Catalog, number: u32) -> bool
    ensures { result ≡ opens phase (part_at phase catalog.now number) }
{
    match phase {
        Phase::Pei => true,
        Phase::Dxe => match part_of(catalog, phase, number) {
            Some(part) => match &part.expr {
                PartExpr::Absent => true,
                PartExpr::Malformed(_) => true,
                PartExpr::Held(Depex::Before(_)) => true,
                PartExpr::Held(Depex::After(_)) => true,
                PartExpr::Held(Depex::Expr { sor, .. }) => !*sor,
            },
            None => true,
        },
    }
}

impl WaitIndex {
    /// Adds these parts after the others: those of a volume, in the order in which the phase reads them. Nothing is evaluated yet.
    pub fn discover(&mut self, catalog: &Catalog, parts: &[u32])
        requires index { IsIndex catalog.now self.old }
        requires catalog { IsWellFormed catalog.now }
        requires known { Each (λ number. number < length catalog.now.modules) parts.now }
        requires differ { AllDiffer (order_in self.old ++ parts.now) }
        ensures index { IsIndex catalog.now self.new }
        ensures come { HaveCome self.old.phase catalog.now parts.now self.old.places self.new.places }
        ensures phase { self.new.phase ≡ self.old.phase }
        ensures installed { self.new.installed ≡ self.old.installed }
        ensures owed { owed self.new ≤ owed self.old + length parts.now }
    {
        'parts: for number in parts {
            let is_open = opens(self.phase, catalog, *number);
            self.places.add(*number, is_open);
        }
    }
}
