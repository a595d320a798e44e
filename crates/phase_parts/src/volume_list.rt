//! The volumes that are known, by their numbers.
ghost use Rattle.std.specs.Prelude.{◌≡◌, ◌<◌, ◌++◌, ◌∷◌, [], length, if◌then◌else◌, IfSome, IsTrue};
ghost use Rattle.mod_catalog.specs.{Parts.has_number, WellFormed.IsWellFormed, declared.catalogue.Catalog.Catalog};
ghost use Rattle.boot_model.specs.{Reporting.newcomers, Discovery.discoveries};
ghost use Rattle.phase_parts.specs.Known.{AreKnown, MayCome, with_new};

use crate::family::family_of;
use crate::mapped::volume_at;
use arrayvec::ArrayVec;
use mod_catalog::{Catalog, MOST_VOLUMES};
use std::marker::Model;

/// Numbers of volumes in the order in which they became known.
#[derive(Drop)]
pub struct VolumeList {
    numbers: ArrayVec<u32, MOST_VOLUMES>,
}

impl Model for VolumeList {
    ghost use Rattle.std.specs.Prelude.{ℕ, List};

    ghost Value = { List ℕ };

    ghost view = { λ list. list.numbers.items };
}

impl VolumeList {
    /// No volume.
    pub fn new() -> VolumeList
        ensures { result ≡ [] }
    {
        VolumeList {
            numbers: ArrayVec::new(),
        }
    }

    /// The numbers of the volumes, in order.
    pub fn as_slice(&self) -> &[u32]
        ensures { result.now ≡ self.now }
    {
        self.numbers.as_slice()
    }

    /// Whether a volume is known.
    pub fn has(&self, number: u32) -> bool
        ensures { result ≡ has_number self.now number }
    {
        self.numbers.as_slice().contains(&number)
    }

    // Adds a number at the end, if it is wanted.
    pub(crate) fn push_where(&mut self, is_wanted: bool, number: u32)
        requires room { IsTrue is_wanted → length self.old < MOST_VOLUMES }
        ensures { self.new ≡ (if is_wanted then self.old ++ number ∷ [] else self.old) }
    {
        if is_wanted {
            self.numbers.push(number);
        }
    }

    // Puts each of these numbers that is new at the end: volumes of a catalogue.
    fn add_each(&mut self, numbers: &[u32])
        requires known { (catalog : Catalog) × MayCome catalog self.old numbers.now }
        ensures added { self.new ≡ with_new self.old numbers.now }
        ensures known { (catalog : Catalog) → MayCome catalog self.old numbers.now → AreKnown catalog self.new }
    {
        'volumes: for number in numbers {
            let is_new = !self.has(*number);
            self.push_where(is_new, *number);
        }
    }

    /// Adds a volume of the catalogue, if it is new, and after it each new volume nested in it.
    pub fn add(&mut self, catalog: &Catalog, volume: Option<u32>)
        requires catalog { IsWellFormed catalog.now }
        requires known { AreKnown catalog.now self.old }
        requires volume { IfSome volume (λ number. number < length catalog.now.volumes) }
        ensures added { self.new ≡ self.old ++ newcomers catalog.now self.old volume }
        ensures known { AreKnown catalog.now self.new }
    {
        if let Some(number) = volume {
            let is_new = !self.has(number);
            if is_new {
                let family = family_of(catalog, number);
                self.add_each(family.as_slice());
            }
        }
    }

    /// Adds the volumes at these bases, one base after the other, each with the volumes nested in it.
    pub fn discover(&mut self, catalog: &Catalog, bases: &[u64])
        requires catalog { IsWellFormed catalog.now }
        requires known { AreKnown catalog.now self.old }
        ensures discovered { self.new ≡ self.old ++ discoveries catalog.now self.old bases.now }
        ensures known { AreKnown catalog.now self.new }
    {
        'bases: for base in bases {
            self.add(catalog, volume_at(catalog, *base));
        }
    }
}
