// The modules without a script, noted as the volumes of a plan are read.
ghost use Rattle.std.specs.Prelude.{◌≡◌, List, IfOk, IfSome};
ghost use Rattle.mod_catalog.specs.declared.catalogue.Catalog.{Catalog as Catalogue};
ghost use Rattle.program_edge.specs.NotedVolumes.{AreNotedOf, IsNoted, IsNotedOf, driver_volumes, lacks_script, starts_scriptless};

use crate::scriptless::Scriptless;
use boot_io::{FileFault, Files};
use boot_model::Line;
use boot_plan::read_plan;
use mod_catalog::{Catalog, Module, catalog};
use pi_base::{Guid, OutOfMemory, Phase, Seq};
use std::alloc::Global;
use std::slice;

// A plan of one volume. The modules of a volume are the same in every plan.
const PLAN: &[u8] = b"temp 0x100000 0x4000\nram 0x200000 0x1000\nvolume 0x300000 v\n";

/// The modules without a script in a volume of the plan and in those nested in it. Here these volumes are numbered from 0.
#[derive(Drop)]
pub struct NotedVolume {
    /// How many volumes these are.
    pub count: u32,
    /// The modules.
    pub scriptless: Scriptless,
    /// The volume of each module that has a part for DXE, in the order of the modules.
    pub drivers: Seq<u32>,
}

// The volume of each module that has a part for DXE.
#[tactic(auto, using(crate::proofs::Drivers::driver_on, crate::proofs::Drivers::no_driver, crate::proofs::Drivers::all_found))]
fn drivers_of(alloc: Global, modules: &[Module]) -> Result<Seq<u32>, OutOfMemory>
    ensures { IfOk result (λ found. found ≡ driver_volumes modules.now) }
{
    let mut found = Seq::new(alloc);
    let mut rest = modules;
    'modules: while let [entry, after @ ..] = rest {
        if entry.dxe.is_some() {
            found.push(entry.volume)?;
        }
        rest = after;
    }
    Ok(found)
}

// The modules without a script of a catalogue. None if memory runs out.
fn noted_of(alloc: Global, catalog: &Catalog) -> Option<NotedVolume>
    ensures { IfSome result (IsNotedOf catalog.now) }
{
    let Ok(count) = u32::try_from(catalog.volumes.len()) else {
        return None;
    };
    let drivers = drivers_of(alloc, catalog.modules.as_slice()).ok()?;
    let scriptless = Scriptless::of(alloc, catalog).ok()?;
    Some(NotedVolume {
        count,
        scriptless,
        drivers,
    })
}

// The modules without a script in the image of a volume. None if it has no catalogue, or memory runs out.
#[tactic(auto, using(crate::proofs::Passed::noted_alone))]
fn noted_volume(alloc: Global, image: &Seq<u8>) -> Option<NotedVolume>
    ensures { IfSome result (IsNoted image.now) }
{
    let Ok(plan) = read_plan(alloc, PLAN) else {
        return None;
    };
    if plan.volumes.len() != 1 {
        return None;
    }
    match catalog(alloc, &plan, slice::from_ref(image)) {
        Ok(catalog) => noted_of(alloc, &catalog),
        Err(_) => None,
    }
}

// Whether a module of a volume and name has no script for a phase.
#[tactic(auto, using(crate::proofs::Passed::all_ahead))]
fn has_module(volumes: &[NotedVolume], phase: Phase, volume: u32, name: Guid) -> bool
    ensures { (catalogs : List Catalogue) → AreNotedOf catalogs volumes.now → result ≡ lacks_script catalogs phase volume name }
{
    let mut number = volume;
    let mut rest = volumes;
    'volumes: while let [first, after @ ..] = rest {
        if number < first.count {
            return first.scriptless.has(phase, number, name);
        }
        number -= first.count;
        rest = after;
    }
    false
}

/// Whether a line is the start of a module without a script in one of these volumes.
pub fn has_start(volumes: &[NotedVolume], line: &Line) -> bool
    ensures { (catalogs : List Catalogue) → AreNotedOf catalogs volumes.now → result ≡ starts_scriptless catalogs line.now }
{
    match line {
        Line::PeiStart { volume, name, .. } => has_module(volumes, Phase::Pei, *volume, *name),
        Line::DxeStart { volume, name, .. } => has_module(volumes, Phase::Dxe, *volume, *name),
        _ => false,
    }
}

/// Files that note the modules without a script in the volumes of a plan, each when it is read: the first file is the plan, and the others are its volumes.
/// What is noted is small, and nothing is read a second time.
#[derive(Drop)]
pub struct NotedVolumes<F: Files + Drop> {
    files: F,
    alloc: Global,
    has_plan: bool,
    noted: Option<Seq<NotedVolume>>,
}

// Notes a volume.
fn note(alloc: Global, image: &Seq<u8>, noted: &mut Seq<NotedVolume>) -> Option<()> {
    let volume = noted_volume(alloc, image)?;
    noted.push(volume).ok()
}

impl<F: Files + Drop> NotedVolumes<F> {
    /// Files of which the volumes are noted, if this is asked for.
    pub fn new(alloc: Global, files: F, is_asked: bool) -> NotedVolumes<F>
        ensures { result.files ≡ files }
    {
        let noted = if is_asked {
            Some(Seq::new(alloc))
        } else {
            None
        };
        NotedVolumes {
            files,
            alloc,
            has_plan: false,
            noted,
        }
    }

    /// The files, and what was noted of all volumes. None if a volume has no catalogue, or memory ran out.
    pub fn into_noted(self) -> (F, Option<Seq<NotedVolume>>) {
        (self.files, self.noted)
    }

    // Notes a file that was read.
    fn note(&mut self, content: &Seq<u8>)
        ensures { self.new.files ≡ self.old.files }
    {
        if !self.has_plan {
            self.has_plan = true;
            return;
        }
        let is_noted = match &mut self.noted {
            Some(noted) => note(self.alloc, content, noted).is_some(),
            None => false,
        };
        if !is_noted {
            self.noted = None;
        }
    }
}

impl<F: Files + Drop> Files for NotedVolumes<F> {
    ghost told = { λ s. F.told s.files };

    ghost faults = { λ s. F.faults s.files };

    ghost missed = { λ s. F.missed s.files };

    fn read_whole(
        &mut self,
        name: &str,
        limit: usize,
        into: &mut Seq<u8>,
    ) -> Result<(), FileFault> {
        let answer = self.files.read_whole(name, limit, into);
        if answer.is_ok() {
            self.note(into);
        }
        answer
    }
}
