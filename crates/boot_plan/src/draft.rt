// A plan that is being read, line by line.
ghost use Rattle.std.specs.Prelude.{◌≡◌, ◌≤◌, ◌++◌, ◌∷◌, [], false, List, OnOk, OnErr};
ghost use Rattle.boot_plan.specs.LineCause.{is_area, is_repeated, is_within};
ghost use Rattle.boot_plan.specs.View.{form_view, entry_view};

use crate::entry::{Entry, read_entry};
use crate::fault::{PlanCause, PlanFault};
use crate::form::{Form, form_of};
use crate::limits::{
    LEAST_ADDRESS, LEAST_RAM, LEAST_TEMP, MOST_END, MOST_FUEL, MOST_PAGES, MOST_PLAN_VOLUMES,
    MOST_RAM, MOST_TEMP, VOLUME_ALIGNMENT,
};
use crate::plan::PlanVolume;
use line_words::is_passed_over;
use pi_base::{OutOfMemory, PAGE_LEN, Seq};
use std::alloc::Global;

// Memory from one line of a plan.
#[derive(Clone, Copy)]
pub struct Area {
    pub line: u32,
    pub base: u64,
    pub size: u64,
}

// A number from one line of a plan.
#[derive(Clone, Copy)]
pub struct Amount {
    pub line: u32,
    pub value: u64,
}

// What the lines so far say.
#[derive(Drop)]
pub struct Draft {
    pub temp: Option<Area>,
    pub ram: Option<Area>,
    pub volumes: Seq<PlanVolume>,
    pub fuel: Option<Amount>,
    pub pages: Option<Amount>,
}

// Whether memory is of whole pages and within its limits.
fn is_area(least: u64, most: u64, base: u64, size: u64) -> bool
    requires { most ≤ MOST_END }
    ensures { result ≡ is_area least most base size }
{
    let is_of_pages = base % PAGE_LEN == 0 && size % PAGE_LEN == 0;
    let is_of_size = size >= least && size <= most;
    let is_in_place = base >= LEAST_ADDRESS && base <= MOST_END;
    is_of_pages && is_of_size && is_in_place && base + size <= MOST_END
}

impl Draft {
    ghost use Rattle.boot_plan.specs.Said.{Said};
    ghost use Rattle.boot_plan.specs.Draft.{Keeps, IsInRange, HasPlace, IsEntryInRange, AddsLine};

    // Nothing is said yet.
    pub(crate) fn new(alloc: Global) -> Draft
        ensures keeps { Keeps [] result }
        ensures range { IsInRange result }
    {
        Draft {
            temp: None,
            ram: None,
            volumes: Seq::new(alloc),
            fuel: None,
            pages: None,
        }
    }

    // Whether the line is a second one of a kind that comes once.
    fn is_repeated(&self, form: &Form<'_>) -> bool
        ensures { (before : List Said) → Keeps before self.now → result ≡ is_repeated before (form_view form.now) }
    {
        match form {
            Form::Temp { .. } => self.temp.is_some(),
            Form::Ram { .. } => self.ram.is_some(),
            Form::Volume { .. } => false,
            Form::Fuel { .. } => self.fuel.is_some(),
            Form::Pages { .. } => self.pages.is_some(),
        }
    }

    // Whether the values are within their limits.
    fn is_within(&self, entry: &Entry<'_>) -> bool
        ensures { (before : List Said) → Keeps before self.now → result ≡ is_within before (entry_view entry.now) }
    {
        match *entry {
            Entry::Temp { base, size } => is_area(LEAST_TEMP, MOST_TEMP, base, size),
            Entry::Ram { base, size } => is_area(LEAST_RAM, MOST_RAM, base, size),
            Entry::Volume { base, .. } => {
                base % VOLUME_ALIGNMENT == 0
                    && base >= LEAST_ADDRESS
                    && self.volumes.len() < MOST_PLAN_VOLUMES
            }
            Entry::Fuel { count } => count >= 1 && count <= MOST_FUEL,
            Entry::Pages { size } => size > 0 && size % PAGE_LEN == 0 && size <= MOST_PAGES,
        }
    }

    // Adds what a line says.
    fn put(&mut self, line: u32, entry: Entry<'_>) -> Result<(), OutOfMemory>
        ensures keeps { OnOk result ((before : List Said) → Keeps before self.old → HasPlace before (entry_view entry.entry)
            → Keeps (before ++ record { line = line; entry = entry_view entry.entry } ∷ []) self.new) }
        ensures range { OnOk result (IsInRange self.old → IsEntryInRange self.old (entry_view entry.entry) → IsInRange self.new) }
        ensures err { OnErr result (self.new ≡ self.old) }
    {
        match entry {
            Entry::Temp { base, size } => self.temp = Some(Area { line, base, size }),
            Entry::Ram { base, size } => self.ram = Some(Area { line, base, size }),
            Entry::Volume { base, name } => {
                let mut kept = Seq::new(self.volumes.alloc());
                kept.append(name)?;
                self.volumes.push(PlanVolume { base, name: kept })?;
            }
            Entry::Fuel { count } => self.fuel = Some(Amount { line, value: count }),
            Entry::Pages { size } => self.pages = Some(Amount { line, value: size }),
        }
        Ok(())
    }

    // Adds a line with its number, from 1.
    pub(crate) fn add(&mut self, number: u32, line: &[u8]) -> Result<(), PlanFault>
        ensures { (before : List Said) → Keeps before self.old → IsInRange self.old → AddsLine before number line.now result self.new }
    {
        if is_passed_over(line) {
            return Ok(());
        }
        let Some(form) = form_of(line) else {
            return Err(PlanFault {
                line: number,
                cause: PlanCause::Word,
            });
        };
        if self.is_repeated(&form) {
            return Err(PlanFault {
                line: number,
                cause: PlanCause::Twice,
            });
        }
        let Some(entry) = read_entry(&form) else {
            return Err(PlanFault {
                line: number,
                cause: PlanCause::Number,
            });
        };
        if !self.is_within(&entry) {
            return Err(PlanFault {
                line: number,
                cause: PlanCause::Limit,
            });
        }
        self.put(number, entry)?;
        Ok(())
    }
}
