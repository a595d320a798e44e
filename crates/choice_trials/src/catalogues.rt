// What all tests share: catalogues, each made of the texts of a plan and of its volumes.
ghost use Rattle.boot_plan.specs.Range.{IsPlanInRange};
ghost use Rattle.mod_catalog.specs.WellFormed.{IsWellFormed};

use boot_plan::{Plan, read_plan};
use mod_catalog::{Catalog, catalog, catalogues_are_well_formed};
use pi_base::{Guid, Seq};
use std::alloc::Global;
use std::process::Abort;
use std::test::*;
use volume_text::volume_of;

/// A plan of one volume, and one of two.
pub(crate) const ONE: &str =
    "temp 0x80000000 0x10000\nram 0x40000000 0x4000000\nvolume 0x100000 a\n";

pub(crate) const TWO: &str =
    "temp 0x80000000 0x10000\nram 0x40000000 0x4000000\nvolume 0x100000 a\nvolume 0x200000 b\n";

/// The bases of the two.
pub(crate) const BASE: u64 = 0x10_0000;

pub(crate) const OTHER_BASE: u64 = 0x20_0000;

/// The base of a volume that is nested in the first file of the first one: after the headers of the volume, the file and the section, of 72, 24 and 4 bytes.
pub(crate) const NESTED_BASE: u64 = 0x10_0064;

/// The GUID that ends with a byte after zeros.
pub(crate) fn guid(last: u8) -> Guid {
    let mut bytes = [0u8; 16];
    bytes[15] = last;
    Guid(bytes)
}

fn plan_of(rt: &impl Abort, alloc: Global, text: &str) -> Plan
    ensures { IsPlanInRange result }
{
    assert!(rt; text.len() < 10_000);
    match read_plan(alloc, text.as_bytes()) {
        Ok(plan) => plan,
        Err(_) => panic!(rt; "a plan"),
    }
}

fn images_of(rt: &impl Abort, alloc: Global, volumes: &[&str]) -> Seq<Seq<u8>> {
    let mut images = Seq::new(alloc);
    for text in volumes {
        match volume_of(alloc, text.as_bytes()) {
            Ok(image) => assert!(rt; images.push(image).is_ok()),
            Err(_) => panic!(rt; "a volume"),
        }
    }
    images
}

/// The catalogue of a plan and its volumes. The test fails if memory runs out, or if a text has a fault.
pub(crate) fn catalogue(rt: &impl Abort, alloc: Global, plan: &str, volumes: &[&str]) -> Catalog
    ensures { IsWellFormed result }
{
    catalogues_are_well_formed();
    let plan = plan_of(rt, alloc, plan);
    let images = images_of(rt, alloc, volumes);
    assert!(rt; images.len() == plan.volumes.len());
    match catalog(alloc, &plan, images.as_slice()) {
        Ok(catalog) => catalog,
        Err(_) => panic!(rt; "volumes without a fault"),
    }
}
