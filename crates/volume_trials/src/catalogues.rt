// The catalogue of a plan's volumes, or their fault.
use crate::board::{Text, all_made};
use boot_plan::read_plan;
use mod_catalog::{Catalog, ImageCause, ImageFault, catalog};
use pi_base::Seq;
use std::alloc::Global;
use std::process::Abort;
use std::test::*;

/// A plan of one volume.
pub(crate) const ONE: &str =
    "temp 0x80000000 0x10000\nram 0x40000000 0x4000000\nvolume 0x100000 a\n";

/// The fault that is given if there is no plan for the images. No test expects it.
const NO_PLAN: ImageFault = ImageFault {
    volume: 0,
    at: 0,
    cause: ImageCause::Memory,
};

/// The catalogue of a plan's text and its images, or their fault.
pub(crate) fn catalog_of(
    alloc: Global,
    text: &str,
    images: &[Seq<u8>],
) -> Result<Catalog, ImageFault> {
    if text.len() >= 10_000 {
        return Err(NO_PLAN);
    }
    let Ok(plan) = read_plan(alloc, text.as_bytes()) else {
        return Err(NO_PLAN);
    };
    if images.len() != plan.volumes.len() {
        return Err(NO_PLAN);
    }
    catalog(alloc, &plan, images)
}

/// The number of a volume, an offset in it, and what is wrong there. None if there is no fault.
pub(crate) type Fault = Option<(u32, u64, ImageCause)>;

/// The text of a plan and those of its volumes, and their fault.
pub(crate) type Row = (&'static str, &'static [Text], Fault);

// The fault of a plan's volumes.
fn fault_of(rt: &impl Abort, alloc: Global, plan: &str, texts: &[Text]) -> Fault {
    let images = all_made(rt, alloc, texts);
    match catalog_of(alloc, plan, images.as_slice()) {
        Ok(_) => None,
        Err(fault) => Some((fault.volume, fault.at, fault.cause)),
    }
}

/// Each plan's volumes have their fault, or none.
pub(crate) fn have_faults(rt: &impl Abort, alloc: Global, rows: &[Row]) {
    for (plan, texts, want) in rows {
        assert!(rt; fault_of(rt, alloc, plan, texts) == *want);
    }
}
