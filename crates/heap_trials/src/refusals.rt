// Each refusal of each service next to the neighbour that passes, over both stores.
ghost use Rattle.std.specs.Prelude.{◌≤◌};
ghost use Rattle.store_model.specs.{Service.Present, StoreCall.Anything};

use crate::acts::{Act, Named, fault};
use crate::board::ROM;
use crate::calls::{core_install, create, desc, move_to, notify_new, pages, plan, pool};
use crate::scene::{INLINE, Of, fill};
use crate::trial::{Case, passes};
use hob_codec::Hob;
use pi_base::{MEMORY_PPI, Span};
use std::test::*;
use store_model::{DescKind, GuidFrom, PeiStore, StoreFault};

/// A call that names no descriptor.
#[derive(Clone, Copy)]
pub(crate) enum Service {
    Pool(u32),
    Desc(GuidFrom),
    CreateHob,
    SetMemory(u64, u64),
    CoreInstall,
    Pages(u32),
}

/// How far the scene is built.
#[derive(Clone, Copy)]
pub(crate) enum Stage {
    /// As it was laid.
    Laid,
    /// Its last bytes of temporary RAM are a page for early pages.
    Paged,
    /// A dispatch notification waits for permanent memory.
    Awaited,
    /// Permanent memory is set, with 20 KiB.
    Planned,
    /// The heap has moved there.
    Moved,
}

/// Permanent memory of a later stage.
const PLANNED: Span = Span {
    base: 0x4000_0000,
    len: 0x5000,
};

// A stage, the bytes that are free when the call comes, the call, and the fault of its answer.
pub(crate) type Row = (Stage, u32, Service, Option<StoreFault>);

// Over the scene as it was laid, the bytes that are free when the call comes, the call, and the fault of its answer.
type NamedRow = (u32, Named, Option<StoreFault>);

const PASSES: Option<StoreFault> = None;

const FULL: Option<StoreFault> = Some(StoreFault::Full);

const BAD: Option<StoreFault> = Some(StoreFault::Bad);

const MISSING: Option<StoreFault> = Some(StoreFault::Missing);

const NOT_YET: Option<StoreFault> = Some(StoreFault::NotYet);

static OF_THE_SCENE: [NamedRow; 14] = [
    // A PPI: 40 bytes for it, and 40 for the pair with the dispatch notification.
    (80, Named::Install(Of::Other), PASSES),
    (72, Named::Install(Of::Other), FULL),
    (0, Named::Install(Of::Callback), BAD),
    (400, Named::Install(Of::Dispatch), BAD),
    // 40 for the pair. The kind of the new one comes before whether the old one is installed, and that before the room.
    (40, Named::Reinstall(Of::Installed, Of::Other), PASSES),
    (32, Named::Reinstall(Of::Installed, Of::Other), FULL),
    (0, Named::Reinstall(Of::Installed, Of::Callback), BAD),
    (400, Named::Reinstall(Of::Other, Of::Dispatch), BAD),
    (0, Named::Reinstall(Of::Other, Of::Installed), MISSING),
    // 40 for a notification, and for a dispatch 40 for the pair with the installed PPI.
    (40, Named::Notify(Of::Callback), PASSES),
    (32, Named::Notify(Of::Callback), FULL),
    (80, Named::Notify(Of::Dispatch), PASSES),
    (72, Named::Notify(Of::Dispatch), FULL),
    (0, Named::Notify(Of::Other), BAD),
];

/// At each stage.
static ROWS: [Row; 30] = [
    // A pool: its bytes up to a multiple of 8, and a header of 8.
    (Stage::Laid, 24, Service::Pool(9), PASSES),
    (Stage::Laid, 16, Service::Pool(9), FULL),
    // A descriptor: 24 bytes, 16 for a GUID that is after it, and a header. A GUID elsewhere must be whole in one volume.
    (Stage::Laid, 48, Service::Desc(INLINE), PASSES),
    (Stage::Laid, 40, Service::Desc(INLINE), FULL),
    (Stage::Laid, 32, Service::Desc(GuidFrom::At(ROM)), PASSES),
    (Stage::Laid, 24, Service::Desc(GuidFrom::At(ROM)), FULL),
    (Stage::Laid, 0, Service::Desc(GuidFrom::At(ROM + 1)), BAD),
    (Stage::Laid, 400, Service::Desc(GuidFrom::At(ROM - 1)), BAD),
    (
        Stage::Laid,
        400,
        Service::Desc(GuidFrom::At(0x8000_0040)),
        BAD,
    ),
    (Stage::Laid, 400, Service::Desc(GuidFrom::At(u64::MAX)), BAD),
    // The HOB of a CPU has 16 bytes.
    (Stage::Laid, 16, Service::CreateHob, PASSES),
    (Stage::Laid, 8, Service::CreateHob, FULL),
    // Memory: whole pages in RAM, no less than temporary RAM, and once.
    (
        Stage::Laid,
        0,
        Service::SetMemory(0x4001_c000, 0x4000),
        PASSES,
    ),
    (Stage::Laid, 0, Service::SetMemory(0x4001_d000, 0x4000), BAD),
    (Stage::Laid, 0, Service::SetMemory(0x3fff_f000, 0x4000), BAD),
    (Stage::Laid, 0, Service::SetMemory(0x4000_0800, 0x4000), BAD),
    (Stage::Laid, 0, Service::SetMemory(0x4000_0000, 0x4800), BAD),
    (Stage::Laid, 0, Service::SetMemory(0x4000_0000, 0x3000), BAD),
    (
        Stage::Planned,
        0,
        Service::SetMemory(0x4000_0000, 0x8000),
        BAD,
    ),
    // The PPI of permanent memory: a descriptor of 48, a PPI of 40, and 40 for the pair with a notification that waits for it.
    (Stage::Laid, 88, Service::CoreInstall, PASSES),
    (Stage::Laid, 80, Service::CoreInstall, FULL),
    (Stage::Laid, 40, Service::CoreInstall, FULL),
    (Stage::Awaited, 128, Service::CoreInstall, PASSES),
    (Stage::Awaited, 120, Service::CoreInstall, FULL),
    // Pages: a HOB of 48 bytes, and before the move pages of the region, if there is one, after it pages of the heap.
    (Stage::Laid, 0, Service::Pages(1), NOT_YET),
    (Stage::Paged, 48, Service::Pages(1), PASSES),
    (Stage::Paged, 40, Service::Pages(1), FULL),
    (Stage::Paged, 400, Service::Pages(2), FULL),
    (Stage::Moved, 4144, Service::Pages(1), PASSES),
    (Stage::Moved, 4136, Service::Pages(1), FULL),
];

fn call<S: PeiStore>(store: &mut S, call: Service) -> Option<StoreFault>
    requires { Present (S.stands_for store.old) Anything }
    ensures { Present (S.stands_for store.new) Anything }
{
    match call {
        Service::Pool(size) => fault(pool(store, size)),
        Service::Desc(guid) => fault(desc(store, DescKind::Ppi, guid, 1)),
        Service::CreateHob => fault(create(store, &Hob::Cpu { memory: 48, io: 16 })),
        Service::SetMemory(begin, len) => fault(plan(store, begin, len)),
        Service::CoreInstall => fault(core_install(store)),
        Service::Pages(count) => fault(pages(store, count.max(1))),
    }
}

// Brings the scene to a stage. Returns false if that fails.
fn bring<S: PeiStore>(store: &mut S, stage: Stage) -> bool
    requires { Present (S.stands_for store.old) Anything }
    ensures { Present (S.stands_for store.new) Anything }
{
    match stage {
        Stage::Laid | Stage::Paged => true,
        Stage::Awaited => notify_new(store, GuidFrom::Inline(MEMORY_PPI), 1).is_some(),
        Stage::Planned => plan(store, PLANNED.base, PLANNED.len).is_ok(),
        Stage::Moved => move_to(store, PLANNED).is_some(),
    }
}

/// Whether a call that names no descriptor has this answer at its stage. False if the scene cannot be brought there.
pub(crate) fn is_so<S: PeiStore>(store: &mut S, row: &Row) -> bool
    requires { Present (S.stands_for store.old) Anything }
{
    bring(store, row.0) && fill(store, row.1) && call(store, row.2) == row.3
}

#[test]
fn calls_that_name_descriptors_are_refused_in_order(rt: HostRuntime) {
    for (left, call, want) in &OF_THE_SCENE {
        let acts = [Act::Fill(*left), Act::Call(*call, *want)];
        assert!(rt; passes(rt.alloc(), &(0x4000, 0, Case::Scene(&acts, &[]))) == Ok(true));
    }
}

// The bytes of early pages at a stage.
fn pages_of(stage: Stage) -> u64
    ensures { result ≤ 0x1000 }
{
    match stage {
        Stage::Paged => 0x1000,
        _ => 0,
    }
}

#[test]
fn refusals_come_in_their_order(rt: HostRuntime) {
    for row in &ROWS {
        let early = pages_of(row.0);
        assert!(rt; passes(rt.alloc(), &(0x4000 + early, early, Case::At(row))) == Ok(true));
    }
}
