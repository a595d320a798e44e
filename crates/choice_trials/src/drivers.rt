// The drivers of a small volume: which start, in which order, and by which licences.
ghost use Rattle.std.specs.Prelude.{◌≡◌, ◌<◌, ℕ, List, OnOk};
ghost use Rattle.boot_model.specs.DxeMachine.{DxeMachine};
ghost use Rattle.mod_catalog.specs.WellFormed.{IsWellFormed};
ghost use Rattle.dxe_core.specs.Order.{IsOrderOf};
ghost use Rattle.dxe_dispatch.specs.Queue.{IsNewQueue, IsQueueFor, IsSeen};

use crate::catalogues::{BASE, ONE, catalogue};
use boot_model::{ARCHITECTURAL, Licence, Scheduled};
use depex_code::Steps;
use dxe_core::DriverOrder;
use dxe_dispatch::DriverQueue;
use mod_catalog::Catalog;
use pi_base::{OutOfMemory, Seq};
use std::alloc::Global;
use std::marker::Brand;
use std::process::Abort;
use std::sync::ledger::{Blank, Ledger};
use std::test::*;

/// A target that holds once it is requested, with companions on both sides, which have companions of their own, and a driver without an expression.
static COMPANIONS: &str = "volume 4096
file driver 00000000-0000-0000-0000-000000000001
depex dxe sor true
file driver 00000000-0000-0000-0000-000000000002
depex dxe before 00000000-0000-0000-0000-000000000001
file driver 00000000-0000-0000-0000-000000000000
depex dxe before 00000000-0000-0000-0000-000000000002
file driver 00000000-0000-0000-0000-000000000003
depex dxe after 00000000-0000-0000-0000-000000000001
file driver 00000000-0000-0000-0000-000000000000
depex dxe after 00000000-0000-0000-0000-000000000003
file driver 00000000-0000-0000-0000-000000000000
end
";

/// A driver without an expression, two that name each other, one in the a priori list with an expression that cannot be read, and one that names it.
static OTHERS: &str = "volume 4096
file freeform dxe-apriori
guids 00000000-0000-0000-0000-000000000004
file driver 00000000-0000-0000-0000-000000000000
file driver 00000000-0000-0000-0000-000000000005
depex dxe after 00000000-0000-0000-0000-000000000006
file driver 00000000-0000-0000-0000-000000000006
depex dxe after 00000000-0000-0000-0000-000000000005
file driver 00000000-0000-0000-0000-000000000004
section 13 ff
file driver 00000000-0000-0000-0000-000000000000
depex dxe after 00000000-0000-0000-0000-000000000004
end
";

// So many of the architectural protocols are installed.
fn install(queue: &mut DriverQueue, catalog: &Catalog, order: &DriverOrder, protocols: usize)
    requires made { IsQueueFor catalog.now queue.old }
    requires seen { (m : DxeMachine) × IsSeen catalog.now m queue.old order.now }
    ensures made { IsQueueFor catalog.now queue.new }
    ensures seen { (m : DxeMachine) × IsSeen catalog.now m queue.new order.now }
{
    'protocols: for guid in ARCHITECTURAL.iter().take(protocols) {
        queue.change(guid, true);
    }
}

// The first driver is requested.
fn request_first(queue: &mut DriverQueue, catalog: &Catalog, order: &DriverOrder)
    requires made { IsQueueFor catalog.now queue.old }
    requires seen { (m : DxeMachine) × IsSeen catalog.now m queue.old order.now }
    ensures made { IsQueueFor catalog.now queue.new }
    ensures seen { (m : DxeMachine) × IsSeen catalog.now m queue.new order.now }
{
    if let Some(first) = order.drivers().get(0) {
        queue.request(*first);
    }
}

// The choice is aimed at a driver, if one is given.
fn aim_at<L: Ledger>(
    queue: &mut DriverQueue,
    catalog: &Catalog,
    order: &DriverOrder,
    aim: Option<u32>,
    steps: &mut Steps<L>,
) -> Result<(), OutOfMemory>
    requires catalog { IsWellFormed catalog.now }
    requires made { IsQueueFor catalog.now queue.old }
    requires seen { (m : DxeMachine) × IsSeen catalog.now m queue.old order.now }
    ensures made { OnOk result (IsQueueFor catalog.now queue.new) }
    ensures seen { OnOk result ((m : DxeMachine) × IsSeen catalog.now m queue.new order.now) }
{
    match aim {
        Some(root) => queue.aim(catalog, order, root, steps),
        None => Ok(()),
    }
}

// The drivers that start, one after the other.
fn starts_from<L: Ledger>(
    queue: &mut DriverQueue,
    catalog: &Catalog,
    order: &DriverOrder,
    steps: &mut Steps<L>,
) -> Result<Seq<Scheduled>, OutOfMemory>
    requires catalog { IsWellFormed catalog.now }
    requires made { IsQueueFor catalog.now queue.old }
    requires seen { (m : DxeMachine) × IsSeen catalog.now m queue.old order.now }
{
    let mut starts = Seq::new(catalog.modules.alloc());
    'starts: for _ in catalog.modules.as_slice() {
        match queue.next(catalog, order, steps)? {
            Some(next) => starts.push(next)?,
            None => return Ok(starts),
        }
    }
    Ok(starts)
}

// The queue of the volume, as a case has it.
fn prepare(
    queue: &mut DriverQueue,
    catalog: &Catalog,
    order: &DriverOrder,
    row: &Case,
) -> Result<(), OutOfMemory>
    requires catalog { IsWellFormed catalog.now }
    requires new { IsNewQueue catalog.now queue.old }
    requires made { IsQueueFor catalog.now queue.old }
    requires order { (volumes : List ℕ) × IsOrderOf catalog.now volumes order.now }
    ensures made { OnOk result (IsQueueFor catalog.now queue.new) }
    ensures seen { OnOk result ((m : DxeMachine) × IsSeen catalog.now m queue.new order.now) }
{
    queue.discover(catalog, order, order.volumes())?;
    install(queue, catalog, order, row.protocols);
    if row.is_requested {
        request_first(queue, catalog, order);
    }
    Ok(())
}

// The starts of the drivers of the volume, by a new queue.
fn starts_by<L: Ledger>(
    queue: &mut DriverQueue,
    catalog: &Catalog,
    order: &DriverOrder,
    row: &Case,
    blank: Blank,
) -> Result<Seq<Scheduled>, OutOfMemory>
    requires name { blank.name ≡ L.name }
    requires parts { blank.parts ≡ L.parts }
    requires some { 0 < L.parts }
    requires catalog { IsWellFormed catalog.now }
    requires new { IsNewQueue catalog.now queue.old }
    requires made { IsQueueFor catalog.now queue.old }
    requires order { (volumes : List ℕ) × IsOrderOf catalog.now volumes order.now }
{
    prepare(queue, catalog, order, row)?;
    let mut steps = Steps::<L>::new(blank);
    aim_at(queue, catalog, order, row.aim, &mut steps)?;
    starts_from(queue, catalog, order, &mut steps)
}

fn starts_in(
    catalog: &Catalog,
    order: &DriverOrder,
    row: &Case,
) -> Result<Seq<Scheduled>, OutOfMemory>
    requires catalog { IsWellFormed catalog.now }
    requires order { (volumes : List ℕ) × IsOrderOf catalog.now volumes order.now }
{
    let mut queue = DriverQueue::new(catalog.modules.alloc(), catalog)?;
    let starts = starts_by::<Brand>(&mut queue, catalog, order, row, Blank::new(1));
    drop(queue);
    starts
}

fn starts_of(catalog: &Catalog, row: &Case) -> Result<Seq<Scheduled>, OutOfMemory>
    requires catalog { IsWellFormed catalog.now }
{
    let order = DriverOrder::discover(catalog.modules.alloc(), catalog, &[BASE])?;
    let starts = starts_in(catalog, &order, row);
    drop(order);
    starts
}

/// Whether the first driver is requested, how many architectural protocols there are, at which driver the first choice is aimed, and the drivers that start.
#[derive(Clone, Copy)]
struct Case {
    is_requested: bool,
    protocols: usize,
    aim: Option<u32>,
    starts: &'static [(u32, Licence)],
}

// Whether these are the starts.
fn are(starts: &[Scheduled], wants: &[(u32, Licence)]) -> bool {
    let mut are_same = starts.len() == wants.len();
    'starts: for (start, (number, licence)) in starts.iter().zip(wants) {
        are_same = are_same && start.module_number == *number && start.licence == *licence;
    }
    are_same
}

// Whether these drivers start, and no others.
fn starts_so(catalog: &Catalog, row: &Case) -> Result<bool, OutOfMemory>
    requires { IsWellFormed catalog.now }
{
    let starts = starts_of(catalog, row)?;
    let are_same = are(starts.as_slice(), row.starts);
    drop(starts);
    Ok(are_same)
}

// Each case starts so.
fn start_so(rt: &impl Abort, catalog: &Catalog, rows: &[Case])
    requires { IsWellFormed catalog.now }
{
    'rows: for row in rows {
        assert!(rt; starts_so(catalog, row) == Ok(true));
    }
}

// The same over the catalogue of a volume.
fn start_over(rt: &impl Abort, alloc: Global, volume: &str, rows: &[Case]) {
    let catalog = catalogue(rt, alloc, ONE, &[volume]);
    start_so(rt, &catalog, rows);
    drop(catalog);
}

static OF_COMPANIONS: [Case; 3] = [
    Case {
        is_requested: false,
        protocols: 12,
        aim: Some(0),
        starts: &[],
    },
    Case {
        is_requested: true,
        protocols: 13,
        aim: Some(5),
        starts: &[
            (5, Licence::Absent),
            (2, Licence::Before),
            (1, Licence::Before),
            (0, Licence::True),
            (3, Licence::After),
            (4, Licence::After),
        ],
    },
    Case {
        is_requested: true,
        protocols: 0,
        aim: None,
        starts: &[
            (2, Licence::Before),
            (1, Licence::Before),
            (0, Licence::True),
            (3, Licence::After),
            (4, Licence::After),
        ],
    },
];

static OF_OTHERS: [Case; 2] = [
    Case {
        is_requested: false,
        protocols: 12,
        aim: None,
        starts: &[(3, Licence::Apriori)],
    },
    Case {
        is_requested: false,
        protocols: 13,
        aim: Some(0),
        starts: &[(3, Licence::Apriori), (0, Licence::Absent)],
    },
];

#[test]
fn companions_start_with_their_target_and_all_architectural_protocols_are_asked_for(
    rt: HostRuntime,
) {
    start_over(&rt, rt.alloc(), COMPANIONS, &OF_COMPANIONS);
    start_over(&rt, rt.alloc(), OTHERS, &OF_OTHERS);
}
