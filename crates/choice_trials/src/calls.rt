// What the calls of a driver answer. What reads memory needs a whole store, and is tested over whole boots.
ghost use Rattle.std.specs.Prelude.{None, IfSome, IsTrue};
ghost use Rattle.mod_catalog.specs.WellFormed.{IsWellFormed};
ghost use Rattle.store_model.specs.{Service.Present, StoreCall.Anything};
ghost use Rattle.store_plain.specs.PlainState.{stands_for};
ghost use Rattle.boot_model.specs.DxeMachine.{DriverFrame};
ghost use Rattle.dxe_core.specs.Services.{AreCounted};
ghost use Rattle.choice_trials.specs.Served.{IsOwn, IsServed};

use crate::catalogues::{BASE, NESTED_BASE, OTHER_BASE, TWO, catalogue, guid};
use act_code::Action;
use boot_model::{DriverFrame, Extra, REGISTERS, Register};
use dxe_core::{DxeServices, Reply, take_own};
use mod_catalog::Catalog;
use phase_parts::{Write, Writes};
use pi_base::{OutOfMemory, Seq, Span, Word};
use std::alloc::Global;
use std::process::Abort;
use std::test::*;
use store_plain::PlainStore;

/// A nested volume; three drivers of one name with SOR, the first of them a priori; and one without SOR.
static DRIVERS: &str = "volume 4096
file volume-image 00000000-0000-0000-0000-00000000000f
volume 72
end
file freeform dxe-apriori
guids 00000000-0000-0000-0000-000000000007
file driver 00000000-0000-0000-0000-000000000007
depex dxe sor true
file driver 00000000-0000-0000-0000-000000000007
depex dxe sor true
file driver 00000000-0000-0000-0000-000000000007
depex dxe sor true
file driver 00000000-0000-0000-0000-000000000008
end
";

/// A volume without files.
static EMPTY_VOLUME: &str = "volume 72\nend\n";

// A store that the calls do not look at.
fn store(alloc: Global) -> PlainStore
    ensures { Present (stands_for result) Anything }
{
    let temp = Span {
        base: 0x8000_0000,
        len: 0x1000,
    };
    let ram = Span {
        base: 0x4000_0000,
        len: 0x2000,
    };
    PlainStore::new(alloc, temp, 0, ram, Seq::new(alloc))
}

/// Registers of the frame: numbers, the bases of volumes, a base if no volume is, and handles.
const FIVE: u8 = 1;

const SIX: u8 = 2;

const KNOWN: u8 = 3;

const NESTED_ONE: u8 = 4;

const OTHER: u8 = 5;

const NOWHERE: u8 = 6;

const LIVE: u8 = 7;

const DEAD: u8 = 8;

/// A register that is empty.
const EMPTY: u8 = 9;

fn frame() -> DriverFrame {
    let mut registers = [Register::Empty; REGISTERS];
    registers[FIVE as usize] = Register::Number(5);
    registers[SIX as usize] = Register::Number(6);
    registers[KNOWN as usize] = Register::Number(BASE);
    registers[NESTED_ONE as usize] = Register::Number(NESTED_BASE);
    registers[OTHER as usize] = Register::Number(OTHER_BASE);
    registers[NOWHERE as usize] = Register::Number(OTHER_BASE + 1);
    registers[LIVE as usize] = Register::HandleIn(1);
    registers[DEAD as usize] = Register::HandleIn(9);
    phase_parts::frame_at(3, 0, registers)
}

/// A call, by its registers and the last byte of its GUID.
#[derive(Clone, Copy)]
enum Call {
    /// Installs on a new handle.
    New(u8, u8, u8),
    /// Installs on the handle in a register.
    On(u8, u8, u8),
    Reinstall(u8, u8, u8, u8),
    Uninstall(u8, u8, u8),
    Locate(u8, u8, u8),
    Notify(u8, u8),
    Schedule(u8),
    Process(u8),
}

// The action of a call.
fn action_of(call: Call) -> Action
    ensures { IsOwn result }
{
    match call {
        Call::New(h, last, v) => Action::DxeInstall {
            form: 0,
            h: h % 16,
            guid: guid(last),
            v: v % 16,
        },
        Call::On(h, last, v) => Action::DxeInstall {
            form: 1,
            h: h % 16,
            guid: guid(last),
            v: v % 16,
        },
        Call::Reinstall(h, last, old, new) => Action::DxeReinstall {
            h: h % 16,
            guid: guid(last),
            old: old % 16,
            new: new % 16,
        },
        Call::Uninstall(h, last, v) => Action::DxeUninstall {
            h: h % 16,
            guid: guid(last),
            v: v % 16,
        },
        Call::Locate(h, v, last) => Action::DxeLocate {
            h: h % 16,
            v: v % 16,
            guid: guid(last),
        },
        Call::Notify(last, block) => Action::DxeNotify {
            guid: guid(last),
            block: block % 64,
        },
        Call::Schedule(last) => Action::Schedule { guid: guid(last) },
        Call::Process(v) => Action::Process { v: v % 16 },
    }
}

// Whether few calls were made.
fn are_few(services: &DxeServices) -> bool
    ensures { IsTrue result → AreCounted 9 services.now }
{
    services.handles().made() < 10 && services.handles().len() < 10 && services.note(9).is_none()
}

// The reply of a call. None if memory runs out.
fn reply_of(
    services: &mut DxeServices,
    store: &PlainStore,
    catalog: &Catalog,
    call: Call,
) -> Option<Reply>
    requires catalog { IsWellFormed catalog.now }
    requires state { Present (stands_for store.now) Anything }
    requires served { IsServed catalog.now services.old }
    ensures { IfSome result (λ _. IsServed catalog.now services.new) }
{
    if !are_few(services) {
        return None;
    }
    match take_own(services, store, catalog, &frame(), &action_of(call)) {
        Ok(reply) => Some(reply),
        Err(OutOfMemory) => None,
    }
}

// The services of the catalogue's drivers, with the volumes at these bases discovered.
fn services_at(alloc: Global, catalog: &Catalog, bases: &[u64]) -> Option<DxeServices>
    requires { IsWellFormed catalog.now }
    ensures { IfSome result (IsServed catalog.now) }
{
    match DxeServices::begin(alloc, catalog, bases) {
        Ok(services) => Some(services),
        Err(OutOfMemory) => None,
    }
}

/// A call with its status, the number that its line shows, the notification up to which it visits those of its protocol, and the registers that it writes, if
/// the test looks at them.
type Row = (Call, Word, Option<u64>, Option<u32>, Option<Writes>);

/// What is left after calls: the module and the block of the first notification, whether there is a second, how many interfaces there are, whether there is a
/// third, and how many volumes are discovered.
type Left = (Option<(u32, u8)>, bool, usize, bool, usize);

/// The bases of the volumes that are discovered first, calls in order, and what is left after them.
struct Case {
    bases: &'static [u64],
    calls: &'static [Row],
    left: Left,
}

static CASES: [Case; 6] = [
    // Interfaces and notifications.
    Case {
        bases: &[BASE],
        calls: &[
            (
                Call::New(LIVE, 0x21, FIVE),
                Word::Success,
                Some(1),
                Some(0),
                None,
            ),
            (Call::Notify(0x22, 3), Word::Success, None, None, None),
            (
                Call::On(LIVE, 0x22, SIX),
                Word::Success,
                None,
                Some(1),
                None,
            ),
            (
                Call::On(LIVE, 0x22, SIX),
                Word::InvalidParameter,
                None,
                None,
                None,
            ),
            (
                Call::On(DEAD, 0x23, SIX),
                Word::InvalidParameter,
                None,
                None,
                None,
            ),
            (
                Call::On(FIVE, 0x23, SIX),
                Word::InvalidParameter,
                None,
                None,
                None,
            ),
            (
                Call::New(LIVE, 0x21, EMPTY),
                Word::InvalidParameter,
                None,
                None,
                None,
            ),
            (
                Call::New(LIVE, 0x21, SIX),
                Word::Success,
                Some(2),
                Some(1),
                None,
            ),
            (
                Call::Reinstall(LIVE, 0x21, FIVE, SIX),
                Word::Success,
                None,
                Some(1),
                None,
            ),
            (
                Call::Reinstall(LIVE, 0x21, FIVE, SIX),
                Word::NotFound,
                None,
                None,
                None,
            ),
            (
                Call::Reinstall(DEAD, 0x21, SIX, FIVE),
                Word::InvalidParameter,
                None,
                None,
                None,
            ),
            (
                Call::Locate(LIVE, FIVE, 0x21),
                Word::Success,
                Some(6),
                None,
                None,
            ),
            (
                Call::Locate(LIVE, FIVE, 0x29),
                Word::NotFound,
                None,
                None,
                None,
            ),
            (
                Call::Uninstall(LIVE, 0x22, FIVE),
                Word::NotFound,
                None,
                None,
                None,
            ),
            (
                Call::Uninstall(LIVE, 0x22, SIX),
                Word::Success,
                None,
                None,
                None,
            ),
            (
                Call::Uninstall(LIVE, 0x22, SIX),
                Word::NotFound,
                None,
                None,
                None,
            ),
            (
                Call::Uninstall(DEAD, 0x21, SIX),
                Word::InvalidParameter,
                None,
                None,
                None,
            ),
            (
                Call::Locate(LIVE, FIVE, 0x22),
                Word::NotFound,
                None,
                None,
                None,
            ),
        ],
        left: (Some((3, 3)), false, 2, false, 2),
    },
    // What a new protocol and a look for it write into registers.
    Case {
        bases: &[],
        calls: &[
            (
                Call::New(10, 0x21, SIX),
                Word::Success,
                Some(1),
                Some(0),
                Some(Writes::One(Write {
                    r: 10,
                    register: Register::HandleIn(1),
                })),
            ),
            (
                Call::Locate(11, 12, 0x21),
                Word::Success,
                Some(6),
                None,
                Some(Writes::Two(
                    Write {
                        r: 11,
                        register: Register::HandleIn(1),
                    },
                    Write {
                        r: 12,
                        register: Register::Number(6),
                    },
                )),
            ),
        ],
        left: (None, false, 1, false, 0),
    },
    // Names of two that wait, of one without SOR, and of no file.
    Case {
        bases: &[BASE],
        calls: &[
            (Call::Schedule(7), Word::Success, None, None, None),
            (Call::Schedule(7), Word::Success, None, None, None),
            (Call::Schedule(7), Word::NotFound, None, None, None),
            (Call::Schedule(8), Word::NotFound, None, None, None),
            (Call::Schedule(9), Word::NotFound, None, None, None),
        ],
        left: (None, false, 0, false, 2),
    },
    // The volume around one that is discovered, another, and bases of no volume.
    Case {
        bases: &[NESTED_BASE],
        calls: &[(Call::Process(KNOWN), Word::Success, None, None, None)],
        left: (None, false, 0, false, 2),
    },
    Case {
        bases: &[NESTED_BASE],
        calls: &[(Call::Process(OTHER), Word::Success, None, None, None)],
        left: (None, false, 0, false, 2),
    },
    Case {
        bases: &[NESTED_BASE],
        calls: &[
            (
                Call::Process(NESTED_ONE),
                Word::AlreadyStarted,
                None,
                None,
                None,
            ),
            (Call::Process(NOWHERE), Word::NotFound, None, None, None),
            (
                Call::Process(LIVE),
                Word::InvalidParameter,
                None,
                None,
                None,
            ),
        ],
        left: (None, false, 0, false, 1),
    },
];

// Whether a reply is that of a row.
fn is_so(reply: &Reply, row: &Row) -> bool {
    let (_, status, number, note_to, writes) = *row;
    let told = match reply.extra {
        Extra::Number(number) => Some(number),
        _ => None,
    };
    let visited = match &reply.sweep {
        Some(sweep) => Some(sweep.note_to),
        None => None,
    };
    let is_written = match writes {
        Some(writes) => reply.writes == writes,
        None => true,
    };
    is_written && (reply.status, told, visited) == (status, number, note_to)
}

// The first of some calls, by its number, that is answered in another way.
fn first_wrong(
    services: &mut DxeServices,
    store: &PlainStore,
    catalog: &Catalog,
    rows: &[Row],
) -> Option<usize>
    requires catalog { IsWellFormed catalog.now }
    requires state { Present (stands_for store.now) Anything }
    requires served { IsServed catalog.now services.old }
{
    'calls: for at in 0..rows.len() {
        match reply_of(services, store, catalog, rows[at].0) {
            Some(reply) if is_so(&reply, &rows[at]) => {}
            _ => return Some(at),
        }
    }
    None
}

fn left_in(services: &DxeServices) -> Left {
    let first = match services.note(0) {
        Some(note) => Some((note.module_number, note.block)),
        None => None,
    };
    let handles = services.handles();
    (
        first,
        services.note(1).is_some(),
        handles.len(),
        handles.nth(2).is_some(),
        services.order().volumes().len(),
    )
}

// The first of a case's calls, by its number, that is answered in another way, and what is left after them.
fn answered(
    alloc: Global,
    store: &PlainStore,
    catalog: &Catalog,
    case: &Case,
) -> Option<(Option<usize>, Left)>
    requires catalog { IsWellFormed catalog.now }
    requires state { Present (stands_for store.now) Anything }
{
    let mut services = services_at(alloc, catalog, case.bases)?;
    let wrong = first_wrong(&mut services, store, catalog, case.calls);
    let left = left_in(&services);
    drop(services);
    Some((wrong, left))
}

fn try_all(rt: &impl Abort, alloc: Global, store: &PlainStore, catalog: &Catalog)
    requires catalog { IsWellFormed catalog.now }
    requires state { Present (stands_for store.now) Anything }
{
    'cases: for case in &CASES {
        assert!(rt; answered(alloc, store, catalog, case) == Some((None, case.left)));
    }
}

// Only this function owns a catalogue and a store, with one call after them: each exit of an owner is dear to prove.
#[test]
fn calls_of_drivers_answer_by_their_rows(rt: HostRuntime) {
    let catalog = catalogue(&rt, rt.alloc(), TWO, &[DRIVERS, EMPTY_VOLUME]);
    let store = store(rt.alloc());
    try_all(&rt, rt.alloc(), &store, &catalog);
    drop(store);
    drop(catalog);
}
