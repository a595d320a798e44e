//! The printed lines of a boot.
use crate::licence::Licence;
use arrayvec::ArrayVec;
use boot_plan::PlanCause;
use mod_catalog::ImageCause;
use pi_base::{Guid, Seq, Word};

/// How many bytes a script logs or reads at once.
pub const SHOWN_LEN: usize = 64;

/// A printed line: one variant for each form, its fields in the order of the line. `volume`, `by` and `block` are numbers of volumes, modules and blocks.
#[derive(Drop)]
pub enum Line {
    /// A volume is reported to the PEI core.
    Report {
        volume: u32,
    },
    /// A PEIM starts.
    PeiStart {
        volume: u32,
        name: Guid,
        licence: Licence,
    },
    /// A driver starts.
    DxeStart {
        volume: u32,
        name: Guid,
        licence: Licence,
    },
    /// A service answers.
    Call {
        name: CallName,
        status: Word,
        extra: Extra,
    },
    /// A script logs a text.
    Log {
        text: ArrayVec<u8, SHOWN_LEN>,
    },
    /// A callback notification begins, registered by a module of this volume and name, for the PPI that fired.
    NotifyCallback {
        volume: u32,
        name: Guid,
        fired: Guid,
    },
    /// A queued notification begins.
    NotifyDispatch {
        volume: u32,
        name: Guid,
        fired: Guid,
    },
    /// A protocol notification begins.
    NotifyProtocol {
        volume: u32,
        name: Guid,
        fired: Guid,
    },
    /// A frame ends.
    End {
        status: Word,
    },
    /// The heap moves from one base to another.
    Migrate {
        from: u64,
        to: u64,
    },
    /// The core installs the PPI of permanent memory.
    CoreInstall {
        status: Word,
    },
    /// No PEIM is eligible.
    PeiStop,
    /// No driver is eligible.
    DxeStop,
    /// A module that waits after a stop.
    Waiting {
        volume: u32,
        name: Guid,
        reason: Reason,
    },
    /// PEI hands off, with the address of the HOB list.
    Handoff {
        address: u64,
    },
    /// A volume is discovered by the DXE dispatcher.
    DxeVolume {
        volume: u32,
    },
    /// How many PPIs there are.
    Ppis {
        count: u32,
    },
    /// A PPI; `by` is `CORE` for the core's.
    Ppi {
        by: u32,
        guid: Guid,
        value: u64,
    },
    /// How many callback notifications there are.
    Callbacks {
        count: u32,
    },
    /// A callback notification.
    Callback {
        guid: Guid,
        by: u32,
        block: u32,
    },
    /// How many dispatch notifications there are.
    Dispatches {
        count: u32,
    },
    /// A dispatch notification.
    Dispatch {
        guid: Guid,
        by: u32,
        block: u32,
    },
    /// How many queued pairs there are.
    Pendings {
        count: u32,
    },
    /// A queued pair: the PPI's GUID, and the notification.
    Pending {
        guid: Guid,
        by: u32,
        block: u32,
    },
    /// How many HOBs there are, without the end HOB.
    Hobs {
        count: u32,
    },
    /// A HOB: its type, and its bytes after the header.
    Hob {
        kind: u16,
        body: Seq<u8>,
    },
    /// How many interfaces there are.
    Handles {
        count: u32,
    },
    /// An interface.
    Handle {
        handle: u32,
        guid: Guid,
        value: u64,
    },
    /// How the run ended.
    Result {
        outcome: RunEnd,
    },
    /// A volume of the catalogue.
    Volume {
        volume: u32,
        base: u64,
        len: u64,
        name: Option<Guid>,
    },
    /// A module of the catalogue.
    Module {
        by: u32,
        volume: u32,
        name: Guid,
        kind: u8,
        pei_rank: Option<u32>,
        dxe_rank: Option<u32>,
        pei: ExpressionWord,
        dxe: ExpressionWord,
    },
    /// The words are of no form.
    RefusedUsage,
    /// A file could not be read.
    RefusedFile {
        name: Seq<u8>,
    },
    /// A file is longer than its limit.
    RefusedLong {
        name: Seq<u8>,
    },
    /// The plan has a fault, at a line from 1.
    RefusedPlan {
        line: u32,
        cause: PlanCause,
    },
    /// An image has a fault, at an offset in the file of a volume of the plan.
    RefusedImage {
        volume: u32,
        at: u64,
        cause: ImageCause,
    },
}

/// The service that a `call` line names.
#[derive(Clone, Copy, PartialEq, Eq)]
pub enum CallName {
    Pool,
    Store,
    Peek,
    Desc,
    Install,
    Reinstall,
    Notify,
    Locate,
    Hob,
    Memory,
    Pages,
    BootMode,
    Shadow,
    Uninstall,
    Schedule,
    Process,
    Dispatch,
}

/// What a `call` line shows after its status.
#[derive(Drop)]
pub enum Extra {
    /// Nothing.
    Nothing,
    /// A number or an address.
    Number(u64),
    /// Bytes that were read.
    Bytes(ArrayVec<u8, SHOWN_LEN>),
}

/// Why a module waits after a stop.
#[derive(Clone, Copy)]
pub enum Reason {
    /// Its expression cannot be read.
    Malformed,
    /// Its expression does not hold.
    False,
    /// It registered for shadow and was not started again.
    Shadow,
    /// Its expression begins with SOR, and no module requested it.
    Unrequested,
    /// It waits for the driver that its BEFORE names.
    Before,
    /// It waits for the driver that its AFTER names.
    After,
    /// It has no expression, and an architectural protocol is missing.
    Absent,
}

/// How a run ends.
#[derive(Clone, Copy)]
pub enum RunEnd {
    /// Both phases ended.
    Done,
    /// PEI stopped without permanent memory.
    NoMemory,
    /// PEI stopped without the DXE IPL PPI.
    NoIpl,
    /// The fuel was spent.
    Spent,
    /// Too many frames stood.
    Deep,
}

/// The dependency expression of a part, as an audit shows it.
#[derive(Clone, Copy)]
pub enum ExpressionWord {
    /// The module has no such part.
    NoPart,
    /// The part has no expression.
    Absent,
    /// It cannot be read, at this offset.
    Malformed(u32),
    /// A tree.
    Tree,
    /// A tree after SOR.
    Sor,
    /// BEFORE a driver.
    Before(Guid),
    /// AFTER a driver.
    After(Guid),
}
