//! Why modules started, and why others never did.
use crate::ways::Change;
use boot_model::{Licence, Reason, RunEnd};
use pi_base::{Guid, Phase, Seq};

/// Who has a GUID installed: the one whose call made it come the last time, whether it is a PPI or a protocol.
#[derive(Clone, Copy, PartialEq, Eq)]
pub enum Giver {
    /// The PEI core.
    Core,
    /// The module with this number, whose script ran; that of a notification is a module too.
    Module(u32),
    /// Nobody: it is not installed.
    Absent,
}

/// A GUID that a dependency expression asks for, and who has it installed.
#[derive(Clone, Copy)]
pub struct Need {
    pub guid: Guid,
    pub giver: Giver,
}

/// A start, second ones too.
#[derive(Drop)]
pub struct Begun {
    /// The number of the module.
    pub number: u32,
    pub phase: Phase,
    /// Why it started, as its line names it.
    pub licence: Licence,
    /// The driver beside which it started: the one that its BEFORE or AFTER names. None where it has neither.
    pub beside: Option<u32>,
    /// What its expression asks for, each GUID once, in the order in which it first mentions them, as it was just before the start: PPIs in PEI, protocols in DXE.
    /// A driver without an expression asks for the architectural protocols (PI 1.8, volume 2).
    pub needs: Seq<Need>,
}

/// A module that waits at the end of a phase.
#[derive(Drop)]
pub struct Held {
    /// The number of the module.
    pub number: u32,
    pub phase: Phase,
    /// Why it waits, as its line names it; where the boot ended by `Spent` or `Deep`, why it would wait if the phase stopped there.
    pub reason: Reason,
    /// What its expression asks for, as in `Begun`, at the end of the phase.
    pub needs: Seq<Need>,
    /// The GUIDs whose coming and going would make its expression hold. `None` where none is known that would do.
    pub change: Option<Change>,
}

/// The move of the heap to permanent memory.
#[derive(Clone, Copy, PartialEq, Eq)]
pub struct Moved {
    /// The old base, an address.
    pub from: u64,
    /// The new base, an address.
    pub to: u64,
    /// How many bytes of the heap the HOB list takes behind the move, its end HOB included.
    pub used: u64,
}

/// A boot, explained.
#[derive(Drop)]
pub struct Explained {
    /// The starts, in their order.
    pub begun: Seq<Begun>,
    /// Those that wait at the end of PEI, in PEI order, and then those that wait at the end of DXE, in discovered order.
    /// One that registered for shadow and did not start again is among them. Those of volumes that were never known are not, nor drivers that were scheduled when the boot ended.
    pub held: Seq<Held>,
    /// The volumes that were reported in PEI, by number, in order.
    pub reported: Seq<u32>,
    /// The volumes that were discovered in DXE, by number, in order. None where PEI did not hand off.
    pub discovered: Seq<u32>,
    /// The move to permanent memory. None where memory was not moved.
    pub moved: Option<Moved>,
    /// How many bytes of the heap the HOB list takes at the end, its end HOB included.
    pub heap: u64,
    /// How many actions were taken in both phases.
    pub actions: u32,
    /// How the boot ended.
    pub result: RunEnd,
}
