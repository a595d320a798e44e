// The actions of scripts.
ghost use Rattle.std.specs.Prelude.{◌≡◌};
ghost use Rattle.act_code.specs.Table.{code_of_action};

use crate::code::Code;
use pi_base::{Guid, Seq, Word};

/// How an action gives a GUID.
#[derive(Clone, Copy)]
pub enum GuidArg {
    /// In the script.
    Inline(Guid),
    /// In a volume, at the address that a register holds.
    Register(u8),
}

/// An action of a script (own). `r`, `d`, `p`, `v`, `x`, `h`, `old`, `new`, `begin` and `length` are numbers of registers, and so are the bytes of a `list`;
/// `block` is the number of a block.
#[derive(Drop)]
pub enum Action {
    /// Makes a register a number.
    Set {
        r: u8,
        n: u64,
    },
    /// Adds to a register, modulo 2^64.
    Add {
        r: u8,
        n: u64,
    },
    /// Makes a pool of so many bytes.
    Pool {
        r: u8,
        size: u32,
    },
    /// Writes bytes into a pool, at an offset of its body.
    Store {
        p: u8,
        offset: u32,
        bytes: Seq<u8>,
    },
    /// The address of a body, with an offset.
    Addr {
        v: u8,
        x: u8,
        offset: u32,
    },
    /// Reads `n` bytes of memory.
    Peek {
        v: u8,
        n: u8,
    },
    /// Makes a descriptor, of a PPI (kind 0), a callback (1) or a dispatch notification (2). `arg` is a register that holds the PPI's value, or the block that a notification runs.
    Desc {
        d: u8,
        kind: u8,
        guid: GuidArg,
        arg: u8,
    },
    /// Installs PPIs.
    Install {
        list: Seq<u8>,
    },
    /// Installs a PPI in the place of another.
    Reinstall {
        old: u8,
        new: u8,
    },
    /// Registers notifications.
    Notify {
        list: Seq<u8>,
    },
    /// Finds a PPI by its GUID and the number of the instance.
    Locate {
        d: u8,
        v: u8,
        guid: Guid,
        instance: u16,
    },
    /// Makes a HOB. `kind` is its HobType.
    Hob {
        kind: u8,
        body: Seq<u8>,
    },
    /// Reports where permanent memory is.
    Memory {
        begin: u8,
        length: u8,
    },
    /// Takes pages of memory.
    Pages {
        r: u8,
        memory_type: u8,
        count: u32,
    },
    /// Gets (form 0) or sets (form 1) the boot mode.
    BootMode {
        form: u8,
        r: u8,
    },
    /// Prints a text.
    Log {
        text: Seq<u8>,
    },
    /// Skips the next `n` actions: with condition 0 if the last status is Success, with condition 1 if it is not.
    SkipIf {
        condition: u8,
        n: u8,
    },
    /// Ends the frame.
    Ret {
        status: Word,
    },
    /// Registers the module to be started again after migration.
    Shadow,
    /// Installs an interface on a new handle (form 0) or on one that is there (form 1).
    DxeInstall {
        form: u8,
        h: u8,
        guid: Guid,
        v: u8,
    },
    /// Replaces an interface by another.
    DxeReinstall {
        h: u8,
        guid: Guid,
        old: u8,
        new: u8,
    },
    /// Takes an interface off a handle.
    DxeUninstall {
        h: u8,
        guid: Guid,
        v: u8,
    },
    /// Finds the lowest handle that has a protocol.
    DxeLocate {
        h: u8,
        v: u8,
        guid: Guid,
    },
    /// Registers a notification of a protocol.
    DxeNotify {
        guid: Guid,
        block: u8,
    },
    /// Requests a driver.
    Schedule {
        guid: Guid,
    },
    /// Discovers the volume at an address.
    Process {
        v: u8,
    },
    /// Asks for dispatching while it continues.
    Dispatch,
}

impl Action {
    /// Its code, the first of its bytes.
    pub fn code(&self) -> Code
        ensures { result ≡ code_of_action self.now }
    {
        match self {
            Action::Set { .. } => Code::Set,
            Action::Add { .. } => Code::Add,
            Action::Pool { .. } => Code::Pool,
            Action::Store { .. } => Code::Store,
            Action::Addr { .. } => Code::Addr,
            Action::Peek { .. } => Code::Peek,
            Action::Desc { .. } => Code::Desc,
            Action::Install { .. } => Code::Install,
            Action::Reinstall { .. } => Code::Reinstall,
            Action::Notify { .. } => Code::Notify,
            Action::Locate { .. } => Code::Locate,
            Action::Hob { .. } => Code::Hob,
            Action::Memory { .. } => Code::Memory,
            Action::Pages { .. } => Code::Pages,
            Action::BootMode { .. } => Code::BootMode,
            Action::Log { .. } => Code::Log,
            Action::SkipIf { .. } => Code::SkipIf,
            Action::Ret { .. } => Code::Ret,
            Action::Shadow => Code::Shadow,
            Action::DxeInstall { .. } => Code::DxeInstall,
            Action::DxeReinstall { .. } => Code::DxeReinstall,
            Action::DxeUninstall { .. } => Code::DxeUninstall,
            Action::DxeLocate { .. } => Code::DxeLocate,
            Action::DxeNotify { .. } => Code::DxeNotify,
            Action::Schedule { .. } => Code::Schedule,
            Action::Process { .. } => Code::Process,
            Action::Dispatch => Code::Dispatch,
        }
    }
}
