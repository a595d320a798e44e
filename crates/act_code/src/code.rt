// The codes of actions.
ghost use Rattle.std.specs.Prelude.{◌≡◌};
ghost use Rattle.act_code.specs.Table.{number_of, code_of, is_code_of, name_of};

use pi_base::Phase;

/// The code of an action, its first byte (own). If both phases have an action of one name, that of drivers is here with `Dxe` in front.
#[derive(Clone, Copy)]
pub enum Code {
    Set = 0x01,
    Add = 0x02,
    Pool = 0x03,
    Store = 0x04,
    Addr = 0x06,
    Peek = 0x07,
    Desc = 0x08,
    Install = 0x09,
    Reinstall = 0x0a,
    Notify = 0x0b,
    Locate = 0x0c,
    Hob = 0x0d,
    Memory = 0x0e,
    Pages = 0x0f,
    BootMode = 0x10,
    Log = 0x11,
    SkipIf = 0x12,
    Ret = 0x13,
    Shadow = 0x14,
    DxeInstall = 0x20,
    DxeReinstall = 0x21,
    DxeUninstall = 0x22,
    DxeLocate = 0x23,
    DxeNotify = 0x24,
    Schedule = 0x25,
    Process = 0x26,
    Dispatch = 0x27,
}

/// All of them.
pub const CODES: [Code; 27] = [
    Code::Set,
    Code::Add,
    Code::Pool,
    Code::Store,
    Code::Addr,
    Code::Peek,
    Code::Desc,
    Code::Install,
    Code::Reinstall,
    Code::Notify,
    Code::Locate,
    Code::Hob,
    Code::Memory,
    Code::Pages,
    Code::BootMode,
    Code::Log,
    Code::SkipIf,
    Code::Ret,
    Code::Shadow,
    Code::DxeInstall,
    Code::DxeReinstall,
    Code::DxeUninstall,
    Code::DxeLocate,
    Code::DxeNotify,
    Code::Schedule,
    Code::Process,
    Code::Dispatch,
];

impl Code {
    /// The code with this byte. None if no action has it.
    pub fn from_byte(byte: u8) -> Option<Code>
        ensures { result ≡ code_of byte }
    {
        CODES.iter().copied().find(|code| byte == code.number())
    }

    /// The code's byte.
    pub fn number(self) -> u8
        ensures { result ≡ number_of self }
    {
        self as u8
    }

    /// The name of the action, as it is in the text of a script.
    #[tactic(auto, unfolding(crate::specs::Table::name_of))]
    pub fn name(self) -> &'static [u8]
        ensures { result.now ≡ name_of self }
    {
        match self {
            Code::Set => b"set",
            Code::Add => b"add",
            Code::Pool => b"pool",
            Code::Store => b"store",
            Code::Addr => b"addr",
            Code::Peek => b"peek",
            Code::Desc => b"desc",
            Code::Install | Code::DxeInstall => b"install",
            Code::Reinstall | Code::DxeReinstall => b"reinstall",
            Code::Notify | Code::DxeNotify => b"notify",
            Code::Locate | Code::DxeLocate => b"locate",
            Code::Hob => b"hob",
            Code::Memory => b"memory",
            Code::Pages => b"pages",
            Code::BootMode => b"boot_mode",
            Code::Log => b"log",
            Code::SkipIf => b"skip_if",
            Code::Ret => b"ret",
            Code::Shadow => b"shadow",
            Code::DxeUninstall => b"uninstall",
            Code::Schedule => b"schedule",
            Code::Process => b"process",
            Code::Dispatch => b"dispatch",
        }
    }

    /// Whether the action is one of a phase.
    pub fn is_of(self, phase: Phase) -> bool
        ensures { result ≡ is_code_of phase self }
    {
        match self {
            Code::Set | Code::Add | Code::Peek | Code::Log | Code::SkipIf | Code::Ret => true,
            Code::DxeInstall
            | Code::DxeReinstall
            | Code::DxeUninstall
            | Code::DxeLocate
            | Code::DxeNotify
            | Code::Schedule
            | Code::Process
            | Code::Dispatch => phase == Phase::Dxe,
            _ => phase == Phase::Pei,
        }
    }
}
