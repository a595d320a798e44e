// Words of lines.
ghost use Rattle.std.specs.Prelude.{◌≡◌, ◌++◌, decimal, OnOk};
ghost use Rattle.hex.specs.Hex.{encode_lower};
ghost use Rattle.pi_base.specs.WordText.{guid_text, hexadecimal};
ghost use Rattle.volume_print.specs.Spelling.{phase_word, system_word, core_type_word, type_word};

use fv_volume::build::FileSystem;
use fv_volume::file_type::{
    APPLICATION, COMBINED_MM_DXE, COMBINED_PEIM_DRIVER, DRIVER, DXE_CORE, FREEFORM, PEI_CORE, PEIM,
    RAW, SECURITY_CORE, VOLUME_IMAGE,
};
use pi_base::{DECIMAL_LEN, Guid, HEXADECIMAL_LEN, OutOfMemory, Phase, Seq, decimal, hexadecimal};

/// Adds a number in decimal.
pub(crate) fn put_decimal(out: &mut Seq<u8>, n: u64) -> Result<(), OutOfMemory>
    ensures { OnOk result (out.new ≡ out.old ++ decimal n) }
{
    let mut digits = [0u8; DECIMAL_LEN];
    let len = decimal(n, &mut digits);
    let (text, _) = digits.split_at(len);
    out.append(text)
}

/// Adds a number in hexadecimal, with `0x` before it.
pub(crate) fn put_hexadecimal(out: &mut Seq<u8>, n: u64) -> Result<(), OutOfMemory>
    ensures { OnOk result (out.new ≡ out.old ++ hexadecimal n) }
{
    let mut digits = [0u8; HEXADECIMAL_LEN];
    let len = hexadecimal(n, &mut digits);
    let (text, _) = digits.split_at(len);
    out.append(text)
}

/// Adds bytes in hexadecimal.
pub(crate) fn put_bytes(out: &mut Seq<u8>, bytes: &[u8]) -> Result<(), OutOfMemory>
    ensures { OnOk result (out.new ≡ out.old ++ encode_lower bytes.now) }
{
    match hex::encode(out.alloc(), bytes) {
        Ok(text) => out.append(text.as_bytes()),
        Err(_) => Err(OutOfMemory),
    }
}

/// Adds a GUID.
pub(crate) fn put_guid(out: &mut Seq<u8>, guid: &Guid) -> Result<(), OutOfMemory>
    ensures { OnOk result (out.new ≡ out.old ++ guid_text guid.now) }
{
    out.append(&guid.to_text())
}

/// A phase.
#[tactic(auto, unfolding(crate::specs::Spelling::phase_word))]
pub(crate) fn phase_word(phase: Phase) -> &'static [u8]
    ensures { result.now ≡ phase_word phase }
{
    match phase {
        Phase::Pei => b"pei",
        Phase::Dxe => b"dxe",
    }
}

/// A file system.
#[tactic(auto, unfolding(crate::specs::Spelling::system_word))]
pub(crate) fn system_word(file_system: FileSystem) -> &'static [u8]
    ensures { result.now ≡ system_word file_system }
{
    match file_system {
        FileSystem::Ffs2 => b"ffs2",
        FileSystem::Ffs3 => b"ffs3",
    }
}

// Adds the type of a core or of an application by its name, and another by two hexadecimal digits.
#[tactic(auto, unfolding(crate::specs::Spelling::core_type_word))]
fn put_core_type(out: &mut Seq<u8>, kind: u8) -> Result<(), OutOfMemory>
    ensures { OnOk result (out.new ≡ out.old ++ core_type_word kind) }
{
    match kind {
        SECURITY_CORE => out.append(b"security-core"),
        PEI_CORE => out.append(b"pei-core"),
        DXE_CORE => out.append(b"dxe-core"),
        APPLICATION => out.append(b"application"),
        other => put_bytes(out, &[other]),
    }
}

/// Adds the type of a file: its name, or two hexadecimal digits.
#[tactic(auto, unfolding(crate::specs::Spelling::type_word))]
pub(crate) fn put_type(out: &mut Seq<u8>, kind: u8) -> Result<(), OutOfMemory>
    ensures { OnOk result (out.new ≡ out.old ++ type_word kind) }
{
    match kind {
        RAW => out.append(b"raw"),
        FREEFORM => out.append(b"freeform"),
        PEIM => out.append(b"peim"),
        DRIVER => out.append(b"driver"),
        COMBINED_PEIM_DRIVER => out.append(b"combined"),
        VOLUME_IMAGE => out.append(b"volume-image"),
        COMBINED_MM_DXE => out.append(b"mm-dxe"),
        other => put_core_type(out, other),
    }
}
