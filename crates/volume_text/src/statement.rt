// What a line says.
use fv_volume::build::{FileAttributes, VolumeForm, VolumeName};
use pi_base::{Guid, Phase, Seq};

/// What a line says.
#[derive(Drop)]
pub enum Statement {
    /// A volume of this form and length begins.
    Volume {
        form: VolumeForm,
        len: u64,
    },
    /// The volume has this name.
    Name {
        name: VolumeName,
    },
    /// A file begins.
    File {
        kind: u8,
        name: Guid,
        attributes: FileAttributes,
    },
    /// A pad file with a body of so many bytes.
    Pad {
        len: u64,
    },
    /// The file's body, which is no sections.
    Body {
        bytes: Seq<u8>,
    },
    /// A section of the file.
    Section {
        kind: u8,
        body: Seq<u8>,
    },
    /// The file's expression for a phase, as its bytes.
    Depex {
        phase: Phase,
        body: Seq<u8>,
    },
    /// A script of the file begins.
    Script {
        phase: Phase,
    },
    /// A block of the script begins.
    Block,
    /// The last volume or script that began ends.
    End,
    /// An action of the script, if the line is one.
    Action {
        line: Seq<u8>,
    },
}
