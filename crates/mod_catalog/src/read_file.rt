// What is read of a volume's files.
use act_code::Script;
use fv_volume::FfsFile;
use fv_volume::sections::Section;
use pi_base::Seq;

/// A file of a volume as it was read.
#[derive(Drop)]
pub struct ReadFile {
    /// What the volume says of it.
    pub file: FfsFile,
    /// The sections of its body.
    pub sections: Seq<Section>,
    /// The scripts in its sections, in their order.
    pub scripts: Seq<Script>,
}

/// A run of bytes in a volume.
#[derive(Clone, Copy)]
pub struct Stretch {
    /// The offset of its first byte in the volume.
    pub at: u64,
    /// How many bytes it has.
    pub len: u64,
}
