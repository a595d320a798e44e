//! The attributes of files that a writer may choose. PI 1.8, volume 3, `EFI_FFS_FILE_ATTRIBUTES`.
ghost use Rattle.std.specs.Prelude.{◌≡◌};
ghost use Rattle.fv_volume.specs.Attributes.{alignment_bits, alignment_len, alignment_of, alignment_with, attributes_byte, attributes_in, plain_attributes};

use crate::file_header::LARGE_FILE;

/// `FFS_ATTRIB_FIXED`.
pub const FIXED: u8 = 0x04;

/// `FFS_ATTRIB_DATA_ALIGNMENT`, three bits, and `FFS_ATTRIB_DATA_ALIGNMENT_2`.
pub const DATA_ALIGNMENT: u8 = 0x3a;

/// The alignment of the bytes after a file's header, counted from the volume's start.
#[derive(Clone, Copy)]
pub enum Alignment {
    /// Anywhere.
    Byte,
    Bytes16,
    Bytes128,
    Bytes512,
    Kib1,
    Kib4,
    Kib32,
    Kib64,
    Kib128,
    Kib256,
    Kib512,
    Mib1,
    Mib2,
    Mib4,
    Mib8,
    Mib16,
}

/// All alignments, in order of size.
pub const ALIGNMENTS: [Alignment; 16] = [
    Alignment::Byte,
    Alignment::Bytes16,
    Alignment::Bytes128,
    Alignment::Bytes512,
    Alignment::Kib1,
    Alignment::Kib4,
    Alignment::Kib32,
    Alignment::Kib64,
    Alignment::Kib128,
    Alignment::Kib256,
    Alignment::Kib512,
    Alignment::Mib1,
    Alignment::Mib2,
    Alignment::Mib4,
    Alignment::Mib8,
    Alignment::Mib16,
];

impl Alignment {
    /// Its bits in the Attributes byte.
    pub fn bits(self) -> u8
        ensures { result ≡ alignment_bits self }
    {
        match self {
            Alignment::Byte => 0x00,
            Alignment::Bytes16 => 0x08,
            Alignment::Bytes128 => 0x10,
            Alignment::Bytes512 => 0x18,
            Alignment::Kib1 => 0x20,
            Alignment::Kib4 => 0x28,
            Alignment::Kib32 => 0x30,
            Alignment::Kib64 => 0x38,
            Alignment::Kib128 => 0x02,
            Alignment::Kib256 => 0x0a,
            Alignment::Kib512 => 0x12,
            Alignment::Mib1 => 0x1a,
            Alignment::Mib2 => 0x22,
            Alignment::Mib4 => 0x2a,
            Alignment::Mib8 => 0x32,
            Alignment::Mib16 => 0x3a,
        }
    }

    /// The alignment in bytes.
    pub fn len(self) -> u64
        ensures { result ≡ alignment_len self }
    {
        match self {
            Alignment::Byte => 1,
            Alignment::Bytes16 => 16,
            Alignment::Bytes128 => 128,
            Alignment::Bytes512 => 512,
            Alignment::Kib1 => 1024,
            Alignment::Kib4 => 4096,
            Alignment::Kib32 => 32768,
            Alignment::Kib64 => 65536,
            Alignment::Kib128 => 131072,
            Alignment::Kib256 => 262144,
            Alignment::Kib512 => 524288,
            Alignment::Mib1 => 1048576,
            Alignment::Mib2 => 2097152,
            Alignment::Mib4 => 4194304,
            Alignment::Mib8 => 8388608,
            Alignment::Mib16 => 16777216,
        }
    }

    // The alignment of these bits.
    fn of_bits(bits: u8) -> Option<Alignment>
        ensures { result ≡ alignment_with bits }
    {
        ALIGNMENTS
            .iter()
            .copied()
            .find(|alignment| alignment.bits() == bits)
    }

    /// The alignment to a number of bytes. None if no alignment has this number.
    pub fn of_len(len: u64) -> Option<Alignment>
        ensures { result ≡ alignment_of len }
    {
        ALIGNMENTS
            .iter()
            .copied()
            .find(|alignment| alignment.len() == len)
    }
}

/// The attributes of a file that its writer may choose.
#[derive(Clone, Copy)]
pub struct FileAttributes {
    /// Whether the file may not be moved.
    pub fixed: bool,
    /// The alignment of its bytes after the header. It is only recorded: it does not move the file.
    pub alignment: Alignment,
}

impl FileAttributes {
    /// Attributes without an alignment.
    pub fn new() -> FileAttributes
        ensures { result ≡ plain_attributes }
    {
        FileAttributes {
            fixed: false,
            alignment: Alignment::Byte,
        }
    }

    /// The attributes in an Attributes byte.
    pub fn of_byte(byte: u8) -> FileAttributes
        ensures { result ≡ attributes_in byte }
    {
        FileAttributes {
            fixed: byte & FIXED != 0,
            alignment: match Alignment::of_bits(byte & DATA_ALIGNMENT) {
                Some(alignment) => alignment,
                None => Alignment::Byte,
            },
        }
    }

    /// The Attributes byte. `large` says whether the file has a large header. The file has no file checksum.
    pub fn byte(self, large: bool) -> u8
        ensures { result ≡ attributes_byte self large }
    {
        let fixed = if self.fixed { FIXED } else { 0 };
        let large = if large { LARGE_FILE } else { 0 };
        self.alignment.bits() + fixed + large
    }
}
