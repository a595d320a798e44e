// The causes of an image, each with what it means.
use mod_catalog::ImageCause;

/// What is wrong with an image for a cause, and what is allowed.
pub(crate) fn image_words(cause: ImageCause) -> &'static str {
    match cause {
        ImageCause::Short => "fewer than the 64 bytes of a volume's header are there",
        ImageCause::Signature =>
            "no firmware volume begins there: bytes 40 to 43 of its header are _FVH; pitools volume makes a volume of a text, and piboot-cut-volumes cuts those of an image",
        ImageCause::Revision => "the volume's revision is not 2",
        ImageCause::FileSystem =>
            "the volume's file system is neither FFS2 nor FFS3, as in the first volume of many images; piboot-cut-volumes cuts an image into volumes",
        ImageCause::Length =>
            "the volume says that it is longer than its file is; is the file cut?",
        ImageCause::HeaderLength =>
            "the length of the volume's header is odd, below 64, or above the volume's",
        ImageCause::HeaderSum => "the 16-bit words of the volume's header do not sum to 0",
        ImageCause::ExtHeader =>
            "the volume's extended header lies outside of the volume, or is shorter than 20 bytes",
        ImageCause::FileSum => "the bytes of a file's header do not sum to 0",
        ImageCause::FileSize =>
            "a file's size is below its header's length or passes the volume's end, or it is large in FFS2",
        ImageCause::DataSum =>
            "a file's checksum is not that of its body, or not 0xaa where it has none",
        ImageCause::TooManyFiles => "the volume has more than 16384 files",
        ImageCause::Size =>
            "a section's size is below its header's length, or passes its file's end",
        ImageCause::Compressed =>
            "the section is compressed; piboot-cut-volumes unpacks what is packed by LZMA",
        ImageCause::GuidDefined =>
            "the section is GUID-defined; piboot-cut-volumes unpacks what is packed by LZMA",
        ImageCause::TooMany => "a file has more than 256 sections",
        ImageCause::Magic => "the script is shorter than 8 bytes, or does not begin with PIAS",
        ImageCause::Version => "the script's version is not 1",
        ImageCause::Phase => "the script's phase is neither 1 (PEI) nor 2 (DXE)",
        ImageCause::Count =>
            "the script has no block or more than 64, more than 65536 bytes, or bytes behind its last block",
        ImageCause::Block =>
            "a block of the script has no action or more than 1024, or its last one is no ret",
        ImageCause::Action =>
            "the action is none of the script's phase, is cut short, or an operand is out of its range",
        ImageCause::Jump =>
            "skip_if passes the end of its block; an action has to stand behind those that it skips",
        ImageCause::Index => "a register is above r15, or the script has no block of this number",
        ImageCause::Nesting => "volumes are nested deeper than 4",
        ImageCause::TooManyModules => "the volumes have more than 4096 modules",
        ImageCause::Place =>
            "the plan's volume meets temp, ram or an earlier volume, or ends above 0x10000000000 (2^40)",
        ImageCause::TooManyVolumes => "there are more than 256 volumes with those nested in them",
        ImageCause::ScriptTotal => "all scripts together have more than 16 MiB",
        ImageCause::Memory => "memory was wanting",
    }
}
