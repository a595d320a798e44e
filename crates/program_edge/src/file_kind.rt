// What a file is that is handed in for another one, as far as its bytes and the beginnings of its lines show.
ghost use Rattle.std.specs.Prelude.{◌≡◌};
ghost use Rattle.program_edge.specs.FileKind.{begins_a_line, begins_either, has_installing, has_loading, is_image, is_log, is_plan, is_trace, is_volume_text, kind_of_file};

use crate::boot_story::count_behind;

/// What a file is.
#[derive(Clone, Copy, PartialEq, Eq)]
pub enum FileKind {
    /// A firmware volume, alone or as the first one of an image.
    Image,
    /// The debug log of a boot.
    Log,
    /// A plan.
    Plan,
    /// The text of a volume.
    VolumeText,
    /// The printed text of a boot.
    Trace,
}

// Where the signature of a volume is, in bytes from its beginning.
const SIGNATURE_AT: usize = 40;

const SIGNATURE: &[u8] = b"_FVH";

// Whether a line of a text begins with `front`.
fn begins_a_line(text: &[u8], front: &[u8]) -> bool
    ensures { result ≡ begins_a_line text.now front.now }
{
    count_behind(text, front) > 0
}

// Whether a line of a text begins in one of two ways.
fn begins_either(text: &[u8], one: &[u8], other: &[u8]) -> bool
    ensures { result ≡ begins_either text.now one.now other.now }
{
    begins_a_line(text, one) || begins_a_line(text, other)
}

// Whether a firmware volume begins the bytes.
fn is_image(bytes: &[u8]) -> bool
    ensures { result ≡ is_image bytes.now }
{
    if bytes.len() < SIGNATURE_AT + SIGNATURE.len() {
        return false;
    }
    match bytes.get(SIGNATURE_AT..) {
        Some(rest) => rest.starts_with(SIGNATURE),
        None => false,
    }
}

// Whether a text says that modules are loaded.
fn has_loading(text: &[u8]) -> bool
    ensures { result ≡ has_loading text.now }
{
    begins_either(
        text,
        b"Loading PEIM ".as_slice(),
        b"Loading driver ".as_slice(),
    )
}

// Whether it says that something is installed.
fn has_installing(text: &[u8]) -> bool
    ensures { result ≡ has_installing text.now }
{
    begins_either(
        text,
        b"InstallProtocolInterface: ".as_slice(),
        b"Install PPI: ".as_slice(),
    )
}

// Whether it is the debug log of a boot.
fn is_log(text: &[u8]) -> bool
    ensures { result ≡ is_log text.now }
{
    has_loading(text) || has_installing(text)
}

// Whether a text is a plan.
fn is_plan(text: &[u8]) -> bool
    ensures { result ≡ is_plan text.now }
{
    begins_a_line(text, b"temp ".as_slice()) && begins_a_line(text, b"ram ".as_slice())
}

// Whether it is that of a volume.
fn is_volume_text(text: &[u8]) -> bool
    ensures { result ≡ is_volume_text text.now }
{
    begins_a_line(text, b"volume ".as_slice())
        && begins_a_line(text, b"end".as_slice())
        && !begins_a_line(text, b"temp ".as_slice())
}

// Whether it is that of a boot.
fn is_trace(text: &[u8]) -> bool
    ensures { result ≡ is_trace text.now }
{
    begins_a_line(text, b"report ".as_slice()) && begins_a_line(text, b"pei ".as_slice())
}

/// What bytes are. None if they show nothing of it.
pub fn kind_of_file(bytes: &[u8]) -> Option<FileKind>
    ensures { result ≡ kind_of_file bytes.now }
{
    if is_image(bytes) {
        Some(FileKind::Image)
    } else if is_log(bytes) {
        Some(FileKind::Log)
    } else if is_plan(bytes) {
        Some(FileKind::Plan)
    } else if is_volume_text(bytes) {
        Some(FileKind::VolumeText)
    } else if is_trace(bytes) {
        Some(FileKind::Trace)
    } else {
        None
    }
}

impl FileKind {
    /// What it is, and what makes of it a file of another kind.
    pub fn words(self) -> &'static str {
        match self {
            FileKind::Image =>
                "a firmware volume, or an image that begins with one; piboot-cut-volumes cuts an image into volumes and makes a plan of it",
            FileKind::Log => "the debug log of a boot; piboot-log-to-trace makes a trace of it",
            FileKind::Plan => "a plan, which piboot boot reads",
            FileKind::VolumeText => "the text of a volume; pitools volume makes the volume of it",
            FileKind::Trace => "the printed text of a boot",
        }
    }
}
