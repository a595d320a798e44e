//! What the headers of a volume say: all that the search for its files needs.
ghost use Rattle.std.specs.Prelude.{◌≡◌, ◌≤◌, ◌+◌, length, IfOk, IfSome};
ghost use Rattle.fv_volume.specs.Frame.{frame_of, frame_with, aligned};

use crate::extended_header::{ExtendedHeader, extended_header};
use crate::fault::{VolCause, VolFault};
use crate::volume_header::{
    Format, LEAST_HEADER_LEN, VolumeHeader, format_of, header_fault, volume_header,
};
use pi_base::Guid;

/// Files begin at multiples of this, counted from the volume's start.
pub const ALIGNMENT: usize = 8;

/// The frame of a volume.
#[derive(Clone, Copy)]
pub(crate) struct Frame {
    /// The volume's bytes, headers and all.
    pub len: usize,
    /// FvName of the extended header, if there is one.
    pub name: Option<Guid>,
    /// The offset at which the search for files begins, counted from the volume's start.
    pub start: usize,
    pub format: Format,
}

/// An offset rounded up to where a file may begin.
pub(crate) fn aligned(at: usize) -> usize
    requires { at + ALIGNMENT ≤ usize.MAX }
    ensures { result ≡ aligned at }
{
    (at + (ALIGNMENT - 1)) / ALIGNMENT * ALIGNMENT
}

// The frame of a volume with these headers.
fn frame_with(header: &VolumeHeader, extended: Option<ExtendedHeader>) -> Frame
    requires header { header.now.header_len + ALIGNMENT ≤ usize.MAX }
    requires extended { IfSome extended (λ found. found.end + ALIGNMENT ≤ usize.MAX) }
    ensures { result ≡ frame_with header.now extended }
{
    let format = format_of(header);
    match extended {
        None => Frame {
            len: header.len,
            name: None,
            start: aligned(header.header_len),
            format,
        },
        Some(extended) => Frame {
            len: header.len,
            name: Some(extended.name),
            start: aligned(extended.end),
            format,
        },
    }
}

/// The frame, or the first thing that is wrong with the headers.
pub(crate) fn frame_of(bytes: &[u8]) -> Result<Frame, VolFault>
    ensures frame { result ≡ frame_of bytes.now }
    ensures within { IfOk result (λ frame. (frame.len ≤ length bytes.now) × (frame.start ≤ frame.len + 7)) }
{
    if bytes.len() < LEAST_HEADER_LEN {
        return Err(VolFault {
            at: 0,
            cause: VolCause::Short,
        });
    }
    let header = volume_header(bytes);
    if let Some(fault) = header_fault(bytes, &header) {
        return Err(fault);
    }
    let extended = extended_header(bytes, &header)?;
    Ok(frame_with(&header, extended))
}
