//! A stream of sections, read from its start to its end.
ghost use Rattle.std.specs.Prelude.{◌≡◌, ◌≢◌, ◌≤◌, ◌+◌, IfOk, IfErr, length};
ghost use Rattle.fv_volume.specs.SectionHeader.{section_at};
ghost use Rattle.fv_volume.specs.Stream.{AreSections, IsFirstFault, AreInside, aligned, met_at};

use crate::sections::fault::{SecCause, SecFault};
use crate::sections::section::Section;
use crate::sections::section_header::{HEADER_LEN, section_at};
use pi_base::Seq;
use std::alloc::Global;

/// How many sections a stream has at most (own).
pub const MOST_SECTIONS: usize = 256;

/// Sections begin at multiples of this, counted from the stream's start.
pub const ALIGNMENT: usize = 4;

// An offset rounded up to where a section may begin.
fn aligned(at: usize) -> usize
    requires { at + ALIGNMENT ≤ usize.MAX }
    ensures { result ≡ aligned at }
{
    (at + (ALIGNMENT - 1)) / ALIGNMENT * ALIGNMENT
}

// What is met at a place with so many sections before it.
fn met_at(bytes: &[u8], count: usize, at: usize) -> Result<Section, SecCause>
    requires { at + HEADER_LEN ≤ length bytes.now }
    ensures { result ≡ met_at bytes.now count at }
{
    if count >= MOST_SECTIONS {
        return Err(SecCause::TooMany);
    }
    section_at(bytes, at)
}

/// The sections that are in the bytes, in order.
///
/// PI 1.8, volume 3, firmware file sections; the project allows fewer than four bytes to be left at the end.
pub fn read_sections(alloc: Global, bytes: &[u8]) -> Result<Seq<Section>, SecFault>
    ensures found { IfOk result (AreSections bytes.now) }
    ensures refused { IfErr result (λ fault. fault.cause ≢ SecCause.Memory → IsFirstFault bytes.now fault) }
    ensures inside { IfOk result (AreInside bytes.now) }
{
    let mut sections = Seq::new(alloc);
    let mut at = 0usize;
    'stream: while at + HEADER_LEN <= bytes.len() {
        match met_at(bytes, sections.len(), at) {
            Ok(section) => {
                sections.push(section)?;
                at = aligned((section.body_at + section.body_len) as usize);
            }
            Err(cause) => {
                return Err(SecFault {
                    at: at as u64,
                    cause,
                });
            }
        }
    }
    Ok(sections)
}
