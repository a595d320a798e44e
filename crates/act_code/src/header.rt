// The header of a script.
ghost use Rattle.std.specs.Prelude.{◌≡◌};
ghost use Rattle.act_code.specs.Header.{header_at, fields_of, phase_of, is_magic};

use crate::fault::{ActCause, ActFault};
use pi_base::Phase;

/// What a script's header says, and how long the script is.
#[derive(Clone, Copy)]
pub struct Header {
    /// The length of the whole script.
    pub size: usize,
    /// The phase whose actions it has.
    pub phase: Phase,
    /// The number of blocks.
    pub blocks: u8,
}

/// The first bytes of a script.
pub const MAGIC: [u8; 4] = *b"PIAS";

/// The length of the header, in bytes.
pub const HEADER_LEN: usize = 8;

/// The greatest length of a script, in bytes.
pub const MOST_SCRIPT: usize = 65536;

/// The most blocks of a script.
pub const MOST_BLOCKS: u8 = 64;

/// The version of the format.
pub const VERSION: u8 = 1;

/// The byte of PEI.
pub const PEI: u8 = 1;

/// The byte of DXE.
pub const DXE: u8 = 2;

const VERSION_AT: u32 = 4;

const PHASE_AT: u32 = 5;

const BLOCKS_AT: u32 = 6;

const ZERO_AT: u32 = 7;

// The phase of a byte.
fn phase_of(byte: u8) -> Option<Phase>
    ensures { result ≡ phase_of byte }
{
    match byte {
        PEI => Some(Phase::Pei),
        DXE => Some(Phase::Dxe),
        _ => None,
    }
}

// What the fields after the magic say.
fn fields(size: usize, version: u8, phase: u8, blocks: u8, zero: u8) -> Result<Header, ActFault>
    ensures { result ≡ fields_of size version phase blocks zero }
{
    if version != VERSION {
        return Err(ActFault {
            at: VERSION_AT,
            cause: ActCause::Version,
        });
    }
    match phase_of(phase) {
        None => Err(ActFault {
            at: PHASE_AT,
            cause: ActCause::Phase,
        }),
        Some(phase) => {
            if blocks < 1 || MOST_BLOCKS < blocks || MOST_SCRIPT < size {
                Err(ActFault {
                    at: BLOCKS_AT,
                    cause: ActCause::Count,
                })
            } else if zero != 0 {
                Err(ActFault {
                    at: ZERO_AT,
                    cause: ActCause::Count,
                })
            } else {
                Ok(Header {
                    size,
                    phase,
                    blocks,
                })
            }
        }
    }
}

// Whether these bytes are the first ones of a script.
fn is_magic(a: u8, b: u8, c: u8, d: u8) -> bool
    ensures { result ≡ is_magic a b c d }
{
    a == MAGIC[0] && b == MAGIC[1] && c == MAGIC[2] && d == MAGIC[3]
}

/// Reads the header of a script, or returns its first fault.
pub fn read_header(bytes: &[u8]) -> Result<Header, ActFault>
    ensures { result ≡ header_at bytes.now }
{
    match bytes {
        [a, b, c, d, version, phase, blocks, zero, ..] if is_magic(*a, *b, *c, *d) => {
            fields(bytes.len(), *version, *phase, *blocks, *zero)
        }
        _ => Err(ActFault {
            at: 0,
            cause: ActCause::Magic,
        }),
    }
}
