//! The model of a boot: the machine of PEI and the machine of DXE, their runs, and the printed lines. The crates above promise what these definitions say.
//! Begin with `specs/PeiStep` and `specs/DxeStep`.
#![tactic(auto)]

mod driver;
mod frame;
mod known_guid;
mod licence;
mod line;
mod peim_state;
mod phase_end;

pub use driver::{DriverFrame, ProtocolNote, ProtocolSweep, Scheduled};
pub use frame::{BLOCKS, Frame, MOST_FRAMES, PeiFrame, REGISTERS, Register};
pub use known_guid::{ARCHITECTURAL, FILE_SYSTEM2, FILE_SYSTEM3};
pub use licence::Licence;
pub use line::{CallName, ExpressionWord, Extra, Line, Reason, RunEnd, SHOWN_LEN};
pub use peim_state::{PeimState, state_of};
pub use phase_end::{DxeEnd, PeiEnd};
