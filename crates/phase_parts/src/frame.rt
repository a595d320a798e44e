//! The frame of a script that runs.
ghost use Rattle.std.specs.Prelude.{◌≡◌, ◌<◌, Option};
ghost use Rattle.phase_parts.specs.Frames as F;
ghost use Rattle.phase_parts.specs.Writes.{written};

use crate::registers::{Writes, write_all};
use act_code::MOST_ACTIONS;
use boot_model::{Frame, REGISTERS, Register};
use pi_base::Word;

/// A frame at the first action of a block.
pub fn frame_at<W>(number: u32, block: u8, registers: [Register; REGISTERS]) -> Frame<W>
    ensures { result ≡ F.frame_at number block registers }
{
    Frame {
        module_number: number,
        block,
        position: 0,
        registers,
        last: Word::Success,
        sweep: None,
    }
}

/// The frame in which a notification runs. Its first two registers hold what the notification receives.
pub fn notified<W>(number: u32, block: u8, first: Register, second: Register) -> Frame<W>
    ensures { result ≡ F.notified number block first second }
{
    let mut registers = [Register::Empty; REGISTERS];
    registers[0] = first;
    registers[1] = second;
    frame_at(number, block, registers)
}

/// The frame is after its action and n more, its sweep closed.
pub(crate) fn advance<W: Copy>(frame: &mut Frame<W>, n: u8)
    requires { frame.old.position < MOST_ACTIONS }
    ensures { frame.new ≡ F.past frame.old n }
{
    frame.position = frame.position + 1 + n as u16;
    frame.sweep = None;
}

/// The frame is after its action, which wrote registers, with the action's status and what it has still to visit.
pub(crate) fn answer<W: Copy>(frame: &mut Frame<W>, writes: &Writes, status: Word, sweep: Option<W>)
    requires { frame.old.position < MOST_ACTIONS }
    ensures { frame.new ≡ F.answered frame.old (written frame.old.registers writes.now) status sweep }
{
    write_all(&mut frame.registers, writes);
    advance(frame, 0);
    frame.last = status;
    frame.sweep = sweep;
}
