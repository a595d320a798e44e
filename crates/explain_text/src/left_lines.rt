// The lines of the parts that neither started nor wait.
ghost use Rattle.std.specs.Prelude.{◌≡◌, ◌≤◌, ◌++◌, length, OnOk};
ghost use Rattle.mod_catalog.specs.{declared.limits.TheConstants.MOST_MODULES, Parts.has_number};
ghost use Rattle.explain_text.specs.Flags.{flag};
ghost use Rattle.explain_text.specs.LeftLines.{left_line, left_lines, left_word};

use crate::catalog::{phase_word, put_line};
use crate::flags::flag;
use crate::givers::part_of;
use crate::keyword::{Keyword, word_of};
use boot_trace::decimal_word;
use mod_catalog::Module;
use pi_base::{OutOfMemory, Phase, Seq};

// Whether a number is among some.
fn has_number(list: &[u32], number: u32) -> bool
    ensures { result ≡ has_number list.now number }
{
    list.contains(&number)
}

// The word of why a part is left.
fn left_word(phase: Phase, known: &[u32], member: &Module) -> Keyword
    ensures { result ≡ left_word phase known.now member.now }
{
    if has_number(known, member.volume) {
        return Keyword::Scheduled;
    }
    match phase {
        Phase::Pei => Keyword::Unreported,
        Phase::Dxe => Keyword::Undiscovered,
    }
}

// The line of a module's part, where it is left.
fn put_left_part(
    out: &mut Seq<u8>,
    phase: Phase,
    told: &[bool],
    known: &[u32],
    number: u32,
    member: &Module,
) -> Result<(), OutOfMemory>
    ensures { OnOk result (out.new ≡ out.old ++ left_line phase (flag told.now) known.now number member.now) }
{
    if part_of(phase, member).is_none() || flag(told, number) {
        return Ok(());
    }
    put_line(
        out,
        word_of(Keyword::Waits),
        &[
            decimal_word(u64::from(number)).as_slice(),
            phase_word(phase),
            word_of(left_word(phase, known, member)),
        ],
    )
}

/// The lines of the parts of a phase that are not among those that are told.
pub(crate) fn put_left(
    out: &mut Seq<u8>,
    phase: Phase,
    told: &[bool],
    known: &[u32],
    modules: &[Module],
) -> Result<(), OutOfMemory>
    requires { length modules.now ≤ MOST_MODULES }
    ensures { OnOk result (out.new ≡ out.old ++ left_lines phase (flag told.now) known.now 0 modules.now) }
{
    let mut number = 0u32;
    'modules: for member in modules {
        put_left_part(out, phase, told, known, number, member)?;
        number += 1;
    }
    Ok(())
}
