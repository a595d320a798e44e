// The start with which a text continues.
ghost use Rattle.std.specs.Prelude.{◌≡◌, ℕ, Some};
ghost use Rattle.boot_io.specs.Faults.{IsPrefix};
ghost use Rattle.boot_model.specs.{declared.licence.Licence.Licence, Text.line_text};
ghost use Rattle.pi_base.specs.declared.guid.Guid.{Guid as OfGuid};
ghost use Rattle.trace_reader.specs.Readable.{IsLineOf, IsReadable};
ghost use Rattle.recorded_boot.specs.{Spelled.IsRight, Spelled.left, StartLine.phase_start};

use crate::order::start_of;
use crate::trace::Spelled;
use boot_model::Line;
use pi_base::{Guid, Phase};
use trace_reader::{one_reading, start_line};

// The volume and the file name of the module that starts in a phase by this line. None if it is not such a line.
fn module_start(line: &Line, phase: Phase) -> Option<(u32, Guid)>
    ensures { (volume : ℕ) (name : OfGuid) (licence : Licence) → line.now ≡ phase_start phase volume name licence
        → result ≡ Some (volume, name) }
{
    match start_of(line) {
        Some(start) if start.phase == phase => Some((start.volume, start.name)),
        _ => None,
    }
}

// The volume and the file name of the module that starts in a phase by the bytes of a line. None if they are not such a line.
fn start_in(line: &[u8], phase: Phase) -> Option<(u32, Guid)>
    ensures { (volume : ℕ) (name : OfGuid) (licence : Licence) → IsLineOf line.now (phase_start phase volume name licence)
        → result ≡ Some (volume, name) }
{
    one_reading();
    match start_line(line) {
        Some(found) => module_start(&found, phase),
        None => None,
    }
}

/// The volume and the file name of the module whose start in a phase is the next line of a text. Of a text that continues otherwise the contract says nothing.
pub fn next_start(text: &Spelled<'_>, phase: Phase) -> Option<(u32, Guid)>
    ensures { IsRight text.now → (volume : ℕ) (name : OfGuid) (licence : Licence) → IsReadable (phase_start phase volume name licence)
        → IsPrefix (line_text (phase_start phase volume name licence)) (left text.now) → result ≡ Some (volume, name) }
{
    match text.next_line() {
        Some(line) => start_in(line, phase),
        None => None,
    }
}
