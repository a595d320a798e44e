// The top call over an output, up to the bytes that leave the program.
ghost use Rattle.std.specs.Prelude.{◌≡◌, IfNone, IfSome};
ghost use Rattle.boot_io.specs.Words.{words_of};
ghost use Rattle.boot_core.specs.Leaving.{EachComesExactly, HasLeft, HasPut};

use crate::answer::answer;
use crate::boot::boot_main;
use crate::status::Status;
use boot_io::{Files, RealSink};
use boot_plan::one_reading;
use mod_catalog::one_catalogue;
use pi_base::OutOfMemory;
use std::alloc::Global;
use std::io::Write;

/// Does what the words of a command line ask for, as `boot_main`, and hands the text on to an output in pieces of 64 KiB. The output is given back; where memory was wanting for the pieces there is none, and nothing was done.
pub fn boot_and_print<F: Files, W: Write + Drop>(
    alloc: Global,
    words: &[String],
    files: &mut F,
    to: W,
) -> (Option<W>, Status)
    // The output holds the whole text, or with the sink's fault a beginning of it.
    ensures left { IfSome result.0 (λ output. HasLeft (HasPut (F.told files.old) (words_of words.now)
        (record { before = F.faults files.old; now = F.faults files.new; missed = F.missed files.new }) (W.contents to))
        (W.contents output) result.1) }
    ensures none { IfNone result.0 ((result.1 ≡ Status.Memory) × (F.faults files.new ≡ F.faults files.old)) }
    ensures exactly { EachComesExactly (F.told files.old) (words_of words.now) result.1 }
{
    one_reading();
    one_catalogue();
    let mut sink = match RealSink::buffered(alloc, to) {
        Ok(sink) => sink,
        Err(OutOfMemory) => return (None, Status::Memory),
    };
    let ran = boot_main(alloc, words, files, &mut sink);
    let (output, handed) = sink.finish();
    (Some(output), answer(handed, ran))
}
