// The last lines.
ghost use Rattle.std.specs.Prelude.{◌≡◌, ◌++◌, OnOk};
ghost use Rattle.explain_text.specs.EndLines.{end_lines, heap_line, moved_lines};
ghost use Rattle.explain_text.specs.Words.{word_of};

use crate::catalog::put_line;
use crate::keyword::{Keyword, word_of};
use crate::reasons::{Explained, Moved};
use boot_trace::{decimal_word, hexadecimal_word, run_end_word};
use pi_base::{OutOfMemory, Seq};

// The line of how many bytes the HOB list takes at a moment.
fn put_heap(out: &mut Seq<u8>, moment: Keyword, used: u64) -> Result<(), OutOfMemory>
    ensures { OnOk result (out.new ≡ out.old ++ heap_line (word_of moment) used) }
{
    put_line(
        out,
        word_of(Keyword::Heap),
        &[word_of(moment), decimal_word(used).as_slice()],
    )
}

// The lines of the move.
fn put_moved(out: &mut Seq<u8>, moved: &Option<Moved>) -> Result<(), OutOfMemory>
    ensures { OnOk result (out.new ≡ out.old ++ moved_lines moved.now) }
{
    let Some(moved) = moved else {
        return Ok(());
    };
    let from = hexadecimal_word(moved.from);
    let to = hexadecimal_word(moved.to);
    put_line(
        out,
        word_of(Keyword::Moved),
        &[from.as_slice(), to.as_slice()],
    )?;
    put_heap(out, Keyword::Moved, moved.used)
}

/// The last lines.
pub(crate) fn put_end(out: &mut Seq<u8>, explained: &Explained) -> Result<(), OutOfMemory>
    ensures { OnOk result (out.new ≡ out.old ++ end_lines explained.now) }
{
    put_moved(out, &explained.moved)?;
    put_heap(out, Keyword::End, explained.heap)?;
    let actions = decimal_word(u64::from(explained.actions));
    put_line(out, word_of(Keyword::Fuel), &[actions.as_slice()])?;
    put_line(
        out,
        word_of(Keyword::Result),
        &[run_end_word(explained.result)],
    )
}
