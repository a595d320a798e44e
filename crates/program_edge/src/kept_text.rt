// A text of which lines are kept as it leaves.
ghost use Rattle.std.specs.Prelude.{◌≡◌};

use crate::kept_files::Keeping;
use crate::kept_lines::KeptLines;
use std::alloc::Global;
use std::io::{self, Write};

/// A writer that keeps lines of what the writer below it takes.
#[derive(Drop)]
pub struct KeptText<W: Write + Drop> {
    to: W,
    lines: Option<KeptLines>,
}

impl<W: Write + Drop> KeptText<W> {
    /// A writer that keeps as much as `keeping` says of what leaves by `to`.
    pub fn new(alloc: Global, to: W, keeping: Keeping) -> KeptText<W>
        ensures { W.contents result.to ≡ W.contents to }
    {
        let lines = match keeping {
            Keeping::Words => Some(KeptLines::new(alloc)),
            Keeping::Nothing => None,
        };
        KeptText { to, lines }
    }

    /// The lines that are kept.
    pub fn into_lines(self) -> Option<KeptLines> {
        self.lines
    }

    // Keeps what was taken.
    fn keep(&mut self, taken: &[u8])
        ensures { self.new.to ≡ self.old.to }
    {
        if let Some(lines) = &mut self.lines {
            lines.add(taken);
        }
    }
}

impl<W: Write + Drop> Write for KeptText<W> {
    ghost contents = { λ w. W.contents w.to };

    fn write(&mut self, buf: &[u8]) -> io::Result<usize> {
        let count = self.to.write(buf)?;
        if let Some(taken) = buf.get(..count) {
            self.keep(taken);
        }
        Ok(count)
    }

    fn flush(&mut self) -> io::Result<()> {
        self.to.flush()
    }
}
