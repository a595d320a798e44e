// The lines of a text that the words on standard error are made of.
ghost use Rattle.std.specs.Prelude.{◌≡◌};
ghost use Rattle.program_edge.specs.KeptLines.{is_of_boot};

use line_words::place_of;
use std::alloc::Global;
use std::mem;

// The most bytes of a line that are kept.
const MOST_LINE: usize = 0x1000;

// The most bytes of a boot's lines that are kept.
const MOST_BOOT: usize = 0x20_0000;

/// The last two lines of a text, and of a boot's text those that words need.
#[derive(Drop)]
pub struct KeptLines {
    line: Vec<u8>,
    last: Vec<u8>,
    before: Vec<u8>,
    boot: Vec<u8>,
    is_whole: bool,
}

// Whether words need this line of a boot.
pub(crate) fn is_of_boot(line: &[u8]) -> bool
    ensures { result ≡ is_of_boot line.now }
{
    line.starts_with(b"pei start ".as_slice())
        || line.starts_with(b"dxe start ".as_slice())
        || line.starts_with(b"dxe volume ".as_slice())
        || line.starts_with(b"waiting ".as_slice())
        || line.starts_with(b"call memory ".as_slice())
        || line.starts_with(b"handoff ".as_slice())
}

impl KeptLines {
    /// No line.
    pub fn new(alloc: Global) -> KeptLines {
        KeptLines {
            line: Vec::new(alloc),
            last: Vec::new(alloc),
            before: Vec::new(alloc),
            boot: Vec::new(alloc),
            is_whole: true,
        }
    }

    /// The last line. It is cut after 4,096 bytes.
    pub fn last(&self) -> &[u8] {
        self.last.as_slice()
    }

    /// The line before the last.
    pub fn before(&self) -> &[u8] {
        self.before.as_slice()
    }

    /// The lines of starts, of discovered volumes, of modules that wait, of the service `memory` and of the hand-off. None if they are too long, or memory ran out.
    pub fn boot(&self) -> Option<&[u8]> {
        if self.is_whole {
            Some(self.boot.as_slice())
        } else {
            None
        }
    }

    // A piece of a line.
    fn add_piece(&mut self, piece: &[u8]) {
        let room = MOST_LINE.saturating_sub(self.line.len());
        let piece = match piece.get(..room) {
            Some(front) => front,
            None => piece,
        };
        if self.line.extend_from_slice(piece).is_err() {
            self.is_whole = false;
        }
    }

    // Keeps a line of a boot, with a line feed.
    fn keep_line(&mut self) {
        let fits = self.line.len() < MOST_BOOT.saturating_sub(self.boot.len());
        if !fits || self.line.push(b'\n').is_err() {
            self.is_whole = false;
            return;
        }
        if self.boot.extend_from_slice(self.line.as_slice()).is_err() {
            self.is_whole = false;
        }
        let _ = self.line.pop();
    }

    // The line has ended.
    fn end_line(&mut self) {
        if self.is_whole && is_of_boot(self.line.as_slice()) {
            self.keep_line();
        }
        mem::swap(&mut self.before, &mut self.last);
        mem::swap(&mut self.last, &mut self.line);
        self.line.clear();
    }

    /// Takes a piece of the text.
    pub fn add(&mut self, taken: &[u8]) {
        let mut rest = taken;
        'lines: while !rest.is_empty() {
            let (piece, behind) = rest.split_at(place_of(rest, b'\n'));
            self.add_piece(piece);
            rest = match behind {
                [_, after @ ..] => {
                    self.end_line();
                    after
                }
                [] => behind,
            };
        }
    }
}
