//! A text that a boot is held against, as a sink.
ghost use Rattle.std.specs.Prelude.{◌≡◌, ◌≢◌, ◌≤◌, ◌+◌, ◌-◌, ◌^◌, ◌<◌, ◌↔◌, [], length, Some, IfSome, IsTrue, MatchOption, is_some, nat_lt, slice_get};
ghost use Rattle.recorded_boot.specs.Lines.{BeginsWithLine, Lacks, feeds_in};
ghost use Rattle.std.proofs.Props.{props};

use crate::trace::bytes::{before, behind, count_feeds, first_line, first_other};
use boot_io::{Sink, SinkFault};

/// A sink that compares a boot's output with a text: each piece must be the next one of the text. The first byte that differs is kept, and nothing more is
/// matched after it.
#[derive(Drop)]
pub struct Spelled<'a> {
    text: &'a [u8],
    at: usize,
    wrong: Option<u8>,
    faults: u64,
    ghost within: { at ≤ length text.now },
    ghost apart: { IfSome wrong (λ byte. slice_get text.now at ≢ Some byte) } by { Prim.hlevel props },
    ghost counted: { is_some wrong ≡ nat_lt 0 faults },
}

impl<'a> Spelled<'a> {
    ghost use Rattle.recorded_boot.specs.Spelled.{whole, met, left, IsRight};

    /// A text of which nothing is matched yet.
    pub fn new(text: &'a [u8]) -> Spelled<'a>
        ensures whole { whole result ≡ text.now }
        ensures met { met result ≡ [] }
        ensures right { IsRight result }
    {
        Spelled {
            text,
            at: 0,
            wrong: None,
            faults: 0,
        }
    }

    /// The beginning of the text that was matched.
    pub fn met(&self) -> &[u8]
        ensures { result.now ≡ met self.now }
    {
        before(self.text, self.at)
    }

    /// The next line of the text, without its line feed. None if no line feed follows, or the output already differs from the text.
    pub fn next_line(&self) -> Option<&[u8]>
        ensures { IsRight self.now → MatchOption result (Lacks (left self.now)) (λ line. BeginsWithLine (left self.now) line.now) }
    {
        match self.wrong {
            None => first_line(behind(self.text, self.at)),
            Some(_) => None,
        }
    }

    /// Whether all of the text was matched, and nothing else was written.
    pub fn is_at_end(&self) -> bool
        ensures { IsTrue result ↔ (IsRight self.now × (met self.now ≡ whole self.now)) }
    {
        self.wrong.is_none() && self.at == self.text.len()
    }

    /// The number of the text's line that is compared next: 1, plus one for each matched line feed.
    pub fn line(&self) -> u32
        requires few { length (whole self.now) < 2 ^ 32 - 1 }
        ensures { result ≡ 1 + feeds_in (met self.now) }
    {
        count_feeds(self.met()) as u32 + 1
    }
}

impl Sink for Spelled<'_> {
    ghost use Rattle.recorded_boot.specs.Spelled.{spoken, faults_of, whole};
    ghost use Rattle.boot_io.specs.Sink.{Puts, SinkFaultsAfter};

    ghost text = { λ s. Some (spoken s) };

    ghost faults = { faults_of };

    fn put(&mut self, piece: &[u8]) -> Result<(), SinkFault>
        ensures cause { SinkFaultsAfter result (faults_of self.old) (faults_of self.new) }
        ensures text { Puts result (Some (spoken self.old)) (Some (spoken self.new)) piece.now }
        ensures whole { whole self.new ≡ whole self.old }
    {
        if self.wrong.is_some() {
            self.faults = self.faults.saturating_add(1);
            return Err(SinkFault);
        }
        match first_other(behind(self.text, self.at), piece) {
            None => {
                self.at += piece.len();
                Ok(())
            }
            Some(place) => {
                *self = Spelled {
                    text: self.text,
                    at: self.at + place,
                    wrong: Some(piece[place]),
                    faults: 1,
                };
                Err(SinkFault)
            }
        }
    }
}
