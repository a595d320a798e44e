// The output of a program: its text leaves in large pieces.
ghost use Rattle.std.specs.Prelude.{◌≡◌, [], OnOk, IfOk};
ghost use Rattle.std.specs.{Io.Buffered.writer_buffer, Io.Buffered.writer_contents, Io.KnownBytes.Keeps};
ghost use Rattle.boot_io.specs.Output.{HasLeftBy};

use crate::again::{TRIES, may_get_through};
use crate::{RealSink, SinkFault};
use pi_base::OutOfMemory;
use std::alloc::Global;
use std::io::{self, BufWriter, ErrorKind, Write};
use std::time::{Clock, Duration};

// How many bytes are held back until they leave together.
const PIECE_LEN: usize = 64 * 1024;

// Hands on what a buffer holds back. A call that was interrupted or would have blocked is made again.
fn flush_buffer<W: Write + Drop>(buffer: &mut BufWriter<W>) -> Result<(), SinkFault>
    ensures text { Keeps (writer_contents W.contents buffer.old) (writer_contents W.contents buffer.new) }
    ensures empty { OnOk result (writer_buffer buffer.new ≡ []) }
{
    let mut tries = TRIES;
    'flushes: loop {
        match buffer.flush() {
            Ok(()) => return Ok(()),
            Err(fault) if tries > 0 && may_get_through(&fault) => tries -= 1,
            Err(_) => return Err(SinkFault),
        }
    }
}

impl<W: Write + Drop> RealSink<BufWriter<W>> {
    /// A sink that collects its text and hands it to `to` in pieces of 64 KiB, the last of them at `finish`.
    pub fn buffered(alloc: Global, to: W) -> Result<RealSink<BufWriter<W>>, OutOfMemory>
        ensures text { IfOk result (λ sink. writer_contents W.contents sink.to ≡ W.contents to) }
        ensures faults { IfOk result (λ sink. sink.faults ≡ 0) }
    {
        match BufWriter::with_capacity(alloc, PIECE_LEN, to) {
            Ok(buffer) => Ok(RealSink::new(buffer)),
            Err(_) => Err(OutOfMemory),
        }
    }

    /// Writes what is still buffered, and returns the writer. If the writer fails, a beginning of the text has left.
    pub fn finish(self) -> (W, Result<(), SinkFault>)
        ensures { HasLeftBy result.1 (writer_contents W.contents self.to) (W.contents result.0) }
    {
        let mut buffer = self.into_writer();
        let flushed = flush_buffer(&mut buffer);
        let (to, _) = buffer.into_parts();
        (to, flushed)
    }
}

/// A writer that waits when the one below it would block, without a busy loop.
#[derive(Drop)]
pub struct PatientWriter<'a, W: Write, C: Clock> {
    to: W,
    clock: &'a C,
}

impl<'a, W: Write, C: Clock> PatientWriter<'a, W, C> {
    /// A writer that waits for `to` by a clock.
    pub fn new(to: W, clock: &'a C) -> PatientWriter<'a, W, C>
        ensures { W.contents result.to ≡ W.contents to }
    {
        PatientWriter { to, clock }
    }

    /// The writer below.
    pub fn into_inner(self) -> W
        ensures { result ≡ self.entry.to }
    {
        self.to
    }
}

impl<'a, W: Write, C: Clock> Write for PatientWriter<'a, W, C> {
    ghost contents = { λ w. W.contents w.to };

    fn write(&mut self, buf: &[u8]) -> io::Result<usize> {
        let answer = self.to.write(buf);
        if is_blocked(&answer) {
            self.clock.sleep(Duration::from_millis(1));
        }
        answer
    }

    fn flush(&mut self) -> io::Result<()> {
        let answer = self.to.flush();
        if is_blocked(&answer) {
            self.clock.sleep(Duration::from_millis(1));
        }
        answer
    }
}

// Whether a call would have blocked.
fn is_blocked<T>(answer: &io::Result<T>) -> bool {
    match answer {
        Ok(_) => false,
        Err(fault) => fault.kind() == ErrorKind::WouldBlock,
    }
}
