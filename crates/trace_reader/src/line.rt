// A line of a trace, without its line feed.
ghost use Rattle.std.specs.Prelude.{IfSome, IsNone, IfOk};
ghost use Rattle.line_words.specs.PrintedWords.{Finds, Lacks};
ghost use Rattle.trace_reader.specs.{Readable.IsLineOf, Lacking.LacksPlainLines};

use crate::audit_line::audit_line;
use crate::byte_line::{file_line, hob_line, log_line};
use crate::call_line::call_line;
use crate::count_line::count_line;
use crate::end_line::end_line;
use crate::entry_line::entry_line;
use crate::move_line::move_line;
use crate::notify_line::notify_line;
use crate::refusal_line::refusal_line;
use crate::starting_line::start_line;
use boot_model::Line;
use pi_base::OutOfMemory;
use std::alloc::Global;

// A line that is read without memory.
fn plain_line(line: &[u8]) -> Option<Line>
    ensures read { IfSome result (IsLineOf line.now) }
    ensures none { IsNone result → LacksPlainLines line.now }
{
    if let Some(found) = call_line(line) {
        return Some(found);
    }
    if let Some(found) = log_line(line) {
        return Some(found);
    }
    if let Some(found) = start_line(line) {
        return Some(found);
    }
    if let Some(found) = notify_line(line) {
        return Some(found);
    }
    if let Some(found) = count_line(line) {
        return Some(found);
    }
    if let Some(found) = entry_line(line) {
        return Some(found);
    }
    if let Some(found) = end_line(line) {
        return Some(found);
    }
    if let Some(found) = move_line(line) {
        return Some(found);
    }
    if let Some(found) = audit_line(line) {
        return Some(found);
    }
    refusal_line(line)
}

// The readable line that bytes without a line feed are.
pub(crate) fn read_line(alloc: Global, line: &[u8]) -> Result<Option<Line>, OutOfMemory>
    requires { Lacks 10 line.now }
    ensures { IfOk result (Finds (IsLineOf line.now)) }
{
    if let Some(found) = plain_line(line) {
        return Ok(Some(found));
    }
    match hob_line(alloc, line) {
        Ok(Some(found)) => return Ok(Some(found)),
        Ok(None) => {}
        Err(OutOfMemory) => return Err(OutOfMemory),
    }
    file_line(alloc, line)
}
