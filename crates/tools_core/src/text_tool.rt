// Expressions and scripts as text, and as bytes.
ghost use Rattle.std.specs.Prelude.{◌≡◌, ◌≤◌, length, IfOk};
ghost use Rattle.tools_core.specs.declared.report.Report.TheVariants as R;
ghost use Rattle.tools_core.specs.{Ends.Tells, Outcome.ContentReport};
ghost use Rattle.tools_core.specs.TextReport.{AssemblyReport, DepexReport, ExpressionReport, ScriptReport, hex_line};

use crate::command_line::Tool;
use crate::mp_tool::mp_report;
use crate::report::Report;
use crate::volume_tool::{print_report, volume_report};
use act_code::{ActCause, WriteFault, read_script, write_script};
use asm_text::{TextFault, parse_depex, parse_script, print_depex, print_script};
use depex_code::{DepexFault, read_depex, write_depex};
use pi_base::{OutOfMemory, Phase, Seq};
use std::alloc::Global;

const LINE_FEED: u8 = b'\n';

// Bytes as plain hexadecimal on one line.
fn hex_answer(alloc: Global, bytes: &[u8]) -> Result<Report, OutOfMemory>
    ensures { IfOk result (λ report. report ≡ R.Answer (hex_line bytes.now)) }
{
    let Ok(digits) = hex::encode(alloc, bytes) else {
        return Err(OutOfMemory);
    };
    let mut text = Seq::new(alloc);
    text.append(digits.as_bytes())?;
    text.push(LINE_FEED)?;
    Ok(Report::Answer(text))
}

// The bytes of the text of an expression.
fn assemble_depex(alloc: Global, text: &[u8]) -> Result<Report, OutOfMemory>
    ensures { IfOk result (Tells (DepexReport text.now)) }
{
    let depex = match parse_depex(alloc, text) {
        Ok(depex) => depex,
        Err(TextFault::Bad { line }) => return Ok(Report::Text(line)),
        Err(TextFault::TooLong) => return Ok(Report::TextLong),
        Err(TextFault::Memory) => return Err(OutOfMemory),
    };
    let bytes = write_depex(alloc, &depex)?;
    hex_answer(alloc, bytes.as_slice())
}

// The bytes of the text of a script.
fn assemble_script(alloc: Global, text: &[u8]) -> Result<Report, OutOfMemory>
    ensures { IfOk result (Tells (AssemblyReport text.now)) }
{
    let script = match parse_script(alloc, text) {
        Ok(script) => script,
        Err(TextFault::Bad { line }) => return Ok(Report::Text(line)),
        Err(TextFault::TooLong) => return Ok(Report::TextLong),
        Err(TextFault::Memory) => return Err(OutOfMemory),
    };
    match write_script(alloc, &script) {
        Ok(bytes) => hex_answer(alloc, bytes.as_slice()),
        Err(WriteFault::TooLong) => Ok(Report::TextLong),
        Err(WriteFault::Memory) => Err(OutOfMemory),
    }
}

// The text of an expression's bytes.
fn read_expression(alloc: Global, bytes: &[u8], phase: Phase) -> Result<Report, OutOfMemory>
    ensures { IfOk result (Tells (ExpressionReport phase bytes.now)) }
{
    match read_depex(alloc, bytes, phase) {
        Ok(depex) => Ok(Report::Answer(print_depex(alloc, &depex)?)),
        Err(DepexFault::Malformed(at)) => Ok(Report::Malformed(at)),
        Err(DepexFault::Memory) => Err(OutOfMemory),
    }
}

// The text of a script's bytes.
fn script_report(alloc: Global, bytes: &[u8]) -> Result<Report, OutOfMemory>
    ensures { IfOk result (Tells (ScriptReport bytes.now)) }
{
    match read_script(alloc, bytes) {
        Ok(script) => Ok(Report::Answer(print_script(alloc, &script)?)),
        Err(fault) => {
            if fault.cause == ActCause::Memory {
                return Err(OutOfMemory);
            }
            Ok(Report::Bytes(fault))
        }
    }
}

/// What the content of a tool's file leads to.
pub(crate) fn content_report(
    alloc: Global,
    tool: Tool,
    content: &[u8],
) -> Result<Report, OutOfMemory>
    requires { length content.now ≤ 0x4000000 }
    ensures { IfOk result (Tells (ContentReport tool content.now)) }
{
    match tool {
        Tool::AssembleDepex => assemble_depex(alloc, content),
        Tool::AssembleScript => assemble_script(alloc, content),
        Tool::ReadPei => read_expression(alloc, content, Phase::Pei),
        Tool::ReadDxe => read_expression(alloc, content, Phase::Dxe),
        Tool::ReadScript => script_report(alloc, content),
        Tool::Mp => mp_report(alloc, content),
        Tool::Volume => volume_report(alloc, content),
        Tool::ReadVolume => print_report(alloc, content),
    }
}
