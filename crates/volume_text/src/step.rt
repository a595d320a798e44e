// One line more of a text.
ghost use Rattle.std.specs.Prelude.{◌≡◌, IfOk, OnOk};
ghost use Rattle.volume_text.specs.Reading.{Gives, Answers};
ghost use Rattle.volume_text.specs.Step.{IsSaidState, begun, filling_with, filling, nested, with_depex, with_script, closed, filled, written, at_line, EndsScript, goes_on, outside, Takes, Steps};
ghost use Rattle.source_words.specs.Script.{AreSaid};

use crate::counted::{CountedVolume, opened};
use crate::fault::{Cause, Fault, Stop, TextFault};
use crate::line::read_line;
use crate::script::{add_action, add_block, script_body};
use crate::statement::Statement;
use crate::volume::{built_of, depex_checked, depex_type, script_checked};
use act_code::Script;
use fv_volume::build::{NewSection, VolumeForm};
use fv_volume::sections::section_type::{RAW, VOLUME_IMAGE};
use pi_base::{Phase, Seq};
use std::alloc::Global;

/// How many volumes may be open one in the other inside of the outermost: no reader of an image looks deeper (own).
pub const MOST_INSIDE: usize = 3;

/// What is open behind some lines of a text.
#[derive(Drop)]
pub(crate) enum State {
    /// Nothing: no line has come.
    Begin,
    /// Volumes, each in the last file of the one before. `top` is the innermost.
    Filling {
        below: Seq<CountedVolume>,
        top: CountedVolume,
    },
    /// A script in the last file of the innermost volume, and the text's lines that it has so far.
    Writing {
        below: Seq<CountedVolume>,
        top: CountedVolume,
        script: Script,
        lines: Seq<u64>,
    },
    /// Nothing more: the volume has ended.
    Done {
        bytes: Seq<u8>,
    },
}

// The first volume.
fn begun(alloc: Global, statement: &Statement) -> Result<State, Stop>
    ensures { Gives (λ x. x) result (begun statement.now) }
{
    match statement {
        Statement::Volume { form, len } => Ok(State::Filling {
            below: Seq::new(alloc),
            top: opened(alloc, *form, *len),
        }),
        _ => Err(Stop::Fault(Cause::NoVolume)),
    }
}

// The innermost volume as it has become, if it has.
fn filling_with(below: Seq<CountedVolume>, made: Result<CountedVolume, Stop>) -> Result<State, Stop>
    ensures { result ≡ filling_with below made }
{
    match made {
        Ok(top) => Ok(State::Filling { below, top }),
        Err(stop) => {
            drop(below);
            Err(stop)
        }
    }
}

// A section more in the last file.
#[tactic(auto, using(crate::proofs::Ending::topped))]
fn filling(
    below: Seq<CountedVolume>,
    top: CountedVolume,
    section: NewSection,
) -> Result<State, Stop>
    ensures { Gives (λ x. x) result (filling below top section) }
{
    filling_with(below, top.with_section(section))
}

// A volume in the last file begins.
fn nested(
    alloc: Global,
    mut below: Seq<CountedVolume>,
    top: CountedVolume,
    form: VolumeForm,
    len: u64,
) -> Result<State, Stop>
    ensures { Gives (λ x. x) result (nested below top form len) }
{
    if top.volume().files.is_empty() {
        return Err(Stop::Fault(Cause::NoFile));
    }
    if below.len() >= MOST_INSIDE {
        return Err(Stop::Fault(Cause::Nesting));
    }
    below.push(top)?;
    Ok(State::Filling {
        below,
        top: opened(alloc, form, len),
    })
}

// The expression of the last file for a phase.
fn with_depex(
    below: Seq<CountedVolume>,
    top: CountedVolume,
    phase: Phase,
    body: Seq<u8>,
) -> Result<State, Stop>
    ensures { Gives (λ x. x) result (with_depex below top phase body) }
{
    depex_checked(top.volume(), phase)?;
    let kind = depex_type(phase);
    filling(below, top, NewSection { kind, body })
}

// A script of the last file begins.
fn with_script(
    alloc: Global,
    below: Seq<CountedVolume>,
    top: CountedVolume,
    phase: Phase,
) -> Result<State, Stop>
    ensures made { Gives (λ x. x) result (with_script below top phase) }
    ensures said { IfOk result IsSaidState }
{
    script_checked(top.volume(), phase)?;
    Ok(State::Writing {
        below,
        top,
        script: Script {
            phase,
            blocks: Seq::new(alloc),
        },
        lines: Seq::new(alloc),
    })
}

// The innermost volume ends.
#[tactic(auto, using(crate::proofs::Lasts::last_push))]
fn closed(alloc: Global, mut below: Seq<CountedVolume>, top: &CountedVolume) -> Result<State, Stop>
    ensures { Gives (λ x. x) result (closed below top.now) }
{
    let bytes = built_of(alloc, top.volume())?;
    match below.pop() {
        None => Ok(State::Done { bytes }),
        Some(top) => filling(
            below,
            top,
            NewSection {
                kind: VOLUME_IMAGE,
                body: bytes,
            },
        ),
    }
}

// A line more in a volume.
fn filled(
    alloc: Global,
    below: Seq<CountedVolume>,
    top: CountedVolume,
    statement: Statement,
) -> Result<State, Stop>
    ensures made { Gives (λ x. x) result (filled below top statement) }
    ensures said { IfOk result IsSaidState }
{
    match statement {
        Statement::Volume { form, len } => nested(alloc, below, top, form, len),
        Statement::Name { name } => filling_with(below, top.with_name(name)),
        Statement::Pad { len } => filling_with(below, top.with_pad(alloc, len)),
        Statement::File {
            kind,
            name,
            attributes,
        } => filling_with(below, top.with_file(alloc, kind, name, attributes)),
        Statement::Body { bytes } => filling_with(below, top.with_last_body(bytes)),
        Statement::Section { kind, body } => filling(below, top, NewSection { kind, body }),
        Statement::Depex { phase, body } => with_depex(below, top, phase, body),
        Statement::Script { phase } => with_script(alloc, below, top, phase),
        Statement::End => closed(alloc, below, &top),
        Statement::Block => Err(Stop::Fault(Cause::NoScript)),
        Statement::Action { .. } => Err(Stop::Fault(Cause::UnknownLine)),
    }
}

// Gives a script one more line, which is not its `end`.
fn write(alloc: Global, script: &mut Script, statement: &Statement) -> Result<(), Stop>
    requires said { AreSaid script.old }
    ensures made { Gives (λ _. script.new) result (written script.old statement.now) }
    ensures said { OnOk result (AreSaid script.new) }
{
    match statement {
        Statement::Block => add_block(alloc, script),
        Statement::Action { line } => add_action(alloc, script, line.as_slice()),
        _ => Err(Stop::Fault(Cause::InScript)),
    }
}

// What stopped a line.
fn at(number: u64, stop: Stop) -> TextFault
    ensures { result ≡ at_line number stop }
{
    match stop {
        Stop::Fault(cause) => TextFault::Bad(Fault {
            line: number,
            cause,
        }),
        Stop::Memory => TextFault::Memory,
    }
}

// A script in the last file of the innermost volume.
#[derive(Drop)]
struct OpenScript {
    below: Seq<CountedVolume>,
    top: CountedVolume,
    script: Script,
    lines: Seq<u64>,
}

// A script ends.
#[tactic(auto, using(crate::proofs::Ending::ended_stops))]
fn script_ended(alloc: Global, held: OpenScript, number: u64) -> Result<State, TextFault>
    requires said { AreSaid held.script }
    ensures ended { Answers (EndsScript held.below held.top held.script held.lines number) result }
    ensures said { IfOk result IsSaidState }
{
    let OpenScript {
        below,
        top,
        script,
        lines,
    } = held;
    let written = script_body(alloc, &script, lines.as_slice(), number);
    drop(script);
    drop(lines);
    match written {
        Ok(body) => match filling(below, top, NewSection { kind: RAW, body }) {
            Ok(state) => Ok(state),
            Err(stop) => Err(at(number, stop)),
        },
        Err(fault) => {
            drop(below);
            drop(top);
            Err(fault)
        }
    }
}

// A script goes on.
fn script_goes_on(
    alloc: Global,
    mut held: OpenScript,
    number: u64,
    statement: &Statement,
) -> Result<State, TextFault>
    requires said { AreSaid held.script }
    ensures made { Answers (λ r. r ≡ goes_on held.below held.top held.script held.lines number statement.now) result }
    ensures said { IfOk result IsSaidState }
{
    match write(alloc, &mut held.script, statement) {
        Ok(()) => {
            held.lines.push(number)?;
            let OpenScript {
                below,
                top,
                script,
                lines,
            } = held;
            Ok(State::Writing {
                below,
                top,
                script,
                lines,
            })
        }
        Err(stop) => {
            drop(held);
            Err(at(number, stop))
        }
    }
}

// A line more outside of scripts.
fn outside(alloc: Global, state: State, statement: Statement) -> Result<State, Stop>
    ensures made { Gives (λ x. x) result (outside state statement) }
    ensures said { IfOk result IsSaidState }
{
    match state {
        State::Begin => {
            let begun = begun(alloc, &statement);
            drop(statement);
            begun
        }
        State::Filling { below, top } => filled(alloc, below, top, statement),
        State::Writing { .. } => {
            drop(state);
            drop(statement);
            Err(Stop::Fault(Cause::InScript))
        }
        State::Done { .. } => {
            drop(state);
            drop(statement);
            Err(Stop::Fault(Cause::BehindEnd))
        }
    }
}

// A statement more.
fn taken(alloc: Global, state: State, number: u64, statement: Statement) -> Result<State, TextFault>
    requires said { IsSaidState state }
    ensures made { Answers (Takes state number statement) result }
    ensures said { IfOk result IsSaidState }
{
    match state {
        State::Writing {
            below,
            top,
            script,
            lines,
        } => {
            let held = OpenScript {
                below,
                top,
                script,
                lines,
            };
            match statement {
                Statement::End => script_ended(alloc, held, number),
                other => script_goes_on(alloc, held, number, &other),
            }
        }
        other => match outside(alloc, other, statement) {
            Ok(state) => Ok(state),
            Err(stop) => Err(at(number, stop)),
        },
    }
}

/// What is open behind one line more.
#[tactic(auto, using(crate::proofs::Ending::steps_by, crate::proofs::Ending::steps_not))]
pub(crate) fn step(
    alloc: Global,
    state: State,
    number: u64,
    line: &[u8],
) -> Result<State, TextFault>
    requires said { IsSaidState state }
    ensures made { Answers (Steps state number line.now) result }
    ensures said { IfOk result IsSaidState }
{
    match read_line(alloc, line) {
        Ok(statement) => taken(alloc, state, number, statement),
        Err(stop) => Err(at(number, stop)),
    }
}
