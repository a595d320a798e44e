// The lines of the modules that wait.
ghost use Rattle.std.specs.Prelude.{◌≡◌, ◌∷◌, ◌++◌, ℕ, List, decimal, flat_map, map, OnOk};
ghost use Rattle.boot_io.specs.Line.{line_of, spaced};
ghost use Rattle.pi_base.specs.WordText.{guid_text};
ghost use Rattle.mod_catalog.specs.declared.catalogue.Module.{Module as OfModule};
ghost use Rattle.explain_text.specs.{declared.reasons.Begun.Begun as Start, Context.AreContexts, Context.IsContext, Flags.flag};
ghost use Rattle.explain_text.specs.{Givers.Chain, Words.word_of};
ghost use Rattle.explain_text.specs.HeldLines.{change_lines, core_gives, has_line, held_lines, lacks_line, lacks_words, need_line, pair_words, told_words, unless_line, waits_line, would_line};

use crate::catalog::{end_line, phase_word, put_front, put_line, put_word};
use crate::context::Context;
use crate::flags::flag;
use crate::givers::{Link, link_at};
use crate::keyword::{Keyword, word_of};
use crate::reasons::{Giver, Held, Need};
use crate::start_lines::giver_word;
use crate::ways::Change;
use boot_trace::{decimal_word, reason_word};
use pi_base::{Guid, MEMORY_PPI, OutOfMemory, Phase, Seq};

/// How many modules a line tells that may install a GUID (own).
pub const MOST_TOLD: usize = 16;

// Whether the core may install a GUID.
fn core_gives(phase: Phase, guid: &Guid) -> bool
    ensures { result ≡ core_gives phase guid.now }
{
    match phase {
        Phase::Pei => guid.0.as_slice() == MEMORY_PPI.0.as_slice(),
        Phase::Dxe => false,
    }
}

// Adds a module and whether it started.
fn put_pair(out: &mut Seq<u8>, started: &[bool], number: u32) -> Result<(), OutOfMemory>
    ensures { OnOk result (out.new ≡ out.old ++ flat_map spaced (pair_words (flag started.now) number)) }
{
    put_word(out, decimal_word(u64::from(number)).as_slice())?;
    if flag(started, number) {
        put_word(out, word_of(Keyword::Started))
    } else {
        put_word(out, word_of(Keyword::Waits))
    }
}

// Adds modules from a place on, the first of them one by one.
fn put_told(
    out: &mut Seq<u8>,
    started: &[bool],
    links: &[Link],
    first: Option<usize>,
) -> Result<(), OutOfMemory>
    ensures { (numbers : List ℕ) → Chain links.now first numbers
        → OnOk result (out.new ≡ out.old ++ flat_map spaced (told_words (flag started.now) numbers)) }
{
    let mut place = first;
    'told: for _ in 0..MOST_TOLD {
        let Some(link) = link_at(links, place) else {
            return Ok(());
        };
        put_pair(out, started, link.number)?;
        place = link.next;
    }
    match link_at(links, place) {
        Some(_) => put_word(out, word_of(Keyword::More)),
        None => Ok(()),
    }
}

// Adds who may install a GUID: the core, which waits, in front of modules, or a dash where there is nobody.
fn put_givers(
    out: &mut Seq<u8>,
    context: &Context,
    phase: Phase,
    guid: &Guid,
) -> Result<(), OutOfMemory>
    ensures { (begun : List Start) (modules : List OfModule) → IsContext begun modules phase context.now
        → OnOk result (out.new ≡ out.old ++ flat_map spaced (lacks_words begun modules phase guid.now)) }
{
    let started = context.started.as_slice();
    let links = context.givers.links.as_slice();
    let first = context.givers.first.get(guid);
    if core_gives(phase, guid) {
        put_word(out, word_of(Keyword::Core))?;
        put_word(out, word_of(Keyword::Waits))?;
        return put_told(out, started, links, first);
    }
    match link_at(links, first) {
        Some(_) => put_told(out, started, links, first),
        None => put_word(out, word_of(Keyword::Dash)),
    }
}

// The line of a GUID that is not there.
fn put_lacks(
    out: &mut Seq<u8>,
    context: &Context,
    phase: Phase,
    number: u32,
    guid: &Guid,
) -> Result<(), OutOfMemory>
    ensures { (begun : List Start) (modules : List OfModule) → IsContext begun modules phase context.now
        → OnOk result (out.new ≡ out.old ++ lacks_line begun modules phase number guid.now) }
{
    put_front(
        out,
        word_of(Keyword::Lacks),
        &[decimal_word(u64::from(number)).as_slice(), &guid.to_text()],
    )?;
    put_givers(out, context, phase, guid)?;
    end_line(out)
}

// The line of a GUID that somebody has installed.
fn put_has(out: &mut Seq<u8>, number: u32, need: &Need) -> Result<(), OutOfMemory>
    ensures { OnOk result (out.new ≡ out.old ++ has_line number need.now.guid need.now.giver) }
{
    put_line(
        out,
        word_of(Keyword::Has),
        &[
            decimal_word(u64::from(number)).as_slice(),
            &need.guid.to_text(),
            giver_word(need.giver).as_slice(),
        ],
    )
}

// The line of what an expression asks for.
fn put_need(
    out: &mut Seq<u8>,
    context: &Context,
    phase: Phase,
    number: u32,
    need: &Need,
) -> Result<(), OutOfMemory>
    ensures { (begun : List Start) (modules : List OfModule) → IsContext begun modules phase context.now
        → OnOk result (out.new ≡ out.old ++ need_line begun modules phase number need.now) }
{
    match need.giver {
        Giver::Absent => {
            put_lacks(out, context, phase, number, &need.guid)?;
            Ok(())
        }
        _ => put_has(out, number, need),
    }
}

// The lines of what it asks for.
fn put_needs(
    out: &mut Seq<u8>,
    context: &Context,
    phase: Phase,
    number: u32,
    needs: &[Need],
) -> Result<(), OutOfMemory>
    ensures { (begun : List Start) (modules : List OfModule) → IsContext begun modules phase context.now
        → OnOk result (out.new ≡ out.old ++ flat_map (need_line begun modules phase number) needs.now) }
{
    'needs: for need in needs {
        put_need(out, context, phase, number, need)?;
    }
    Ok(())
}

// Adds GUIDs.
fn put_guids(out: &mut Seq<u8>, guids: &[Guid]) -> Result<(), OutOfMemory>
    ensures { OnOk result (out.new ≡ out.old ++ flat_map spaced (map guid_text guids.now)) }
{
    'guids: for guid in guids {
        put_word(out, &guid.to_text())?;
    }
    Ok(())
}

// A line of GUIDs.
fn put_guid_line(
    out: &mut Seq<u8>,
    word: Keyword,
    number: u32,
    guids: &[Guid],
) -> Result<(), OutOfMemory>
    ensures { OnOk result (out.new ≡ out.old ++ line_of (word_of word) (decimal number ∷ map guid_text guids.now)) }
{
    let number = decimal_word(u64::from(number));
    put_front(out, word_of(word), &[number.as_slice()])?;
    put_guids(out, guids)?;
    end_line(out)
}

// The line of the GUIDs that have to come.
fn put_would(
    out: &mut Seq<u8>,
    number: u32,
    would: &[Guid],
    unless: &[Guid],
) -> Result<(), OutOfMemory>
    ensures { OnOk result (out.new ≡ out.old ++ would_line number would.now unless.now) }
{
    match (would, unless) {
        ([], []) => put_line(
            out,
            word_of(Keyword::Would),
            &[
                decimal_word(u64::from(number)).as_slice(),
                word_of(Keyword::Dash),
            ],
        ),
        ([], _) => Ok(()),
        _ => put_guid_line(out, Keyword::Would, number, would),
    }
}

// The line of those that have to go.
fn put_unless(out: &mut Seq<u8>, number: u32, unless: &[Guid]) -> Result<(), OutOfMemory>
    ensures { OnOk result (out.new ≡ out.old ++ unless_line number unless.now) }
{
    if unless.is_empty() {
        return Ok(());
    }
    put_guid_line(out, Keyword::Unless, number, unless)
}

// The lines of the change that would do.
fn put_change(out: &mut Seq<u8>, number: u32, change: &Option<Change>) -> Result<(), OutOfMemory>
    ensures { OnOk result (out.new ≡ out.old ++ change_lines number change.now) }
{
    let Some(change) = change else {
        return Ok(());
    };
    put_would(
        out,
        number,
        change.would.as_slice(),
        change.unless.as_slice(),
    )?;
    put_unless(out, number, change.unless.as_slice())
}

// The line of a module that waits.
fn put_waits(out: &mut Seq<u8>, wait: &Held) -> Result<(), OutOfMemory>
    ensures { OnOk result (out.new ≡ out.old ++ waits_line wait.now) }
{
    put_line(
        out,
        word_of(Keyword::Waits),
        &[
            decimal_word(u64::from(wait.number)).as_slice(),
            phase_word(wait.phase),
            reason_word(wait.reason),
        ],
    )
}

// The lines of a module that waits.
fn put_held(out: &mut Seq<u8>, context: &Context, wait: &Held) -> Result<(), OutOfMemory>
    ensures { (begun : List Start) (modules : List OfModule) → IsContext begun modules wait.now.phase context.now
        → OnOk result (out.new ≡ out.old ++ held_lines begun modules wait.now) }
{
    put_waits(out, wait)?;
    put_needs(out, context, wait.phase, wait.number, wait.needs.as_slice())?;
    put_change(out, wait.number, &wait.change)
}

// Those of one that waits in either phase.
fn put_wait(out: &mut Seq<u8>, pei: &Context, dxe: &Context, wait: &Held) -> Result<(), OutOfMemory>
    ensures { (begun : List Start) (modules : List OfModule) → AreContexts begun modules pei.now dxe.now
        → OnOk result (out.new ≡ out.old ++ held_lines begun modules wait.now) }
{
    match wait.phase {
        Phase::Pei => put_held(out, pei, wait),
        Phase::Dxe => put_held(out, dxe, wait),
    }
}

/// The lines of modules that wait.
pub(crate) fn put_all_held(
    out: &mut Seq<u8>,
    pei: &Context,
    dxe: &Context,
    held: &[Held],
) -> Result<(), OutOfMemory>
    ensures { (begun : List Start) (modules : List OfModule) → AreContexts begun modules pei.now dxe.now
        → OnOk result (out.new ≡ out.old ++ flat_map (held_lines begun modules) held.now) }
{
    'waits: for wait in held {
        put_wait(out, pei, dxe, wait)?;
    }
    Ok(())
}
