// The text of an audit.
ghost use Rattle.std.specs.Prelude.{◌≡◌, ◌≤◌, length};
ghost use Rattle.boot_io.specs.Sink.{Puts, SinkFaultsAfter};
ghost use Rattle.mod_catalog.specs.declared.limits.TheConstants.{MOST_MODULES, MOST_VOLUMES};
ghost use Rattle.boot_model.specs.Audit.{expression_word, part_word, part_rank};
ghost use Rattle.boot_core.specs.AuditText.{audit_text, volume_text, module_text, text_in, members_text, entry_text, entries_text};

use boot_io::{Sink, SinkFault};
use boot_model::{ExpressionWord, Line, RunEnd};
use boot_trace::put_made;
use depex_code::Depex;
use mod_catalog::{Catalog, Module, Part, PartExpr, VolumeEntry};

// How an expression is shown.
fn expression_word(expression: &PartExpr) -> ExpressionWord
    ensures { result ≡ expression_word expression.now }
{
    match expression {
        PartExpr::Absent => ExpressionWord::Absent,
        PartExpr::Malformed(at) => ExpressionWord::Malformed(*at),
        PartExpr::Held(Depex::Before(name)) => ExpressionWord::Before(*name),
        PartExpr::Held(Depex::After(name)) => ExpressionWord::After(*name),
        PartExpr::Held(Depex::Expr { sor: true, .. }) => ExpressionWord::Sor,
        PartExpr::Held(Depex::Expr { sor: false, .. }) => ExpressionWord::Tree,
    }
}

fn part_word(part: &Option<Part>) -> ExpressionWord
    ensures { result ≡ part_word part.now }
{
    match part {
        None => ExpressionWord::NoPart,
        Some(part) => expression_word(&part.expr),
    }
}

fn part_rank(part: &Option<Part>) -> Option<u32>
    ensures { result ≡ part_rank part.now }
{
    match part {
        None => None,
        Some(part) => part.rank,
    }
}

// The line of a volume.
#[tactic(auto, unfolding(crate::specs::AuditText::volume_text))]
fn put_volume<S: Sink>(sink: &mut S, number: u32, entry: &VolumeEntry) -> Result<(), SinkFault>
    ensures text { Puts result (S.text sink.old) (S.text sink.new) (volume_text (record { number = number; item = entry.now })) }
    ensures cause { SinkFaultsAfter result (S.faults sink.old) (S.faults sink.new) }
{
    put_made(
        sink,
        Line::Volume {
            volume: number,
            base: entry.base,
            len: entry.len,
            name: entry.name,
        },
    )
}

// The line of a module.
#[tactic(auto, unfolding(crate::specs::AuditText::module_text))]
fn put_module<S: Sink>(sink: &mut S, number: u32, member: &Module) -> Result<(), SinkFault>
    ensures text { Puts result (S.text sink.old) (S.text sink.new) (module_text (record { number = number; item = member.now })) }
    ensures cause { SinkFaultsAfter result (S.faults sink.old) (S.faults sink.new) }
{
    put_made(
        sink,
        Line::Module {
            by: number,
            volume: member.volume,
            name: member.name,
            kind: member.kind,
            pei_rank: part_rank(&member.pei),
            dxe_rank: part_rank(&member.dxe),
            pei: part_word(&member.pei),
            dxe: part_word(&member.dxe),
        },
    )
}

// The line of a module where it is in a volume.
fn put_module_in<S: Sink>(
    sink: &mut S,
    volume: u32,
    number: u32,
    member: &Module,
) -> Result<(), SinkFault>
    ensures text { Puts result (S.text sink.old) (S.text sink.new) (text_in volume (record { number = number; item = member.now })) }
    ensures cause { SinkFaultsAfter result (S.faults sink.old) (S.faults sink.new) }
{
    if member.volume == volume {
        put_module(sink, number, member)
    } else {
        Ok(())
    }
}

// The lines of the modules of a volume.
fn put_members<S: Sink>(sink: &mut S, volume: u32, modules: &[Module]) -> Result<(), SinkFault>
    requires { length modules.now ≤ MOST_MODULES }
    ensures text { Puts result (S.text sink.old) (S.text sink.new) (members_text volume 0 modules.now) }
    ensures cause { SinkFaultsAfter result (S.faults sink.old) (S.faults sink.new) }
{
    let mut number = 0u32;
    'modules: for member in modules {
        put_module_in(sink, volume, number, member)?;
        number += 1;
    }
    Ok(())
}

// The lines of a volume and its modules.
fn put_entry<S: Sink>(
    sink: &mut S,
    number: u32,
    entry: &VolumeEntry,
    modules: &[Module],
) -> Result<(), SinkFault>
    requires { length modules.now ≤ MOST_MODULES }
    ensures text { Puts result (S.text sink.old) (S.text sink.new) (entry_text modules.now (record { number = number; item = entry.now })) }
    ensures cause { SinkFaultsAfter result (S.faults sink.old) (S.faults sink.new) }
{
    put_volume(sink, number, entry)?;
    put_members(sink, number, modules)
}

// The lines of all volumes.
fn put_entries<S: Sink>(
    sink: &mut S,
    entries: &[VolumeEntry],
    modules: &[Module],
) -> Result<(), SinkFault>
    requires volumes { length entries.now ≤ MOST_VOLUMES }
    requires modules { length modules.now ≤ MOST_MODULES }
    ensures text { Puts result (S.text sink.old) (S.text sink.new) (entries_text modules.now 0 entries.now) }
    ensures cause { SinkFaultsAfter result (S.faults sink.old) (S.faults sink.new) }
{
    let mut number = 0u32;
    'entries: for entry in entries {
        put_entry(sink, number, entry, modules)?;
        number += 1;
    }
    Ok(())
}

/// The text of an audit.
pub(crate) fn put_audit<S: Sink>(sink: &mut S, catalog: &Catalog) -> Result<(), SinkFault>
    requires volumes { length catalog.now.volumes ≤ MOST_VOLUMES }
    requires modules { length catalog.now.modules ≤ MOST_MODULES }
    ensures text { Puts result (S.text sink.old) (S.text sink.new) (audit_text catalog.now) }
    ensures cause { SinkFaultsAfter result (S.faults sink.old) (S.faults sink.new) }
{
    put_entries(sink, catalog.volumes.as_slice(), catalog.modules.as_slice())?;
    let outcome = RunEnd::Done;
    put_made(sink, Line::Result { outcome })
}
