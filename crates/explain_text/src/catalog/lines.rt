// The lines of a catalogue.
ghost use Rattle.std.specs.Prelude.{◌≡◌, ◌≤◌, ◌++◌, ◌∷◌, [], Option, flat_map, length, option_map, OnOk};
ghost use Rattle.hex.specs.Hex.{encode_lower};
ghost use Rattle.pi_base.specs.{WordText.guid_text, Field.words_of};
ghost use Rattle.mod_catalog.specs.declared.limits.TheConstants.{MOST_MODULES};
ghost use Rattle.explain_text.specs.Lines.{expr_line, gives_line, gives_lines, module_line, part_lines, phase_text};
ghost use Rattle.explain_text.specs.{Putting.AddsCatalog, Putting.AddsModule, Words.word_of};
ghost use Rattle.explain_text.specs.declared.keyword.Keyword.TheVariants as K;

use crate::catalog::expression::expr_text;
use crate::catalog::gives::{given_in, gives_any};
use crate::catalog::line::put_line;
use crate::catalog::{put_title, title_of};
use crate::keyword::{Keyword, word_of};
use act_code::Script;
use boot_trace::decimal_word;
use mod_catalog::{Catalog, Module, Part, PartExpr, VolumeEntry};
use pi_base::{Guid, OutOfMemory, Phase, Seq};
use std::alloc::Global;

/// The word of a phase.
#[tactic(auto, unfolding(crate::specs::Lines::phase_text))]
pub fn phase_word(phase: Phase) -> &'static [u8]
    ensures { result.now ≡ phase_text phase }
{
    match phase {
        Phase::Pei => b"pei",
        Phase::Dxe => b"dxe",
    }
}

// The two digits of a file's type.
fn kind_word(kind: u8) -> [u8; 2]
    ensures { result ≡ encode_lower (kind ∷ []) }
{
    let mut digits = [0u8; 2];
    hex::encode_to_slice(&[kind], &mut digits).unwrap();
    digits
}

// The line of a module with its name.
fn put_module(
    alloc: Global,
    out: &mut Seq<u8>,
    number: u32,
    member: &Module,
    title: Option<&[u8]>,
) -> Result<(), OutOfMemory>
    ensures { OnOk result
        (out.new ≡ out.old ++ module_line number member.now (option_map (λ name. words_of name.now) title.entry)) }
{
    let mut word = Seq::new(alloc);
    put_title(&mut word, title)?;
    put_line(
        out,
        word_of(Keyword::Module),
        &[
            decimal_word(u64::from(number)).as_slice(),
            decimal_word(u64::from(member.volume)).as_slice(),
            &member.name.to_text(),
            &kind_word(member.kind),
            word.as_slice(),
        ],
    )
}

// The line of a part's expression.
fn put_expr(
    alloc: Global,
    out: &mut Seq<u8>,
    number: u32,
    phase: Phase,
    expr: &PartExpr,
) -> Result<(), OutOfMemory>
    ensures { OnOk result (out.new ≡ out.old ++ expr_line number phase expr.now) }
{
    let text = expr_text(alloc, expr)?;
    let number = decimal_word(u64::from(number));
    put_line(
        out,
        word_of(Keyword::Expr),
        &[number.as_slice(), phase_word(phase), text.as_slice()],
    )
}

// The line of a GUID that a part's script may install.
fn put_gives(out: &mut Seq<u8>, number: u32, phase: Phase, guid: &Guid) -> Result<(), OutOfMemory>
    ensures { OnOk result (out.new ≡ out.old ++ gives_line number phase (guid_text guid.now)) }
{
    let number = decimal_word(u64::from(number));
    put_line(
        out,
        word_of(Keyword::Gives),
        &[number.as_slice(), phase_word(phase), &guid.to_text()],
    )
}

// The line of a script that may install what it does not name.
fn put_gives_any(out: &mut Seq<u8>, number: u32, phase: Phase) -> Result<(), OutOfMemory>
    ensures { OnOk result (out.new ≡ out.old ++ gives_line number phase (word_of K.Any)) }
{
    let number = decimal_word(u64::from(number));
    put_line(
        out,
        word_of(Keyword::Gives),
        &[number.as_slice(), phase_word(phase), word_of(Keyword::Any)],
    )
}

// The lines of GUIDs that it may install.
fn put_given(
    out: &mut Seq<u8>,
    number: u32,
    phase: Phase,
    guids: &[Guid],
) -> Result<(), OutOfMemory>
    ensures { OnOk result (out.new ≡ out.old ++ flat_map (λ guid. gives_line number phase (guid_text guid)) guids.now) }
{
    'guids: for guid in guids {
        put_gives(out, number, phase, guid)?;
    }
    Ok(())
}

// The lines of all that it may install.
fn put_script(
    alloc: Global,
    out: &mut Seq<u8>,
    number: u32,
    phase: Phase,
    script: &Script,
) -> Result<(), OutOfMemory>
    ensures { OnOk result (out.new ≡ out.old ++ gives_lines number phase script.now) }
{
    let guids = given_in(alloc, script)?;
    put_given(out, number, phase, guids.as_slice())?;
    if gives_any(script) {
        put_gives_any(out, number, phase)
    } else {
        Ok(())
    }
}

// The lines of a part.
fn put_part(
    alloc: Global,
    out: &mut Seq<u8>,
    number: u32,
    phase: Phase,
    part: &Option<Part>,
) -> Result<(), OutOfMemory>
    ensures { OnOk result (out.new ≡ out.old ++ part_lines number phase part.now) }
{
    let Some(part) = part else {
        return Ok(());
    };
    put_expr(alloc, out, number, phase, &part.expr)?;
    put_script(alloc, out, number, phase, &part.script)
}

// The lines of a module.
fn put_member(
    alloc: Global,
    out: &mut Seq<u8>,
    volumes: &[VolumeEntry],
    images: &[Seq<u8>],
    number: u32,
    member: &Module,
) -> Result<(), OutOfMemory>
    ensures { OnOk result (AddsModule volumes.now images.now number member.now out.old out.new) }
{
    let title = title_of(alloc, volumes, images, member)?;
    put_module(alloc, out, number, member, title)?;
    put_part(alloc, out, number, Phase::Pei, &member.pei)?;
    put_part(alloc, out, number, Phase::Dxe, &member.dxe)?;
    Ok(())
}

// The lines of modules.
fn put_members(
    alloc: Global,
    out: &mut Seq<u8>,
    volumes: &[VolumeEntry],
    images: &[Seq<u8>],
    modules: &[Module],
) -> Result<(), OutOfMemory>
    requires { length modules.now ≤ MOST_MODULES }
    ensures { OnOk result (AddsCatalog volumes.now images.now modules.now out.old out.new) }
{
    let mut number = 0u32;
    'modules: for member in modules {
        put_member(alloc, out, volumes, images, number, member)?;
        number += 1;
    }
    Ok(())
}

/// Adds the lines of a catalogue's modules, whose files lie in these images of the plan's volumes.
pub fn put_catalog(
    alloc: Global,
    out: &mut Seq<u8>,
    catalog: &Catalog,
    images: &[Seq<u8>],
) -> Result<(), OutOfMemory>
    requires { length catalog.now.modules ≤ MOST_MODULES }
    ensures { OnOk result (AddsCatalog catalog.now.volumes images.now catalog.now.modules out.old out.new) }
{
    put_members(
        alloc,
        out,
        catalog.volumes.as_slice(),
        images,
        catalog.modules.as_slice(),
    )
}
