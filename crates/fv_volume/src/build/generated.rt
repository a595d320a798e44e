//! A volume of many modules, from their number (own).
ghost use Rattle.std.specs.Prelude.{◌≡◌, ◌<◌, ◌≤◌, ◌++◌, OnOk, IfOk, IfErr, length};
ghost use Rattle.act_code.specs.Script.{script_bytes};
ghost use Rattle.fv_volume.specs.declared.build.fault.BuildFault.TheVariants.{Memory};
ghost use Rattle.fv_volume.specs.Generated.{numbered, installs, memory_said, actions_of, script_of, waits_for, expression_of, module_of, generated_files, generated};

use crate::build::attributes::FileAttributes;
use crate::build::fault::BuildFault;
use crate::build::new_file::{Body, NewFile, NewSection};
use crate::build::volume::build_volume;
use crate::file_type::PEIM;
use crate::sections::section_type::{PEI_DEPEX, RAW};
use act_code::descriptor_kind::PPI;
use act_code::{Action, GuidArg, Script, write_script};
use depex_code::opcode_byte::{END, PUSH};
use pi_base::{DXE_IPL_PPI, Guid, OutOfMemory, Phase, Seq, Word};
use std::alloc::Global;

/// The most modules.
pub const MOST_MODULES: u32 = 4096;

/// The length of the volume.
pub const VOLUME_LEN: u64 = 0x20_0000;

/// The first field of the modules' names.
pub(crate) const NAMES: u8 = 1;

/// The first field of the modules' PPIs.
pub(crate) const PPIS: u8 = 2;

/// The address at which the first module's permanent memory begins.
pub(crate) const MEMORY_BASE: u64 = 0x4000_0000;

/// How much of it there is.
pub(crate) const MEMORY_LEN: u64 = 0x40_0000;

// The GUID 0000000F-0000-0000-0000- and a number in twelve hexadecimal digits.
fn numbered(family: u8, number: u32) -> Guid
    requires { number < 65536 }
    ensures { result ≡ numbered family number }
{
    let high = (number / 256) as u8;
    let low = (number % 256) as u8;
    Guid([family, 0, 0, 0, 0, 0, 0, 0, 0, 0, 0, 0, 0, 0, high, low])
}

// Adds the actions that install a PPI with a value, from two registers.
fn add_install(
    actions: &mut Seq<Action>,
    r: u8,
    d: u8,
    ppi: Guid,
    value: u64,
) -> Result<(), OutOfMemory>
    ensures { OnOk result (actions.new ≡ actions.old ++ installs r d ppi value) }
{
    actions.push(Action::Set { r, n: value })?;
    actions.push(Action::Desc {
        d,
        kind: PPI,
        guid: GuidArg::Inline(ppi),
        arg: r,
    })?;
    let mut list = Seq::new(actions.alloc());
    list.push(d)?;
    actions.push(Action::Install { list })
}

// Adds the actions of the first module that report permanent memory.
fn add_memory(actions: &mut Seq<Action>, first: bool) -> Result<(), OutOfMemory>
    ensures { OnOk result (actions.new ≡ actions.old ++ memory_said first) }
{
    if !first {
        return Ok(());
    }
    actions.push(Action::Set {
        r: 2,
        n: MEMORY_BASE,
    })?;
    actions.push(Action::Set {
        r: 3,
        n: MEMORY_LEN,
    })?;
    actions.push(Action::Memory {
        begin: 2,
        length: 3,
    })
}

// Adds the actions of module i.
fn add_actions(
    actions: &mut Seq<Action>,
    first: bool,
    last: bool,
    i: u32,
) -> Result<(), OutOfMemory>
    requires { i < MOST_MODULES }
    ensures { OnOk result (actions.new ≡ actions.old ++ actions_of first last i) }
{
    add_install(actions, 0, 1, numbered(PPIS, i), u64::from(i))?;
    add_memory(actions, first)?;
    if last {
        add_install(actions, 4, 5, DXE_IPL_PPI, 0)?;
    }
    actions.push(Action::Ret {
        status: Word::Success,
    })
}

// The script of module i.
fn script(alloc: Global, first: bool, last: bool, i: u32) -> Result<Seq<u8>, OutOfMemory>
    requires { i < MOST_MODULES }
    ensures { IfOk result (λ text. text ≡ script_bytes (script_of first last i)) }
{
    let mut actions = Seq::new(alloc);
    add_actions(&mut actions, first, last, i)?;
    let mut blocks = Seq::new(alloc);
    blocks.push(actions)?;
    let script = Script {
        phase: Phase::Pei,
        blocks,
    };
    let written = write_script(alloc, &script);
    drop(script);
    // The script is far below the longest one, so only memory can run out.
    match written {
        Ok(text) => Ok(text),
        Err(_) => Err(OutOfMemory),
    }
}

// An expression that is true once a PPI is installed.
fn expression(alloc: Global, ppi: &Guid) -> Result<Seq<u8>, OutOfMemory>
    ensures { IfOk result (λ text. text ≡ waits_for ppi.now) }
{
    let mut text = Seq::new(alloc);
    text.push(PUSH)?;
    text.append(&ppi.0)?;
    text.push(END)?;
    Ok(text)
}

// Adds the expression of module i, if it waits.
fn add_expression(
    alloc: Global,
    sections: &mut Seq<NewSection>,
    first: bool,
    i: u32,
) -> Result<(), OutOfMemory>
    requires { i < MOST_MODULES }
    ensures { OnOk result (sections.new ≡ sections.old ++ expression_of first i) }
{
    if first {
        return Ok(());
    }
    let half = i.saturating_sub(1) / 2;
    let body = expression(alloc, &numbered(PPIS, half))?;
    sections.push(NewSection {
        kind: PEI_DEPEX,
        body,
    })
}

// Module i of n.
fn module(alloc: Global, n: u32, i: u32) -> Result<NewFile, OutOfMemory>
    requires { i < MOST_MODULES }
    ensures { IfOk result (λ file. file ≡ module_of n i) }
{
    let mut sections = Seq::new(alloc);
    add_expression(alloc, &mut sections, i == 0, i)?;
    let body = script(alloc, i == 0, i + 1 == n, i)?;
    sections.push(NewSection { kind: RAW, body })?;
    Ok(NewFile {
        name: numbered(NAMES, i),
        kind: PEIM,
        attributes: FileAttributes::new(),
        body: Body::Sections(sections),
    })
}

// Adds the modules, from the last down to the first.
fn add_modules(alloc: Global, files: &mut Seq<NewFile>, n: u32) -> Result<(), OutOfMemory>
    requires { n ≤ MOST_MODULES }
    ensures { OnOk result (files.new ≡ files.old ++ generated_files n) }
{
    let mut left = n;
    while left > 0 {
        left -= 1;
        files.push(module(alloc, n, left)?)?;
    }
    Ok(())
}

/// An FFS2 volume of `VOLUME_LEN` bytes with n modules, in order of place from n - 1 down to 0 (own).
///
/// Module i is a PEIM named `00000001-0000-0000-0000-` and i in twelve hexadecimal digits, and its PPI is `00000002-0000-0000-0000-` and i. It waits for the
/// PPI of module (i - 1) / 2; module 0 waits for nothing. Its script installs its PPI with the value i; module 0 then reports permanent memory, and module n -
/// 1 installs `EFI_DXE_IPL_PPI`.
pub fn generate(alloc: Global, n: u32) -> Result<Seq<u8>, BuildFault>
    requires some { 1 ≤ n }
    requires most { n ≤ MOST_MODULES }
    ensures volume { IfOk result (λ volume. volume ≡ generated n) }
    ensures len { IfOk result (λ volume. length volume ≡ VOLUME_LEN) }
    ensures memory { IfErr result (λ fault. fault ≡ Memory) }
{
    let mut files = Seq::new(alloc);
    add_modules(alloc, &mut files, n)?;
    build_volume(alloc, files.as_slice(), VOLUME_LEN)
}
