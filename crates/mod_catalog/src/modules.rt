// The modules of a volume.
ghost use Rattle.std.specs.Prelude.{◌≤◌, ◌++◌, ◌∷◌, [], List, length, IfOk, OnOk};
ghost use Rattle.fv_volume.specs.{declared.file.FfsFile.FfsFile as File, declared.search.TheConstants.MOST_FILES, Places.AreInside};
ghost use Rattle.mod_catalog.specs.{declared.read_file.ReadFile.ReadFile as Read, ReadFile.AreRead, ModuleEntry.IsModule, APriori.AreFound};
ghost use Rattle.mod_catalog.specs.{Lying.IsPlaced, Lying.ArePlaced, Modules.AreModules, Modules.RanksHold};

use crate::a_priori::APrioriFiles;
use crate::a_priori_list::a_priori_body;
use crate::file_type::has_module;
use crate::part::part_of;
use crate::part_scripts::{PartScripts, part_scripts};
use crate::ranks::{Ranks, ranks_of};
use crate::{Module, ReadFile};
use fv_volume::FfsFile;
use pi_base::{OutOfMemory, Phase, Seq};
use std::alloc::Global;

/// The ranks of a volume's files in each phase. None if the volume has no a priori list for it.
#[derive(Drop)]
pub(crate) struct VolumeRanks {
    pub(crate) pei: Option<Ranks>,
    pub(crate) dxe: Option<Ranks>,
}

// The ranks that the a priori files of a volume give.
fn volume_ranks(
    alloc: Global,
    bytes: &[u8],
    files: &[FfsFile],
    a_priori: &APrioriFiles,
    reads: &[ReadFile],
) -> Result<VolumeRanks, OutOfMemory>
    requires few { length files.now ≤ MOST_FILES }
    requires found { AreFound files.now a_priori.now }
    requires placed { ArePlaced bytes.now reads.now }
    ensures { IfOk result (RanksHold bytes.now files.now reads.now) }
{
    let pei = a_priori_body(bytes, &a_priori.pei, reads);
    let dxe = a_priori_body(bytes, &a_priori.dxe, reads);
    Ok(VolumeRanks {
        pei: ranks_of(alloc, files, pei, Phase::Pei)?,
        dxe: ranks_of(alloc, files, dxe, Phase::Dxe)?,
    })
}

// The module of a file.
fn module_of(
    alloc: Global,
    bytes: &[u8],
    ranks: &VolumeRanks,
    read: ReadFile,
    number: u32,
) -> Result<Module, OutOfMemory>
    requires { IsPlaced bytes.now read }
    ensures { (files : List File) (reads : List Read) → RanksHold bytes.now files reads ranks.now
        → IfOk result (IsModule bytes.now files reads number read) }
{
    let ReadFile {
        file,
        sections,
        scripts,
    } = read;
    let PartScripts { pei, dxe } = part_scripts(alloc, scripts);
    let sections = sections.as_slice();
    let pei = part_of(alloc, bytes, &ranks.pei, &file, sections, Phase::Pei, pei)?;
    let dxe = part_of(alloc, bytes, &ranks.dxe, &file, sections, Phase::Dxe, dxe)?;
    Ok(Module {
        volume: number,
        at: file.at,
        name: file.name,
        kind: file.kind,
        pei,
        dxe,
    })
}

// Adds a file: its module, if it has one, comes after the others.
fn add_module(
    alloc: Global,
    bytes: &[u8],
    ranks: &VolumeRanks,
    read: ReadFile,
    number: u32,
    modules: &mut Seq<Module>,
) -> Result<(), OutOfMemory>
    requires { IsPlaced bytes.now read }
    ensures { OnOk result ((files : List File) (reads before : List Read) → RanksHold bytes.now files reads ranks.now
        → AreModules bytes.now files reads number before modules.old
        → AreModules bytes.now files reads number (before ++ read ∷ []) modules.new) }
{
    if !has_module(read.file.kind) {
        return Ok(());
    }
    let module = module_of(alloc, bytes, ranks, read, number)?;
    modules.push(module)?;
    Ok(())
}

// The modules of files, with these ranks.
fn made_modules(
    alloc: Global,
    bytes: &[u8],
    ranks: &VolumeRanks,
    reads: Seq<ReadFile>,
    number: u32,
) -> Result<Seq<Module>, OutOfMemory>
    requires { ArePlaced bytes.now reads }
    ensures { (files : List File) → RanksHold bytes.now files reads ranks.now
        → IfOk result (AreModules bytes.now files reads number reads) }
{
    let mut modules = Seq::new(alloc);
    'reads: for read in reads.into_vec() {
        add_module(alloc, bytes, ranks, read, number, &mut modules)?;
    }
    Ok(modules)
}

/// The modules of a volume's files, in their order; `number` is the volume's.
pub(crate) fn modules_of(
    alloc: Global,
    bytes: &[u8],
    files: &[FfsFile],
    a_priori: &APrioriFiles,
    reads: Seq<ReadFile>,
    number: u32,
) -> Result<Seq<Module>, OutOfMemory>
    requires inside { AreInside bytes.now files.now }
    requires few { length files.now ≤ MOST_FILES }
    requires found { AreFound files.now a_priori.now }
    requires read { AreRead bytes.now files.now reads }
    ensures { IfOk result (AreModules bytes.now files.now reads number reads) }
{
    fv_volume::sections::places();
    let ranks = volume_ranks(alloc, bytes, files, a_priori, reads.as_slice())?;
    made_modules(alloc, bytes, &ranks, reads, number)
}
