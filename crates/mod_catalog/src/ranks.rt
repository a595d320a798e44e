// The ranks of a volume's files by an a priori list.
ghost use Rattle.std.specs.Prelude.{◌≡◌, ◌≤◌, ◌<◌, ◌+◌, ◌++◌, ◌∷◌, ℕ, [], None, List, length, replicate, slice_index_or, IfOk, OnOk};
ghost use Rattle.pi_base.specs.{declared.guid.Guid.Guid as Name, declared.phase.Phase.Phase as OfPhase};
ghost use Rattle.fv_volume.specs.{declared.file.FfsFile.FfsFile as File, declared.search.TheConstants.MOST_FILES};
ghost use Rattle.mod_catalog.specs.APrioriNames.{guids_in, rank_of};
ghost use Rattle.mod_catalog.specs.Ranks.{AreBearers, AreOfSome, AreKept, HoldRanks, GiveRanks};

use crate::file_type::has_part;
use fv_volume::FfsFile;
use pi_base::{GUID_LEN, Guid, GuidMap, OutOfMemory, Phase, Seq};
use std::alloc::Global;

/// The file that a name refers to.
#[derive(Clone, Copy)]
pub(crate) struct Bearer {
    /// Its index among the volume's files.
    pub(crate) index: u32,
    /// Its offset in the volume.
    pub(crate) at: u64,
}

/// The files that names refer to, and which of them an a priori list ranks.
#[derive(Drop)]
pub(crate) struct Ranks {
    /// For each name, the file that it refers to.
    pub(crate) bearers: GuidMap<Bearer>,
    /// Of each file by index, its place among the names that are kept.
    pub(crate) places: Seq<Option<u32>>,
}

/// The names of a list that are kept so far: of each file by index the place of its name.
#[derive(Drop)]
pub(crate) struct Kept {
    pub(crate) places: Seq<Option<u32>>,
    pub(crate) count: u32,
}

// Adds a file before others: its name refers to it, if it has a part.
fn add_bearer(
    bearers: &mut GuidMap<Bearer>,
    file: &FfsFile,
    index: u32,
    phase: Phase,
) -> Result<(), OutOfMemory>
    ensures { OnOk result ((files : List File) → AreBearers phase (index + 1) files bearers.old
        → AreBearers phase index (file.now ∷ files) bearers.new) }
{
    if has_part(phase, file.kind) {
        let bearer = Bearer { index, at: file.at };
        bearers.insert(file.name, bearer)
    } else {
        Ok(())
    }
}

// The files that names refer to.
fn bearers_of(
    alloc: Global,
    files: &[FfsFile],
    phase: Phase,
) -> Result<GuidMap<Bearer>, OutOfMemory>
    requires { length files.now ≤ MOST_FILES }
    ensures { IfOk result (AreBearers phase 0 files.now) }
{
    let mut bearers = GuidMap::new(alloc);
    let mut index = files.len();
    'files: while index > 0 {
        index -= 1;
        add_bearer(&mut bearers, &files[index], index as u32, phase)?;
    }
    Ok(bearers)
}

// A table in which no file has a place.
fn no_places(alloc: Global, files: usize) -> Result<Seq<Option<u32>>, OutOfMemory>
    ensures { IfOk result (λ places. places ≡ replicate files None) }
{
    match vec![in alloc; None; files] {
        Ok(places) => Ok(Seq::from_vec(places)),
        Err(_) => Err(OutOfMemory),
    }
}

// The place that a table has at an index.
fn place_at(places: &[Option<u32>], index: u32) -> Option<u32>
    ensures { result ≡ slice_index_or places.now index None }
{
    match places.get(index as usize) {
        Some(place) => *place,
        None => None,
    }
}

// Adds one name of a list: its file gets the next rank, unless it has one.
fn keep(kept: &mut Kept, bearers: &GuidMap<Bearer>, name: Guid)
    requires few { kept.old.count < u32.MAX }
    requires borne { AreOfSome bearers.now (length kept.old.places) }
    ensures kept { (list : List Name) → AreKept bearers.now list kept.old → AreKept bearers.now (list ++ name ∷ []) kept.new }
    ensures len { length kept.new.places ≡ length kept.old.places }
{
    let Some(bearer) = bearers.get(&name) else {
        return;
    };
    if place_at(kept.places.as_slice(), bearer.index).is_some() {
        return;
    }
    kept.places.set(bearer.index as usize, Some(kept.count));
    kept.count += 1;
}

// The ranks that a list gives so many files.
fn places_of(
    alloc: Global,
    bearers: &GuidMap<Bearer>,
    files: usize,
    list: &[u8],
) -> Result<Seq<Option<u32>>, OutOfMemory>
    requires borne { AreOfSome bearers.now files }
    ensures { IfOk result (λ places. (count : ℕ) × AreKept bearers.now (guids_in list.now) (record { places = places; count = count })) }
{
    let mut kept = Kept {
        places: no_places(alloc, files)?,
        count: 0,
    };
    'names: for index in 0..list.len() / GUID_LEN {
        keep(&mut kept, bearers, Guid::at(list, GUID_LEN * index));
    }
    Ok(kept.places)
}

/// The ranks that a list of GUIDs gives the files of a volume. An empty list gives none, and allocates nothing.
pub(crate) fn ranks_of(
    alloc: Global,
    files: &[FfsFile],
    list: &[u8],
    phase: Phase,
) -> Result<Option<Ranks>, OutOfMemory>
    requires { length files.now ≤ MOST_FILES }
    ensures { IfOk result (GiveRanks phase files.now (guids_in list.now)) }
{
    if list.len() < GUID_LEN {
        return Ok(None);
    }
    let bearers = bearers_of(alloc, files, phase)?;
    let places = places_of(alloc, &bearers, files.len(), list)?;
    Ok(Some(Ranks { bearers, places }))
}

impl Ranks {
    // The rank of a file of the volume: the place of its name in the list, if the name refers to it.
    fn rank_of(&self, file: &FfsFile) -> Option<u32>
        ensures { (phase : OfPhase) (files : List File) (list : List Name) → HoldRanks phase files list self.now
            → result ≡ rank_of phase files list file.now }
    {
        match self.bearers.get(&file.name) {
            Some(bearer) if bearer.at == file.at => {
                place_at(self.places.as_slice(), bearer.index)
            }
            _ => None,
        }
    }
}

/// The rank that a list gives a file of the volume.
pub(crate) fn rank_of(ranks: &Option<Ranks>, file: &FfsFile) -> Option<u32>
    ensures { (phase : OfPhase) (files : List File) (list : List Name) → GiveRanks phase files list ranks.now
        → result ≡ rank_of phase files list file.now }
{
    match ranks {
        Some(ranks) => ranks.rank_of(file),
        None => None,
    }
}
