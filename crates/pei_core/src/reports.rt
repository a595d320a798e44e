//! The volumes that PPIs report, and the lines that are printed.
ghost use Rattle.std.specs.Prelude.{◌≡◌, ◌≤◌, ◌+◌, length};
ghost use Rattle.mod_catalog.specs.WellFormed.{IsWellFormed};
ghost use Rattle.store_model.specs.Service.{Present, OfEach};
ghost use Rattle.phase_parts.specs.{Known.AreKnown, Reported.AreDescs, Reported.IsWithReports};
ghost use Rattle.pei_core.specs.CoreCall.{last_volumes};
ghost use Rattle.boot_model.specs.{Text.text_of, PeiStep.report_lines};
ghost use Rattle.boot_io.specs.Sink.{Puts, SinkFaultsAfter};

use boot_io::{Sink, SinkFault};
use boot_model::Line;
use boot_trace::put_made;
use mod_catalog::Catalog;
use phase_parts::VolumeList;
use store_model::{Desc, PeiStore};

/// What PPIs report comes after the volumes that were reported. How many volumes that is.
pub(crate) fn report<M: PeiStore>(
    reported: &mut VolumeList,
    catalog: &Catalog,
    store: &M,
    ppis: &[Desc],
) -> usize
    requires catalog { IsWellFormed catalog.now }
    requires known { AreKnown catalog.now reported.old }
    requires state { Present (M.stands_for store.now) (AreDescs ppis.now) }
    ensures reported { OfEach (M.stands_for store.now) (AreDescs ppis.now) (IsWithReports catalog.now reported.old ppis.now reported.new) }
    ensures count { length reported.new ≡ length reported.old + result }
    ensures known { AreKnown catalog.now reported.new }
{
    let before = reported.as_slice().len();
    reported.report(catalog, store, ppis);
    reported.as_slice().len() - before
}

/// So many of the volumes that were reported: the last ones.
pub(crate) fn last_volumes(reported: &VolumeList, count: usize) -> &[u32]
    requires { count ≤ length reported.now }
    ensures { result.now ≡ last_volumes count reported.now }
{
    let volumes = reported.as_slice();
    volumes.split_at(volumes.len() - count).1
}

/// Prints a line for each reported volume. If the sink fails, a prefix of the text was written.
pub fn put_reports<S: Sink>(sink: &mut S, volumes: &[u32]) -> Result<(), SinkFault>
    ensures text { Puts result (S.text sink.old) (S.text sink.new) (text_of (report_lines volumes.now)) }
    ensures cause { SinkFaultsAfter result (S.faults sink.old) (S.faults sink.new) }
{
    'volumes: for volume in volumes {
        put_made(sink, Line::Report { volume: *volume })?;
    }
    Ok(())
}
