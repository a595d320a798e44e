// A whole boot along a text.
ghost use Rattle.std.specs.Prelude.{◌≡◌, ◌≤◌, [], length};
ghost use Rattle.mod_catalog.specs.WellFormed.{IsWellFormed};
ghost use Rattle.store_model.specs.StoreState.{Board, empty_store};
ghost use Rattle.recorded_boot.specs.{Spelled.IsRight, Spelled.met, Named.AreNames, Named.HasNoTwins};
ghost use Rattle.recorded_boot.specs.FollowingText.{FollowsBoot, IsFollowed};

use crate::order::{Names, names_are_guids};
use crate::trace::by_text::ByText;
use crate::trace::{Parted, Spelled, text_tells};
use boot_core::whole::{Booted, boot_by_choice, nobody};
use boot_io::Halt;
use boot_laws::{
    cursor_aims, dxe_chooses_by_groups, dxe_ends, dxe_goes_on, dxe_lines_grow, dxe_opens,
    dxe_starts_freely, few_drivers_wait, groups_are_aimed, names_lead_to_root, pei_ends,
    pei_goes_on, pei_lines_grow, pei_opens, pei_starts_freely,
};
use mod_catalog::Catalog;
use std::alloc::Global;
use store_model::PeiStore;

// The verdict on the text, by how the boot ended or why it was abandoned.
fn followed<M: PeiStore + Drop>(booted: Result<Booted<M>, Halt>) -> Result<(), Parted>
    ensures { IsFollowed booted result }
{
    booted?;
    Ok(())
}

/// A boot from its first line to its last, held against a text of which nothing was met yet.
pub(crate) fn follow_boot<M: PeiStore + Drop>(
    alloc: Global,
    store: M,
    catalog: &Catalog,
    names: &Names,
    fuel: u32,
    text: &mut Spelled<'_>,
) -> Result<(), Parted>
    requires catalog { IsWellFormed catalog.now }
    requires some { 1 ≤ length catalog.now.volumes }
    requires apart { HasNoTwins catalog.now }
    requires names { AreNames catalog.now (length catalog.now.modules) names.now.volumes.items }
    requires opening { (board : Board) × M.stands_for store (empty_store board) }
    requires start { met text.old ≡ [] }
    requires right { IsRight text.old }
    ensures row { FollowsBoot M.stands_for store catalog.now fuel text.old text.new result }
{
    names_are_guids(catalog);
    text_tells();
    cursor_aims();
    pei_opens();
    pei_goes_on();
    pei_starts_freely();
    pei_lines_grow();
    pei_ends();
    dxe_opens();
    dxe_goes_on();
    dxe_starts_freely();
    dxe_chooses_by_groups();
    groups_are_aimed();
    names_lead_to_root();
    few_drivers_wait();
    dxe_lines_grow();
    dxe_ends();
    let mut watch = nobody();
    let booted = boot_by_choice(
        alloc,
        store,
        catalog,
        fuel,
        &ByText { names },
        &mut watch,
        text,
    );
    followed(booted)
}
