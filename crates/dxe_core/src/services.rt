//! What the services of DXE act on.
ghost use Rattle.std.specs.Prelude.{◌≡◌, ◌<◌, ◌^◌, [], ℕ, length, IfOk, slice_get, option_copied, replicate, false};
ghost use Rattle.store_model.specs.StoreState.{StoreState};
ghost use Rattle.mod_catalog.specs.WellFormed.{IsWellFormed};
ghost use Rattle.boot_model.specs.{Discovery.discoveries, DxeRun.dxe_opening_of};
ghost use Rattle.dxe_core.specs.Answered.{sweep_of};
ghost use Rattle.dxe_core.specs.Services.{AreCounted, AreServicesFor, AreServicesOf};

use crate::DriverOrder;
use crate::database::Handles;
use crate::notes::Notes;
use boot_model::{ProtocolNote, ProtocolSweep};
use mod_catalog::Catalog;
use pi_base::{Guid, OutOfMemory, Seq};
use std::alloc::Global;
use std::marker::Model;

/// What the services of DXE act on: the handles, the notifications, the discovered volumes with their drivers, and the requests.
#[derive(Drop)]
pub struct DxeServices {
    pub(crate) handles: Handles,
    /// In the order in which they were registered.
    pub(crate) notes: Notes,
    pub(crate) order: DriverOrder,
    /// A flag for each module.
    pub(crate) requested: Seq<bool>,
}

impl Model for DxeServices {
    ghost use Rattle.dxe_core.specs.Answered.{sweep_of};
    ghost use Rattle.dxe_core.specs.Services.{Services};

    ghost Value = { Services };

    ghost view = { λ s. record { handles = s.handles; notes = s.notes; order = s.order; requested = s.requested } };
}

// So many flags that are down.
fn flags_down(alloc: Global, count: usize) -> Result<Seq<bool>, OutOfMemory>
    ensures { IfOk result (λ flags. flags ≡ replicate count false) }
{
    let mut flags = Seq::new(alloc);
    'flags: for _number in 0..count {
        flags.push(false)?;
    }
    Ok(flags)
}

impl DxeServices {
    /// The services at the opening: the volumes at these bases are discovered, and there is no handle, no notification and no request.
    pub fn begin(
        alloc: Global,
        catalog: &Catalog,
        bases: &[u64],
    ) -> Result<DxeServices, OutOfMemory>
        requires catalog { IsWellFormed catalog.now }
        ensures opening { IfOk result (λ services. (s : StoreState) (actions : ℕ)
            → AreServicesOf catalog.now (dxe_opening_of catalog.now s actions (discoveries catalog.now [] bases.now)) services) }
        ensures made { IfOk result (AreServicesFor catalog.now) }
        ensures counted { IfOk result (AreCounted 0) }
    {
        // The flags first: less is dropped if memory ends.
        let requested = flags_down(alloc, catalog.modules.len())?;
        let order = DriverOrder::discover(alloc, catalog, bases)?;
        Ok(DxeServices {
            handles: Handles::new(alloc),
            notes: Notes::new(alloc),
            order,
            requested,
        })
    }

    /// The handles.
    pub fn handles(&self) -> &Handles
        ensures { result.now ≡ self.now.handles }
    {
        &self.handles
    }

    /// The handles, for what follows DXE.
    pub fn into_handles(self) -> Handles
        ensures { result ≡ self.handles }
    {
        self.handles
    }

    /// The discovered volumes and their drivers.
    pub fn order(&self) -> &DriverOrder
        ensures { result.now ≡ self.now.order }
    {
        &self.order
    }

    /// The notification at a place, from 0, in the order of registration. None past the last.
    pub fn note(&self, place: u32) -> Option<&ProtocolNote>
        ensures { option_copied result ≡ slice_get self.now.notes place }
    {
        self.notes.get(place)
    }

    /// Which drivers were requested, by number.
    pub fn requested(&self) -> &[bool]
        ensures { result.now ≡ self.now.requested }
    {
        self.requested.as_slice()
    }

    // The visit of the notifications of a protocol that are registered now, for an interface on a handle.
    pub(crate) fn sweep(&self, guid: &Guid, interface: u64, handle: u32) -> ProtocolSweep
        requires { length self.now.notes < 2 ^ 32 }
        ensures { result ≡ sweep_of self.now guid.now interface handle }
    {
        ProtocolSweep {
            guid: *guid,
            interface,
            handle,
            note_at: 0,
            note_to: self.notes.len() as u32,
        }
    }
}
