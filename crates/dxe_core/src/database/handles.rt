// The handles and their interfaces.
ghost use Rattle.std.specs.Prelude.{◌≡◌, ◌≤◌, ◌<◌, ◌-◌, ◌^◌, ⊤, None, OnOk, OnErr, insert, length, slice_get};
ghost use Rattle.store_model.specs.HandleState.{no_handles, has_protocol, install_interface, install_new, install_on, reinstall_interface, uninstall_interface, locate_handle};
ghost use Rattle.guid_lists.specs.Lists.{list_of, with_number, HaveStill, HasInstead, Rises};
ghost use Rattle.dxe_core.specs.Rows.{IsRow, TakesNoMemory};

use crate::database::fault::HandleFault;
use crate::database::places::{place_in, place_with, stretch_of};
use depex_code::GuidSet;
use guid_lists::GuidLists;
use pi_base::{Guid, OutOfMemory};
use std::alloc::Global;
use std::marker::Model;
use store_model::Interface;

/// The handles of DXE. A handle is live while it has an interface.
#[derive(Drop)]
pub struct Handles {
    /// In order of handle, and on a handle in order of install.
    interfaces: Vec<Interface>,
    /// How many handles were made.
    made: u32,
    holders: GuidLists,
}

impl Model for Handles {
    ghost use Rattle.store_model.specs.HandleState.{HandleState};
    ghost use Rattle.store_model.specs.HandleFacts.{IsHandleState};
    ghost use Rattle.dxe_core.specs.Index.{IsIndex};

    ghost Value = { HandleState };

    ghost view = { λ h. record { interfaces = h.interfaces.items; made = h.made } };

    ghost invariant = { λ h. IsHandleState (record { interfaces = h.interfaces.items; made = h.made })
        × IsIndex h.holders h.interfaces.items };
}

/// Puts an interface at a place, and its handle among those that have the protocol. If memory runs out, both stay as they were.
fn add(
    interfaces: &mut Vec<Interface>,
    holders: &mut GuidLists,
    at: usize,
    interface: Interface,
) -> Result<(), OutOfMemory>
    requires within { at ≤ length interfaces.old.items }
    requires rises { Rises (list_of holders.old interface.guid) }
    ensures placed { OnOk result (interfaces.new.items ≡ insert interfaces.old.items at interface) }
    ensures held { OnOk result
        (HasInstead holders.old interface.guid (with_number interface.handle (list_of holders.old interface.guid)) holders.new) }
    ensures same { OnErr result (interfaces.new.items ≡ interfaces.old.items) }
    ensures still { OnErr result (HaveStill holders.old holders.new) }
{
    match interfaces.insert(at, interface) {
        Ok(()) => {}
        Err(_) => return Err(OutOfMemory),
    }
    match holders.add(interface.guid, interface.handle) {
        Ok(()) => Ok(()),
        Err(OutOfMemory) => {
            interfaces.remove(at);
            Err(OutOfMemory)
        }
    }
}

impl Handles {
    /// No handles. It allocates nothing.
    pub fn new(alloc: Global) -> Handles
        ensures { result ≡ no_handles }
    {
        Handles {
            interfaces: Vec::new(alloc),
            made: 0,
            holders: GuidLists::new(alloc),
        }
    }

    /// How many handles were made. Their numbers begin at 1, and none is used twice.
    pub fn made(&self) -> u32
        ensures { result ≡ self.now.made }
    {
        self.made
    }

    /// How many interfaces there are.
    pub fn len(&self) -> usize
        ensures { result ≡ length self.now.interfaces }
    {
        self.interfaces.len()
    }

    /// The interfaces, in order of handle, and on a handle in order of install.
    pub fn interfaces(&self) -> &[Interface]
        ensures { result.now ≡ self.now.interfaces }
    {
        self.interfaces.as_slice()
    }

    /// The interface at a place, from 0, in order of handle, and on a handle in order of install. None past the last.
    pub fn nth(&self, place: u32) -> Option<Interface>
        ensures { result ≡ slice_get self.now.interfaces place }
    {
        self.interfaces.get(place as usize).copied()
    }

    /// Installs an interface of a protocol, on a new handle or on a live one without this protocol, and returns the handle (PI 1.8, volume 2,
    /// `InstallProtocolInterface()`).
    pub fn install(&mut self, on: Option<u32>, guid: Guid, value: u64) -> Result<u32, HandleFault>
        requires { on ≡ None → self.old.made < 2 ^ 32 - 1 }
        ensures row { IsRow (install_interface self.old on guid value) self.old result self.new }
    {
        match on {
            None => self.install_new(guid, value),
            Some(handle) => self.install_on(handle, guid, value),
        }
    }

    fn install_new(&mut self, guid: Guid, value: u64) -> Result<u32, HandleFault>
        requires { self.old.made < 2 ^ 32 - 1 }
        ensures { IsRow (install_new self.old guid value) self.old result self.new }
    {
        let handle = self.made + 1;
        let last = self.interfaces.len();
        let interface = Interface {
            handle,
            guid,
            value,
        };
        add(&mut self.interfaces, &mut self.holders, last, interface)?;
        self.made = handle;
        Ok(handle)
    }

    fn install_on(&mut self, handle: u32, guid: Guid, value: u64) -> Result<u32, HandleFault>
        ensures { IsRow (install_on self.old handle guid value) self.old result self.new }
    {
        let stretch = stretch_of(&self.interfaces, handle);
        if stretch.begin == stretch.end || place_in(&self.interfaces, stretch, &guid).is_some() {
            return Err(HandleFault::InvalidParameter);
        }
        let interface = Interface {
            handle,
            guid,
            value,
        };
        add(
            &mut self.interfaces,
            &mut self.holders,
            stretch.end,
            interface,
        )?;
        Ok(handle)
    }

    /// Replaces the interface of a protocol with a value by another one, at its place (PI 1.8, volume 2, `ReinstallProtocolInterface()`).
    pub fn reinstall(&mut self, on: u32, guid: Guid, old: u64, new: u64) -> Result<(), HandleFault>
        ensures row { IsRow (reinstall_interface self.old on guid old new) self.old result self.new }
        ensures memory { TakesNoMemory result }
    {
        let place = place_with(&self.interfaces, on, &guid, old)?;
        self.interfaces[place].value = new;
        Ok(())
    }

    /// Removes the interface of a protocol with a value from a handle (PI 1.8, volume 2, `UninstallProtocolInterface()`).
    pub fn uninstall(&mut self, on: u32, guid: Guid, value: u64) -> Result<(), HandleFault>
        ensures row { IsRow (uninstall_interface self.old on guid value) self.old result self.new }
        ensures memory { TakesNoMemory result }
    {
        let place = place_with(&self.interfaces, on, &guid, value)?;
        self.interfaces.remove(place);
        self.holders.remove(&guid, on);
        Ok(())
    }

    /// The lowest live handle that has a protocol, and the value of its interface. None if no handle has it (PI 1.8, volume 2, `LocateHandle()`).
    pub fn locate(&self, guid: &Guid) -> Option<(u32, u64)>
        ensures { result ≡ locate_handle self.now guid.now }
    {
        let handle = *self.holders.of(guid).first()?;
        let stretch = stretch_of(&self.interfaces, handle);
        match place_in(&self.interfaces, stretch, guid) {
            Some(place) => Some((handle, self.interfaces[place].value)),
            None => None,
        }
    }
}

impl GuidSet for Handles {
    ghost has_guid = { λ h guid. has_protocol h guid };

    ghost in_order = { λ h. ⊤ };

    fn has(&self, guid: &Guid) -> bool {
        !self.holders.of(guid).is_empty()
    }
}
