// Actions on handles and their interfaces.
ghost use Rattle.std.specs.Prelude.{◌≡◌, ◌<◌, ◌-◌, ◌^◌, ℕ, suc, Ok, OnOk};
ghost use Rattle.act_code.specs.declared.action.Action.TheVariants as A;
ghost use Rattle.mod_catalog.specs.declared.catalogue.Catalog.{Catalog};
ghost use Rattle.boot_model.specs.{DxeMachine.DriverFrame, Registers.both};
ghost use Rattle.boot_model.specs.Registers as R;
ghost use Rattle.dxe_core.specs.{Answered.GrowByOne, Answered.Serves, Services.AreCounted};

use crate::event::Event;
use crate::reply::Reply;
use crate::services::DxeServices;
use boot_model::{CallName, DriverFrame, Extra, Register};
use phase_parts::{Write, Writes, handle_in, number_in};
use pi_base::{Guid, OutOfMemory, Word};

// The handle in one register and the number in another, if both hold one.
fn handle_and_number(frame: &DriverFrame, h: u8, v: u8) -> Option<(u32, u64)>
    ensures { result ≡ both (R.handle_in frame.now.registers h) (R.number_in frame.now.registers v) }
{
    match (
        handle_in(&frame.registers, h),
        number_in(&frame.registers, v),
    ) {
        (Some(handle), Some(number)) => Some((handle, number)),
        _ => None,
    }
}

// The handle in one register and the numbers in two others, if all three are there.
fn handle_and_numbers(frame: &DriverFrame, h: u8, old: u8, new: u8) -> Option<(u32, (u64, u64))>
    ensures { result ≡ both (R.handle_in frame.now.registers h)
        (both (R.number_in frame.now.registers old) (R.number_in frame.now.registers new)) }
{
    match (
        handle_and_number(frame, h, old),
        number_in(&frame.registers, new),
    ) {
        (Some((handle, from)), Some(to)) => Some((handle, (from, to))),
        _ => None,
    }
}

/// The action `install`: on a new handle (form 0), or on the one in a register (form 1).
pub(crate) fn install(
    services: &mut DxeServices,
    frame: &DriverFrame,
    form: u8,
    h: u8,
    guid: &Guid,
    v: u8,
) -> Result<Reply, OutOfMemory>
    requires counted { (n : ℕ) × (n < 2 ^ 32 - 1) × AreCounted n services.old }
    ensures row { (catalog : Catalog) → Serves catalog services.old frame.now (A.DxeInstall form h guid.now v) result services.new }
    ensures grow { OnOk result (GrowByOne services.old services.new) }
{
    if form == 0 {
        install_new(services, frame, h, guid, v)
    } else {
        install_on(services, frame, h, guid, v)
    }
}

// Installs an interface on a new handle.
fn install_new(
    services: &mut DxeServices,
    frame: &DriverFrame,
    h: u8,
    guid: &Guid,
    v: u8,
) -> Result<Reply, OutOfMemory>
    requires counted { (n : ℕ) × (n < 2 ^ 32 - 1) × AreCounted n services.old }
    ensures row { (catalog : Catalog) → Serves catalog services.old frame.now (A.DxeInstall 0 h guid.now v) result services.new }
    ensures grow { OnOk result (GrowByOne services.old services.new) }
{
    match number_in(&frame.registers, v) {
        None => Ok(Reply::refusal(CallName::Install, Word::InvalidParameter)),
        Some(value) => match services.handles.install(None, *guid, value) {
            Ok(handle) => Ok(Reply::swept(
                CallName::Install,
                Extra::Number(u64::from(handle)),
                Writes::one(h, Register::HandleIn(handle)),
                services.sweep(guid, value, handle),
            )
            .did(Event::changes(guid))),
            Err(fault) => Reply::refused(CallName::Install, fault),
        },
    }
}

// Installs an interface on the handle in a register.
fn install_on(
    services: &mut DxeServices,
    frame: &DriverFrame,
    h: u8,
    guid: &Guid,
    v: u8,
) -> Result<Reply, OutOfMemory>
    requires counted { (n : ℕ) × (n < 2 ^ 32 - 1) × AreCounted n services.old }
    ensures row { (catalog : Catalog) (form : ℕ) → Serves catalog services.old frame.now (A.DxeInstall (suc form) h guid.now v) result
        services.new }
    ensures grow { OnOk result (GrowByOne services.old services.new) }
{
    match handle_and_number(frame, h, v) {
        None => Ok(Reply::refusal(CallName::Install, Word::InvalidParameter)),
        Some((on, value)) => match services.handles.install(Some(on), *guid, value) {
            Ok(handle) => Ok(Reply::swept(
                CallName::Install,
                Extra::Nothing,
                Writes::Nothing,
                services.sweep(guid, value, handle),
            )
            .did(Event::changes(guid))),
            Err(fault) => Reply::refused(CallName::Install, fault),
        },
    }
}

/// The action `reinstall`.
pub(crate) fn reinstall(
    services: &mut DxeServices,
    frame: &DriverFrame,
    h: u8,
    guid: &Guid,
    old: u8,
    new: u8,
) -> Result<Reply, OutOfMemory>
    requires counted { (n : ℕ) × (n < 2 ^ 32 - 1) × AreCounted n services.old }
    ensures row { (catalog : Catalog) → Serves catalog services.old frame.now (A.DxeReinstall h guid.now old new) result services.new }
    ensures grow { OnOk result (GrowByOne services.old services.new) }
{
    match handle_and_numbers(frame, h, old, new) {
        None => Ok(Reply::refusal(CallName::Reinstall, Word::InvalidParameter)),
        Some((on, (from, to))) => match services.handles.reinstall(on, *guid, from, to) {
            Ok(()) => Ok(Reply::swept(
                CallName::Reinstall,
                Extra::Nothing,
                Writes::Nothing,
                services.sweep(guid, to, on),
            )),
            Err(fault) => Reply::refused(CallName::Reinstall, fault),
        },
    }
}

/// The action `uninstall`.
pub(crate) fn uninstall(
    services: &mut DxeServices,
    frame: &DriverFrame,
    h: u8,
    guid: &Guid,
    v: u8,
) -> Result<Reply, OutOfMemory>
    ensures row { (catalog : Catalog) → Serves catalog services.old frame.now (A.DxeUninstall h guid.now v) result services.new }
    ensures grow { OnOk result (GrowByOne services.old services.new) }
{
    match handle_and_number(frame, h, v) {
        None => Ok(Reply::refusal(CallName::Uninstall, Word::InvalidParameter)),
        Some((on, value)) => match services.handles.uninstall(on, *guid, value) {
            Ok(()) => Ok(Reply::told(CallName::Uninstall, Extra::Nothing, Writes::Nothing).did(
                Event::changes(guid),
            )),
            Err(fault) => Reply::refused(CallName::Uninstall, fault),
        },
    }
}

/// The action `locate`.
pub(crate) fn locate(services: &DxeServices, h: u8, v: u8, guid: &Guid) -> Reply
    ensures row { (catalog : Catalog) (frame : DriverFrame) → Serves catalog services.now frame (A.DxeLocate h v guid.now) (Ok result)
        services.now }
{
    match services.handles.locate(guid) {
        None => Reply::refusal(CallName::Locate, Word::NotFound),
        Some((handle, value)) => {
            let found = Write {
                r: h,
                register: Register::HandleIn(handle),
            };
            let number = Write {
                r: v,
                register: Register::Number(value),
            };
            Reply::told(
                CallName::Locate,
                Extra::Number(value),
                Writes::Two(found, number),
            )
        }
    }
}
