// The operands of the actions of DXE, read in order from any source.
#![tactic(auto, using(crate::proofs::Sources::stops_then), unfolding(crate::specs::Source::operands_by))]

ghost use Rattle.act_code.specs.Source.{Gives, operands_by};
ghost use Rattle.act_code.specs.declared.code.Code.TheVariants as Code;

use crate::action::Action;
use crate::source::Source;

/// Reads `install`: whether the handle is new, its register, the protocol's GUID, and the interface's register.
pub fn install<S: Source>(source: S) -> Result<(Action, S), S::Fault>
    ensures { Gives S.left S.cause result (operands_by S.way Code.DxeInstall (S.left source)) }
{
    let (form, source) = source.within(0, 1)?;
    let (h, source) = source.register()?;
    let (guid, source) = source.guid()?;
    let (v, source) = source.register()?;
    Ok((Action::DxeInstall { form, h, guid, v }, source))
}

/// Reads `reinstall`: a handle's register, the GUID, and the registers of the old and the new interface.
pub fn reinstall<S: Source>(source: S) -> Result<(Action, S), S::Fault>
    ensures { Gives S.left S.cause result (operands_by S.way Code.DxeReinstall (S.left source)) }
{
    let (h, source) = source.register()?;
    let (guid, source) = source.guid()?;
    let (old, source) = source.register()?;
    let (new, source) = source.register()?;
    Ok((Action::DxeReinstall { h, guid, old, new }, source))
}

/// Reads `uninstall`: a handle's register, the GUID, and the interface's register.
pub fn uninstall<S: Source>(source: S) -> Result<(Action, S), S::Fault>
    ensures { Gives S.left S.cause result (operands_by S.way Code.DxeUninstall (S.left source)) }
{
    let (h, source) = source.register()?;
    let (guid, source) = source.guid()?;
    let (v, source) = source.register()?;
    Ok((Action::DxeUninstall { h, guid, v }, source))
}

/// Reads `locate`: the registers for the handle and the interface, and the GUID.
pub fn locate<S: Source>(source: S) -> Result<(Action, S), S::Fault>
    ensures { Gives S.left S.cause result (operands_by S.way Code.DxeLocate (S.left source)) }
{
    let (h, source) = source.register()?;
    let (v, source) = source.register()?;
    let (guid, source) = source.guid()?;
    Ok((Action::DxeLocate { h, v, guid }, source))
}

/// Reads `notify`: the GUID and a block.
pub fn notify<S: Source>(source: S) -> Result<(Action, S), S::Fault>
    ensures { Gives S.left S.cause result (operands_by S.way Code.DxeNotify (S.left source)) }
{
    let (guid, source) = source.guid()?;
    let (block, source) = source.block()?;
    Ok((Action::DxeNotify { guid, block }, source))
}

/// Reads `schedule`: the driver's file name.
pub fn schedule<S: Source>(source: S) -> Result<(Action, S), S::Fault>
    ensures { Gives S.left S.cause result (operands_by S.way Code.Schedule (S.left source)) }
{
    let (guid, source) = source.guid()?;
    Ok((Action::Schedule { guid }, source))
}

/// Reads `process`: the register of a volume's address.
pub fn process<S: Source>(source: S) -> Result<(Action, S), S::Fault>
    ensures { Gives S.left S.cause result (operands_by S.way Code.Process (S.left source)) }
{
    let (v, source) = source.register()?;
    Ok((Action::Process { v }, source))
}
