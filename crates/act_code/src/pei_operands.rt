// The operands of the actions of PEI, read in order from any source.
#![tactic(auto, using(crate::proofs::Sources::stops_then), unfolding(crate::specs::Source::operands_by))]

ghost use Rattle.act_code.specs.Source.{Gives, operands_by};
ghost use Rattle.act_code.specs.declared.code.Code.TheVariants as Code;

use crate::action::Action;
use crate::source::Source;
use std::alloc::Global;

/// Reads `pool`: a register and a size in bytes.
pub fn pool<S: Source>(source: S) -> Result<(Action, S), S::Fault>
    ensures { Gives S.left S.cause result (operands_by S.way Code.Pool (S.left source)) }
{
    let (r, source) = source.register()?;
    let (size, source) = source.number_4()?;
    Ok((Action::Pool { r, size }, source))
}

/// Reads `store`: the register of a pool, an offset in its body, and bytes.
pub fn store<S: Source>(alloc: Global, source: S) -> Result<(Action, S), S::Fault>
    ensures { Gives S.left S.cause result (operands_by S.way Code.Store (S.left source)) }
{
    let (p, source) = source.register()?;
    let (offset, source) = source.number_4()?;
    let (bytes, source) = source.counted(alloc)?;
    Ok((Action::Store { p, offset, bytes }, source))
}

/// Reads `addr`: a register, the register of a body, and an offset in it.
pub fn addr<S: Source>(source: S) -> Result<(Action, S), S::Fault>
    ensures { Gives S.left S.cause result (operands_by S.way Code.Addr (S.left source)) }
{
    let (v, source) = source.register()?;
    let (x, source) = source.register()?;
    let (offset, source) = source.number_4()?;
    Ok((Action::Addr { v, x, offset }, source))
}

/// Reads `desc`: a register, the kind, the GUID or the register of its address, and the value's register or a block.
pub fn desc<S: Source>(source: S) -> Result<(Action, S), S::Fault>
    ensures { Gives S.left S.cause result (operands_by S.way Code.Desc (S.left source)) }
{
    let (d, source) = source.register()?;
    let ((kind, guid, arg), source) = source.descriptor()?;
    Ok((Action::Desc { d, kind, guid, arg }, source))
}

/// Reads `install`: registers of descriptors.
pub fn install<S: Source>(alloc: Global, source: S) -> Result<(Action, S), S::Fault>
    ensures { Gives S.left S.cause result (operands_by S.way Code.Install (S.left source)) }
{
    let (list, source) = source.registers(alloc)?;
    Ok((Action::Install { list }, source))
}

/// Reads `reinstall`: the registers of the old and of the new descriptor.
pub fn reinstall<S: Source>(source: S) -> Result<(Action, S), S::Fault>
    ensures { Gives S.left S.cause result (operands_by S.way Code.Reinstall (S.left source)) }
{
    let (old, source) = source.register()?;
    let (new, source) = source.register()?;
    Ok((Action::Reinstall { old, new }, source))
}

/// Reads `notify`: registers of descriptors.
pub fn notify<S: Source>(alloc: Global, source: S) -> Result<(Action, S), S::Fault>
    ensures { Gives S.left S.cause result (operands_by S.way Code.Notify (S.left source)) }
{
    let (list, source) = source.registers(alloc)?;
    Ok((Action::Notify { list }, source))
}

/// Reads `locate`: the registers for the descriptor and the value, the GUID, and the number of the instance.
pub fn locate<S: Source>(source: S) -> Result<(Action, S), S::Fault>
    ensures { Gives S.left S.cause result (operands_by S.way Code.Locate (S.left source)) }
{
    let (d, source) = source.register()?;
    let (v, source) = source.register()?;
    let (guid, source) = source.guid()?;
    let (instance, source) = source.number_2()?;
    Ok((
        Action::Locate {
            d,
            v,
            guid,
            instance,
        },
        source,
    ))
}

/// Reads `hob`: a HOB's type and its body.
pub fn make_hob<S: Source>(alloc: Global, source: S) -> Result<(Action, S), S::Fault>
    ensures { Gives S.left S.cause result (operands_by S.way Code.Hob (S.left source)) }
{
    let ((kind, body), source) = source.hob(alloc)?;
    Ok((Action::Hob { kind, body }, source))
}

/// Reads `memory`: the registers of the first address and of the length.
pub fn memory<S: Source>(source: S) -> Result<(Action, S), S::Fault>
    ensures { Gives S.left S.cause result (operands_by S.way Code.Memory (S.left source)) }
{
    let (begin, source) = source.register()?;
    let (length, source) = source.register()?;
    Ok((Action::Memory { begin, length }, source))
}

/// Reads `pages`: a register, the memory type, and how many pages.
pub fn pages<S: Source>(source: S) -> Result<(Action, S), S::Fault>
    ensures { Gives S.left S.cause result (operands_by S.way Code.Pages (S.left source)) }
{
    let (r, source) = source.register()?;
    let (memory_type, source) = source.byte()?;
    let (count, source) = source.number_4()?;
    Ok((
        Action::Pages {
            r,
            memory_type,
            count,
        },
        source,
    ))
}

/// Reads `boot_mode`: whether the mode is read or set, and a register.
pub fn boot_mode<S: Source>(source: S) -> Result<(Action, S), S::Fault>
    ensures { Gives S.left S.cause result (operands_by S.way Code.BootMode (S.left source)) }
{
    let (form, source) = source.within(0, 1)?;
    let (r, source) = source.register()?;
    Ok((Action::BootMode { form, r }, source))
}
