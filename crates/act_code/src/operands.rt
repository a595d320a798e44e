// The operands of an action, by its code.
ghost use Rattle.act_code.specs.Source.{Gives, operands_by};

use crate::action::Action;
use crate::code::Code;
use crate::source::Source;
use crate::{common_operands, dxe_operands, pei_operands};
use std::alloc::Global;

/// Reads the operands of the action with this code from the front of a source, and returns the action and what is left of the source.
pub fn read_operands<S: Source>(
    alloc: Global,
    code: Code,
    source: S,
) -> Result<(Action, S), S::Fault>
    ensures { Gives S.left S.cause result (operands_by S.way code (S.left source)) }
{
    match code {
        Code::Set => common_operands::set(source),
        Code::Add => common_operands::add(source),
        Code::Pool => pei_operands::pool(source),
        Code::Store => pei_operands::store(alloc, source),
        Code::Addr => pei_operands::addr(source),
        Code::Peek => common_operands::peek(source),
        Code::Desc => pei_operands::desc(source),
        Code::Install => pei_operands::install(alloc, source),
        Code::Reinstall => pei_operands::reinstall(source),
        Code::Notify => pei_operands::notify(alloc, source),
        Code::Locate => pei_operands::locate(source),
        Code::Hob => pei_operands::make_hob(alloc, source),
        Code::Memory => pei_operands::memory(source),
        Code::Pages => pei_operands::pages(source),
        Code::BootMode => pei_operands::boot_mode(source),
        Code::Log => common_operands::log(alloc, source),
        Code::SkipIf => common_operands::skip_if(source),
        Code::Ret => common_operands::ret(source),
        Code::Shadow => Ok((Action::Shadow, source)),
        Code::DxeInstall => dxe_operands::install(source),
        Code::DxeReinstall => dxe_operands::reinstall(source),
        Code::DxeUninstall => dxe_operands::uninstall(source),
        Code::DxeLocate => dxe_operands::locate(source),
        Code::DxeNotify => dxe_operands::notify(source),
        Code::Schedule => dxe_operands::schedule(source),
        Code::Process => dxe_operands::process(source),
        Code::Dispatch => Ok((Action::Dispatch, source)),
    }
}
