//! The keywords of lines.
ghost use Rattle.std.specs.Prelude.{◌≡◌};
ghost use Rattle.boot_model.specs.Text.{keyword};

use boot_model::Line;

/// Of a volume that is reported.
pub const REPORT: &[u8] = b"report";

/// Of a PEIM that starts.
pub const PEI_START: &[u8] = b"pei start";

/// Of a driver that starts.
pub const DXE_START: &[u8] = b"dxe start";

/// Of a service that answers.
pub const CALL: &[u8] = b"call";

/// Of a text that a script logs.
pub const LOG: &[u8] = b"log";

/// Of a callback notification that begins.
pub const NOTIFY_CALLBACK: &[u8] = b"notify callback";

/// Of a queued notification that begins.
pub const NOTIFY_DISPATCH: &[u8] = b"notify dispatch";

/// Of a protocol notification that begins.
pub const NOTIFY_PROTOCOL: &[u8] = b"notify protocol";

/// Of a frame's end.
pub const END: &[u8] = b"end";

/// Of the move to permanent memory.
pub const MIGRATE: &[u8] = b"migrate";

/// Of the PPI of permanent memory.
pub const CORE_INSTALL: &[u8] = b"core install";

/// Of the end of PEI.
pub const PEI_STOP: &[u8] = b"pei stop";

/// Of the end of DXE.
pub const DXE_STOP: &[u8] = b"dxe stop";

/// Of a module that waits.
pub const WAITING: &[u8] = b"waiting";

/// Of the hand-off.
pub const HANDOFF: &[u8] = b"handoff";

/// Of a volume that DXE discovers.
pub const DXE_VOLUME: &[u8] = b"dxe volume";

/// Of the count of PPIs.
pub const PPIS: &[u8] = b"ppis";

/// Of a PPI.
pub const PPI: &[u8] = b"ppi";

/// Of the count of callback notifications.
pub const CALLBACKS: &[u8] = b"callbacks";

/// Of a callback notification.
pub const CALLBACK: &[u8] = b"callback";

/// Of the count of dispatch notifications.
pub const DISPATCHES: &[u8] = b"dispatches";

/// Of a dispatch notification.
pub const DISPATCH: &[u8] = b"dispatch";

/// Of the count of queued pairs.
pub const PENDINGS: &[u8] = b"pendings";

/// Of a queued pair.
pub const PENDING: &[u8] = b"pending";

/// Of the count of HOBs.
pub const HOBS: &[u8] = b"hobs";

/// Of a HOB.
pub const HOB: &[u8] = b"hob";

/// Of the count of interfaces.
pub const HANDLES: &[u8] = b"handles";

/// Of an interface.
pub const HANDLE: &[u8] = b"handle";

/// Of how the run ended.
pub const RESULT: &[u8] = b"result";

/// Of a volume of the catalogue.
pub const VOLUME: &[u8] = b"volume";

/// Of a module of the catalogue.
pub const MODULE: &[u8] = b"module";

/// Of words of no form.
pub const REFUSED_USAGE: &[u8] = b"refused usage";

/// Of a file that could not be read.
pub const REFUSED_FILE: &[u8] = b"refused file";

/// Of a file that is too long.
pub const REFUSED_LONG: &[u8] = b"refused long";

/// Of a plan that is refused.
pub const REFUSED_PLAN: &[u8] = b"refused plan";

/// Of an image that is refused.
pub const REFUSED_IMAGE: &[u8] = b"refused image";

// The keyword of a line.
#[tactic(auto, unfolding(boot_model::specs::Text::keyword))]
pub(crate) fn keyword(line: &Line) -> &'static [u8]
    ensures { result.now ≡ keyword line.now }
{
    match line {
        Line::Report { .. } => REPORT,
        Line::PeiStart { .. } => PEI_START,
        Line::DxeStart { .. } => DXE_START,
        Line::Call { .. } => CALL,
        Line::Log { .. } => LOG,
        Line::NotifyCallback { .. } => NOTIFY_CALLBACK,
        Line::NotifyDispatch { .. } => NOTIFY_DISPATCH,
        Line::NotifyProtocol { .. } => NOTIFY_PROTOCOL,
        Line::End { .. } => END,
        Line::Migrate { .. } => MIGRATE,
        Line::CoreInstall { .. } => CORE_INSTALL,
        Line::PeiStop => PEI_STOP,
        Line::DxeStop => DXE_STOP,
        Line::Waiting { .. } => WAITING,
        Line::Handoff { .. } => HANDOFF,
        Line::DxeVolume { .. } => DXE_VOLUME,
        Line::Ppis { .. } => PPIS,
        Line::Ppi { .. } => PPI,
        Line::Callbacks { .. } => CALLBACKS,
        Line::Callback { .. } => CALLBACK,
        Line::Dispatches { .. } => DISPATCHES,
        Line::Dispatch { .. } => DISPATCH,
        Line::Pendings { .. } => PENDINGS,
        Line::Pending { .. } => PENDING,
        Line::Hobs { .. } => HOBS,
        Line::Hob { .. } => HOB,
        Line::Handles { .. } => HANDLES,
        Line::Handle { .. } => HANDLE,
        Line::Result { .. } => RESULT,
        Line::Volume { .. } => VOLUME,
        Line::Module { .. } => MODULE,
        Line::RefusedUsage => REFUSED_USAGE,
        Line::RefusedFile { .. } => REFUSED_FILE,
        Line::RefusedLong { .. } => REFUSED_LONG,
        Line::RefusedPlan { .. } => REFUSED_PLAN,
        Line::RefusedImage { .. } => REFUSED_IMAGE,
    }
}
