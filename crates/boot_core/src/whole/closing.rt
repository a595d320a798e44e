// The last lines of a boot: the lists of its last store, the handles, and the result.
ghost use Rattle.std.specs.Prelude.{◌≡◌, ◌<◌, ◌^◌, flat_map, length};
ghost use Rattle.boot_io.specs.Sink.{Puts, SinkFaultsAfter};
ghost use Rattle.store_model.specs.{Service.Present, Service.OfEach, StoreCall.Anything};
ghost use Rattle.boot_model.specs.BootRun.{dxe_result};
ghost use Rattle.boot_core.specs.Closing.{interface_text, result_text, closing_text};

use boot_io::{Sink, SinkFault};
use boot_model::{DxeEnd, Line, RunEnd};
use boot_trace::{put_made, put_store_lists};
use dxe_core::database::Handles;
use store_model::{Interface, PeiStore};

/// The result of a boot whose DXE ended so.
pub(crate) fn result_of(end: DxeEnd) -> RunEnd
    ensures { result ≡ dxe_result end }
{
    match end {
        DxeEnd::Done => RunEnd::Done,
        DxeEnd::Spent => RunEnd::Spent,
        DxeEnd::Deep => RunEnd::Deep,
    }
}

// A line for an interface.
#[tactic(auto, unfolding(crate::specs::Closing::interface_text))]
fn put_interface<S: Sink>(sink: &mut S, interface: Interface) -> Result<(), SinkFault>
    ensures text { Puts result (S.text sink.old) (S.text sink.new) (interface_text interface) }
    ensures cause { SinkFaultsAfter result (S.faults sink.old) (S.faults sink.new) }
{
    put_made(
        sink,
        Line::Handle {
            handle: interface.handle,
            guid: interface.guid,
            value: interface.value,
        },
    )
}

// A line for each interface.
fn put_interfaces<S: Sink>(sink: &mut S, interfaces: &[Interface]) -> Result<(), SinkFault>
    ensures text { Puts result (S.text sink.old) (S.text sink.new) (flat_map interface_text interfaces.now) }
    ensures cause { SinkFaultsAfter result (S.faults sink.old) (S.faults sink.new) }
{
    'interfaces: for interface in interfaces {
        put_interface(sink, *interface)?;
    }
    Ok(())
}

// How many interfaces there are.
fn count_of(handles: &Handles) -> u32
    requires few { length handles.now.interfaces < 2 ^ 32 }
    ensures { result ≡ length handles.now.interfaces }
{
    handles.len() as u32
}

// The handles, and the result.
fn put_result<S: Sink>(sink: &mut S, handles: &Handles, end: RunEnd) -> Result<(), SinkFault>
    requires few { length handles.now.interfaces < 2 ^ 32 }
    ensures text { Puts result (S.text sink.old) (S.text sink.new) (result_text handles.now end) }
    ensures cause { SinkFaultsAfter result (S.faults sink.old) (S.faults sink.new) }
{
    let count = count_of(handles);
    put_made(sink, Line::Handles { count })?;
    put_interfaces(sink, handles.interfaces())?;
    put_made(sink, Line::Result { outcome: end })
}

/// Puts the last lines of a boot: the lists of its last store, the handles and the result. Where the sink fails, a prefix of their text was put.
pub fn put_closing<M: PeiStore, S: Sink>(
    sink: &mut S,
    store: &M,
    handles: &Handles,
    end: RunEnd,
) -> Result<(), SinkFault>
    requires state { Present (M.stands_for store.now) Anything }
    requires few { length handles.now.interfaces < 2 ^ 32 }
    ensures text { OfEach (M.stands_for store.now) Anything (λ s. Puts result (S.text sink.old) (S.text sink.new)
        (closing_text s handles.now end)) }
    ensures cause { SinkFaultsAfter result (S.faults sink.old) (S.faults sink.new) }
{
    put_store_lists(sink, store)?;
    put_result(sink, handles, end)
}
