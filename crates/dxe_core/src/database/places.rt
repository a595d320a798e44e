// The places of interfaces in a list that is in order of handle.
ghost use Rattle.std.specs.Prelude.{◌≡◌, ◌≤◌, ◌<◌, IfSome, IfOk, length};
ghost use Rattle.pi_base.specs.Lists.{Ordered};
ghost use Rattle.store_model.specs.HandleFacts.{IsNotBehind, AreOfOthers};
ghost use Rattle.dxe_core.specs.Places.{IsStretch, IsPlaceOn, IsPlaceWith};

use crate::database::fault::HandleFault;
use pi_base::Guid;
use store_model::Interface;

/// The interfaces of a handle, from `begin` to before `end`. A handle that is not live has none.
#[derive(Clone, Copy)]
pub(crate) struct Stretch {
    handle: u32,
    pub(crate) begin: usize,
    pub(crate) end: usize,
}

/// The places of a handle's interfaces.
pub(crate) fn stretch_of(interfaces: &[Interface], handle: u32) -> Stretch
    requires { Ordered IsNotBehind interfaces.now }
    ensures handle { result.handle ≡ handle }
    ensures stretch { IsStretch handle interfaces.now result.begin result.end }
    ensures within { (result.begin ≤ result.end) × (result.end ≤ length interfaces.now) }
{
    Stretch {
        handle,
        begin: interfaces.partition_point(|i| i.handle < handle),
        end: interfaces.partition_point(|i| i.handle <= handle),
    }
}

/// The place of the interface that a stretch's handle has of a protocol.
pub(crate) fn place_in(interfaces: &[Interface], stretch: Stretch, guid: &Guid) -> Option<usize>
    requires { IsStretch stretch.handle interfaces.now stretch.begin stretch.end }
    ensures place { IsPlaceOn interfaces.now stretch.handle guid.now result }
    ensures within { IfSome result (λ place. place < length interfaces.now) }
{
    for place in stretch.begin..stretch.end {
        if interfaces[place].guid == *guid {
            return Some(place);
        }
    }
    None
}

/// The place of the interface that a live handle has of a protocol with a value.
pub(crate) fn place_with(
    interfaces: &[Interface],
    handle: u32,
    guid: &Guid,
    value: u64,
) -> Result<usize, HandleFault>
    requires in_order { Ordered IsNotBehind interfaces.now }
    requires once { Ordered AreOfOthers interfaces.now }
    ensures place { IsPlaceWith interfaces.now handle guid.now value result }
    ensures within { IfOk result (λ place. place < length interfaces.now) }
{
    let stretch = stretch_of(interfaces, handle);
    if stretch.begin == stretch.end {
        return Err(HandleFault::InvalidParameter);
    }
    match place_in(interfaces, stretch, guid) {
        Some(place) => {
            if interfaces[place].value == value {
                Ok(place)
            } else {
                Err(HandleFault::NotFound)
            }
        }
        None => Err(HandleFault::NotFound),
    }
}
