//! Who watches a boot.
use dxe_dispatch::DxeWatch;
use pei_dispatch::PeiWatch;

/// Who watches a boot: one its PEI, and one its DXE.
#[derive(Drop)]
pub struct Watch<P: PeiWatch + Drop, D: DxeWatch + Drop> {
    /// Who is told of PEI.
    pub pei: P,
    /// Who is told of DXE. Without a hand-off nothing is told.
    pub dxe: D,
}

/// Nobody watches.
pub fn nobody() -> Watch<pei_dispatch::Unwatched, dxe_dispatch::Unwatched> {
    Watch {
        pei: pei_dispatch::Unwatched,
        dxe: dxe_dispatch::Unwatched,
    }
}
