//! Laws of the starts of free boots, each on a function without a body.
ghost use Rattle.recorded_boot.specs.{Counted.DxeStartsCount, Counted.PeiStartsCount, OneStep.OneDxeStep, OneStep.OnePeiStep};
ghost use Rattle.recorded_boot.specs.{Order.OrderIsOfStarts, Leading.DxeStartsLead, Leading.PeiStartsLead};

/// From a machine of PEI, the starts of a boot determine which of the free steps it takes.
pub fn one_pei_step()
    ensures { OnePeiStep }
{}

/// From a machine of DXE, the starts of a boot determine which of the free steps it takes.
pub fn one_dxe_step()
    ensures { OneDxeStep }
{}

/// The free boots that start what was started up to a machine are those that continue from it.
pub fn starts_lead()
    ensures pei { PeiStartsLead }
    ensures dxe { DxeStartsLead }
{}

/// The lines of a free boot show as many starts as its machines have counted.
pub fn starts_count()
    ensures pei { PeiStartsCount }
    ensures dxe { DxeStartsCount }
{}

/// The order of the starts among lines asks for exactly those starts.
pub fn order_is_of_starts()
    ensures { OrderIsOfStarts }
{}
