//! Laws of whole boots, each on a function without a body.
ghost use Rattle.boot_laws.specs.{BootEnds.BootsEnd, PrintedStarts.BootsPrintStarts};

/// A boot ends, and its last line is its result.
pub fn boots_end()
    ensures { BootsEnd }
{}

/// The start lines of a boot, in order, are the starts of its machines in PEI and in DXE.
pub fn boots_print_starts()
    ensures { BootsPrintStarts }
{}
