//! The image: its bodies, and what the facts of a state say of it.
ghost use Rattle.store_laws.specs.Facts.{ImagesFill};
ghost use Rattle.store_laws.specs.Spelling.{BodiesAreRead, BodiesAreWritten, HobsAreAppended};

/// A body is read at its HOB's place. A changed body changes its own bytes alone, and a new HOB follows the others.
pub fn bodies_spelled()
    ensures read { BodiesAreRead }
    ensures written { BodiesAreWritten }
    ensures appended { HobsAreAppended }
{}

/// The image of a state is as long as its heap.
pub fn image_facts()
    ensures { ImagesFill }
{}
