//! HOBs that are added.
ghost use Rattle.store_laws.specs.{Front.FirstImages, Growing.HobsAreAdded, Growing.NodesAreTexts};
ghost use Rattle.store_laws.specs.Padding.{TailsAreZero, WritesAreJoined};

/// The bytes of the first image, and those of a state with one more HOB.
pub fn hobs_added()
    ensures first { FirstImages }
    ensures added { HobsAreAdded }
    ensures node { NodesAreTexts }
{}

/// Writes that follow one another are one write, and zeros follow the end HOB.
pub fn texts_written()
    ensures joined { WritesAreJoined }
    ensures tail { TailsAreZero }
{}
