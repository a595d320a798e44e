// What is told along a run.
ghost use Rattle.std.specs.Prelude.{◌≡◌, [], None};
ghost use Rattle.pi_base.specs.declared.guid.Guid.{Guid as OfGuid};
ghost use Rattle.boot_reasons.specs.Noting.{giver_in};
ghost use Rattle.explain_text.specs.declared.reasons.Giver.TheVariants.{Absent};

use crate::givers::Givers;
use explain_text::{Begun, Moved};
use pi_base::Seq;
use std::alloc::Global;

/// What is told of so many steps of a run of PEI.
#[derive(Drop)]
pub(crate) struct PeiTold {
    /// The starts.
    pub(crate) begun: Seq<Begun>,
    /// Who has which PPIs installed.
    pub(crate) givers: Givers,
    /// The move.
    pub(crate) moved: Option<Moved>,
}

impl PeiTold {
    /// Nothing.
    pub(crate) fn new(alloc: Global) -> PeiTold
        ensures begun { result.begun ≡ [] }
        ensures givers { (guid : OfGuid) → giver_in result.givers.map guid ≡ Absent }
        ensures moved { result.moved ≡ None }
    {
        PeiTold {
            begun: Seq::new(alloc),
            givers: Givers::new(alloc),
            moved: None,
        }
    }
}

/// What is told of so many steps of a run of DXE.
#[derive(Drop)]
pub(crate) struct DxeTold {
    /// The starts.
    pub(crate) begun: Seq<Begun>,
    /// Who has which protocols installed.
    pub(crate) givers: Givers,
}

impl DxeTold {
    /// Nothing.
    pub(crate) fn new(alloc: Global) -> DxeTold
        ensures begun { result.begun ≡ [] }
        ensures givers { (guid : OfGuid) → giver_in result.givers.map guid ≡ Absent }
    {
        DxeTold {
            begun: Seq::new(alloc),
            givers: Givers::new(alloc),
        }
    }
}
