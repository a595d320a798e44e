//! What a check answers.
ghost use Rattle.std.specs.Prelude.{ℕ, List, IfOk};
ghost use Rattle.boot_model.specs.FreeRun.{AreFreeLines};
ghost use Rattle.mod_catalog.specs.declared.catalogue.Catalog.{Catalog as OfCatalog};
ghost use Rattle.store_model.specs.StoreState.{Board};
ghost use Rattle.recorded_boot.specs.{FollowingText.Follows, FollowingText.IsShort, Verdict.IsVerdict};

use crate::trace::{Parted, Spelled};
use pi_base::OutOfMemory;

/// The answer of the check of a text.
#[derive(Clone, Copy)]
pub enum Verdict {
    /// The text is the whole text of some free boot.
    Yes,
    /// It is not.
    No {
        /// The first line, from 1, that the text does not have, or with which it begins no free boot.
        line: u32,
    },
}

/// The verdict on a text, by how a boot was followed along it.
pub(crate) fn verdict_of(
    followed: Result<(), Parted>,
    text: &Spelled<'_>,
) -> Result<Verdict, OutOfMemory>
    requires few { IsShort text.now followed }
    ensures { (board : Board) (catalog : OfCatalog) (fuel : ℕ) (told : List ℕ)
        → Follows (AreFreeLines board catalog fuel) told text.now followed
        → IfOk result (IsVerdict (AreFreeLines board catalog fuel) told) }
{
    match followed {
        Ok(()) if text.is_at_end() => Ok(Verdict::Yes),
        Ok(()) => Ok(Verdict::No { line: text.line() }),
        Err(parted) => match parted {
            Parted::Off => Ok(Verdict::No { line: text.line() }),
            Parted::Memory => Err(OutOfMemory),
        },
    }
}
