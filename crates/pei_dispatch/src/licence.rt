//! By which licence a PEIM starts.
ghost use Rattle.std.specs.Prelude.{◌≡◌, if◌then◌else◌};
ghost use Rattle.boot_model.specs.{Eligible.licence_by, PeimState.has_started, declared.licence.Licence.TheVariants.Shadow};

use boot_model::{Licence, PeimState};
use mod_catalog::{Part, PartExpr};

/// The licence by which a part starts that may start, by how far its module has come: the second start has its registration, and the first one the place in an a priori file, or else the expression.
pub fn licence_of(state: PeimState, part: &Part) -> Licence
    ensures { result ≡ (if has_started state then Shadow else licence_by part.now.rank part.now.expr) }
{
    if state != PeimState::NotDispatched {
        return Licence::Shadow;
    }
    if part.rank.is_some() {
        return Licence::Apriori;
    }
    match part.expr {
        PartExpr::Absent => Licence::Absent,
        _ => Licence::True,
    }
}
