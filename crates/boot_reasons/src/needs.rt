// What a part of a module needs.
ghost use Rattle.std.specs.Prelude.{◌≡◌, IfOk};
ghost use Rattle.boot_reasons.specs.{Needs.needs_of, Noting.giver_in};

use crate::asking::asked;
use crate::givers::Givers;
use explain_text::Need;
use mod_catalog::Part;
use pi_base::{OutOfMemory, Phase, Seq};
use std::alloc::Global;

/// What the expression of a part asks for, and who has it installed.
pub(crate) fn needs_of(
    alloc: Global,
    givers: &Givers,
    phase: Phase,
    part: &Part,
) -> Result<Seq<Need>, OutOfMemory>
    ensures { IfOk result (λ needs. needs ≡ needs_of (giver_in givers.now.map) phase part.now.expr) }
{
    let guids = asked(alloc, phase, &part.expr)?;
    let mut needs = Seq::new(alloc);
    let mut rest = guids.as_slice();
    'guids: while let [guid, after @ ..] = rest {
        needs.push(Need {
            guid: *guid,
            giver: givers.of(guid),
        })?;
        rest = after;
    }
    Ok(needs)
}
