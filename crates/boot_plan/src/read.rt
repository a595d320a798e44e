// Reading the text of a plan.
ghost use Rattle.std.specs.Prelude.{◌≡◌, ◌≢◌, ◌⊎◌, ◌<◌, ◌-◌, ◌^◌, ℕ, List, length, IfOk, IfErr};
ghost use Rattle.boot_plan.specs.{PlanText.IsPlan, PlanText.IsPlanFault, Range.IsPlanInRange, declared.plan.Plan.Plan};
ghost use Rattle.boot_plan.specs.{declared.fault.PlanFault.PlanFault, declared.fault.PlanCause.TheVariants.Memory};

use crate::draft::Draft;
use crate::fault::PlanFault;
use crate::finish::finish;
use crate::plan::Plan;
use line_words::first_line;
use std::alloc::Global;

/// Reads the text of a plan, of fewer than 2^32 - 1 bytes.
///
/// The fault is the first one of the text, and lines count from 1. If memory runs out, the fault is `Memory` at line 0.
pub fn read_plan(alloc: Global, text: &[u8]) -> Result<Plan, PlanFault>
    requires { length text.now < 2 ^ 32 - 1 }
    ensures plan { IfOk result (IsPlan text.now) }
    ensures range { IfOk result IsPlanInRange }
    ensures fault { IfErr result (λ fault. fault.cause ≢ Memory → IsPlanFault text.now fault) }
{
    let mut draft = Draft::new(alloc);
    let mut rest = text;
    let mut count = 0u32;
    'lines: while !rest.is_empty() {
        let (line, after) = first_line(rest);
        count += 1;
        draft.add(count, line)?;
        rest = after;
    }
    finish(draft, count)
}

/// A text is one plan, or it has one first fault, and never both.
pub fn one_reading()
    ensures plans { (text : List ℕ) (a b : Plan) → IsPlan text a → IsPlan text b → a ≡ b }
    ensures faults { (text : List ℕ) (a b : PlanFault) → IsPlanFault text a → IsPlanFault text b → a ≡ b }
    ensures apart { (text : List ℕ) (plan : Plan) (fault : PlanFault) → IsPlan text plan → IsPlanFault text fault → ⊥ }
    ensures some { (text : List ℕ) → ((plan : Plan) × IsPlan text plan) ⊎ ((fault : PlanFault) × IsPlanFault text fault) }
{}
