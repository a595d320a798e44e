// Modules that wait, one behind the other.
ghost use Rattle.std.specs.Prelude.{◌≡◌, ◌++◌, OnOk, option_to_list};

use explain_text::Held;
use pi_base::{OutOfMemory, Seq};

/// One more, if there is one.
pub(crate) fn push_held(held: &mut Seq<Held>, one: Option<Held>) -> Result<(), OutOfMemory>
    ensures { OnOk result (held.new ≡ held.old ++ option_to_list one) }
{
    match one {
        Some(one) => held.push(one),
        None => Ok(()),
    }
}
