//! The HOB list as a walk over the heap's bytes.
ghost use Rattle.store_laws.specs.HobWalk.{WalksGiveHobs};

use hob_codec::one_walk;
use pi_base::little_endian;

/// The walk over the bytes of a state's heap gives exactly the HOBs of the state, the hand-off HOB first and the end HOB last. Each is read with its type,
/// length and body.
pub fn walks_give_hobs()
    ensures { WalksGiveHobs }
{
    little_endian();
    one_walk();
}
