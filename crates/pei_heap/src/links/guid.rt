// GUIDs compared.
ghost use Rattle.std.specs.Prelude.{◌≡◌};
ghost use Rattle.pi_base.specs.Guids as G;

use pi_base::{Guid, little_endian, u64_at};

// The offset of the second eight bytes.
const SECOND_AT: usize = 8;

/// Whether two GUIDs are the same, compared as two numbers each.
pub fn same_guid(a: &Guid, b: &Guid) -> bool
    ensures { result ≡ G.same_guid a.now b.now }
{
    little_endian();
    let ours = a.0.as_slice();
    let others = b.0.as_slice();
    u64_at(ours, 0) == u64_at(others, 0) && u64_at(ours, SECOND_AT) == u64_at(others, SECOND_AT)
}
