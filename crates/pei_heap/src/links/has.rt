// Whether a PPI is installed, by the bytes alone.
ghost use Rattle.pei_heap.specs.Has.{LinksHave};

use store_laws::heap::{lists_told, memory_read};

/// Whether memory has a PPI of a GUID is what each state with this image says.
pub fn links_told()
    ensures { LinksHave }
{
    lists_told();
    memory_read();
}
