//! What a state says can be read from its image.
ghost use Rattle.store_laws.specs.Accessors.{CallbackIsTold, DispatchIsTold, HasIsTold, ImagesTellAll, ListsAreTold, NthIsTold, PendingIsTold, PpiIsTold};

use pi_base::little_endian;

/// What a state says is what the bytes of its image say, if its numbers fit.
pub fn lists_told()
    ensures lists { ListsAreTold }
    ensures ppi { PpiIsTold }
    ensures nth { NthIsTold }
    ensures has { HasIsTold }
    ensures callback { CallbackIsTold }
    ensures dispatch { DispatchIsTold }
    ensures pending { PendingIsTold }
    ensures all { ImagesTellAll }
{
    little_endian();
}
