//! The heap in memory.
ghost use Rattle.store_laws.specs.{Descriptors.VolumesAreApart, Mapped.FirstMemories, Mapped.HeapsAreRead, Peeking.MemoryIsRead};

/// What memory reads if its heap is known.
pub fn memory_read()
    ensures first { FirstMemories }
    ensures heap { HeapsAreRead }
    ensures peek { MemoryIsRead }
    ensures apart { VolumesAreApart }
{}
