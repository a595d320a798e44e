//! What the other services change.
ghost use Rattle.store_laws.specs.Changes.{BootModesAreWritten, PairsArePopped, PoolsAreWritten, PpisAreRenamed};

/// Each of the other services changes one run of bytes at one place.
pub fn bodies_changed()
    ensures popped { PairsArePopped }
    ensures renamed { PpisAreRenamed }
    ensures pool { PoolsAreWritten }
    ensures boot_mode { BootModesAreWritten }
{}
