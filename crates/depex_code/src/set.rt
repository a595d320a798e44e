// Sets of GUIDs.
ghost use Rattle.std.specs.Prelude.{◌≡◌, Bool};

use pi_base::Guid;

/// The GUIDs that are installed, as a test.
pub trait GuidSet {
    ghost use Rattle.pi_base.specs.declared.guid.Guid.{Guid};

    /// Whether a GUID is in the set.
    ghost has_guid: { Self → Guid → Bool };

    /// Whether the set is well formed, so that it may be asked.
    ghost in_order: { Self → Type 0 };

    /// Whether a GUID is in the set.
    fn has(&self, guid: &Guid) -> bool
        requires { in_order self.now }
        ensures { result ≡ has_guid self.now guid.now };
}
