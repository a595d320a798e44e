//! The choice of the module that starts next if several may, and whether a module that is about to start is allowed to. A caller hands it in.
ghost use Rattle.std.specs.Prelude.{◌≡◌};
ghost use Rattle.boot_laws.specs.Naming.{Rules};

/// What a choice is told before a start, besides the sink.
#[derive(Clone, Copy)]
pub struct Before {
    /// How many starts there were earlier in the boot, second ones included; of PEI's it counts at most 2^32 - 1.
    pub starts: u64,
    /// The module whose turn it is in the order of EDK2's dispatchers. None where it is nobody's, or the choice does not want to know.
    pub turn: Option<u32>,
}

/// Chooses the module that starts next if several may; PI 1.8, volumes 1 and 2, leave this to the dispatchers. `S` is the sink to which the boot writes its
/// lines; the choice may look at it.
pub trait Choice<S> {
    /// Which modules it may name, and which starts it allows.
    ghost rules: { Self → Rules S };

    /// Whether it wants to know whose turn it is in the order of EDK2's dispatchers.
    fn wants_turn(&self) -> bool
        ensures { result ≡ (rules self.now).wants_turn };

    /// The module that is to start next in PEI, if it may. None if the choice names no module.
    fn peim(&self, sink: &S, before: Before) -> Option<u32>
        ensures { (rules self.now).peims sink.now before result };

    /// The module that is to start next in DXE, if it may. None if the choice names no module.
    fn driver(&self, sink: &S, before: Before) -> Option<u32>
        ensures { (rules self.now).drivers sink.now before result };

    /// Whether this module, which is about to start in PEI, is allowed to. If not, the boot is left before the start.
    fn lets_peim(&self, before: Before, number: u32) -> bool
        ensures { result ≡ (rules self.now).lets_in_pei before number };

    /// Whether this driver, which is about to start in DXE, is allowed to, also if it comes with the driver that it names. If not, the boot is left before the
    /// start.
    fn lets_driver(&self, before: Before, number: u32) -> bool
        ensures { result ≡ (rules self.now).lets_in_dxe before number };
}

/// How far a phase came: to its end, or to the start of a module that the choice does not allow.
#[derive(Clone, Copy, Debug)]
pub enum Reached<E> {
    /// Its end.
    End(E),
    /// The module with this number is not allowed to start, and has not started.
    Barred(u32),
}

/// The choice of the machine itself: it names no module, so the first eligible one in the order of the phase starts, and it allows each.
#[derive(Clone, Copy)]
pub struct FirstEligible;

impl<S> Choice<S> for FirstEligible {
    ghost use Rattle.boot_laws.specs.Naming.{first_eligible_rules};

    ghost rules = { λ choice. first_eligible_rules };

    fn wants_turn(&self) -> bool {
        false
    }

    fn peim(&self, _sink: &S, _before: Before) -> Option<u32> {
        None
    }

    fn driver(&self, _sink: &S, _before: Before) -> Option<u32> {
        None
    }

    fn lets_peim(&self, _before: Before, _number: u32) -> bool {
        true
    }

    fn lets_driver(&self, _before: Before, _number: u32) -> bool {
        true
    }
}
