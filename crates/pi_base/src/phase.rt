// The two phases of the boot.

/// A phase of the boot: Pre-EFI Initialization (PI 1.8, volume 1), then the Driver Execution Environment (volume 2).
#[derive(Clone, Copy, PartialEq, Eq)]
pub enum Phase {
    Pei,
    Dxe,
}
