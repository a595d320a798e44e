// Texts that repeat a part: volumes as a person writes them, and what a boot prints.

/// A text: its head, then a turn so many times, then its tail.
#[derive(Clone, Copy)]
pub(super) struct Text<'a> {
    pub(super) head: &'a [u8],
    pub(super) turn: &'a [u8],
    pub(super) turns: usize,
    pub(super) tail: &'a [u8],
}

/// An empty text.
pub(super) const NOTHING: Text<'static> = Text {
    head: &[],
    turn: &[],
    turns: 0,
    tail: &[],
};

/// The lines of a PEIM that reports memory, installs the DXE IPL PPI, and reports the volume in a HOB.
pub(super) const HAND_OFF: &[u8] = b"file peim 00000000-0000-0000-0000-00000000000f
script pei
block
set r0 0x40000000
set r1 0x100000
memory r0 r1
set r2 0x0
desc r3 ppi 0ae8ce5d-e448-4437-a8d7-ebf5f194f731 r2
install r3
hob 5 0000f0ff000000000010000000000000
ret Success
end
";
