// The opcodes of a tree.
use pi_base::Guid;

/// An opcode of a tree (PI 1.8, volume 1, "Dependency Expression Instruction Set").
#[derive(Clone, Copy, PartialEq, Eq)]
pub enum Opcode {
    /// Whether a GUID is installed.
    Push(Guid),
    /// Whether the two values pushed last hold.
    And,
    /// Whether one of the two values pushed last holds.
    Or,
    /// Whether the value pushed last does not hold.
    Not,
    /// A value that holds.
    True,
    /// A value that does not hold.
    False,
}
