// Dependency expressions.
ghost use Rattle.std.specs.Prelude.{◌≡◌, length};
ghost use Rattle.depex_code.specs.Expression.{instructions};

use crate::tree::Tree;
use pi_base::Guid;

/// A dependency expression (PI 1.8, volume 1, "Dependency Expressions"; BEFORE, AFTER and SOR are of volume 2).
#[derive(Drop)]
pub enum Depex {
    /// Directly before the driver of this file name.
    Before(Guid),
    /// Directly after the driver of this file name.
    After(Guid),
    /// Where the tree holds; with SOR only once it was requested.
    Expr { sor: bool, tree: Tree },
}

impl Depex {
    /// How many opcodes it has, SOR and END among them.
    pub fn opcode_count(&self) -> usize
        ensures { result ≡ length (instructions self.now) }
    {
        match self {
            Depex::Before(_) | Depex::After(_) => 2,
            Depex::Expr { sor, tree } => usize::from(*sor) + tree.code().len() + 1,
        }
    }
}
