// Laws of expressions and trees.
ghost use Rattle.std.specs.Prelude.{◌≡◌, ◌⊎◌, ℕ, List};
ghost use Rattle.pi_base.specs.declared.phase.Phase.{Phase};
ghost use Rattle.depex_code.specs.{declared.depex.Depex.Depex, Tree.DepexTree, Tree.postfix, Expression.Reads, Expression.IsMalformed};

/// Bytes have one outcome in a phase: one expression is read from them or they are malformed at one offset, and never both.
pub fn one_reading()
    ensures read { (phase : Phase) (bytes : List ℕ) (e f : Depex) → Reads phase bytes e → Reads phase bytes f → e ≡ f }
    ensures malformed { (phase : Phase) (bytes : List ℕ) (at to : ℕ) → IsMalformed phase bytes at → IsMalformed phase bytes to → at ≡ to }
    ensures apart { (phase : Phase) (bytes : List ℕ) (e : Depex) (at : ℕ) → Reads phase bytes e → IsMalformed phase bytes at → ⊥ }
    ensures some { (phase : Phase) (bytes : List ℕ) → ((e : Depex) × Reads phase bytes e) ⊎ ((at : ℕ) × IsMalformed phase bytes at) }
{}

/// No two trees have the same postfix opcodes, so `from_code` returns the tree that `code` was asked of.
pub fn one_tree()
    ensures { (node other : DepexTree) → postfix node ≡ postfix other → node ≡ other }
{}
