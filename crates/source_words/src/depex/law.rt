// The laws of expressions.
ghost use Rattle.std.specs.Prelude.{◌≡◌, ℕ, List, None};
ghost use Rattle.pi_base.specs.declared.phase.Phase.{Phase};
ghost use Rattle.depex_code.specs.declared.depex.Depex.{Depex};
ghost use Rattle.source_words.specs.{Tokens.tokens, Cause.expression_cause, Expression.AreOf, Expression.Says};
ghost use Rattle.asm_text.specs.{ExpressionText.expression_text, ReadTree.IsExpression};

/// A text says one expression.
pub fn one_expression()
    ensures { (phase : Phase) (text : List ℕ) (a b : Depex) → Says phase text a → Says phase text b → a ≡ b }
{}

/// A text says an expression exactly where nothing is wrong with its words.
pub fn no_cause()
    ensures some { (phase : Phase) (text : List ℕ) → expression_cause phase (tokens text) ≡ None
        → (expression : Depex) × Says phase text expression }
    ensures none { (phase : Phase) (text : List ℕ) (expression : Depex) → Says phase text expression
        → expression_cause phase (tokens text) ≡ None }
{}

/// The words that `asm_text` prints of an expression are its.
pub fn printed_expressions()
    ensures { (expression : Depex) → IsExpression expression → AreOf (tokens (expression_text expression)) expression }
{}
