// The laws of texts.
ghost use Rattle.std.specs.Prelude.{◌≡◌, ℕ, List};
ghost use Rattle.depex_code.specs.declared.depex.Depex.{Depex};
ghost use Rattle.act_code.specs.{declared.script.Script.Script, Script.IsScript};
ghost use Rattle.hex.specs.Hex.{IsBytes};
ghost use Rattle.asm_text.specs.{BadLine.IsBadLine, ExpressionText.depex_text, ScriptText.script_text, ReadTree.IsExpression};
ghost use Rattle.asm_text.specs.{ReadDepex.IsDepexText, ReadScript.IsWellFormed, ReadScript.IsScriptText};

/// A text is that of at most one expression, so `parse_depex` returns what `print_depex` printed.
pub fn one_expression()
    ensures { (depex other : Depex) → IsExpression depex → IsExpression other → depex_text depex ≡ depex_text other → depex ≡ other }
{}

/// A text is that of at most one script, so `parse_script` returns what `print_script` printed.
pub fn one_script()
    ensures { (script other : Script) → IsWellFormed script → IsWellFormed other → script_text script ≡ script_text other → script ≡ other }
{}

/// Every script that bytes spell can be printed as a text.
pub fn scripts_of_bytes()
    ensures { (bytes : List ℕ) (script : Script) → IsBytes bytes → IsScript bytes script → IsWellFormed script }
{}

/// A text goes wrong at one line only, as an expression and as a script.
pub fn one_bad_line()
    ensures expressions { (text : List ℕ) (m n : ℕ) → IsBadLine IsDepexText text m → IsBadLine IsDepexText text n → m ≡ n }
    ensures scripts { (text : List ℕ) (m n : ℕ) → IsBadLine IsScriptText text m → IsBadLine IsScriptText text n → m ≡ n }
{}
