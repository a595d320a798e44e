// What a text of a trace can be read as.
ghost use Rattle.std.specs.Prelude.{◌≡◌, ℕ, List};
ghost use Rattle.boot_model.specs.{declared.line.Line.Line, Text.line_text};
ghost use Rattle.trace_reader.specs.{Readable.IsReadable, Trace.IsTrace, Trace.IsBadLine};

/// Two readable lines have different texts. A text is one list of readable lines, or it has one first bad line, and never both.
pub fn one_reading()
    ensures lines { (a b : Line) → IsReadable a → IsReadable b → line_text a ≡ line_text b → a ≡ b }
    ensures traces { (text : List ℕ) (a b : List Line) → IsTrace text a → IsTrace text b → a ≡ b }
    ensures bad { (text : List ℕ) (m n : ℕ) → IsBadLine text m → IsBadLine text n → m ≡ n }
    ensures apart { (text : List ℕ) (lines : List Line) (n : ℕ) → IsTrace text lines → IsBadLine text n → ⊥ }
{}
