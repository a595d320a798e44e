// What holds of every list of events, and of every text.
ghost use Rattle.std.specs.Prelude.{◌≡◌, ◌⊎◌, ℕ, List, length};
ghost use Rattle.mp_core.specs.{declared.event.MpEvent.MpEvent, declared.file.MpFile.MpFile, FileText.IsMpFile, FileText.IsFirstBad};
ghost use Rattle.mp_core.specs.{OneAfterAnother.CompletesInOrder, OneAfterAnother.IdlesInOrder, OutcomeText.calls, Past.replies};

/// At any moment, what is done followed by what is still to come is the jobs one after another. If no processor is busy, all of it is done.
pub fn jobs_in_order()
    ensures any_moment { CompletesInOrder }
    ensures idle { IdlesInOrder }
{}

/// A text is one MP file, or it has one first bad line, and never both.
pub fn one_reading()
    ensures files { (text : List ℕ) (a b : MpFile) → IsMpFile text a → IsMpFile text b → a ≡ b }
    ensures lines { (text : List ℕ) (a b : ℕ) → IsFirstBad text a → IsFirstBad text b → a ≡ b }
    ensures apart { (text : List ℕ) (file : MpFile) (line : ℕ) → IsMpFile text file → IsFirstBad text line → ⊥ }
    ensures some { (text : List ℕ) → ((file : MpFile) × IsMpFile text file) ⊎ ((line : ℕ) × IsFirstBad text line) }
{}

/// Each call has a reply in the machine's answers, so its line is printed.
pub fn each_call_is_answered()
    ensures { (processors : ℕ) (events : List MpEvent) → length (replies processors events) ≡ length (calls events) }
{}
