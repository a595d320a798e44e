// The laws of printed words.
ghost use Rattle.std.specs.Prelude.{◌≡◌, ◌<◌, ◌^◌, ℕ, decimal, Some};
ghost use Rattle.line_words.specs.{Number.number_of, PrintedWords.IsGuid};
ghost use Rattle.pi_base.specs.{declared.guid.Guid.Guid, WordText.guid_text, WordText.hexadecimal};
ghost use Rattle.source_words.specs.GuidWord.{guid_of};

/// What is printed of a number or a GUID is read as it.
pub fn values()
    ensures decimal { (n : ℕ) → n < 2 ^ 64 → number_of (decimal n) ≡ Some n }
    ensures hexadecimal { (n : ℕ) → n < 2 ^ 64 → number_of (hexadecimal n) ≡ Some n }
    ensures guid { (guid : Guid) → IsGuid guid → guid_of (guid_text guid) ≡ Some guid }
{}
