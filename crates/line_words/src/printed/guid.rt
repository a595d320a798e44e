// Words of GUIDs.
ghost use Rattle.std.specs.Prelude.{◌≡◌};
ghost use Rattle.pi_base.specs.WordText.{guid_text};
ghost use Rattle.line_words.specs.PrintedWords.{Finds, IsGuid};

use pi_base::Guid;

/// The GUID that a word prints in lower case. None if the word is not the print of a GUID.
pub fn guid_of(word: &[u8]) -> Option<Guid>
    ensures { Finds (λ guid. IsGuid guid × (word.now ≡ guid_text guid)) result }
{
    let Some(guid) = Guid::from_text(word) else {
        return None;
    };
    if guid.to_text().as_slice() == word {
        Some(guid)
    } else {
        None
    }
}
