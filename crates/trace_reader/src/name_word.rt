// Words of GUIDs, and of ranks and names that may be absent.
ghost use Rattle.std.specs.Prelude.{◌≡◌, Decides};
ghost use Rattle.pi_base.specs.WordText.{guid_text};
ghost use Rattle.boot_model.specs.Text.{dash, name_text, rank_text};
ghost use Rattle.line_words.specs.PrintedWords.{IsGuid};
ghost use Rattle.trace_reader.specs.Readable.{IsName, IsRank};

use crate::field::Field;
use boot_trace::marks::DASH;
use line_words::printed::guid_of;
use pi_base::Guid;

impl Field for Guid {
    ghost use Rattle.pi_base.specs.WordText.{guid_text};
    ghost use Rattle.line_words.specs.PrintedWords.{IsGuid};

    ghost shows = { guid_text };

    ghost fits = { IsGuid };

    fn read(word: &[u8]) -> Option<Guid> {
        guid_of(word)
    }
}

// Whether nothing is in a place.
pub(crate) fn is_dash(word: &[u8]) -> bool
    ensures { Decides result (word.now ≡ dash) }
{
    word == DASH
}

impl Field for Option<u32> {
    ghost use Rattle.boot_model.specs.Text.{rank_text};
    ghost use Rattle.trace_reader.specs.Readable.{IsRank};

    ghost shows = { rank_text };

    ghost fits = { IsRank };

    #[tactic(auto, using(crate::proofs::PlainWords::rank_plain))]
    fn read(word: &[u8]) -> Option<Option<u32>> {
        if is_dash(word) {
            return Some(None);
        }
        match u32::read(word) {
            Some(rank) => Some(Some(rank)),
            None => None,
        }
    }
}

impl Field for Option<Guid> {
    ghost use Rattle.boot_model.specs.Text.{name_text};
    ghost use Rattle.trace_reader.specs.Readable.{IsName};

    ghost shows = { name_text };

    ghost fits = { IsName };

    #[tactic(auto, using(crate::proofs::PlainWords::name_plain))]
    fn read(word: &[u8]) -> Option<Option<Guid>> {
        if is_dash(word) {
            return Some(None);
        }
        match Guid::read(word) {
            Some(name) => Some(Some(name)),
            None => None,
        }
    }
}
