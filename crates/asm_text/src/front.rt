// What is at the front of a text.
ghost use Rattle.std.specs.Prelude.{◌≡◌, ◌+◌, ◌<◌, length, option_map, IfSome};
ghost use Rattle.asm_text.specs.Front.{behind, guid_word, guid_front};

use line_words::printed::guid_of;
use pi_base::Guid;

/// The length of a GUID's text.
const GUID_TEXT_LEN: usize = 36;

// What follows a front of the text. None if the text does not begin so.
pub(crate) fn behind<'a>(text: &'a [u8], front: &[u8]) -> Option<&'a [u8]>
    ensures found { option_map (λ rest. rest.now) result ≡ behind front.now text.now }
    ensures shorter { IfSome result (λ rest. length rest.now + length front.now ≡ length text.now) }
{
    line_words::printed::behind(text, front)
}

// The GUID whose text the word is.
pub(crate) fn guid_word(word: &[u8]) -> Option<Guid>
    ensures { result ≡ guid_word word.now }
{
    guid_of(word)
}

// The GUID whose text is at the front, and what follows it.
#[tactic(auto, unfolding(crate::specs::Front::guid_front))]
pub(crate) fn guid_front(text: &[u8]) -> Option<(Guid, &[u8])>
    ensures found { option_map (λ x. (x.0, x.1.now)) result ≡ guid_front text.now }
    ensures shorter { IfSome result (λ x. length x.1.now < length text.now) }
{
    if text.len() < GUID_TEXT_LEN {
        return None;
    }
    let (word, rest) = text.split_at(GUID_TEXT_LEN);
    let Some(guid) = guid_word(word) else {
        return None;
    };
    Some((guid, rest))
}
