// GUIDs as people write them.
ghost use Rattle.std.specs.Prelude.{◌≡◌};
ghost use Rattle.source_words.specs.GuidWord.{unbraced, guid_spelled, guid_of};

use fv_volume::volume_header::{FFS2, FFS3};
use pi_base::{DXE_IPL_PPI, Guid, MEMORY_PPI, VOLUME_INFO_PPI};

/// The name of the PEI a priori file, 1b45cc0a-156a-428a-af62-49864da0e6e6 (PI 1.8, volume 1).
const PEI_APRIORI: Guid = Guid([
    0x0a, 0xcc, 0x45, 0x1b, 0x6a, 0x15, 0x8a, 0x42, 0xaf, 0x62, 0x49, 0x86, 0x4d, 0xa0, 0xe6, 0xe6,
]);

/// The name of the DXE a priori file, fc510ee7-ffdc-11d4-bd41-0080c73c8881 (PI 1.8, volume 2).
const DXE_APRIORI: Guid = Guid([
    0xe7, 0x0e, 0x51, 0xfc, 0xdc, 0xff, 0xd4, 0x11, 0xbd, 0x41, 0x00, 0x80, 0xc7, 0x3c, 0x88, 0x81,
]);

// The word without the braces round it.
fn unbraced(word: &[u8]) -> &[u8]
    ensures { result.now ≡ unbraced word.now }
{
    match word {
        [b'{', inner @ .., b'}'] => inner,
        whole => whole,
    }
}

// The GUID whose text a word is.
fn guid_spelled(word: &[u8]) -> Option<Guid>
    ensures { result ≡ guid_spelled word.now }
{
    Guid::from_text(unbraced(word))
}

/// The GUID that a word names or spells: its usual text in either case, in braces or not, or one of seven names.
#[tactic(auto, unfolding(crate::specs::GuidWord::guid_of))]
pub fn guid_of(word: &[u8]) -> Option<Guid>
    ensures { result ≡ guid_of word.now }
{
    if word == b"pei-apriori".as_slice() {
        Some(PEI_APRIORI)
    } else if word == b"dxe-apriori".as_slice() {
        Some(DXE_APRIORI)
    } else if word == b"volume-info-ppi".as_slice() {
        Some(VOLUME_INFO_PPI)
    } else if word == b"memory-ppi".as_slice() {
        Some(MEMORY_PPI)
    } else if word == b"dxe-ipl-ppi".as_slice() {
        Some(DXE_IPL_PPI)
    } else if word == b"ffs2".as_slice() {
        Some(Guid(FFS2))
    } else if word == b"ffs3".as_slice() {
        Some(Guid(FFS3))
    } else {
        guid_spelled(word)
    }
}
