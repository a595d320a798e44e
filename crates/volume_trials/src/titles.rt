// The lines of a catalogue, with the names of modules.
use crate::board::{Text, all_made};
use crate::catalogues::{ONE, catalog_of};
use explain_text::catalog::put_catalog;
use pi_base::Seq;
use std::alloc::Global;
use std::test::*;

/// A volume with three modules, and a nested one whose script makes descriptors: of a PPI, of a callback, of the PPI again, and of one whose GUID a register
/// has the address of. Names are UTF-16, each with a null: `A`, a space, U+00E9 and a backslash, and a letter after the null; `-` alone; and one whose null is
/// cut. The name of the module in the nested volume is after its script, and a second name counts for nothing.
static VOLUME: [Text; 1] = [(
    "volume 1024\nfile driver 00000000-0000-0000-0000-00000000000a\nsection 15 41002000e9005c0000004200\nsection 13 090608\nfile volume-image 00000000-0000-0000-0000-00000000000f\nvolume 200\nfile peim 00000000-0000-0000-0000-00000000000c\nraw 50494153010101000500080100000000000000000000000000000000000d00080201000000000000000000000000000000000e00080300000000000000000000000000000000000d000804000105001300\nui B\nsection 15 2d000000\nend\nfile peim 00000000-0000-0000-0000-00000000000b\nsection 1b ff\nsection 15 2d000000\nfile peim 00000000-0000-0000-0000-00000000000d\nraw 504941530101010002001101611300\nsection 15 410000\nend\n",
    "",
    0,
    "",
)];

static LINES: &str = "\
module 0 0 00000000-0000-0000-0000-00000000000a 07 A\\u0020\\u00e9\\u005c
expr 0 dxe sor true
module 1 0 00000000-0000-0000-0000-00000000000b 06 \\u002d
expr 1 pei malformed@0
module 2 0 00000000-0000-0000-0000-00000000000d 06 -
expr 2 pei -
module 3 1 00000000-0000-0000-0000-00000000000c 06 B
expr 3 pei -
gives 3 pei 00000000-0000-0000-0000-00000000000d
gives 3 pei any
";

// The lines of a volume's catalogue. None if it has none.
fn lines_of(alloc: Global, images: &[Seq<u8>]) -> Option<Seq<u8>> {
    let catalog = catalog_of(alloc, ONE, images).ok()?;
    if catalog.modules.len() > 4 {
        return None;
    }
    let mut lines = Seq::new(alloc);
    put_catalog(alloc, &mut lines, &catalog, images).ok()?;
    Some(lines)
}

#[test]
fn modules_are_told_with_their_names(rt: HostRuntime) {
    let images = all_made(&rt, rt.alloc(), &VOLUME);
    let lines = lines_of(rt.alloc(), images.as_slice());
    assert!(rt; matches!(&lines, Some(text) if text.as_slice() == LINES.as_bytes()));
}
