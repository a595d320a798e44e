// GUIDs and their texts.
use pi_base::Guid;
use std::test::*;

/// The file system GUID of FFS2, as PI 1.8, volume 3, prints and stores it.
const FFS2: Guid = Guid(*b"\x78\xe5\x8c\x8c\x3d\x8a\x1c\x4f\x99\x35\x89\x61\x85\xc3\x2d\xd3");

/// Texts, and the GUID that each is.
static GUIDS: [(&[u8], Option<Guid>); 4] = [
    (b"8c8ce578-8a3d-4f1c-9935-896185c32dd3", Some(FFS2)),
    (b"8C8CE578-8A3D-4F1C-9935-896185C32DD3", Some(FFS2)),
    (b"{8c8ce578-8a3d-4f1c-9935-896185c32dd3}", None),
    (b"8c8ce5788a3d4f1c9935896185c32dd3", None),
];

#[test]
fn guids_have_the_usual_text(rt: HostRuntime) {
    for (text, guid) in &GUIDS {
        assert!(rt; Guid::from_text(text) == *guid);
    }
}
