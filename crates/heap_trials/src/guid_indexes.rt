// Entries by GUID: the next one from a place on, and the n-th.
use mem_store::guid_index::{GuidIndex, Indexed};
use pi_base::Guid;
use std::process::Abort;
use std::test::*;

fn guid(last: u8) -> Guid {
    let mut bytes = [0u8; 16];
    bytes[15] = last;
    Guid(bytes)
}

// Two GUIDs in turn, each entry at its place.
fn try_many(rt: &impl Abort, index: &mut GuidIndex) {
    for place in 0..4096u64 {
        let guid = guid((place % 2) as u8);
        assert!(rt; index.push(Indexed { guid, at: place }));
    }
    assert!(rt; index.next(&guid(1), 4000) == Some(4001));
    assert!(rt; matches!(index.nth(&guid(0), 2047), Some(entry) if entry.at == 4094));
}

#[test]
fn two_guids_in_turn_are_found(rt: HostRuntime) {
    let mut index = GuidIndex::new(rt.alloc(), 4096).expect(&rt, "ample memory");
    try_many(&rt, &mut index);
    drop(index);
}

// The places of each entry of one GUID become those of another, the first ones last.
fn try_another_guid(rt: &impl Abort, index: &mut GuidIndex) {
    for back in 1..=2048u32 {
        let place = 4096 - 2 * back;
        let entry = Indexed {
            guid: guid(2),
            at: place as u64,
        };
        assert!(rt; (place as usize) < index.len() && index.replace(place, entry));
    }
    assert!(rt; index.count(&guid(0)) == 0 && index.count(&guid(2)) == 2048);
    assert!(rt; index.next(&guid(2), 3) == Some(4));
    assert!(rt; index.next(&guid(1), 4000) == Some(4001));
    assert!(rt; matches!(index.nth(&guid(2), 2047), Some(entry) if entry.at == 4094));
}

#[test]
fn entries_pass_to_another_guid(rt: HostRuntime) {
    let mut index = GuidIndex::new(rt.alloc(), 1).expect(&rt, "ample memory");
    try_many(&rt, &mut index);
    try_another_guid(&rt, &mut index);
    drop(index);
}
