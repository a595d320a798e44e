// Maps by GUID.
use pi_base::{Guid, GuidMap};
use std::process::Abort;
use std::test::*;

fn guid(first: u8, last: u8) -> Guid {
    let mut bytes = [0u8; 16];
    bytes[0] = first;
    bytes[15] = last;
    Guid(bytes)
}

fn try_many(rt: &impl Abort, map: &mut GuidMap<u32>) {
    for n in 0..4096u32 {
        assert!(rt;
            map.insert(guid((n % 256) as u8, (n / 256) as u8), n)
                .is_ok()
        );
    }
    let last = [map.get(&guid(0xff, 0x0f)), map.get(&guid(0, 0x10))];
    assert!(rt; last == [Some(4095), None]);
}

#[test]
fn four_thousand_guids_have_room(rt: HostRuntime) {
    let mut map: GuidMap<u32> = GuidMap::new(rt.alloc());
    try_many(&rt, &mut map);
    drop(map);
}
