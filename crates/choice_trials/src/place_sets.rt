// Sets of places.
use std::process::Abort;
use std::test::*;
use wait_index::PlaceSet;

fn try_places(rt: &impl Abort, set: &mut PlaceSet) {
    set.insert(4095);
    set.put(100, true);
    set.put(5, true);
    set.remove(5);
    assert!(rt; (set.contains(4095), set.contains(5)) == (true, false));
    assert!(rt; [set.first_from(0), set.first_from(101)] == [Some(100), Some(4095)]);
}

#[test]
fn the_first_place_is_found_from_each_cursor(rt: HostRuntime) {
    let mut set = PlaceSet::new(rt.alloc()).expect(&rt, "ample memory");
    try_places(&rt, &mut set);
    drop(set);
}
