// What no program of the repository calls.
use crate::{Missing, room};

// A room has as many places as are asked for, each holds what is given, and they are of any type that is copied.
#[test]
fn a_room_holds_what_it_is_given(rt: HostRuntime) {
    let bytes: [u8; 3] = room(7);
    assert_eq!(rt; bytes, [7, 7, 7]);
    let signed: [i64; 2] = room(-1);
    assert_eq!(rt; signed, [-1, -1]);
    let missing: [Missing; 2] = room(Missing::Anchors);
    assert_eq!(rt; missing, [Missing::Anchors, Missing::Anchors]);
    let none: [u32; 0] = room(1);
    assert!(rt; none.is_empty());
}
