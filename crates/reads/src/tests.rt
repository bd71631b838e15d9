//! Lists of at most 255 entries, as another crate has them checked and told.

use crate::{Readable, check, tell};
use lists::{Caller, Located, Named};
use points::Count;

const LEVEL_0: Caller = Caller::Request { level: 0 };

#[test]
#[tactic(auto, unfolding(base::specs::Check::checks))]
fn named(rt: HostRuntime) {
    let mut store = [7; store::LENGTH];
    store[100] = 1;
    store[109] = 2;
    let list = Named { count: Count(1) };
    let bytes = [1, 97, 1, 0];
    assert_eq!(rt; Readable::opening_size(&list, &bytes), 1);
    let mut reply = [0; frame::LONGEST];
    Readable::begin(&list, &bytes, &store, &mut reply);
    assert_eq!(rt; &reply[5..8], [0, 1, 0].as_slice());
    let size = check(&list, LEVEL_0, &bytes, 1).expect(&rt, "a register's tag is read");
    assert_eq!(rt; size, 14);
    let mut reply = [0; frame::LONGEST];
    tell(&list, LEVEL_0, &bytes, 1, &store, &mut reply);
    assert_eq!(rt;
        &reply[5..21],
        [0, 1, 97, 1, 0, 1, 7, 7, 7, 7, 7, 7, 7, 7, 2, 0].as_slice()
    );
}

#[test]
#[tactic(auto, unfolding(base::specs::Check::checks, points::specs::Types::logicals, points::specs::Types::gateway))]
fn located(rt: HostRuntime) {
    let mut store = [7; store::LENGTH];
    store[9680] = 3;
    store[11982] = 4;
    let list = Located {
        locations: &[124, 0, 1],
    };
    let bytes = [3, 1, 1];
    assert_eq!(rt; Readable::opening_size(&list, &bytes), 7);
    let size = check(&list, LEVEL_0, &bytes, 3).expect(&rt, "a segment's size is read");
    assert_eq!(rt; size, 9);
    let mut reply = [0; frame::LONGEST];
    Readable::begin(&list, &bytes, &store, &mut reply);
    assert_eq!(rt; &reply[5..14], [0, 3, 1, 1, 3, 7, 7, 7, 0].as_slice());
    let mut reply = [0; frame::LONGEST];
    tell(&list, LEVEL_0, &bytes, 3, &store, &mut reply);
    assert_eq!(rt; &reply[5..16], [0, 3, 1, 1, 3, 7, 7, 7, 4, 7, 0].as_slice());
}
