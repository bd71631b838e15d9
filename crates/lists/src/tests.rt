//! Lists of at most 255 entries, called as another crate calls them. Where their parameters lie is counted from the tables of the rules.

use crate::any::{AnyBlock, AnyEntries, AnyLocated, AnyNamed};
use crate::{Block, Caller, Entries, Entry, Located, Named, Purpose};
use faults::{Fault, Refusal};
use points::{Count, Logical, Parameter, Spot};

const LEVEL_0: Caller = Caller::Request { level: 0 };

#[test]
fn named(rt: HostRuntime) {
    let list = Named { count: Count(2) };
    assert_eq!(rt; Entries::count(&list), 2);
    assert_eq!(rt; Entries::step(&list), 3);
    assert_eq!(rt; Entries::locked_place(&list, 7), 7);
    let bytes = [97, 1, 0, 99, 16, 0];
    let tag = Entry {
        spot: Spot {
            row: 0,
            begin: 100,
            len: 10,
        },
        logical: Logical(1),
    };
    assert_eq!(rt;
        Entries::entry(&list, LEVEL_0, Purpose::Read, 0, &bytes, 0),
        Ok(tag)
    );
    let no_table = Fault {
        refusal: Refusal::NoLogical,
        place: 4,
    };
    assert_eq!(rt;
        Entries::entry(&list, LEVEL_0, Purpose::Read, 1, &bytes, 3),
        Err(no_table)
    );
    assert_eq!(rt; AnyNamed::from(list).count, 2);
}

#[test]
#[tactic(auto, unfolding(points::specs::Types::logicals, points::specs::Types::gateway, points::specs::Types::point, points::specs::Types::points, points::specs::Rows::rows99))]
fn block(rt: HostRuntime) {
    let list = Block {
        index: 2,
        logical: Logical(3),
        start: Parameter(1),
        count: Count(44),
    };
    assert_eq!(rt; Entries::count(&list), 44);
    assert_eq!(rt; Entries::step(&list), 0);
    assert_eq!(rt; Entries::locked_place(&list, 7), 7);
    let last = Entry {
        spot: Spot {
            row: 116,
            begin: 9813,
            len: 3,
        },
        logical: Logical(3),
    };
    assert_eq!(rt;
        Entries::entry(&list, LEVEL_0, Purpose::Write, 43, &[], 0),
        Ok(last)
    );
    let any = AnyBlock::from(list);
    assert_eq!(rt; any.index, 2);
    assert_eq!(rt; any.logical, Logical(3));
    assert_eq!(rt; any.start, Parameter(1));
    assert_eq!(rt; any.count, Count(44));
}

#[test]
fn located(rt: HostRuntime) {
    let list = Located {
        locations: &[97, 0, 0, 124, 0, 1],
    };
    assert_eq!(rt; Entries::count(&list), 2);
    assert_eq!(rt; Entries::step(&list), 0);
    assert_eq!(rt; Entries::locked_place(&list, 7), 1);
    let size = Entry {
        spot: Spot {
            row: 162,
            begin: 11982,
            len: 2,
        },
        logical: Logical(0),
    };
    assert_eq!(rt;
        Entries::entry(&list, LEVEL_0, Purpose::Read, 1, &[], 0),
        Ok(size)
    );
    let too_low = Fault {
        refusal: Refusal::LevelTooLow,
        place: 1,
    };
    assert_eq!(rt;
        Entries::entry(&list, LEVEL_0, Purpose::Write, 1, &[], 0),
        Err(too_low)
    );
    assert_eq!(rt;
        AnyLocated::from(list).locations,
        [97, 0, 0, 124, 0, 1].as_slice()
    );
}

#[test]
fn any(rt: HostRuntime) {
    let list = Named { count: Count(255) };
    assert_eq!(rt; AnyEntries::count(&list), 255);
    assert_eq!(rt; AnyEntries::step(&list), 3);
    assert_eq!(rt; AnyEntries::locked_place(&list, 7), 7);
    let short = Fault {
        refusal: Refusal::Length,
        place: 2,
    };
    assert_eq!(rt;
        AnyEntries::entry(&list, LEVEL_0, Purpose::Read, 254, &[97, 0], 0),
        Err(short)
    );
}
