//! Which numbers of a set are next, which is the last, and which are absent.

use small_set::SmallSet;

/// Numbers, and what follows each, from it on, in the set of 3, 63, 64 and 998.
static NEXT: [(u16, Option<u16>); 7] = [
    (0, Some(3)),
    (3, Some(3)),
    (4, Some(63)),
    (64, Some(64)),
    (65, Some(998)),
    (999, None),
    (63, Some(63)),
];

/// The set of 3, 63, 64 and 998.
fn four_numbers() -> SmallSet {
    let mut set = SmallSet::new();
    for number in [998, 64, 63, 3] {
        set.insert(number);
    }
    set
}

#[test]
fn the_next_number_is_the_least_from_one_on(rt: HostRuntime) {
    let set = four_numbers();
    for (from, next) in &NEXT {
        assert!(rt; set.next(*from) == *next, "from {from}");
    }
}

/// What follows 64 where it is removed, and 0 in a set that is cleared and in a new one.
fn next_of_fewer() -> [Option<u16>; 3] {
    let mut set = four_numbers();
    set.remove(64);
    let removed = set.next(64);
    set.clear();
    [removed, set.next(0), SmallSet::new().next(0)]
}

#[test]
fn no_number_follows_once_it_is_removed(rt: HostRuntime) {
    assert_eq!(rt; next_of_fewer(), [Some(998), None, None]);
}

/// The least absent number of none, of 0 to 199, and once 130 is removed.
fn least_absent() -> [u16; 3] {
    let mut set = SmallSet::new();
    let of_none = set.least_absent();
    for number in 0..200 {
        set.insert(number);
    }
    let of_all = set.least_absent();
    set.remove(130);
    [of_none, of_all, set.least_absent()]
}

#[test]
fn the_least_absent_number_follows_those_that_are_there(rt: HostRuntime) {
    assert_eq!(rt; least_absent(), [0, 200, 130]);
}

/// Numbers that are inserted one after another, with the last of the set then.
static LAST: [(u16, Option<u16>); 3] = [(3, Some(3)), (998, Some(998)), (64, Some(998))];

#[test]
fn the_last_number_is_the_greatest(rt: HostRuntime) {
    let mut set = SmallSet::new();
    for (number, last) in &LAST {
        set.insert(*number);
        assert!(rt; set.last() == *last, "after {number}");
    }
    set.remove(998);
    assert_eq!(rt; [SmallSet::new().last(), set.last()], [None, Some(64)]);
}
