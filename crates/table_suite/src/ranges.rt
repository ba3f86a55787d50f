use crate::checks::check_equal;
use late_rows::CopyFrom;
use lwc_base::{Name, Right};
use range_map::{Change, RangeMap, SegmentKind, TooManyRanges};
use std::process::Abort;

/// The change of the pages from one up to and without another, with the right Write.
fn change(from: u16, to: u16, kind: Option<SegmentKind>) -> Change {
    Change {
        from,
        to,
        kind,
        right: Right::Write,
    }
}

/// The kind of a page that is the context's own.
const OWN: Option<SegmentKind> = Some(SegmentKind::Own);

/// The kind of a page that is common with one group.
const ONE: Option<SegmentKind> = Some(SegmentKind::Common(Name { job: 1, k: 0 }));

/// The kind of a page that is common with another group.
const OTHER: Option<SegmentKind> = Some(SegmentKind::Common(Name { job: 1, k: 1 }));

/// Makes two changes: the number of ranges that was foretold, whether there were few enough, and the numbers of ranges
/// of the map and of what it was before, once that is made the same.
fn replaced(map: &mut RangeMap, changes: &[Change; 2]) -> (u32, bool, [u32; 2]) {
    let mut copied = RangeMap::empty();
    copied.copy_from(map);
    let foretold = map.count_after(changes);
    let is_replaced = map.replace(changes).is_ok();
    copied.copy_from(map);
    (foretold, is_replaced, [map.count(), copied.count()])
}

/// Makes two changes, and stops unless there are so many ranges then, and pages 3, 4 and 1023 are of these kinds.
fn check(
    rt: &impl Abort,
    map: &mut RangeMap,
    changes: [Change; 2],
    ranges: u32,
    kinds: [Option<SegmentKind>; 3],
) {
    let counts = replaced(map, &changes);
    let seen = [map.kind_at(3), map.kind_at(4), map.kind_at(1023)];
    check_equal(rt, counts, (ranges, true, [ranges, ranges]));
    check_equal(rt, (map.segments().len(), seen), (ranges as usize, kinds));
}

#[test]
fn ranges_are_runs_of_pages_of_one_kind(rt: HostRuntime) {
    let mut map = RangeMap::empty();
    let first = [change(0, 4, OWN), change(4, 8, ONE)];
    check(&rt, &mut map, first, 2, [OWN, ONE, None]);
    let apart = [change(8, 12, OTHER), change(1023, 1024, ONE)];
    check(&rt, &mut map, apart, 4, [OWN, ONE, ONE]);
    let within = [change(3, 3, None), change(6, 10, None)];
    check(&rt, &mut map, within, 4, [OWN, ONE, ONE]);
    let joined = [change(4, 5, None), change(5, 10, OTHER)];
    check(&rt, &mut map, joined, 3, [OWN, None, ONE]);
    let over = [change(3, 5, OTHER), change(20, 21, OWN)];
    check(&rt, &mut map, over, 4, [OTHER, OTHER, ONE]);
    let all = [change(0, 21, OWN), change(21, 1024, OWN)];
    check(&rt, &mut map, all, 1, [OWN, OWN, OWN]);
    let none = [change(0, 4, None), change(4, 1024, None)];
    check(&rt, &mut map, none, 0, [None, None, None]);
}

/// Every second page of the first 128, as the context's own.
fn every_second_page() -> [Change; 64] {
    let mut changes = [change(0, 1, OWN); 64];
    for i in 0..64u16 {
        changes[usize::from(i)] = change(2 * i, 2 * i + 1, OWN);
    }
    changes
}

/// Makes changes: how many ranges were foretold, the answer, and how many there are, and what a page is.
fn replaced_at(
    map: &mut RangeMap,
    changes: &[Change],
    page: u16,
) -> (u32, Result<(), TooManyRanges>, u32, Option<SegmentKind>) {
    let foretold = map.count_after(changes);
    let answer = map.replace(changes);
    (foretold, answer, map.count(), map.kind_at(page))
}

#[test]
fn a_65th_range_is_refused(rt: HostRuntime) {
    let mut map = RangeMap::empty();
    let filled = replaced_at(&mut map, &every_second_page(), 126);
    let refused = replaced_at(&mut map, &[change(1000, 1024, OWN)], 1000);
    let joined = replaced_at(&mut map, &[change(1, 2, OWN)], 126);
    check_equal(
        &rt,
        [filled, refused, joined],
        [
            (64, Ok(()), 64, OWN),
            (65, Err(TooManyRanges), 64, None),
            (63, Ok(()), 63, OWN),
        ],
    );
}

/// The rights of pages 3, 4, 6 and 8.
fn rights_of(map: &RangeMap) -> [Option<Right>; 4] {
    [
        map.right_at(3),
        map.right_at(4),
        map.right_at(6),
        map.right_at(8),
    ]
}

#[test]
fn pages_of_two_rights_are_two_ranges(rt: HostRuntime) {
    let read = Change {
        right: Right::Read,
        ..change(4, 6, OWN)
    };
    let gone = Change { kind: None, ..read };
    let mut map = RangeMap::empty();
    let one = replaced_at(&mut map, &[change(0, 8, OWN)], 5);
    let three = replaced_at(&mut map, &[read], 5);
    let rights = rights_of(&map);
    let two = replaced_at(&mut map, &[gone], 5);
    let right = map.right_at(4);
    let (write, read) = (Some(Right::Write), Some(Right::Read));
    check_equal(
        &rt,
        [one, three, two],
        [
            (1, Ok(()), 1, OWN),
            (3, Ok(()), 3, OWN),
            (2, Ok(()), 2, None),
        ],
    );
    check_equal(&rt, (rights, right), ([write, read, write, None], None));
}
