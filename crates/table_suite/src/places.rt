ghost use Rattle.std.specs.Prelude.{◌≡◌, ◌≢◌, ℕ, ◌+◌, ◌<◌, ◌≤◌, All, IfOk, None, length, slice_set};
ghost use Rattle.cow_space.specs.Changes.{IsPageRun, changed_place};
ghost use Rattle.cow_space.specs.Seen.{cells};
ghost use Rattle.cow_space.specs.Tags.{IsNewTag};

use crate::checks::check_equal;
use cow_space::{NoFrame, Origin, PageCells, PageRun};
use lwc_base::{MOST_RANGES, Name, Range, Tag};
use range_map::SegmentKind;
use std::alloc::Global;
use std::process::Abort;
use std::test::Fail;

/// A page run from one page up to and without another.
fn page_run(from: u16, to: u16, origin: Origin) -> PageRun
    ensures { result ≡ record { range = record { from = from; to = to }; origin = origin; right = None } }
{
    PageRun {
        range: Range { from, to },
        origin,
        right: None,
    }
}

/// Changes a place, whose ranges stay few.
fn change(rt: &impl Abort, places: &mut PageCells, index: usize, page_runs: &[PageRun])
    requires place { index < length (cells places.old) }
    requires page_runs { All (IsPageRun (length (cells places.old)) index) page_runs.now }
    ensures { cells places.new
        ≡ slice_set (cells places.old) index (changed_place (cells places.old) index page_runs.now) }
{
    let count = places.count_after(index, page_runs, &[]);
    assert!(rt; count <= MOST_RANGES);
    places.change(index, page_runs, &[]);
}

/// Writes three bytes over the end of page 5 of the first place, which has none: whether the page is to part, and the
/// answer.
fn write_end(rt: &impl Abort, places: &mut PageCells, tag: Tag) -> (bool, Result<bool, NoFrame>)
    requires place { 0 < length (cells places.old) }
    requires new { IsNewTag (cells places.old) tag }
{
    assert!(rt; matches!(places.kind(0, 5), Some(SegmentKind::Own)));
    let is_parting = places.is_parting(0, 5);
    let answer = places.write(0, 5, 5 * 4096 + 4094, &[7, 8, 9], tag);
    (is_parting, answer)
}

/// Three places, of which the first has pages 2 to 7, and bytes at page 5.
fn written(rt: &impl Abort, alloc: Global) -> Result<PageCells, Fail> {
    let mut places = PageCells::open(alloc, 4, 3)?;
    assert!(rt; places.len() == 3 && places.frames() == 4 && places.used() == 0);
    change(rt, &mut places, 0, &[page_run(2, 8, Origin::Zeros)]);
    assert!(rt; places.len() == 3);
    let tag = Tag { job: 1, k: 0 };
    let (is_parting, answer) = write_end(rt, &mut places, tag);
    assert!(rt; is_parting && answer == Ok(true));
    Ok(places)
}

/// The group whose pages are common.
const GROUP: Name = Name { job: 1, k: 2 };

/// Copies the first place into the second, and answers the ranges of the second and the frames in use. Then it makes
/// some pages of the first common and the others absent.
fn copy_first(rt: &impl Abort, places: &mut PageCells) -> (u32, u32) {
    assert!(rt; places.len() == 3);
    places.clone_place(1, 0);
    assert!(rt; places.len() == 3);
    let copied = (places.count(1), places.used());
    let common = [
        page_run(4, 6, Origin::Common(GROUP)),
        page_run(0, 8, Origin::Absent),
    ];
    change(rt, places, 0, &common);
    copied
}

/// Puts copies of pages of both places, and zeros, into the third.
fn mix_third(rt: &impl Abort, places: &mut PageCells) {
    assert!(rt; places.len() == 3);
    let mixed = [
        page_run(4, 6, Origin::CopyOf(1)),
        page_run(5, 8, Origin::CopyOf(0)),
        page_run(7, 10, Origin::Zeros),
    ];
    change(rt, places, 2, &mixed);
}

/// The kinds of pages 3 and 5 of the first place, and of pages 5, 6, 7 and 9 of the third.
fn kinds_of(rt: &impl Abort, places: &PageCells) -> [Option<SegmentKind>; 6] {
    assert!(rt; places.len() == 3);
    [
        places.kind(0, 3),
        places.kind(0, 5),
        places.kind(2, 5),
        places.kind(2, 6),
        places.kind(2, 7),
        places.kind(2, 9),
    ]
}

/// Clears the second place: whether page 5 of the first has no bytes before, and the ranges of the two others and the
/// frames in use after.
fn clear_second(rt: &impl Abort, places: &mut PageCells) -> (bool, [u32; 3]) {
    assert!(rt; places.len() == 3);
    let has_none = places.bytes(0, 5).is_none();
    places.clear_place(1);
    assert!(rt; places.len() == 3);
    (has_none, [places.count(1), places.count(2), places.used()])
}

/// How many bytes page 5 of the third place has, and the last three.
fn last_bytes(rt: &impl Abort, places: &PageCells) -> Option<(usize, [u8; 3])> {
    assert!(rt; places.len() == 3);
    let bytes = places.bytes(2, 5)?;
    Some((bytes.len(), [bytes[4093], bytes[4094], bytes[4095]]))
}

/// Copies and drops the pages of a place that has bytes at one, and makes some of them common.
fn try_places(rt: &impl Abort, alloc: Global) -> Result<(), Fail> {
    let mut places = written(rt, alloc)?;
    let copied = copy_first(rt, &mut places);
    mix_third(rt, &mut places);
    let kinds = kinds_of(rt, &places);
    let cleared = clear_second(rt, &mut places);
    let last = last_bytes(rt, &places);
    let own = Some(SegmentKind::Own);
    let common = Some(SegmentKind::Common(GROUP));
    check_equal(rt, kinds, [None, common, own, None, None, own]);
    let counts = (copied, cleared, last);
    check_equal(
        rt,
        counts,
        ((1, 1), (true, [0, 2, 1]), Some((4096, [0, 7, 8]))),
    );
    Ok(())
}

#[test]
fn places_share_pages_until_they_drop_them(rt: HostRuntime) -> Result<(), Fail> {
    try_places(&rt, rt.alloc())
}
