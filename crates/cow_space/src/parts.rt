ghost use Rattle.std.specs.Prelude.{◌≡◌, ◌<◌, ◌≤◌, ◌+◌, ℕ, suc, None, Option, Some, length};
ghost use Rattle.lwc_types.specs.declared.limits.TheConstants.{MOST_PAGES, MOST_RANGES};
ghost use Rattle.range_map.specs.Kinds.{IsCanonical, ranges, state_at, state_in};
ghost use Rattle.range_map.specs.declared.segment.PageState.{PageState};
ghost use Rattle.cow_space.specs.Changes.{begun, states_with, with_right};
ghost use Rattle.cow_space.specs.Maps.{put_range};

use lwc_base::{PageNumber, Right};
use range_map::{PageState, RangeMap, Segment, ended_by};

/// The state of a segment's pages, with another right where one is given.
fn state_given(segment: &Segment, right: Option<Right>) -> PageState
    ensures { result ≡ with_right right (state_in segment.now) }
{
    PageState {
        kind: segment.kind,
        right: right.unwrap_or(segment.right),
    }
}

/// 1 if a range begins at a page of a state, where the page before has another one; else 0.
pub(crate) fn begun(before: Option<PageState>, state: Option<PageState>) -> u32
    ensures begun { result ≡ begun before state }
    ensures few { result ≤ 1 }
{
    if state.is_some() && before != state {
        1
    } else {
        0
    }
}

/// The state of the page before `start`, where that of the page before `page` is known and the pages from `page` up
/// to `start` are absent.
fn last_before(last: Option<PageState>, page: PageNumber, start: PageNumber) -> Option<PageState>
    ensures gap { page < start → result ≡ None }
    ensures meets { start ≤ page → result ≡ last }
{
    if page < start { None } else { last }
}

/// The number of ranges that begin at the pages of segments from `from` up to and without `to`, and the state
/// of the last of these pages; all get another right where one is given. `before` is the state of the page
/// before the first. The first segment is searched by halving, and none is looked at past the last page.
pub(crate) fn count_part(
    segments: &[Segment],
    from: PageNumber,
    to: PageNumber,
    right: Option<Right>,
    before: Option<PageState>,
) -> (u32, Option<PageState>)
    requires canonical { IsCanonical segments.now }
    requires order { from < to }
    requires inside { to ≤ MOST_PAGES }
    ensures counted { (after : ℕ → Option PageState)
        → ((q : ℕ) → from ≤ q → q < to → after q ≡ states_with segments.now right q)
        → (from ≡ 0 → before ≡ None) → ((n : ℕ) → from ≡ suc n → before ≡ after n)
        → ranges to after ≡ ranges from after + result.0 }
    ensures last { (n : ℕ) → to ≡ suc n → result.1 ≡ states_with segments.now right n }
{
    let mut count = 0u32;
    let mut last = before;
    let mut p = from;
    let mut k = ended_by(segments, from);
    'segments: while k < segments.len() && segments[k].from < to {
        let segment = &segments[k];
        let start = segment.from.max(p);
        let end = segment.to.min(to);
        let state = Some(state_given(segment, right));
        count += begun(last_before(last, p, start), state);
        last = state;
        p = end;
        k += 1;
    }
    (count, last_before(last, p, to))
}

/// Gives the pages from `from` up to and without `to` the states that they have by segments, where no page
/// from `from` on is present; all get another right where one is given. The first segment is searched by
/// halving, and none is looked at past the last page.
pub(crate) fn append_part(
    kinds: &mut RangeMap,
    segments: &[Segment],
    from: PageNumber,
    to: PageNumber,
    right: Option<Right>,
)
    requires canonical { IsCanonical segments.now }
    requires order { from < to }
    requires inside { to ≤ MOST_PAGES }
    requires clear { (q : ℕ) → from ≤ q → state_at kinds.old q ≡ None }
    requires few { ranges MOST_PAGES (put_range (state_at kinds.old) from to (states_with segments.now right))
        ≤ MOST_RANGES }
    ensures { (q : ℕ) → state_at kinds.new q
        ≡ put_range (state_at kinds.old) from to (states_with segments.now right) q }
{
    let mut p = from;
    let mut k = ended_by(segments, from);
    'segments: while k < segments.len() && segments[k].from < to {
        let segment = &segments[k];
        let start = segment.from.max(p);
        let end = segment.to.min(to);
        kinds.append(start, end, state_given(segment, right));
        p = end;
        k += 1;
    }
}
