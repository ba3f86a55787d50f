ghost use Rattle.std.specs.Prelude.{◌≡◌, ◌<◌, ◌≤◌, ◌⊎◌, ◌||◌, ◌==◌, ℕ, is_some, length, nat_le, slice_index_or, true};
ghost use Rattle.std.specs.List.{find, list_any};
ghost use Rattle.std.specs.Option.{option_copied};
ghost use Rattle.lwc_types.specs.declared.limits.TheConstants.{MOST_PAGES};
ghost use Rattle.range_map.specs.Kinds as spec;
ghost use Rattle.range_map.specs.Kinds.{IsCanonical, begins_range, is_between, is_edge};
ghost use Rattle.range_map.specs.declared.segment.Segment.{Segment};

use crate::segment::{Change, PageState, Segment};
use lwc_base::{MOST_PAGES, PageNumber};

/// The state of a page; `None` where it is absent. Its segment is searched by halving.
#[inline(always)]
pub(crate) fn state_at(segments: &[Segment], page: PageNumber) -> Option<PageState>
    requires { IsCanonical segments.now }
    ensures { result ≡ spec.state_at segments.now page }
{
    let segment = segments.get(ended_by(segments, page))?;
    if segment.from <= page {
        Some(segment.state())
    } else {
        None
    }
}

/// The number of segments that end at a page or before it. The next one, if there is one, has the page or begins
/// past it. Most spaces have one range, so the first segment is looked at before all are halved.
#[inline(always)]
pub fn ended_by(segments: &[Segment], page: PageNumber) -> usize
    requires { IsCanonical segments.now }
    ensures within { result ≤ length segments.now }
    ensures before { (k : ℕ) (d : Segment) → k < result → (slice_index_or segments.now k d).to ≤ page }
    ensures after { (d : Segment) → result < length segments.now
        → page < (slice_index_or segments.now result d).to }
{
    match segments.first() {
        Some(first) if page < first.to => 0,
        _ => ended_by_halving(segments, page),
    }
}

/// The number of segments that end at a page or before it, by halving.
#[inline(never)]
fn ended_by_halving(segments: &[Segment], page: PageNumber) -> usize
    requires { IsCanonical segments.now }
    ensures within { result ≤ length segments.now }
    ensures before { (k : ℕ) (d : Segment) → k < result → (slice_index_or segments.now k d).to ≤ page }
    ensures after { (d : Segment) → result < length segments.now
        → page < (slice_index_or segments.now result d).to }
{
    segments.partition_point(
        |segment: &Segment| -> bool
            ensures { result ≡ nat_le segment.now.to page }
        { segment.to <= page },
    )
}

/// The state of a page after the changes: that of the first change that has it, or the state before.
#[tactic(auto, unfolding(crate::specs::Kinds::state_after))]
pub(crate) fn state_after(
    segments: &[Segment],
    changes: &[Change],
    page: PageNumber,
) -> Option<PageState>
    requires { IsCanonical segments.now }
    ensures { result ≡ spec.state_after changes.now segments.now page }
{
    match change_at(changes, page) {
        Some(change) => change.state(),
        None => state_at(segments, page),
    }
}

/// The first change that has a page.
fn change_at(changes: &[Change], page: PageNumber) -> Option<&Change>
    ensures { option_copied result ≡ find (λ c. is_between c.from c.to page) changes.now }
{
    changes
        .iter()
        .find(|change| change.from <= page && page < change.to)
}

/// The first page past a page at which the state after the changes is another one; the end of all pages
/// where there is none.
pub(crate) fn run_end(segments: &[Segment], changes: &[Change], page: PageNumber) -> PageNumber
    requires canonical { IsCanonical segments.now }
    requires page { page < MOST_PAGES }
    ensures past { page < result }
    ensures within { result ≤ MOST_PAGES }
    ensures alike { (q : ℕ) → page ≤ q → q < result
        → spec.state_after changes.now segments.now q ≡ spec.state_after changes.now segments.now page }
    ensures begins { result < MOST_PAGES → begins_range (spec.state_after changes.now segments.now) result
        ≡ is_some (spec.state_after changes.now segments.now result) }
{
    let state = state_after(segments, changes, page);
    let mut end = next_edge(segments, changes, page);
    'runs: while end < MOST_PAGES && state == state_after(segments, changes, end) {
        end = next_edge(segments, changes, end);
    }
    end
}

/// Where the first segment or change after a page begins or ends, or the end of all pages.
fn next_edge(segments: &[Segment], changes: &[Change], page: PageNumber) -> PageNumber
    requires canonical { IsCanonical segments.now }
    requires page { page < MOST_PAGES }
    ensures past { page < result }
    ensures within { result ≤ MOST_PAGES }
    ensures alike { (q : ℕ) → page ≤ q → q < result
        → spec.state_after changes.now segments.now q ≡ spec.state_after changes.now segments.now page }
    ensures edge { result < MOST_PAGES → (is_edge segments.now result
        || list_any (λ c. (c.from == result) || (c.to == result)) changes.now) ≡ true }
{
    let mut edge = run_at(segments, page).1;
    for change in changes {
        edge = sooner_edge(change.from, change.to, page, edge);
    }
    edge
}

/// The state of a page, and where the first segment after it begins or ends, or the end of all pages. The segment
/// is searched by halving.
pub(crate) fn run_at(segments: &[Segment], page: PageNumber) -> (Option<PageState>, PageNumber)
    requires canonical { IsCanonical segments.now }
    requires page { page < MOST_PAGES }
    ensures state { result.0 ≡ spec.state_at segments.now page }
    ensures past { page < result.1 }
    ensures within { result.1 ≤ MOST_PAGES }
    ensures alike { (q : ℕ) → page ≤ q → q < result.1
        → spec.state_at segments.now q ≡ spec.state_at segments.now page }
    ensures edge { result.1 < MOST_PAGES → is_edge segments.now result.1 ≡ true }
{
    match segments.get(ended_by(segments, page)) {
        Some(segment) if page < segment.from => (None, segment.from),
        Some(segment) => (Some(segment.state()), segment.to),
        None => (None, MOST_PAGES),
    }
}

/// Where the pages from one up to and without another first begin or end past a page, if that is before the
/// edge; else the edge.
pub fn sooner_edge(
    from: PageNumber,
    to: PageNumber,
    page: PageNumber,
    edge: PageNumber,
) -> PageNumber
    requires { page < edge }
    ensures past { page < result }
    ensures within { result ≤ edge }
    ensures alike { (q : ℕ) → page ≤ q → q < result → is_between from to q ≡ is_between from to page }
    ensures one { result < edge → (result ≡ from) ⊎ (result ≡ to) }
{
    sooner(page, sooner(page, edge, from), to)
}

/// The lesser of an edge and another number, if that lies past the page.
fn sooner(page: PageNumber, edge: PageNumber, other: PageNumber) -> PageNumber
    requires { page < edge }
    ensures past { page < result }
    ensures within { result ≤ edge }
    ensures other { page < other → result ≤ other }
    ensures one { result < edge → result ≡ other }
{
    if page < other && other < edge {
        other
    } else {
        edge
    }
}
