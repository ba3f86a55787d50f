ghost use Rattle.std.specs.Prelude.{◌≡◌, ◌<◌, ◌≤◌, ◌+◌, ◌⊎◌, if◌then◌else◌, ℕ, suc, true, false, []};
ghost use Rattle.std.specs.Prelude.{All, List, None, Option, Some, length, nat_le, slice_index_or, unwrap_or};
ghost use Rattle.std.specs.Option.{option_copied};
ghost use Rattle.lwc_types.specs.declared.limits.TheConstants.{MOST_PAGES, MOST_RANGES};
ghost use Rattle.lwc_types.specs.declared.right.Right.{Right};
ghost use Rattle.lwc_types.specs.declared.right.Right.TheVariants.{Read, Write};
ghost use Rattle.range_map.specs.Kinds.{ranges, state_at};
ghost use Rattle.range_map.specs.declared.segment.PageState.{PageState};
ghost use Rattle.cow_space.specs.Kept.{HasNoOwnPage, has_own};
ghost use Rattle.cow_space.specs.Cells.{Place};
ghost use Rattle.cow_space.specs.Changes as spec;
ghost use Rattle.cow_space.specs.Changes.{IsPageRun, IsSplit, Rise, RiseFrom, begun, changed_states};
ghost use Rattle.cow_space.specs.Changes.{given_states, is_edge};
ghost use Rattle.cow_space.specs.Maps.{put_range};
ghost use Rattle.cow_space.specs.declared.page_runs.Origin.TheVariants.{CopyOf};
ghost use Rattle.cow_space.specs.Seen.{cells, rights};

use crate::cells::PageCells;
use crate::page_runs::{Origin, PageRun};
use crate::parts::{append_part, begun, count_part};
use lwc_base::{MOST_PAGES, PageNumber, Range, Right};
use range_map::{PageState, RangeMap, Segment, SegmentKind, sooner_edge};

/// The first page run that has a page. It looks at each.
#[inline(never)]
fn page_run_at(page_runs: &[PageRun], page: PageNumber) -> Option<&PageRun>
    ensures { option_copied result ≡ spec.page_run_at page_runs.now page }
{
    page_runs.iter().find(|page_run| page_run.range.from <= page && page < page_run.range.to)
}

/// Where the first page run after a page begins or ends, or the end of all pages. It looks at each.
#[inline(never)]
fn page_run_edge(page_runs: &[PageRun], page: PageNumber) -> PageNumber
    requires { page < MOST_PAGES }
    ensures past { page < result }
    ensures within { result ≤ MOST_PAGES }
    ensures alike { (q : ℕ) → page ≤ q → q < result
        → spec.page_run_at page_runs.now q ≡ spec.page_run_at page_runs.now page }
    ensures edge { result < MOST_PAGES → is_edge page_runs.now result ≡ true }
{
    let mut edge = MOST_PAGES;
    for page_run in page_runs {
        edge = sooner_edge(page_run.range.from, page_run.range.to, page, edge);
    }
    edge
}

/// How many page runs that rise end at a page or before it, by halving.
#[inline(never)]
fn ended_by_halving(page_runs: &[PageRun], page: PageNumber) -> usize
    requires { Rise page_runs.now }
    ensures before { (k : ℕ) (d : PageRun) → k < result → (slice_index_or page_runs.now k d).range.to ≤ page }
    ensures after { (d : PageRun) → result < length page_runs.now
        → page < (slice_index_or page_runs.now result d).range.to }
{
    page_runs.partition_point(
        |page_run: &PageRun| -> bool
            ensures { result ≡ nat_le page_run.now.range.to page }
        { page_run.range.to <= page },
    )
}

/// Whether this many page runs that rise are there, and end at a page or before it.
#[inline(always)]
fn have_ended(page_runs: &[PageRun], count: usize, page: PageNumber) -> bool
    requires { Rise page_runs.now }
    ensures { result ≡ true → (k : ℕ) (d : PageRun) → k < count
        → (slice_index_or page_runs.now k d).range.to ≤ page }
{
    count == 0 || (count <= page_runs.len() && page_runs[count - 1].range.to <= page)
}

/// How many page runs that rise end at a page or before it. If at least `near` of them do, those past them are
/// looked at one by one: a walk from page run to page run knows how many it has passed.
#[inline(always)]
fn ended_by(page_runs: &[PageRun], near: usize, page: PageNumber) -> usize
    requires { Rise page_runs.now }
    ensures before { (k : ℕ) (d : PageRun) → k < result → (slice_index_or page_runs.now k d).range.to ≤ page }
    ensures after { (d : PageRun) → result < length page_runs.now
        → page < (slice_index_or page_runs.now result d).range.to }
{
    if !have_ended(page_runs, near, page) {
        return ended_by_halving(page_runs, page);
    }
    let mut count = near;
    'ended: while count < page_runs.len() && page_runs[count].range.to <= page {
        count += 1;
    }
    count
}

/// The page run of those that rise that has a page, where the next one begins or this one ends, or the end of
/// all pages, and how many end by the page. The search begins near the number that is given.
#[inline(always)]
fn rising_run(
    page_runs: &[PageRun],
    near: usize,
    page: PageNumber,
) -> (Option<PageRun>, PageNumber, usize)
    requires rise { Rise page_runs.now }
    requires page { page < MOST_PAGES }
    ensures run { result.0 ≡ spec.page_run_at page_runs.now page }
    ensures past { page < result.1 }
    ensures within { result.1 ≤ MOST_PAGES }
    ensures alike { (q : ℕ) → page ≤ q → q < result.1
        → spec.page_run_at page_runs.now q ≡ spec.page_run_at page_runs.now page }
    ensures edge { result.1 < MOST_PAGES → is_edge page_runs.now result.1 ≡ true }
{
    let ended = ended_by(page_runs, near, page);
    match page_runs.get(ended) {
        Some(page_run) if page < page_run.range.from => (
            None,
            page_run.range.from.min(MOST_PAGES),
            ended,
        ),
        Some(page_run) => (Some(*page_run), page_run.range.to.min(MOST_PAGES), ended),
        None => (None, MOST_PAGES, ended),
    }
}

/// The first page run that has a page, where the next one begins or ends, or the end of all pages, and where
/// the next search begins. Page runs that rise are searched from near the number that is given.
#[inline(always)]
fn run_from(
    page_runs: &[PageRun],
    rise: bool,
    near: usize,
    page: PageNumber,
) -> (Option<PageRun>, PageNumber, usize)
    requires rise { rise ≡ true → Rise page_runs.now }
    requires page { page < MOST_PAGES }
    ensures run { result.0 ≡ spec.page_run_at page_runs.now page }
    ensures past { page < result.1 }
    ensures within { result.1 ≤ MOST_PAGES }
    ensures alike { (q : ℕ) → page ≤ q → q < result.1
        → spec.page_run_at page_runs.now q ≡ spec.page_run_at page_runs.now page }
    ensures edge { result.1 < MOST_PAGES → is_edge page_runs.now result.1 ≡ true }
{
    if rise {
        rising_run(page_runs, near, page)
    } else {
        (
            page_run_at(page_runs, page).copied(),
            page_run_edge(page_runs, page),
            near,
        )
    }
}

/// Whether a page run begins where it ends or before, and ends where the next one begins or before.
fn rises_at(page_runs: &[PageRun], index: usize) -> bool
    requires { index < length page_runs.now }
    ensures order { result ≡ true → (d : PageRun) → (slice_index_or page_runs.now index d).range.from
        ≤ (slice_index_or page_runs.now index d).range.to }
    ensures next { result ≡ true → (d : PageRun) → index + 1 < length page_runs.now
        → (slice_index_or page_runs.now index d).range.to
        ≤ (slice_index_or page_runs.now (index + 1) d).range.from }
{
    let range = page_runs[index].range;
    range.from <= range.to
        && (index + 1 == page_runs.len() || range.to <= page_runs[index + 1].range.from)
}

/// How many page runs come before the last ones that rise.
fn rising_from(page_runs: &[PageRun]) -> usize
    ensures within { result ≤ length page_runs.now }
    ensures rise { RiseFrom result page_runs.now }
{
    let mut from = page_runs.len();
    'rising: while from > 0 && rises_at(page_runs, from - 1) {
        from -= 1;
    }
    from
}

/// Where the page runs begin that rise up to the last one, and whether those before them rise too.
#[derive(Clone, Copy, PartialEq, Eq)]
pub(crate) struct Rising {
    from: usize,
    first: bool,
}

/// Where page runs rise. Those of items, in the order of their pages, and those of segments after them are two
/// parts that do.
pub(crate) fn rising_parts(page_runs: &[PageRun]) -> Rising
    ensures { IsSplit result page_runs.now }
{
    let from = rising_from(page_runs);
    Rising {
        from,
        first: rising_from(&page_runs[..from]) == 0,
    }
}

/// Where a walk looks for the next page runs: at most how many of each part end by its page. Any numbers do, but
/// others make it longer.
#[derive(Clone, Copy)]
pub(crate) struct Near {
    first: usize,
    last: usize,
}

impl Near {
    /// Before the first page run of each part.
    pub(crate) fn start() -> Near {
        Near { first: 0, last: 0 }
    }
}

/// The first page run that has a page, where the next one begins or ends, or the end of all pages, and where
/// the next search begins.
#[inline(always)]
pub(crate) fn found_run(
    page_runs: &[PageRun],
    rising: Rising,
    near: Near,
    page: PageNumber,
) -> (Option<PageRun>, PageNumber, Near)
    requires rising { IsSplit rising page_runs.now }
    requires page { page < MOST_PAGES }
    ensures run { result.0 ≡ spec.page_run_at page_runs.now page }
    ensures past { page < result.1 }
    ensures within { result.1 ≤ MOST_PAGES }
    ensures alike { (q : ℕ) → page ≤ q → q < result.1
        → spec.page_run_at page_runs.now q ≡ spec.page_run_at page_runs.now page }
    ensures edge { result.1 < MOST_PAGES → is_edge page_runs.now result.1 ≡ true }
{
    let (run, edge, first) = run_from(&page_runs[..rising.from], rising.first, near.first, page);
    let (other, other_edge, last) = rising_run(&page_runs[rising.from..], near.last, page);
    (run.or(other), edge.min(other_edge), Near { first, last })
}

/// Whether ranges have a page.
fn have_page(ranges: &[Range], page: PageNumber) -> bool
    ensures { result ≡ spec.have_page ranges.now page }
{
    ranges
        .iter()
        .any(|range| range.from <= page && page < range.to)
}

/// A later page, at most the edge, up to which ranges have all of the pages or none.
fn range_edge(ranges: &[Range], page: PageNumber, edge: PageNumber) -> PageNumber
    requires { page < edge }
    ensures past { page < result }
    ensures within { result ≤ edge }
    ensures alike { (q : ℕ) → page ≤ q → q < result
        → spec.have_page ranges.now q ≡ spec.have_page ranges.now page }
    ensures edge { result < edge → spec.is_range_edge ranges.now result ≡ true }
{
    let mut next = edge;
    for range in ranges {
        next = sooner_edge(range.from, range.to, page, next);
    }
    next
}

/// Whether a segment is of pages that are the place's own.
fn has_own(segments: &[Segment]) -> bool
    ensures { result ≡ has_own segments.now }
{
    segments
        .iter()
        .any(|segment| matches!(segment.kind, SegmentKind::Own))
}

/// Whether by these kinds a page is the place's own.
pub(crate) fn has_own_page(kinds: &RangeMap) -> bool
    ensures none { result ≡ false → HasNoOwnPage kinds.now }
    ensures some { result ≡ true → HasNoOwnPage kinds.now → ⊥ }
    ensures ranges { result ≡ true → 0 < ranges MOST_PAGES (state_at kinds.now) }
{
    has_own(kinds.segments())
}

/// The right of a page run, or `Read` where the pages may only be read.
fn right_given(right: Option<Right>, read: bool) -> Option<Right>
    ensures { result ≡ (if read then Some Read else right) }
{
    if read { Some(Right::Read) } else { right }
}

/// What a page of a place, and all up to a later one, get by page runs and by ranges that may only be read,
/// as one page run: of their own place where none has them. The later page is where a page run or a range
/// begins or ends. Answers too where the next search begins.
pub(crate) fn stretch_at(
    place: usize,
    page_runs: &[PageRun],
    rising: Rising,
    near: Near,
    reads: &[Range],
    page: PageNumber,
) -> (PageRun, Near)
    requires rising { IsSplit rising page_runs.now }
    requires page { page < MOST_PAGES }
    ensures from { result.0.range.from ≡ page }
    ensures past { page < result.0.range.to }
    ensures within { result.0.range.to ≤ MOST_PAGES }
    ensures origin { (count : ℕ) → place < count → All (IsPageRun count place) page_runs.now
        → (j : ℕ) → result.0.origin ≡ CopyOf j → j < count }
    ensures states { (cells : List Place) (rights : List (ℕ → Right)) (q : ℕ) → page ≤ q
        → q < result.0.range.to
        → changed_states cells rights place page_runs.now reads.now q ≡ given_states cells rights result.0 q }
    ensures edge { result.0.range.to < MOST_PAGES
        → (is_edge page_runs.now result.0.range.to ≡ true)
        ⊎ (spec.is_range_edge reads.now result.0.range.to ≡ true) }
{
    let (found, edge, next) = found_run(page_runs, rising, near, page);
    let to = range_edge(reads, page, edge);
    let range = Range { from: page, to };
    let read = have_page(reads, page);
    let stretch = match found {
        Some(page_run) => PageRun {
            range,
            origin: page_run.origin,
            right: right_given(page_run.right, read),
        },
        None => PageRun {
            range,
            origin: Origin::CopyOf(place),
            right: right_given(None, read),
        },
    };
    (stretch, next)
}

/// The state of new pages of a kind: that of the right, or `Write` where none is given.
fn new_state(kind: SegmentKind, right: Option<Right>) -> PageState
    ensures { result ≡ record { kind = kind; right = unwrap_or right Write } }
{
    PageState {
        kind,
        right: right.unwrap_or(Right::Write),
    }
}

/// Whether a range begins, as a number, and the state after: of pages that are all of one state.
fn count_alike(before: Option<PageState>, state: Option<PageState>) -> (u32, Option<PageState>)
    ensures counted { result.0 ≡ begun before state }
    ensures last { result.1 ≡ state }
{
    (begun(before, state), state)
}

impl PageCells {
    /// The number of ranges that begin at the pages of a page run, and the state of the last of them.
    /// `before` is the state of the page before the first.
    pub fn count_given(
        &self,
        page_run: &PageRun,
        before: Option<PageState>,
    ) -> (u32, Option<PageState>)
        requires origin { (j : ℕ) → page_run.now.origin ≡ CopyOf j → j < length (cells self.now) }
        requires order { page_run.now.range.from < page_run.now.range.to }
        requires inside { page_run.now.range.to ≤ MOST_PAGES }
        ensures counted { (after : ℕ → Option PageState)
            → ((q : ℕ) → page_run.now.range.from ≤ q → q < page_run.now.range.to
            → after q ≡ given_states (cells self.now) (rights self.now) page_run.now q)
            → (page_run.now.range.from ≡ 0 → before ≡ None)
            → ((n : ℕ) → page_run.now.range.from ≡ suc n → before ≡ after n)
            → ranges page_run.now.range.to after ≡ ranges page_run.now.range.from after + result.0 }
        ensures last { (n : ℕ) → page_run.now.range.to ≡ suc n
            → result.1 ≡ given_states (cells self.now) (rights self.now) page_run.now n }
    {
        let right = page_run.right;
        match page_run.origin {
            Origin::Absent => count_alike(before, None),
            Origin::Zeros => count_alike(before, Some(new_state(SegmentKind::Own, right))),
            Origin::Common(g) => count_alike(
                before,
                Some(new_state(SegmentKind::Common(g), right)),
            ),
            Origin::CopyOf(j) => {
                count_part(
                    self.segments(j),
                    page_run.range.from,
                    page_run.range.to,
                    right,
                    before,
                )
            }
        }
    }

    /// Gives the pages of a page run what its origin and its right say, where none from its first on is
    /// present.
    fn append_given(&self, kinds: &mut RangeMap, page_run: &PageRun)
        requires origin { (j : ℕ) → page_run.now.origin ≡ CopyOf j → j < length (cells self.now) }
        requires order { page_run.now.range.from < page_run.now.range.to }
        requires inside { page_run.now.range.to ≤ MOST_PAGES }
        requires clear { (q : ℕ) → page_run.now.range.from ≤ q → state_at kinds.old q ≡ None }
        requires few { ranges MOST_PAGES
            (put_range (state_at kinds.old) page_run.now.range.from page_run.now.range.to
            (given_states (cells self.now) (rights self.now) page_run.now)) ≤ MOST_RANGES }
        ensures { (q : ℕ) → state_at kinds.new q
            ≡ put_range (state_at kinds.old) page_run.now.range.from page_run.now.range.to
            (given_states (cells self.now) (rights self.now) page_run.now) q }
    {
        let Range { from, to } = page_run.range;
        let right = page_run.right;
        match page_run.origin {
            Origin::Absent => {}
            Origin::Zeros => kinds.append(from, to, new_state(SegmentKind::Own, right)),
            Origin::Common(g) => kinds.append(from, to, new_state(SegmentKind::Common(g), right)),
            Origin::CopyOf(j) => append_part(kinds, self.segments(j), from, to, right),
        }
    }

    /// The kinds and the rights of a place after page runs, and ranges that may only be read.
    pub(crate) fn kinds_after(
        &self,
        place: usize,
        page_runs: &[PageRun],
        reads: &[Range],
    ) -> RangeMap
        requires place { place < length (cells self.now) }
        requires page_runs { All (IsPageRun (length (cells self.now)) place) page_runs.now }
        requires ranges { ranges MOST_PAGES
            (changed_states (cells self.now) (rights self.now) place page_runs.now reads.now) ≤ MOST_RANGES }
        ensures states { (p : ℕ) → p < MOST_PAGES
            → state_at result p
            ≡ changed_states (cells self.now) (rights self.now) place page_runs.now reads.now p }
        ensures past { (p : ℕ) → MOST_PAGES ≤ p → state_at result p ≡ None }
    {
        let rising = rising_parts(page_runs);
        let mut near = Near::start();
        let mut kinds = RangeMap::empty();
        let mut p: PageNumber = 0;
        'stretches: while p < MOST_PAGES {
            let (stretch, next) = stretch_at(place, page_runs, rising, near, reads, p);
            self.append_given(&mut kinds, &stretch);
            near = next;
            p = stretch.range.to;
        }
        kinds
    }
}
