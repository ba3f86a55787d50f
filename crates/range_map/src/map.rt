ghost use Rattle.std.specs.Prelude.{◌≡◌, ◌≢◌, ◌<◌, ◌≤◌, ℕ, [], All, None, OnOk, OnErr, Some, false, is_err, length};
ghost use Rattle.std.specs.Prelude.{nat_lt, true};
ghost use Rattle.lwc_types.specs.declared.limits.TheConstants.{MOST_PAGES, MOST_RANGES};
ghost use Rattle.range_map.specs.Kinds as spec;
ghost use Rattle.range_map.specs.Kinds.{IsCanonical, IsSegment, are_alike, put_state, ranges, state_in};

use crate::runs;
use crate::segment::{Change, PageState, Segment, SegmentKind};
use arrayvec::ArrayVec;
use late_rows::{CopyFrom, Fresh};
use lwc_base::{MOST_PAGES, MOST_RANGES, PageNumber, Right};
use std::marker::Model;

/// A change would leave a context with more than 64 ranges.
#[derive(Clone, Copy, Debug, PartialEq, Eq)]
pub struct TooManyRanges;

/// The kinds and the rights of a context's pages, as one segment for each range. It is seen as the list of
/// its segments.
#[derive(Drop)]
pub struct RangeMap {
    segments: ArrayVec<Segment, 64>,
}

impl Model for RangeMap {
    ghost use Rattle.std.specs.Prelude.{List};
    ghost use Rattle.range_map.specs.Kinds.{IsCanonical};
    ghost use Rattle.range_map.specs.declared.segment.Segment.{Segment};

    ghost Value = { List Segment };

    ghost view = { λ map. map.segments.items };

    ghost invariant = { λ map. IsCanonical map.segments.items };
}

impl Fresh for RangeMap {
    ghost fresh = { [] };

    /// No page is present.
    fn fresh() -> RangeMap {
        RangeMap::empty()
    }
}

impl CopyFrom for RangeMap {
    /// Takes the segments of the other one over. No more is written than these.
    fn copy_from(&mut self, other: &RangeMap) {
        self.segments.clear();
        for segment in other.segments.as_slice() {
            self.segments.push(*segment);
        }
    }
}

impl RangeMap {
    /// No page is present.
    pub fn empty() -> RangeMap
        ensures { result ≡ [] }
    {
        RangeMap {
            segments: ArrayVec::new(),
        }
    }

    /// Takes all pages away, and writes no segment.
    pub fn clear(&mut self)
        ensures { self.new ≡ [] }
    {
        self.segments.clear();
    }

    /// The segments, one for each range, in rising order.
    pub fn segments(&self) -> &[Segment]
        ensures items { result.now ≡ self.now }
        ensures canonical { IsCanonical self.now }
        ensures few { length result.now ≤ MOST_RANGES }
        ensures each { All IsSegment self.now }
    {
        self.segments.as_slice()
    }

    /// The state of a page; `None` where it is absent, as are all past the last one.
    #[inline(always)]
    pub fn state_at(&self, page: PageNumber) -> Option<PageState>
        ensures state { result ≡ spec.state_at self.now page }
        ensures past { MOST_PAGES ≤ page → result ≡ None }
    {
        runs::state_at(self.segments.as_slice(), page)
    }

    /// The kind of a page; `None` where it is absent.
    pub fn kind_at(&self, page: PageNumber) -> Option<SegmentKind>
        ensures kind { result ≡ spec.kind_at self.now page }
        ensures past { MOST_PAGES ≤ page → result ≡ None }
    {
        self.state_at(page).map(|state| state.kind)
    }

    /// The right of a page; `None` where it is absent.
    pub fn right_at(&self, page: PageNumber) -> Option<Right>
        ensures right { result ≡ spec.right_at self.now page }
        ensures past { MOST_PAGES ≤ page → result ≡ None }
    {
        self.state_at(page).map(|state| state.right)
    }

    /// The state of a page, and the first page after it that has another one, or the end of all pages. There
    /// are at most 64 ranges, so that a walk from run to run is short.
    pub fn run_at(&self, page: PageNumber) -> (Option<PageState>, PageNumber)
        requires { page < MOST_PAGES }
        ensures state { result.0 ≡ spec.state_at self.now page }
        ensures past { page < result.1 }
        ensures within { result.1 ≤ MOST_PAGES }
        ensures alike { (q : ℕ) → page ≤ q → q < result.1
            → spec.state_at self.now q ≡ spec.state_at self.now page }
        ensures other { result.1 < MOST_PAGES
            → spec.state_at self.now result.1 ≢ spec.state_at self.now page }
        ensures few { ranges MOST_PAGES (spec.state_at self.now) ≤ MOST_RANGES }
    {
        runs::run_at(self.segments.as_slice(), page)
    }

    /// Gives a state to the pages from `from` up to and without `to`, where no page from `from` on is
    /// present. The last segment grows if it ends there and its pages have that state.
    pub fn append(&mut self, from: PageNumber, to: PageNumber, state: PageState)
        requires order { from < to }
        requires inside { to ≤ MOST_PAGES }
        requires clear { (q : ℕ) → from ≤ q → spec.state_at self.old q ≡ None }
        requires few { ranges MOST_PAGES (put_state (spec.state_at self.old) from to state) ≤ MOST_RANGES }
        ensures { (q : ℕ) → spec.state_at self.new q ≡ put_state (spec.state_at self.old) from to state q }
    {
        if !self.grow_last(from, to, state) {
            self.segments.push(Segment {
                from,
                to,
                kind: state.kind,
                right: state.right,
            });
        }
    }

    /// Lets the last segment end at `to` if it ends at `from` and its pages have a state. Tells whether it
    /// did.
    fn grow_last(&mut self, from: PageNumber, to: PageNumber, state: PageState) -> bool
        requires order { from < to }
        requires inside { to ≤ MOST_PAGES }
        requires clear { (q : ℕ) → from ≤ q → spec.state_at self.old q ≡ None }
        requires few { ranges MOST_PAGES (put_state (spec.state_at self.old) from to state) ≤ MOST_RANGES }
        ensures grown { result ≡ true → (q : ℕ)
            → spec.state_at self.new q ≡ put_state (spec.state_at self.old) from to state q }
        ensures same { result ≡ false → self.new ≡ self.old }
        ensures parted { result ≡ false
            → All (λ s. s.to ≡ from → are_alike (Some (state_in s)) (Some state) ≡ false) self.old }
    {
        let Some(last) = self.segments.as_slice().last() else {
            return false;
        };
        let last = *last;
        if last.to != from || last.state() != state {
            return false;
        }
        self.segments.pop();
        self.segments.push(Segment { to, ..last });
        true
    }

    /// The number of ranges, which is at most 64.
    pub fn count(&self) -> u32
        ensures ranges { result ≡ ranges MOST_PAGES (spec.state_at self.now) }
        ensures few { result ≤ MOST_RANGES }
    {
        self.segments.len() as u32
    }

    /// The number of ranges that there would be after the changes. Of two changes that have a page, the
    /// first counts.
    pub fn count_after(&self, changes: &[Change]) -> u32
        ensures { result ≡ ranges MOST_PAGES (spec.state_after changes.now self.now) }
    {
        let segments = self.segments.as_slice();
        let mut count = 0u32;
        let mut p: PageNumber = 0;
        'runs: while p < MOST_PAGES {
            if runs::state_after(segments, changes, p).is_some() {
                count += 1;
            }
            p = runs::run_end(segments, changes, p);
        }
        count
    }

    /// Gives the pages of each change its kind and its right, and leaves all other pages. Of two changes that
    /// have a page, the first counts.
    ///
    /// # Errors
    ///
    /// `TooManyRanges` exactly where there would be more than 64 ranges; nothing is changed then.
    pub fn replace(&mut self, changes: &[Change]) -> Result<(), TooManyRanges>
        ensures ok { OnOk result ((p : ℕ) → p < MOST_PAGES
            → spec.state_at self.new p ≡ spec.state_after changes.now self.old p) }
        ensures past { OnOk result ((p : ℕ) → MOST_PAGES ≤ p → spec.state_at self.new p ≡ None) }
        ensures err { OnErr result (self.new ≡ self.old) }
        ensures refused { is_err result
            ≡ nat_lt MOST_RANGES (ranges MOST_PAGES (spec.state_after changes.now self.old)) }
    {
        if self.count_after(changes) > MOST_RANGES {
            return Err(TooManyRanges);
        }
        self.segments = segments_after(self.segments.as_slice(), changes);
        Ok(())
    }
}

/// A segment for each range of the pages after the changes.
fn segments_after(segments: &[Segment], changes: &[Change]) -> ArrayVec<Segment, 64>
    requires canonical { IsCanonical segments.now }
    requires few { ranges MOST_PAGES (spec.state_after changes.now segments.now) ≤ MOST_RANGES }
    ensures canonical { IsCanonical result.items }
    ensures states { (p : ℕ) → p < MOST_PAGES
        → spec.state_at result.items p ≡ spec.state_after changes.now segments.now p }
{
    let mut after = ArrayVec::new();
    let mut p: PageNumber = 0;
    'runs: while p < MOST_PAGES {
        let end = runs::run_end(segments, changes, p);
        if let Some(state) = runs::state_after(segments, changes, p) {
            after.push(Segment {
                from: p,
                to: end,
                kind: state.kind,
                right: state.right,
            });
        }
        p = end;
    }
    after
}
