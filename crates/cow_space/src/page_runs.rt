ghost use Rattle.std.specs.Prelude.{◌≡◌, ◌≢◌, ◌<◌, ◌≤◌, ◌+◌, ◌*◌, ◌⊎◌, ℕ, All, length, min, slice_set};
ghost use Rattle.page_tree.specs.declared.store.TheConstants.{PAGES, TREE_NODES};
ghost use Rattle.page_tree.specs.Open.{entries_passed};
ghost use Rattle.lwc_types.specs.declared.limits.TheConstants.{MOST_PAGES, MOST_RANGES};
ghost use Rattle.range_map.specs.Kinds.{ranges};
ghost use Rattle.cow_space.specs.RowSeen as rows_seen;
ghost use Rattle.cow_space.specs.Cells.{all_write, no_pages, place_of, rights_of, states_of};
ghost use Rattle.cow_space.specs.Changes.{IsApart, IsPageRun, changed_place, changed_rights, changed_states};
ghost use Rattle.cow_space.specs.Maps.{put_range, row_of};
ghost use Rattle.cow_space.specs.Rows.{changed_row, origin_value};
ghost use Rattle.cow_space.specs.Seen.{cells, frames_of, free_frames, free_nodes, node_steps, pool, rights};

use crate::cells::PageCells;
use crate::kinds::{Near, found_run, has_own_page, rising_parts, stretch_at};
use crate::rows::Rows;
use lwc_base::{MOST_PAGES, Name, PageNumber, Range, Right};
use range_map::RangeMap;

/// What the pages of a page run get.
#[derive(Clone, Copy, PartialEq, Eq)]
pub enum Origin {
    /// They become absent.
    Absent,
    /// They become pages of zeros of the place's own.
    Zeros,
    /// They are common of the group of this name.
    Common(Name),
    /// They become what another place has there: copies of its own pages, common of the same groups, or
    /// absent.
    CopyOf(usize),
}

/// The pages of a range, what they get, and the right of those that are present then: without one the right
/// that the place that is copied has there, and `Write` if none is copied.
#[derive(Clone, Copy, PartialEq, Eq)]
pub struct PageRun {
    pub range: Range,
    pub origin: Origin,
    pub right: Option<Right>,
}

impl Default for PageRun {
    /// No page.
    fn default() -> PageRun {
        PageRun {
            range: Range { from: 0, to: 0 },
            origin: Origin::Absent,
            right: None,
        }
    }
}

/// Puts what an origin copies into a range of a row, and clears it if it copies nothing.
fn fill_range(rows: &mut Rows, place: usize, origin: Origin, range: Range)
    requires row { place < length (rows_seen.maps rows.old) }
    requires given { IsApart (length (rows_seen.maps rows.old)) place origin }
    requires order { range.from < range.to }
    requires inside { range.to ≤ PAGES }
    ensures maps { rows_seen.maps rows.new
        ≡ slice_set (rows_seen.maps rows.old) place
        (put_range (row_of (rows_seen.maps rows.old) place) range.from range.to
        (origin_value (rows_seen.maps rows.old) origin)) }
    ensures frames { rows_seen.frames_of rows.new ≡ rows_seen.frames_of rows.old }
    ensures pool { rows_seen.pool rows.new ≡ rows_seen.pool rows.old }
    ensures free { rows_seen.free_frames rows.old ≤ rows_seen.free_frames rows.new }
    ensures others { (j : ℕ) → j ≢ place → rows_seen.HasNoTree rows.old j → rows_seen.HasNoTree rows.new j }
    ensures own { (rows_seen.free_nodes rows.old ≤ rows_seen.free_nodes rows.new)
        ⊎ (rows_seen.HasOwnRoot rows.new place) }
    ensures nodes { rows_seen.free_nodes rows.old ≤ rows_seen.free_nodes rows.new + 5 }
    ensures nodes_own { rows_seen.HasOwnRoot rows.old place
        → rows_seen.free_nodes rows.old ≤ rows_seen.free_nodes rows.new + 4 }
    ensures nodes_open { rows_seen.IsOpen rows.old place range.from
        → rows_seen.free_nodes rows.old + rows_seen.edge_short rows.new place range.to
        ≤ rows_seen.free_nodes rows.new + rows_seen.edge_short rows.old place range.from + 2 }
    ensures opened { rows_seen.IsOpen rows.old place range.from → rows_seen.IsOpen rows.new place range.to }
    ensures cost { rows_seen.node_steps rows.new ≤ rows_seen.node_steps rows.old + 766 }
    ensures cost_open { rows_seen.IsOpen rows.old place range.from
        → rows_seen.node_steps rows.new + entries_passed range.from
        ≤ rows_seen.node_steps rows.old + entries_passed range.to + 36 }
{
    match origin {
        Origin::CopyOf(j) => rows.share_between(place, j, range),
        _ => rows.clear(place, range),
    }
}

/// Puts what page runs copy into a row, and clears the other pages that they have: in rising order, and each
/// page once, so that a row without a tree takes few nodes and steps.
fn fill_row(rows: &mut Rows, place: usize, page_runs: &[PageRun])
    requires row { place < length (rows_seen.maps rows.old) }
    requires page_runs { All (IsPageRun (length (rows_seen.maps rows.old)) place) page_runs.now }
    ensures maps { rows_seen.maps rows.new
        ≡ slice_set (rows_seen.maps rows.old) place
        (changed_row (rows_seen.maps rows.old) place page_runs.now) }
    ensures frames { rows_seen.frames_of rows.new ≡ rows_seen.frames_of rows.old }
    ensures pool { rows_seen.pool rows.new ≡ rows_seen.pool rows.old }
    ensures free { rows_seen.free_frames rows.old ≤ rows_seen.free_frames rows.new }
    ensures others { (j : ℕ) → j ≢ place → rows_seen.HasNoTree rows.old j → rows_seen.HasNoTree rows.new j }
    ensures nodes { rows_seen.free_nodes rows.old
        ≤ rows_seen.free_nodes rows.new + (min 1 (length page_runs.now) + 8 * length page_runs.now) }
    ensures nodes_empty { rows_seen.HasNoTree rows.old place
        → rows_seen.free_nodes rows.old ≤ rows_seen.free_nodes rows.new
        + (min 1 (length page_runs.now) + 4 * length page_runs.now) }
    ensures cost { rows_seen.node_steps rows.new
        ≤ rows_seen.node_steps rows.old + 1532 * length page_runs.now }
    ensures cost_empty { rows_seen.HasNoTree rows.old place
        → rows_seen.node_steps rows.new ≤ rows_seen.node_steps rows.old + 128 * length page_runs.now }
{
    let rising = rising_parts(page_runs);
    let mut near = Near::start();
    let mut p: PageNumber = 0;
    'pieces: while p < MOST_PAGES {
        let (found, edge, next) = found_run(page_runs, rising, near, p);
        if let Some(page_run) = found {
            let range = Range { from: p, to: edge };
            fill_range(rows, place, page_run.origin, range);
        }
        near = next;
        p = edge;
    }
}

impl PageCells {
    /// The number of ranges that a place would have after `change`.
    pub fn count_after(&self, place: usize, page_runs: &[PageRun], reads: &[Range]) -> u32
        requires place { place < length (cells self.now) }
        requires page_runs { All (IsPageRun (length (cells self.now)) place) page_runs.now }
        ensures { result ≡ ranges MOST_PAGES
            (changed_states (cells self.now) (rights self.now) place page_runs.now reads.now) }
    {
        let rising = rising_parts(page_runs);
        let mut near = Near::start();
        let mut count = 0u32;
        let mut last = None;
        let mut p: PageNumber = 0;
        'stretches: while p < MOST_PAGES {
            let (stretch, next) = stretch_at(place, page_runs, rising, near, reads, p);
            let (more, end) = self.count_given(&stretch, last);
            count += more;
            last = end;
            near = next;
            p = stretch.range.to;
        }
        count
    }

    /// Gives the pages of each page run of a place what its origin and its right say, and leaves all other
    /// pages. Of two page runs that have a page, the first counts. The pages of `reads` that are present then
    /// get the right `Read`, whether a page run has them or not. No frame is written.
    pub fn change(&mut self, place: usize, page_runs: &[PageRun], reads: &[Range])
        requires place { place < length (cells self.old) }
        requires page_runs { All (IsPageRun (length (cells self.old)) place) page_runs.now }
        requires ranges { ranges MOST_PAGES
            (changed_states (cells self.old) (rights self.old) place page_runs.now reads.now) ≤ MOST_RANGES }
        ensures cells { cells self.new
            ≡ slice_set (cells self.old) place (changed_place (cells self.old) place page_runs.now) }
        ensures rights { rights self.new
            ≡ slice_set (rights self.old) place
            (changed_rights (cells self.old) (rights self.old) place page_runs.now reads.now) }
        ensures frames { frames_of self.new ≡ frames_of self.old }
        ensures pool { pool self.new ≡ pool self.old }
        ensures free { free_frames self.old ≤ free_frames self.new }
        ensures free_empty { place_of (cells self.old) place ≡ no_pages
            → free_frames self.new ≡ free_frames self.old }
        ensures nodes { free_nodes self.old
            ≤ free_nodes self.new + (min 1 (length page_runs.now) + 8 * length page_runs.now) }
        ensures nodes_empty { place_of (cells self.old) place ≡ no_pages
            → free_nodes self.old
            ≤ free_nodes self.new + (min 1 (length page_runs.now) + 4 * length page_runs.now) }
        ensures cost { node_steps self.new ≤ node_steps self.old + 1532 * length page_runs.now }
        ensures cost_empty { place_of (cells self.old) place ≡ no_pages
            → node_steps self.new ≤ node_steps self.old + 128 * length page_runs.now }
    {
        let kinds = self.kinds_after(place, page_runs, reads);
        let some = has_own_page(&kinds);
        self.kinds[place] = kinds;
        if some {
            fill_row(&mut self.rows, place, page_runs);
        } else {
            self.rows.drop_row(place);
        }
    }

    /// Makes all pages of a place those of another, and their rights, by one hold of the root of their tree.
    /// No frame is written.
    pub fn clone_place(&mut self, to: usize, from: usize)
        requires to { to < length (cells self.old) }
        requires from { from < length (cells self.old) }
        requires apart { from ≢ to }
        ensures cells { cells self.new ≡ slice_set (cells self.old) to (place_of (cells self.old) from) }
        ensures rights { rights self.new ≡ slice_set (rights self.old) to (rights_of (rights self.old) from) }
        ensures frames { frames_of self.new ≡ frames_of self.old }
        ensures pool { pool self.new ≡ pool self.old }
        ensures free { free_frames self.old ≤ free_frames self.new }
        ensures free_empty { place_of (cells self.old) to ≡ no_pages
            → free_frames self.new ≡ free_frames self.old }
        ensures nodes { free_nodes self.old ≤ free_nodes self.new }
        ensures cost { node_steps self.new ≤ node_steps self.old + (1 + TREE_NODES) }
        ensures cost_empty { place_of (cells self.old) to ≡ no_pages
            → node_steps self.new ≤ node_steps self.old
            + min 1 (ranges MOST_PAGES
            (states_of (place_of (cells self.old) from) (rights_of (rights self.old) from))) }
    {
        let some = has_own_page(&self.kinds[from]);
        self.kinds.copy(to, from);
        if some {
            self.rows.clone_row(to, from);
        } else {
            self.rows.drop_row(to);
        }
    }

    /// Takes all pages from a place, and gives back all that no other place holds.
    pub fn clear_place(&mut self, place: usize)
        requires place { place < length (cells self.old) }
        ensures cells { cells self.new ≡ slice_set (cells self.old) place no_pages }
        ensures rights { rights self.new ≡ slice_set (rights self.old) place all_write }
        ensures frames { frames_of self.new ≡ frames_of self.old }
        ensures pool { pool self.new ≡ pool self.old }
        ensures free { free_frames self.old ≤ free_frames self.new }
        ensures nodes { free_nodes self.old ≤ free_nodes self.new }
        ensures cost { node_steps self.new ≤ node_steps self.old + TREE_NODES }
        ensures cost_empty { place_of (cells self.old) place ≡ no_pages
            → node_steps self.new ≡ node_steps self.old }
    {
        self.kinds[place].clear();
        self.rows.drop_row(place);
    }
}
