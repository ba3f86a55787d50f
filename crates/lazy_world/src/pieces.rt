use crate::places::Places;
use arrayvec::ArrayVec;
use cow_space::{Origin, PageRun};
use lwc_base::{Cell, Lent, MOST_ITEMS, MOST_PAGE_RUNS, NOBODY, Range, SLOTS, SlotNumber};

/// Where a place gets its pages: all that another place has, or by page runs. Pages of no page run stay.
/// Those of the ranges may only be read then.
#[derive(Drop)]
pub enum PageOrigins {
    AllOf(usize),
    PageRuns(ArrayVec<PageRun, MOST_PAGE_RUNS>, ArrayVec<Range, MOST_ITEMS>),
}

/// Where a place gets its cells: its pages, each of its slots, and its credential. Those without an origin
/// stay.
#[derive(Drop)]
pub struct Origins {
    pub(crate) pages: PageOrigins,
    pub(crate) slots: [Option<Origin>; 64],
    pub(crate) uid: Option<Origin>,
}

impl Origins {
    ghost use Rattle.lazy_world.specs.Origins.{AreNone};

    /// Origins of nothing: all stays.
    #[inline(always)]
    pub(crate) fn none() -> Origins
        ensures { AreNone result }
    {
        Origins {
            pages: PageOrigins::PageRuns(ArrayVec::new(), ArrayVec::new()),
            slots: [None; 64],
            uid: None,
        }
    }
}

impl Places {
    ghost use Rattle.std.specs.Prelude.{◌≡◌, ◌≢◌, ◌<◌, ◌≤◌, ◌+◌, ◌*◌, ℕ, All, Some, length, min};
    ghost use Rattle.lwc_base.specs.declared.cell.Cell.{Cell};
    ghost use Rattle.lwc_base.specs.Keys.{with_key};
    ghost use Rattle.lwc_types.specs.declared.key.TheConstants.{SLOTS};
    ghost use Rattle.lwc_types.specs.declared.key.Key.TheVariants.{Slot, Cred};
    ghost use Rattle.lwc_types.specs.declared.limits.TheConstants.{MOST_PAGES, MOST_RANGES};
    ghost use Rattle.range_map.specs.Kinds.{ranges};
    ghost use Rattle.cow_space.specs.Changes.{IsPageRun};
    ghost use Rattle.cow_space.specs.declared.page_runs.Origin.TheVariants.{CopyOf};
    ghost use Rattle.lazy_world.specs.Cells.{HasNoPages, put_rights, put_row, states_of};
    ghost use Rattle.lazy_world.specs.Transfers.{CanGet, given, given_or};
    ghost use Rattle.lazy_world.specs.Origins.{AreGiven, ArePagesGiven, any_nodes, any_steps, most_nodes};
    ghost use Rattle.lazy_world.specs.Origins.{most_steps, slot_origin};
    ghost use Rattle.lazy_world.specs.Origins.{origin_row, origin_states, with_pages, with_rights};
    ghost use Rattle.lazy_world.specs.Origins.{with_slots, with_states};
    ghost use Rattle.lazy_world.specs.declared.pieces.PageOrigins.TheVariants.{AllOf, PageRuns};
    ghost use Rattle.lazy_world.specs.Seen.{KeepsStore, count, frame_count, free_frames, free_nodes};
    ghost use Rattle.lazy_world.specs.Seen.{node_steps, pool, rights, rows};

    /// Gives a place all pages of another one, and their rights, by a hold of the root of their tree.
    pub(crate) fn copy_pages(&mut self, place: usize, other: usize)
        requires place { place < count self.old }
        requires origin { other < count self.old }
        requires apart { other ≢ place }
        ensures rows { rows self.new
            ≡ put_row (rows self.old) place (with_pages (rows self.old) (AllOf other) (rows self.old place)) }
        ensures rights { rights self.new ≡ put_rights (rights self.old) place (rights self.old other) }
        ensures count { count self.new ≡ count self.old }
        ensures frames { frame_count self.new ≡ frame_count self.old }
        ensures nodes { free_nodes self.old ≤ free_nodes self.new }
        ensures free { free_frames self.old ≤ free_frames self.new }
        ensures free_empty { HasNoPages (rows self.old place) → free_frames self.new ≡ free_frames self.old }
        ensures pool { pool self.new ≡ pool self.old }
        ensures cost { HasNoPages (rows self.old place)
            → node_steps self.new ≤ node_steps self.old
            + min 1 (ranges MOST_PAGES (states_of (rows self.old other) (rights self.old other))) }
        ensures cost_any { node_steps self.new ≤ node_steps self.old + any_steps (AllOf other) }
    {
        self.pages.clone_place(place, other);
    }

    /// Makes the pages of each page run of a place what their origin says, and those of the ranges such as
    /// may only be read.
    fn change_pages(
        &mut self,
        place: usize,
        page_runs: &ArrayVec<PageRun, MOST_PAGE_RUNS>,
        reads: &ArrayVec<Range, MOST_ITEMS>,
    )
        requires place { place < count self.old }
        requires given { All (IsPageRun (count self.old) place) page_runs.now.items }
        requires ranges { ranges MOST_PAGES
            (with_states (rows self.old) (rights self.old) place (PageRuns page_runs.now reads.now))
            ≤ MOST_RANGES }
        ensures rows { rows self.new ≡ put_row (rows self.old) place
            (with_pages (rows self.old) (PageRuns page_runs.now reads.now) (rows self.old place)) }
        ensures rights { rights self.new ≡ put_rights (rights self.old) place
            (with_rights (rows self.old) (rights self.old) place (PageRuns page_runs.now reads.now)) }
        ensures count { count self.new ≡ count self.old }
        ensures frames { frame_count self.new ≡ frame_count self.old }
        ensures nodes { HasNoPages (rows self.old place)
            → free_nodes self.old ≤ free_nodes self.new + most_nodes (PageRuns page_runs.now reads.now) }
        ensures nodes_any { free_nodes self.old
            ≤ free_nodes self.new + any_nodes (PageRuns page_runs.now reads.now) }
        ensures free { free_frames self.old ≤ free_frames self.new }
        ensures free_empty { HasNoPages (rows self.old place) → free_frames self.new ≡ free_frames self.old }
        ensures pool { pool self.new ≡ pool self.old }
        ensures cost { HasNoPages (rows self.old place)
            → node_steps self.new ≤ node_steps self.old + 128 * length page_runs.now.items }
        ensures cost_any { node_steps self.new
            ≤ node_steps self.old + any_steps (PageRuns page_runs.now reads.now) }
    {
        self.pages
            .change(place, page_runs.as_slice(), reads.as_slice());
    }

    /// Makes the pages of a place what their origins say.
    fn take_pages(&mut self, place: usize, pages: &PageOrigins)
        requires place { place < count self.old }
        requires given { ArePagesGiven (count self.old) place pages.now }
        requires ranges { ranges MOST_PAGES (with_states (rows self.old) (rights self.old) place pages.now)
            ≤ MOST_RANGES }
        ensures rows { rows self.new
            ≡ put_row (rows self.old) place (with_pages (rows self.old) pages.now (rows self.old place)) }
        ensures rights { rights self.new
            ≡ put_rights (rights self.old) place
            (with_rights (rows self.old) (rights self.old) place pages.now) }
        ensures count { count self.new ≡ count self.old }
        ensures frames { frame_count self.new ≡ frame_count self.old }
        ensures nodes { HasNoPages (rows self.old place)
            → free_nodes self.old ≤ free_nodes self.new + most_nodes pages.now }
        ensures nodes_any { free_nodes self.old ≤ free_nodes self.new + any_nodes pages.now }
        ensures free { free_frames self.old ≤ free_frames self.new }
        ensures free_empty { HasNoPages (rows self.old place) → free_frames self.new ≡ free_frames self.old }
        ensures pool { pool self.new ≡ pool self.old }
        ensures cost { HasNoPages (rows self.old place)
            → node_steps self.new ≤ node_steps self.old
            + most_steps (rows self.old) (rights self.old) pages.now }
        ensures cost_any { node_steps self.new ≤ node_steps self.old + any_steps pages.now }
    {
        match pages {
            PageOrigins::AllOf(j) => self.copy_pages(place, *j),
            PageOrigins::PageRuns(page_runs, reads) => {
                self.change_pages(place, page_runs, reads)
            }
        }
    }

    /// Makes a slot of a place what another slot, of the same or another place, is.
    pub(crate) fn copy_slot(
        &mut self,
        place: usize,
        slot: SlotNumber,
        other: usize,
        other_slot: SlotNumber,
    )
        requires place { place < count self.old }
        requires slot { slot < SLOTS }
        requires origin { other < count self.old }
        requires origin_slot { other_slot < SLOTS }
        ensures rows { rows self.new ≡ put_row (rows self.old) place
            (with_key Cell (Slot slot) (rows self.old other (Slot other_slot)) (rows self.old place)) }
        ensures count { count self.new ≡ count self.old }
        ensures frames { frame_count self.new ≡ frame_count self.old }
        ensures store { KeepsStore self.old self.new }
    {
        self.slots.copy_slot(place, slot, other, other_slot);
    }

    /// Makes a slot of a place what an origin gives.
    fn fill_slot(&mut self, place: usize, slot: SlotNumber, origin: Origin)
        requires place { place < count self.old }
        requires slot { slot < SLOTS }
        requires given { CanGet (count self.old) place (Some origin) }
        ensures rows { rows self.new
            ≡ put_row (rows self.old) place
            (with_key Cell (Slot slot) (given (rows self.old) (Slot slot) origin)
            (rows self.old place)) }
        ensures count { count self.new ≡ count self.old }
        ensures frames { frame_count self.new ≡ frame_count self.old }
        ensures store { KeepsStore self.old self.new }
    {
        match origin {
            Origin::Absent | Origin::Zeros => self.put_slot(place, slot, Cell::Own(Lent::Empty)),
            Origin::Common(g) => self.put_slot(place, slot, Cell::Common(g)),
            Origin::CopyOf(j) => self.copy_slot(place, slot, j, slot),
        }
    }

    /// Makes a slot of a place what its origin says, if it has one.
    fn take_slot(&mut self, place: usize, slot: SlotNumber, origin: Option<Origin>)
        requires place { place < count self.old }
        requires slot { slot < SLOTS }
        requires given { CanGet (count self.old) place origin }
        ensures rows { rows self.new ≡ put_row (rows self.old) place
            (with_key Cell (Slot slot) (given_or (rows self.old) (Slot slot) (rows self.old place (Slot slot)) origin)
            (rows self.old place)) }
        ensures count { count self.new ≡ count self.old }
        ensures frames { frame_count self.new ≡ frame_count self.old }
        ensures store { KeepsStore self.old self.new }
    {
        if let Some(origin) = origin {
            self.fill_slot(place, slot, origin);
        }
    }

    /// Makes the slots of a place what their origins say.
    fn take_slots(&mut self, place: usize, origins: &[Option<Origin>; 64])
        requires place { place < count self.old }
        requires given { (n : ℕ) → n < SLOTS → CanGet (count self.old) place (slot_origin origins.now n) }
        ensures rows { rows self.new ≡ put_row (rows self.old) place
            (with_slots SLOTS (rows self.old) origins.now (rows self.old place)) }
        ensures count { count self.new ≡ count self.old }
        ensures frames { frame_count self.new ≡ frame_count self.old }
        ensures store { KeepsStore self.old self.new }
    {
        for n in 0..SLOTS {
            self.take_slot(place, n, origins[n as usize]);
        }
    }

    /// The credential that an origin gives.
    pub(crate) fn given_uid(&self, origin: Origin) -> Cell<u32>
        requires { (j : ℕ) → origin ≡ CopyOf j → j < count self.now }
        ensures { result ≡ given (rows self.now) Cred origin }
    {
        match origin {
            Origin::Absent | Origin::Zeros => Cell::Own(NOBODY),
            Origin::Common(g) => Cell::Common(g),
            Origin::CopyOf(j) => match self.uid(j) {
                Cell::Own(uid) => Cell::Own(*uid),
                Cell::Common(g) => Cell::Common(*g),
            },
        }
    }

    /// Makes the credential of a place what its origin says, if it has one.
    fn take_uid(&mut self, place: usize, origin: Option<Origin>)
        requires place { place < count self.old }
        requires given { CanGet (count self.old) place origin }
        ensures rows { rows self.new ≡ put_row (rows self.old) place
            (with_key Cell Cred (given_or (rows self.old) Cred (rows self.old place Cred) origin)
            (rows self.old place)) }
        ensures count { count self.new ≡ count self.old }
        ensures frames { frame_count self.new ≡ frame_count self.old }
        ensures store { KeepsStore self.old self.new }
    {
        if let Some(origin) = origin {
            let uid = self.given_uid(origin);
            self.put_uid(place, uid);
        }
    }

    /// Makes the cells of a place what their origins say. A place without pages takes at most 128 node steps
    /// and 4 free nodes for each page run, and one free node besides, or one step if it gets all pages of
    /// another one. Any other place takes at most 1532 node steps and 8 free nodes for each page run, and
    /// one free node besides. No frame is taken or written.
    pub fn take(&mut self, place: usize, origins: &Origins)
        requires place { place < count self.old }
        requires given { AreGiven (count self.old) place origins.now }
        requires few { ranges MOST_PAGES (origin_states (rows self.old) (rights self.old) place origins.now)
            ≤ MOST_RANGES }
        ensures rows { rows self.new
            ≡ put_row (rows self.old) place (origin_row (rows self.old) place origins.now) }
        ensures rights { rights self.new ≡ put_rights (rights self.old) place
            (with_rights (rows self.old) (rights self.old) place origins.now.pages) }
        ensures count { count self.new ≡ count self.old }
        ensures frames { frame_count self.new ≡ frame_count self.old }
        ensures nodes { HasNoPages (rows self.old place)
            → free_nodes self.old ≤ free_nodes self.new + most_nodes origins.now.pages }
        ensures nodes_any { free_nodes self.old ≤ free_nodes self.new + any_nodes origins.now.pages }
        ensures free { free_frames self.old ≤ free_frames self.new }
        ensures free_empty { HasNoPages (rows self.old place) → free_frames self.new ≡ free_frames self.old }
        ensures pool { pool self.new ≡ pool self.old }
        ensures cost { HasNoPages (rows self.old place)
            → node_steps self.new ≤ node_steps self.old
            + most_steps (rows self.old) (rights self.old) origins.now.pages }
        ensures cost_any { node_steps self.new ≤ node_steps self.old + any_steps origins.now.pages }
    {
        self.take_pages(place, &origins.pages);
        self.take_slots(place, &origins.slots);
        self.take_uid(place, origins.uid);
    }
}
