ghost use Rattle.std.specs.Prelude.{◌≡◌, ◌≢◌, ◌==◌, ◌||◌, ◌<◌, ◌≤◌, ◌+◌, ◌*◌, ◌⊎◌, ℕ, false, true};
ghost use Rattle.std.specs.Prelude.{if◌then◌else◌, [], All, IfSome, None, length, replicate, unwrap_or};
ghost use Rattle.std.specs.List.{list_any};
ghost use Rattle.std.specs.Option.{option_map};
ghost use Rattle.lwc_base.specs.Modes.{IsSpec, mode, names};
ghost use Rattle.lwc_base.specs.declared.cell.Cell.{Cell};
ghost use Rattle.lwc_base.specs.Keys.{ValueOf};
ghost use Rattle.lwc_types.specs.declared.key.TheConstants.{SLOTS};
ghost use Rattle.lwc_types.specs.declared.key.Key.TheVariants.{Page, Slot, Cred};
ghost use Rattle.lwc_types.specs.declared.limits.TheConstants.{MOST_PAGES, MOST_RANGES};
ghost use Rattle.lwc_types.specs.declared.key.Key.{Key};
ghost use Rattle.lwc_types.specs.declared.key.Kind.TheVariants as kind;
ghost use Rattle.item_modes.specs.Runs.{IsModeRun};
ghost use Rattle.lazy_world.specs.Transfers.{kind_in, owner};
ghost use Rattle.lazy_world.specs.declared.transfer.Transfer.{Transfer};

use crate::pieces::{Origins, PageOrigins};
use crate::transfer::{Found, Transfer};
use crate::world::PlacedWorld;
use arrayvec::ArrayVec;
use cow_space::{Origin, PageRun};
use fd_table::lowest_bit;
use item_modes::{ModeRun, names_slots};
use lwc_base::{
    Cell, Items, Key, MOST_PAGE_RUNS, MOST_PAGES, PageNumber, Range, Right, SlotNumber,
};
use range_map::{PageState, SegmentKind};
use res_spec::mode_of;

/// Who has the value of a cell.
fn owner<T>(cell: &Cell<T>) -> SegmentKind
    ensures { result ≡ owner cell.now }
{
    match cell {
        Cell::Own(_) => SegmentKind::Own,
        Cell::Common(g) => SegmentKind::Common(*g),
    }
}

/// The page run of a range that gets something of an origin, if there is one.
fn page_run_of(origin: Option<Origin>, range: Range, right: Option<Right>) -> Option<PageRun>
    ensures { result ≡ option_map (λ o. record { range = range; origin = o; right = right }) origin }
{
    match origin {
        Some(origin) => Some(PageRun {
            range,
            origin,
            right,
        }),
        None => None,
    }
}

/// What pages get by a transfer up to a later one: what a page run gives, or what they have. They may only be
/// read then, if that is said. `modes` is what the next stretch is found by.
#[derive(Clone, Copy)]
pub(crate) struct Stretch {
    pub(crate) page_run: Option<PageRun>,
    pub(crate) to: PageNumber,
    pub(crate) read: bool,
    pub(crate) modes: ModeRun,
}

impl Stretch {
    ghost use Rattle.lwc_types.specs.declared.right.Right.{Right};
    ghost use Rattle.lwc_types.specs.declared.right.Right.TheVariants.{Read};
    ghost use Rattle.cow_space.specs.declared.page_runs.Origin.TheVariants.{CopyOf};
    ghost use Rattle.lazy_world.specs.Cells.{Row};
    ghost use Rattle.lazy_world.specs.Origins.{gift_of, gift_right, origin_right};
    ghost use Rattle.lazy_world.specs.Transfers.{CanGet, given, given_or};

    /// The page run that gives them all at a place, from a page on: those that stay are copied from there.
    pub(crate) fn whole(self, place: usize, from: PageNumber) -> PageRun
        ensures begin { result.range.from ≡ from }
        ensures end { result.range.to ≡ self.to }
        ensures gives { (rows : ℕ → Row) (q : ℕ) → given rows (Page q) result.origin
            ≡ given_or rows (Page q) (rows place (Page q)) (option_map (λ s. s.origin) self.page_run) }
        ensures right { (rights : ℕ → ℕ → Right) (q : ℕ)
            → unwrap_or result.right (origin_right rights result.origin q)
            ≡ (if self.read then Read
            else gift_right rights q (rights place q) (option_map gift_of self.page_run)) }
        ensures inside { (count : ℕ) → place < count
            → CanGet count place (option_map (λ s. s.origin) self.page_run)
            → (j : ℕ) → result.origin ≡ CopyOf j → j < count }
    {
        let (origin, right) = match self.page_run {
            Some(page_run) => (page_run.origin, page_run.right),
            None => (Origin::CopyOf(place), None),
        };
        PageRun {
            range: Range { from, to: self.to },
            origin,
            right: if self.read { Some(Right::Read) } else { right },
        }
    }
}

impl PlacedWorld {
    ghost use Rattle.cow_space.specs.Changes.{IsPageRun};
    ghost use Rattle.lwc_base.specs.Capabilities.{has_bit};
    ghost use Rattle.lwc_types.specs.declared.right.Right.{Right};
    ghost use Rattle.range_map.specs.Kinds.{kind_of, ranges, state_of};
    ghost use Rattle.lazy_world.specs.Cells.{states_of};
    ghost use Rattle.lazy_world.specs.Transfers.{CanGet, Gives, IsFor, IsFound, given_or, reads};
    ghost use Rattle.lazy_world.specs.Seen.{count, rights, rows};
    ghost use Rattle.lazy_world.specs.Origins.{AreGiven, ArePagesGiven, gift_at, gift_of, gift_right, origin_at};
    ghost use Rattle.lazy_world.specs.Origins.{AreNone, HasNoRuns, origin_row, page_origin};
    ghost use Rattle.lazy_world.specs.Origins.{any_nodes, any_steps, shown_right, slot_origin, with_rights};
    ghost use Rattle.lazy_world.specs.Clones.{change_nodes, change_steps};
    ghost use Rattle.lazy_world.specs.Worlds.{parts, right_transferred, transferred, seen};

    /// What is found under a key where the cell is of a kind; a page has a right.
    fn found(&self, kind: Option<SegmentKind>, right: Option<Right>) -> Found
        ensures found { (k : Key) (cell : Cell (ValueOf k)) → kind ≡ kind_in k cell
            → IsFound (seen self.now) (parts self.now).size.contexts (count self.now.places)
            (rows self.now.places) k cell result }
        ensures right { result.right ≡ right }
    {
        let holder = match kind {
            None => None,
            Some(SegmentKind::Own) => None,
            Some(SegmentKind::Common(g)) => self.group_place(g),
        };
        Found {
            kind,
            holder,
            right,
        }
    }

    /// What is found at a page of a state.
    fn found_state(&self, state: Option<PageState>) -> Found
        ensures found { (p : ℕ) (cell : Cell (ValueOf (Page p))) (right : Right)
            → state ≡ state_of (kind_of cell) right → IsFound (seen self.now)
            (parts self.now).size.contexts (count self.now.places) (rows self.now.places) (Page p) cell
            result }
        ensures right { result.right ≡ option_map (λ s. s.right) state }
    {
        match state {
            Some(state) => self.found(Some(state.kind), Some(state.right)),
            None => self.found(None, None),
        }
    }

    /// What is found at a page of a place, and the first later page of another state, or the end of all
    /// pages.
    #[tactic(auto, unfolding(crate::specs::Seen::rows, crate::specs::Seen::rights, crate::specs::Cells::rows_of))]
    pub(crate) fn found_page(&self, place: usize, page: PageNumber) -> (Found, PageNumber)
        requires place { place < count self.now.places }
        requires page { page < MOST_PAGES }
        ensures past { page < result.1 }
        ensures within { result.1 ≤ MOST_PAGES }
        ensures found { (q : ℕ) → page ≤ q → q < result.1 → IsFound (seen self.now)
            (parts self.now).size.contexts (count self.now.places) (rows self.now.places) (Page q)
            (rows self.now.places place (Page q)) result.0 }
        ensures right { (q : ℕ) → page ≤ q → q < result.1 → result.0.right
            ≡ option_map (λ s. s.right)
            (states_of (rows self.now.places place) (rights self.now.places place) q) }
        ensures alike { (q : ℕ) → page ≤ q → q < result.1
            → states_of (rows self.now.places place) (rights self.now.places place) q
            ≡ states_of (rows self.now.places place) (rights self.now.places place) page }
        ensures other { result.1 < MOST_PAGES
            → states_of (rows self.now.places place) (rights self.now.places place) result.1
            ≢ states_of (rows self.now.places place) (rights self.now.places place) page }
        ensures few { ranges MOST_PAGES
            (states_of (rows self.now.places place) (rights self.now.places place))
            ≤ MOST_RANGES }
    {
        let (state, edge) = self.places.pages.run_at(place, page);
        (self.found_state(state), edge)
    }

    /// What a page gets by a transfer, and all up to a later one, where a range or an item begins or ends.
    pub(crate) fn stretch_from(
        &self,
        transfer: Transfer,
        spec: &Items,
        modes: ModeRun,
        from: usize,
        to: usize,
        page: PageNumber,
    ) -> Stretch
        requires modes { IsModeRun spec.now page modes }
        requires from { from < count self.now.places }
        requires transfer { IsFor (parts self.now).size.contexts from to transfer }
        requires page { page < MOST_PAGES }
        ensures modes { IsModeRun spec.now result.to result.modes }
        ensures past { page < result.to }
        ensures within { result.to ≤ MOST_PAGES }
        ensures begin { IfSome result.page_run (λ s. s.range.from ≡ page) }
        ensures end { IfSome result.page_run (λ s. s.range.to ≡ result.to) }
        ensures gives { (q : ℕ) → page ≤ q → q < result.to
            → given_or (rows self.now.places) (Page q) (rows self.now.places to (Page q))
            (option_map (λ s. s.origin) result.page_run)
            ≡ transferred self.now transfer spec.now from to (Page q) }
        ensures rights { (q : ℕ) → page ≤ q → q < result.to
            → shown_right (transferred self.now transfer spec.now from to (Page q))
            (reads transfer (mode spec.now (Page q)))
            (gift_right (rights self.now.places) q (rights self.now.places to q)
            (option_map gift_of result.page_run))
            ≡ right_transferred self.now transfer spec.now from to q }
        ensures read { (q : ℕ) → page ≤ q → q < result.to
            → reads transfer (mode spec.now (Page q)) ≡ result.read }
        ensures can { CanGet (count self.now.places) to (option_map (λ s. s.origin) result.page_run) }
        ensures alike { (q : ℕ) → page ≤ q → q < result.to
            → states_of (rows self.now.places from) (rights self.now.places from) q
            ≡ states_of (rows self.now.places from) (rights self.now.places from) page }
        ensures edge { result.to < MOST_PAGES
            → (states_of (rows self.now.places from) (rights self.now.places from) result.to
            ≢ states_of (rows self.now.places from) (rights self.now.places from) page)
            ⊎ (list_any (λ item. (item.from == result.to) || (item.to == result.to)) spec.now ≡ true) }
        ensures few { ranges MOST_PAGES (states_of (rows self.now.places from) (rights self.now.places from))
            ≤ MOST_RANGES }
    {
        let (found, edge) = self.found_page(from, page);
        let modes = modes.next(spec, page);
        let end = edge.min(modes.to);
        let origin = transfer.origin(modes.mode, found, from, to);
        let range = Range {
            from: page,
            to: end,
        };
        Stretch {
            page_run: page_run_of(origin, range, found.right),
            to: end,
            read: transfer.makes_read(modes.mode),
            modes,
        }
    }

    /// Lists the page runs that give a place its pages by a transfer: at most one from each edge of a range or
    /// of an item.
    fn list_page_runs(
        &self,
        transfer: Transfer,
        spec: &Items,
        from: usize,
        to: usize,
        page_runs: &mut ArrayVec<PageRun, MOST_PAGE_RUNS>,
    )
        requires from { from < count self.now.places }
        requires transfer { IsFor (parts self.now).size.contexts from to transfer }
        requires within { IsSpec (seen self.now).size.pages spec.now }
        requires none { page_runs.old.items ≡ [] }
        ensures gives { (q : ℕ) → q < MOST_PAGES
            → given_or (rows self.now.places) (Page q) (rows self.now.places to (Page q))
            (origin_at page_runs.new.items q) ≡ transferred self.now transfer spec.now from to (Page q) }
        ensures rights { (q : ℕ) → q < MOST_PAGES
            → shown_right (transferred self.now transfer spec.now from to (Page q))
            (reads transfer (mode spec.now (Page q)))
            (gift_right (rights self.now.places) q (rights self.now.places to q)
            (gift_at page_runs.new.items q)) ≡ right_transferred self.now transfer spec.now from to q }
        ensures past { (q : ℕ) → MOST_PAGES ≤ q → gift_at page_runs.new.items q ≡ None }
        ensures given { All (IsPageRun (count self.now.places) to) page_runs.new.items }
        ensures few { length page_runs.new.items ≤ 1
            + 2 * (ranges MOST_PAGES (states_of (rows self.now.places from) (rights self.now.places from))
            + length spec.now) }
    {
        let mut modes = ModeRun::empty();
        let mut p: PageNumber = 0;
        'pages: while p < MOST_PAGES {
            let stretch = self.stretch_from(transfer, spec, modes, from, to, p);
            modes = stretch.modes;
            if let Some(page_run) = stretch.page_run {
                page_runs.push(page_run);
            }
            p = stretch.to;
        }
    }

    /// What is found in a slot of a place.
    pub(crate) fn found_slot(&self, place: usize, slot: SlotNumber) -> Found
        requires place { place < count self.now.places }
        requires slot { slot < SLOTS }
        ensures { IsFound (seen self.now) (parts self.now).size.contexts (count self.now.places)
            (rows self.now.places) (Slot slot) (rows self.now.places place (Slot slot)) result }
    {
        self.found(Some(owner(&self.places.slot(place, slot))), None)
    }

    /// What is found under the credential of a place.
    pub(crate) fn found_uid(&self, place: usize) -> Found
        requires { place < count self.now.places }
        ensures { IsFound (seen self.now) (parts self.now).size.contexts (count self.now.places)
            (rows self.now.places) Cred (rows self.now.places place Cred) result }
    {
        self.found(Some(owner(self.places.uid(place))), None)
    }

    /// The origin of a slot by a transfer.
    fn slot_origin(
        &self,
        transfer: Transfer,
        spec: &Items,
        from: usize,
        to: usize,
        slot: SlotNumber,
    ) -> Option<Origin>
        requires from { from < count self.now.places }
        requires transfer { IsFor (parts self.now).size.contexts from to transfer }
        requires slot { slot < SLOTS }
        ensures { Gives (count self.now.places) (rows self.now.places) to (Slot slot)
            (transferred self.now transfer spec.now from to (Slot slot)) result }
    {
        let found = self.found_slot(from, slot);
        transfer.origin(mode_of(spec, Key::Slot(slot)), found, from, to)
    }

    /// The slots that a transfer may change: slot n is bit n. The others are empty in both places, and no
    /// item names them.
    fn changed_slots(&self, spec: &Items, from: usize, to: usize) -> u64
        requires from { from < count self.now.places }
        requires to { to < count self.now.places }
        ensures { (transfer : Transfer) (n : ℕ) → n < SLOTS → has_bit result n ≡ false
            → Gives (count self.now.places) (rows self.now.places) to (Slot n)
            (transferred self.now transfer spec.now from to (Slot n)) None }
    {
        if names_slots(spec) {
            return u64::MAX;
        }
        self.places.filled(from) | self.places.filled(to)
    }

    /// Tells the origin of each slot by a transfer. Mostly few slots are filled, and the others are passed over.
    pub(crate) fn slot_origins(
        &self,
        transfer: Transfer,
        spec: &Items,
        from: usize,
        to: usize,
        origins: &mut [Option<Origin>; 64],
    )
        requires from { from < count self.now.places }
        requires to { to < count self.now.places }
        requires transfer { IsFor (parts self.now).size.contexts from to transfer }
        requires none { origins.old ≡ replicate 64 None }
        ensures long { length origins.new ≡ 64 }
        ensures gives { (n : ℕ) → n < SLOTS → Gives (count self.now.places) (rows self.now.places) to (Slot n)
            (transferred self.now transfer spec.now from to (Slot n)) (slot_origin origins.new n) }
    {
        let changed = self.changed_slots(spec, from, to);
        let mut next = 0;
        'slots: while let Some(n) = lowest_bit(changed, next) {
            origins[n as usize] = self.slot_origin(transfer, spec, from, to, n);
            next = n + 1;
        }
    }

    /// The origin of the credential by a transfer.
    pub(crate) fn uid_origin(
        &self,
        transfer: Transfer,
        spec: &Items,
        from: usize,
        to: usize,
    ) -> Option<Origin>
        requires from { from < count self.now.places }
        requires transfer { IsFor (parts self.now).size.contexts from to transfer }
        ensures { Gives (count self.now.places) (rows self.now.places) to Cred
            (transferred self.now transfer spec.now from to Cred) result }
    {
        let found = self.found_uid(from);
        transfer.origin(mode_of(spec, Key::Cred), found, from, to)
    }

    /// Tells where the place `to` gets its pages and their rights by a transfer from what the place `from` has.
    pub(crate) fn page_origins(
        &self,
        transfer: Transfer,
        spec: &Items,
        from: usize,
        to: usize,
        pages: &mut PageOrigins,
    )
        requires from { from < count self.now.places }
        requires transfer { IsFor (parts self.now).size.contexts from to transfer }
        requires none { HasNoRuns pages.old }
        requires within { IsSpec (seen self.now).size.pages spec.now }
        ensures gives { (q : ℕ) → q < MOST_PAGES
            → given_or (rows self.now.places) (Page q) (rows self.now.places to (Page q))
            (page_origin pages.new q) ≡ transferred self.now transfer spec.now from to (Page q) }
        ensures past { (q : ℕ) → MOST_PAGES ≤ q → page_origin pages.new q ≡ None }
        ensures rights { with_rights (rows self.now.places) (rights self.now.places) to pages.new
            ≡ right_transferred self.now transfer spec.now from to }
        ensures given { ArePagesGiven (count self.now.places) to pages.new }
        ensures nodes { any_nodes pages.new ≤ change_nodes
            (ranges MOST_PAGES (states_of (rows self.now.places from) (rights self.now.places from))
            + length spec.now) }
        ensures steps { any_steps pages.new ≤ change_steps
            (ranges MOST_PAGES (states_of (rows self.now.places from) (rights self.now.places from))
            + length spec.now) }
    {
        match pages {
            PageOrigins::AllOf(_) => {}
            PageOrigins::PageRuns(page_runs, reads) => {
                self.list_page_runs(transfer, spec, from, to, page_runs);
                transfer.list_reads(spec, reads);
            }
        }
    }

    /// Tells where the place `to` gets its cells and rights by a transfer from what the place `from` has.
    pub(crate) fn origins(
        &self,
        transfer: Transfer,
        spec: &Items,
        from: usize,
        to: usize,
        origins: &mut Origins,
    )
        requires from { from < count self.now.places }
        requires to { to < count self.now.places }
        requires transfer { IsFor (parts self.now).size.contexts from to transfer }
        requires none { AreNone origins.old }
        requires within { IsSpec (seen self.now).size.pages spec.now }
        ensures row { origin_row (rows self.now.places) to origins.new
            ≡ transferred self.now transfer spec.now from to }
        ensures rights { with_rights (rows self.now.places) (rights self.now.places) to origins.new.pages
            ≡ right_transferred self.now transfer spec.now from to }
        ensures given { AreGiven (count self.now.places) to origins.new }
        ensures nodes { any_nodes origins.new.pages ≤ change_nodes
            (ranges MOST_PAGES (states_of (rows self.now.places from) (rights self.now.places from))
            + length spec.now) }
        ensures steps { any_steps origins.new.pages ≤ change_steps
            (ranges MOST_PAGES (states_of (rows self.now.places from) (rights self.now.places from))
            + length spec.now) }
    {
        self.page_origins(transfer, spec, from, to, &mut origins.pages);
        self.slot_origins(transfer, spec, from, to, &mut origins.slots);
        origins.uid = self.uid_origin(transfer, spec, from, to);
    }
}
