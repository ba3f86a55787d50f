ghost use Rattle.std.specs.Prelude.{◌≡◌, ◌≢◌, ◌<◌, ◌≤◌, ◌+◌, ◌*◌, ℕ, All, false, length, true};
ghost use Rattle.std.specs.Prelude.{[], IfNone, IfSome, None, Some};
ghost use Rattle.lwc_base.specs.declared.cell.Cell.TheVariants.{Own};
ghost use Rattle.lwc_base.specs.declared.item.Mode.TheVariants.{Copy};
ghost use Rattle.lwc_base.specs.Modes.{IsItem, IsSpec, mode, names};
ghost use Rattle.lwc_base.specs.Sharing.{clone_context, needs_group, ranges_after_clone};
ghost use Rattle.lwc_base.specs.World.{next_context};
ghost use Rattle.lwc_types.specs.declared.key.Key.{Key};
ghost use Rattle.lwc_types.specs.declared.key.Key.TheVariants.{Page};
ghost use Rattle.lwc_types.specs.declared.limits.TheConstants.{MOST_PAGES, MOST_RANGES};
ghost use Rattle.range_map.specs.Kinds.{is_between, ranges};
ghost use Rattle.cow_space.specs.Changes.{IsPageRun};
ghost use Rattle.world_face.specs.Calls.{AreFew, HasGroupPlace, HasPlace, IsLive, MayName};
ghost use Rattle.lwc_types.specs.declared.right.Right.{Right};
ghost use Rattle.lazy_world.specs.Cells.{HasNoPages, Row, states_of};
ghost use Rattle.lazy_world.specs.Clones.{AreBounded, CopiesPages};
ghost use Rattle.lazy_world.specs.Costs.{CloneSteps, CloneStore, CopySteps, CopyStore};
ghost use Rattle.lazy_world.specs.Clones.{clone_gift, item_gift, kind_origin};
ghost use Rattle.lazy_world.specs.Transfers.{given_or, moves, transferred_rights, transferred_row};
ghost use Rattle.lazy_world.specs.Seen.{count, rights, rows};
ghost use Rattle.lazy_world.specs.Sound.{IsEmpty};
ghost use Rattle.lazy_world.specs.Origins.{AreGiven, AreNone, ArePagesGiven, HasNoRuns, gift_at, gift_of, origin_row};
ghost use Rattle.lazy_world.specs.Origins.{page_origin, with_rights};
ghost use Rattle.lazy_world.specs.declared.transfer.Transfer.TheVariants.{Clone};

use crate::pieces::{Origins, PageOrigins};
use crate::transfer::{Transfer, list_read_pages};
use crate::world::PlacedWorld;
use arrayvec::ArrayVec;
use cow_space::{Origin, PageRun};
use lwc_base::{Item, Items, Kind, MOST_PAGE_RUNS, Mode, NOBODY, Name, Range, Regs};
use range_map::SegmentKind;

/// The page run of an item in a clone of the place `from`: its pages are shared, or left out. Pages that are
/// copied have theirs by segments.
fn item_run(item: &Item, from: usize) -> Option<PageRun>
    requires { IsItem MOST_PAGES item.now }
    ensures none { IfNone result ((q : ℕ) → names item.now (Page q) ≡ true
        → item_gift from (Some item.now.mode) ≡ None) }
    ensures pages { IfSome result (λ s. (q : ℕ)
        → is_between s.range.from s.range.to q ≡ names item.now (Page q)) }
    ensures some { IfSome result (λ s. s.range.from < s.range.to) }
    ensures inside { IfSome result (λ s. s.range.to ≤ MOST_PAGES) }
    ensures gift { IfSome result (λ s. Some (gift_of s) ≡ item_gift from (Some item.now.mode)) }
{
    let origin = match item.mode {
        Mode::Share => Origin::CopyOf(from),
        Mode::Unmap => Origin::Absent,
        Mode::Copy | Mode::CopyRead => return None,
    };
    Some(PageRun {
        range: item.pages()?,
        origin,
        right: None,
    })
}

/// Lists the page runs of items in a clone of the place `from`.
fn list_item_runs(spec: &Items, from: usize, page_runs: &mut ArrayVec<PageRun, MOST_PAGE_RUNS>)
    requires none { page_runs.old.items ≡ [] }
    ensures gifts { (q : ℕ) → gift_at page_runs.new.items q ≡ item_gift from (mode spec.now (Page q)) }
    ensures few { length page_runs.new.items ≤ length spec.now }
    ensures given { (count to : ℕ) → from < count → from ≢ to
        → All (IsPageRun count to) page_runs.new.items }
{
    for item in spec.items() {
        let Some(page_run) = item_run(item, from) else {
            continue;
        };
        page_runs.push(page_run);
    }
}

/// Whether an item names pages in another mode than copy.
fn changes_pages(item: &Item) -> bool
    requires { IsItem MOST_PAGES item.now }
    ensures copied { result ≡ false → (q : ℕ) → names item.now (Page q) ≡ true → item.now.mode ≡ Copy }
    ensures named { result ≡ true → names item.now (Page item.now.from) ≡ true }
    ensures other { result ≡ true → item.now.mode ≢ Copy }
{
    item.kind == Kind::Page && item.mode != Mode::Copy
}

/// Whether a clone copies each page with its right: items share no page, leave none out, and copy none
/// read-only.
fn copies_pages(spec: &Items) -> bool
    ensures copied { result ≡ true → CopiesPages spec.now }
    ensures all { CopiesPages spec.now → result ≡ true }
{
    for item in spec.items() {
        if changes_pages(item) {
            return false;
        }
    }
    true
}

impl PlacedWorld {
    ghost use Rattle.lwc_base.specs.Fresh.{IsFresh};
    ghost use Rattle.lwc_base.specs.Ranges.{ranges_of};
    ghost use Rattle.lwc_base.specs.World.{context};
    ghost use Rattle.lazy_world.specs.Followed.{followed};
    ghost use Rattle.lazy_world.specs.Worlds.{parts, right_transferred, transferred, seen};

    /// Where copies of pages of a kind come from, if they are those of the place `from`.
    fn kind_origin(&self, kind: SegmentKind, from: usize) -> Origin
        ensures { result ≡ kind_origin (parts self.now) from kind }
    {
        match kind {
            SegmentKind::Own => Origin::CopyOf(from),
            SegmentKind::Common(g) => match self.group_place(g) {
                Some(place) => Origin::CopyOf(place),
                None => Origin::Absent,
            },
        }
    }

    /// Lists the page runs that give a place without pages those of a clone of the place `from`: at most one
    /// for each item, and one for each segment.
    fn list_clone_runs(
        &self,
        spec: &Items,
        from: usize,
        page_runs: &mut ArrayVec<PageRun, MOST_PAGE_RUNS>,
    )
        requires from { from < count self.now.places }
        requires within { IsSpec (seen self.now).size.pages spec.now }
        requires none { page_runs.old.items ≡ [] }
        ensures gifts { (q : ℕ)
            → gift_at page_runs.new.items q ≡ clone_gift (parts self.now) spec.now from q }
        ensures few { length page_runs.new.items
            ≤ ranges MOST_PAGES (states_of (rows self.now.places from) (rights self.now.places from))
            + length spec.now }
        ensures given { (to : ℕ) → from ≢ to → to < (parts self.now).size.contexts
            → All (IsPageRun (count self.now.places) to) page_runs.new.items }
    {
        list_item_runs(spec, from, page_runs);
        for segment in self.places.pages.segments(from) {
            page_runs.push(PageRun {
                range: Range {
                    from: segment.from,
                    to: segment.to,
                },
                origin: self.kind_origin(segment.kind, from),
                right: Some(segment.right),
            });
        }
    }

    /// Tells where a place without pages gets those of a clone of the place `from`, where no page is left
    /// that moves. Pages that are all copied and all that place's own are taken whole.
    fn clone_pages(&self, spec: &Items, from: usize, pages: &mut PageOrigins)
        requires none { HasNoRuns pages.old }
        requires from { from < count self.now.places }
        requires within { IsSpec (seen self.now).size.pages spec.now }
        requires settled { (q : ℕ) → moves spec.now (Page q) (rows self.now.places from) ≡ false }
        ensures gives { (made : Name) (old : Row) (q : ℕ)
            → given_or (rows self.now.places) (Page q) (Own None) (page_origin pages.new q)
            ≡ transferred_row (seen self.now) (Clone made) spec.now (rows self.now.places from) old (Page q) }
        ensures rights { (made : Name) (to : ℕ) → HasNoPages (rows self.now.places to)
            → with_rights (rows self.now.places) (rights self.now.places) to pages.new
            ≡ right_transferred self.now (Clone made) spec.now from to }
        ensures given { (to : ℕ) → from ≢ to → to < (parts self.now).size.contexts
            → ArePagesGiven (count self.now.places) to pages.new }
        ensures bounded { AreBounded (rows self.now.places) (rights self.now.places) from spec.now
            pages.new }
    {
        if copies_pages(spec) && self.places.has_own_pages(from) {
            *pages = PageOrigins::AllOf(from);
            return;
        }
        match pages {
            PageOrigins::AllOf(_) => {}
            PageOrigins::PageRuns(page_runs, reads) => {
                self.list_clone_runs(spec, from, page_runs);
                list_read_pages(spec, reads);
            }
        }
    }

    /// Tells where the place `to`, which has no pages, gets the cells of a clone of the place `from`, where
    /// nothing is left that moves.
    fn clone_origins(&self, made: Name, spec: &Items, from: usize, to: usize, origins: &mut Origins)
        requires none { AreNone origins.old }
        requires from { from < count self.now.places }
        requires to { to < (parts self.now).size.contexts }
        requires apart { from ≢ to }
        requires within { IsSpec (seen self.now).size.pages spec.now }
        requires settled { (k : Key) → moves spec.now k (rows self.now.places from) ≡ false }
        requires empty { HasNoPages (rows self.now.places to) }
        ensures row { origin_row (rows self.now.places) to origins.new
            ≡ transferred self.now (Clone made) spec.now from to }
        ensures rights { with_rights (rows self.now.places) (rights self.now.places) to origins.new.pages
            ≡ right_transferred self.now (Clone made) spec.now from to }
        ensures given { AreGiven (count self.now.places) to origins.new }
        ensures bounded { AreBounded (rows self.now.places) (rights self.now.places) from spec.now
            origins.new.pages }
    {
        let transfer = Transfer::Clone(made);
        self.clone_pages(spec, from, &mut origins.pages);
        self.slot_origins(transfer, spec, from, to, &mut origins.slots);
        origins.uid = self.uid_origin(transfer, spec, from, to);
    }

    /// A context without pages gets the cells of a clone of another one, from where its origins say.
    // The origins are a large value: each caller would clear it if this were a part of it, and it is filled in
    // its place, since each move of it is a copy.
    #[inline(never)]
    fn clone_pieces(&mut self, spec: &Items, of_context: Name, made: Name)
        requires from { IsLive (seen self.old) of_context }
        requires to { IsLive (seen self.old) made }
        requires apart { of_context ≢ made }
        requires within { IsSpec (seen self.old).size.pages spec.now }
        requires settled { (k : Key) → moves spec.now k (context (seen self.old) of_context).cell ≡ false }
        requires empty { HasNoPages (context (seen self.old) made).cell }
        requires fresh { IsFresh (followed (seen self.old) (Clone made) spec.now of_context made) }
        requires few { ranges_of (followed (seen self.old) (Clone made) spec.now of_context made) made
            ≤ MOST_RANGES }
        ensures world { seen self.new ≡ followed (seen self.old) (Clone made) spec.now of_context made }
        ensures store { CopyStore self.old self.new of_context spec.now }
        ensures steps { CopySteps self.old self.new of_context spec.now }
    {
        let from = self.place(of_context);
        let to = self.place(made);
        let mut origins = Origins::none();
        self.clone_origins(made, spec, from, to, &mut origins);
        self.places.take(to, &origins);
    }

    /// A context with nothing but a credential gets the cells of a clone of another one, once that one's
    /// values of mode share have moved. For each range of the other one and for each item it takes at most
    /// 128 node steps and 4 free nodes, and one free node besides; at most one node step and no node where
    /// all pages are the other one's own, and items share none and leave none out. No frame is taken or
    /// written.
    pub(crate) fn copy_cells(&mut self, spec: &Items, of_context: Name, made: Name)
        requires from { IsLive (seen self.old) of_context }
        requires to { IsLive (seen self.old) made }
        requires apart { of_context ≢ made }
        requires within { IsSpec (seen self.old).size.pages spec.now }
        requires settled { (k : Key) → moves spec.now k (context (seen self.old) of_context).cell ≡ false }
        requires empty { IsEmpty (context (seen self.old) made).cell }
        requires fresh { IsFresh (followed (seen self.old) (Clone made) spec.now of_context made) }
        requires few { ranges_of (followed (seen self.old) (Clone made) spec.now of_context made) made
            ≤ MOST_RANGES }
        ensures world { seen self.new ≡ followed (seen self.old) (Clone made) spec.now of_context made }
        ensures store { CopyStore self.old self.new of_context spec.now }
        ensures steps { CopySteps self.old self.new of_context spec.now }
    {
        let from = self.place(of_context);
        let to = self.place(made);
        if self.can_copy(Transfer::Clone(made), spec, from, to) {
            self.places.copy_place(to, from);
        } else {
            self.clone_pieces(spec, of_context, made);
        }
    }

    /// Makes a new context of a job from another one. Values of mode share that are the other's own move
    /// into one new group, and both contexts have them in common from then on; what was common already
    /// stays so. Values of mode copy and values that no item names are copied, and those of mode unmap are
    /// left out. Pages keep their rights; those of mode copy read-only are copied with the right Read. The
    /// new context begins with these registers and has no saved ones. Answers its name. No frame is taken or
    /// written.
    #[tactic(auto, using(lwc_base::proofs::Facts::changes))]
    pub(crate) fn clone_context(
        &mut self,
        of_context: Name,
        spec: &Items,
        job: u32,
        entry: &Regs,
    ) -> Name
        requires live { IsLive (seen self.old) of_context }
        requires within { IsSpec (seen self.old).size.pages spec.now }
        requires may { MayName (seen self.old) job }
        requires place { HasPlace (seen self.old) }
        requires group { needs_group (seen self.old) of_context spec.now ≡ true
            → HasGroupPlace (seen self.old) }
        requires few { AreFew (ranges_after_clone (seen self.old) of_context job spec.now) }
        ensures name { result ≡ next_context (seen self.old) job }
        ensures cloned { seen self.new ≡ clone_context (seen self.old) of_context job spec.now entry.now }
        ensures store { CloneStore self.old self.new of_context job spec.now }
        ensures steps { CloneSteps self.old self.new of_context job spec.now }
    {
        self.share(of_context, spec, job);
        let made = self.add_context(job, NOBODY, entry);
        // Nothing is left that moves, so that no value of the new context becomes common by this name.
        self.copy_cells(spec, of_context, made);
        made
    }
}
