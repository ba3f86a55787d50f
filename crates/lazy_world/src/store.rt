ghost use Rattle.std.specs.Prelude.{◌≡◌, ◌≢◌, ◌↔◌, ◌*◌, ◌+◌, ◌-◌, ◌<◌, ◌≤◌, ◌^◌, ℕ, [], ◌∷◌, Err};
ghost use Rattle.std.specs.Prelude.{OnErr, OnOk, Some, count_by, false, is_some, length, true, unwrap_or};
ghost use Rattle.lwc_base.specs.declared.cell.Cell.{Cell};
ghost use Rattle.lwc_base.specs.declared.cell.Cell.TheVariants.{Own};
ghost use Rattle.lwc_base.specs.Keys.{with_key};
ghost use Rattle.lwc_types.specs.declared.key.Key.TheVariants.{Page};
ghost use Rattle.lwc_types.specs.declared.name.Tag.{Tag};
ghost use Rattle.lwc_types.specs.declared.page.PageValue.TheVariants.{Zero};
ghost use Rattle.lwc_types.specs.declared.page.TheConstants.{PAGE_BYTES};
ghost use Rattle.lwc_types.specs.declared.right.Right.TheVariants.{Write};
ghost use Rattle.cow_space.specs.Cells.{IsOwnPage, place_of};
ghost use Rattle.cow_space.specs.Frames.{HasFrame, HasLoneFrame};
ghost use Rattle.cow_space.specs.Tags as places;
ghost use Rattle.cow_space.specs.Writes.{write_page, written_value};
ghost use Rattle.lazy_world.specs.Cells.{put_row};
ghost use Rattle.lazy_world.specs.Seen.{count, frame_count, pages, rights, rows};

use crate::places::Places;
use crate::world::PlacedWorld;
use lwc_base::{Counters, Name, PageNumber, Range, Right, StoreFault, Tag, touched_pages};
use range_map::SegmentKind;

impl Places {
    /// Whether a page of a place parts when it is written: it has no bytes of its own, or its tag is at
    /// another page too.
    #[tactic(auto, unfolding(crate::specs::Seen::pages))]
    pub fn is_parting(&self, place: usize, page: PageNumber) -> bool
        requires { place < count self.now }
        ensures { result ≡ places.is_parting (pages self.now) place page }
    {
        match self.pages.kind(place, page) {
            None => true,
            Some(SegmentKind::Common(_)) => true,
            Some(SegmentKind::Own) => self.pages.is_parting(place, page),
        }
    }

    /// Writes what a piece has of a page, if the page is the place's own, may be stored to and does not
    /// part, and tells whether it did. If it did not, nothing changes.
    #[inline(always)]
    #[tactic(auto, unfolding(crate::specs::Seen::pages, crate::specs::Seen::frame_count))]
    pub fn write_in_place(&mut self, place: usize, page: PageNumber, at: u32, piece: &[u8]) -> bool
        requires { place < count self.old }
        ensures own { result ≡ true → IsOwnPage (place_of (pages self.old) place page) }
        ensures may { result ≡ true → rights self.old place page ≡ Write }
        ensures alone { result ≡ true → places.is_parting (pages self.old) place page ≡ false }
        ensures enough { result ≡ true → places.used (pages self.old) ≤ frame_count self.old }
        ensures rows { result ≡ true → (tag : Tag) → rows self.new ≡ put_row (rows self.old) place
            (with_key Cell (Page page)
            (Own (Some (written_value (pages self.old) place page (record { at = at; bytes = piece.now }) tag)))
            (rows self.old place)) }
        ensures same { result ≡ false → rows self.new ≡ rows self.old }
        ensures rights { rights self.new ≡ rights self.old }
        ensures count { count self.new ≡ count self.old }
        ensures frames { frame_count self.new ≡ frame_count self.old }
    {
        self.pages.write_in_place(place, page, at, piece)
    }

    /// Writes what a piece has of a page that has this frame alone.
    #[inline(always)]
    #[tactic(auto, unfolding(crate::specs::Seen::pages, crate::specs::Seen::frame_count))]
    pub fn write_at(&mut self, place: usize, page: PageNumber, frame: u32, at: u32, piece: &[u8])
        requires { HasLoneFrame self.old.pages place page frame }
        ensures own { IsOwnPage (place_of (pages self.old) place page) }
        ensures may { rights self.old place page ≡ Write }
        ensures alone { places.is_parting (pages self.old) place page ≡ false }
        ensures enough { places.used (pages self.old) ≤ frame_count self.old }
        ensures rows { (tag : Tag) → rows self.new ≡ put_row (rows self.old) place
            (with_key Cell (Page page)
            (Own (Some (written_value (pages self.old) place page (record { at = at; bytes = piece.now }) tag)))
            (rows self.old place)) }
        ensures rights { rights self.new ≡ rights self.old }
        ensures count { count self.new ≡ count self.old }
        ensures frames { frame_count self.new ≡ frame_count self.old }
        ensures has { (j q f : ℕ) → HasFrame self.old.pages j q f → HasFrame self.new.pages j q f }
        ensures lone { (j q f : ℕ) → HasLoneFrame self.old.pages j q f → HasLoneFrame self.new.pages j q f }
    {
        self.pages.write_at(place, page, frame, at, piece);
    }

    /// Writes what a piece has of a page that is the place's own, under a new tag if the page parts, and
    /// tells whether it did.
    #[tactic(auto, unfolding(crate::specs::Seen::pages, crate::specs::Seen::frame_count))]
    pub fn write(&mut self, place: usize, page: PageNumber, at: u32, piece: &[u8], tag: Tag) -> bool
        requires place { place < count self.old }
        requires own { IsOwnPage (place_of (pages self.old) place page) }
        requires new { places.IsNewTag (pages self.old) tag }
        requires enough { places.used (pages self.old) + places.taken_by (pages self.old) place page
            ≤ frame_count self.old }
        ensures pages { pages self.new
            ≡ write_page (pages self.old) place page (record { at = at; bytes = piece.now }) tag }
        ensures rows { rows self.new ≡ put_row (rows self.old) place (with_key Cell (Page page)
            (Own (Some (written_value (pages self.old) place page (record { at = at; bytes = piece.now }) tag)))
            (rows self.old place)) }
        ensures rights { rights self.new ≡ rights self.old }
        ensures parted { result ≡ places.is_parting (pages self.old) place page }
        ensures count { count self.new ≡ count self.old }
        ensures frames { frame_count self.new ≡ frame_count self.old }
    {
        match self.pages.write(place, page, at, piece, tag) {
            Ok(parted) => parted,
            Err(_) => unreachable!(),
        }
    }
}

impl PlacedWorld {
    ghost use Rattle.std.specs.List.{list_all, range_with_len};
    ghost use Rattle.lwc_base.specs.Cells.{page_at};
    ghost use Rattle.lwc_base.specs.Frames.{is_parting, used};
    ghost use Rattle.lwc_base.specs.Rights.{may_write};
    ghost use Rattle.lwc_base.specs.Store.{store};
    ghost use Rattle.lwc_base.specs.Store as stores;
    ghost use Rattle.world_face.specs.Calls.{IsLive, MayName};
    ghost use Rattle.lazy_world.specs.Memory.{page_in};
    ghost use Rattle.lazy_world.specs.Stores.{parts_at, store_pages, taken_at};
    ghost use Rattle.lazy_world.specs.Worlds.{seen};

    /// Whether a page of the context at a place parts when it is stored to. An absent page reads as zeros,
    /// which part.
    fn is_parting(&self, place: usize, page: PageNumber) -> bool
        requires { place < count self.now.places }
        ensures { result ≡ is_parting (seen self.now)
            (unwrap_or (page_in (seen self.now) (rows self.now.places place) page) Zero) }
    {
        match self.holder(place, page) {
            Some(j) => self.places.is_parting(j, page),
            None => true,
        }
    }

    /// The number of pages that a store to some pages of the context at a place parts.
    #[tactic(auto, using(lwc_types::proofs::Small::count_of_range))]
    fn parting_count(&self, place: usize, pages: Range) -> usize
        requires { place < count self.now.places }
        ensures parting { result ≡ count_by (λ p. is_parting (seen self.now)
            (unwrap_or (page_in (seen self.now) (rows self.now.places place) p) Zero))
            (range_with_len pages.from (pages.to - pages.from)) }
        ensures few { result ≤ pages.to - pages.from }
    {
        (pages.from..pages.to)
            .filter(|p| self.is_parting(place, *p))
            .count()
    }

    /// Whether the frames in use and the pages that a store to some pages of the context at a place parts
    /// are more than the frames. These pages are looked at only where all of them could not part.
    #[tactic(auto, using(lwc_types::proofs::Small::count_of_range))]
    fn lacks_frames(&self, place: usize, pages: Range) -> bool
        requires place { place < count self.now.places }
        requires order { pages.from ≤ pages.to }
        ensures lacking { result ≡ true → (seen self.now).size.frames < used (seen self.now)
            + count_by (λ p. is_parting (seen self.now)
            (unwrap_or (page_in (seen self.now) (rows self.now.places place) p) Zero))
            (range_with_len pages.from (pages.to - pages.from)) }
        ensures enough { result ≡ false → used (seen self.now)
            + count_by (λ p. is_parting (seen self.now)
            (unwrap_or (page_in (seen self.now) (rows self.now.places place) p) Zero))
            (range_with_len pages.from (pages.to - pages.from)) ≤ (seen self.now).size.frames }
    {
        let used = self.places.pages.used() as usize;
        let frames = self.size.frames as usize;
        let most = (pages.to - pages.from) as usize;
        frames < used + most && frames < used + self.parting_count(place, pages)
    }

    /// Whether bytes may be stored to a page of the context at a place.
    #[tactic(auto, unfolding(crate::specs::Seen::rights))]
    fn is_writable(&self, place: usize, page: PageNumber) -> bool
        requires { place < count self.now.places }
        ensures { result ≡ may_write (rights self.now.places place page) }
    {
        match self.places.pages.right(place, page) {
            Right::Write => true,
            Right::Read => false,
        }
    }

    /// Whether bytes may be stored to each of some pages of the context at a place.
    fn are_writable(&self, place: usize, pages: Range) -> bool
        requires { place < count self.now.places }
        ensures { result ≡ list_all (λ p. may_write (rights self.now.places place p))
            (range_with_len pages.from (pages.to - pages.from)) }
    {
        (pages.from..pages.to).all(|p| self.is_writable(place, p))
    }

    /// Writes what a piece has of a present page of the context, under the job's next tag if the page parts.
    fn write_page(&mut self, context: Name, page: PageNumber, at: u32, piece: &[u8], job: u32)
        requires live { IsLive (seen self.old) context }
        requires there { is_some (page_at (seen self.old) context page) ≡ true }
        requires known { job < (seen self.old).size.jobs }
        requires few { ((seen self.old).next job).tags < 2 ^ 32 - 1 }
        requires enough { used (seen self.old) + taken_at (seen self.old) context page
            ≤ (seen self.old).size.frames }
        ensures stored { seen self.new
            ≡ store_pages (seen self.old) context job (record { at = at; bytes = piece.now }) (page ∷ []) }
        ensures used { used (seen self.new) ≡ used (seen self.old) + taken_at (seen self.old) context page }
        ensures others { (q : ℕ) → q ≢ page
            → parts_at (seen self.new) context q ≡ parts_at (seen self.old) context q }
    {
        let i = self.place(context);
        let Some(j) = self.holder(i, page) else {
            unreachable!()
        };
        let counts = self.counts[job as usize];
        let tag = Tag {
            job,
            k: counts.tags,
        };
        let parted = self.places.write(j, page, at, piece, tag);
        self.counts[job as usize] = Counters {
            tags: counts.tags + u32::from(parted),
            ..counts
        };
    }

    /// Writes a piece to present pages of the context, under the job's next tags.
    fn write_pages(&mut self, context: Name, pages: Range, at: u32, piece: &[u8], job: u32)
        requires live { IsLive (seen self.old) context }
        requires order { pages.from ≤ pages.to }
        requires there { list_all (λ p. is_some (page_at (seen self.old) context p))
            (range_with_len pages.from (pages.to - pages.from)) ≡ true }
        requires known { job < (seen self.old).size.jobs }
        requires few { ((seen self.old).next job).tags < 2 ^ 31 }
        requires enough { used (seen self.old)
            + count_by (parts_at (seen self.old) context) (range_with_len pages.from (pages.to - pages.from))
            ≤ (seen self.old).size.frames }
        ensures { seen self.new
            ≡ store_pages (seen self.old) context job (record { at = at; bytes = piece.now })
            (range_with_len pages.from (pages.to - pages.from)) }
    {
        for p in pages.from..pages.to {
            self.write_page(context, p, at, piece, job);
        }
    }

    /// Stores bytes in the context's memory from the address `at` on, for a job.
    ///
    /// # Errors
    ///
    /// `BadAddress` if a touched page is absent; else `ReadOnly` if one has the right Read; else `NoFrame` if
    /// the frames in use and the pages that part are more than the frames. Never `OutOfMemory`.
    #[inline(never)]
    pub(crate) fn store(
        &mut self,
        context: Name,
        at: u32,
        piece: &[u8],
        job: u32,
    ) -> Result<(), StoreFault>
        requires live { IsLive (seen self.old) context }
        requires within { at + length piece.now ≤ (seen self.old).size.pages * PAGE_BYTES }
        requires short { length piece.now ≤ PAGE_BYTES }
        requires may { MayName (seen self.old) job }
        ensures done { OnOk result
            (store (seen self.old) context job (record { at = at; bytes = piece.now }) ≡
            stores.Done (seen self.new)) }
        ensures bad_address { (result ≡ Err StoreFault.BadAddress) ↔
            (store (seen self.old) context job (record { at = at; bytes = piece.now }) ≡ stores.Absent) }
        ensures read_only { (result ≡ Err StoreFault.ReadOnly) ↔
            (store (seen self.old) context job (record { at = at; bytes = piece.now }) ≡ stores.ReadOnly) }
        ensures no_frame { (result ≡ Err StoreFault.NoFrame) ↔
            (store (seen self.old) context job (record { at = at; bytes = piece.now }) ≡ stores.Full) }
        ensures err { OnErr result (seen self.new ≡ seen self.old) }
        ensures ample { result ≢ Err StoreFault.OutOfMemory }
    {
        let i = self.place(context);
        let pages = touched_pages(at as usize, piece.len());
        if !self.are_present(i, pages) {
            return Err(StoreFault::BadAddress);
        }
        if !self.are_writable(i, pages) {
            return Err(StoreFault::ReadOnly);
        }
        if self.lacks_frames(i, pages) {
            return Err(StoreFault::NoFrame);
        }
        self.write_pages(context, pages, at, piece, job);
        Ok(())
    }
}
