ghost use Rattle.std.specs.Prelude.{◌≡◌, ℕ, IfOk, replicate};
ghost use Rattle.cow_space.specs.RowSeen as rows_seen;
ghost use Rattle.std.proofs.Props.{props};
ghost use Rattle.cow_space.specs.Cells.{segments_of};
ghost use Rattle.cow_space.specs.Kept.{HasNoOwnPage, IsKept};
ghost use Rattle.cow_space.specs.RowSeen.{no_tree-prop};

use crate::rows::Rows;
use frame_pool::FrameNo;
use late_rows::LateRows;
use lwc_base::{OutOfMemory, PageNumber, Right};
use page_tree::PageCell;
use range_map::{PageState, RangeMap, Segment, SegmentKind};
use std::alloc::Global;

/// The cells and the rights of the pages of a fixed number of places, each a context's or a group's. A page
/// that is the place's own has its bytes in a row, if it was written; one without reads as zeros. A place
/// without pages of its own holds no tree node. After `open` no call takes memory.
#[derive(Drop)]
pub struct PageCells {
    pub(crate) rows: Rows,
    pub(crate) kinds: LateRows<RangeMap>,
    ghost kept: { IsKept (rows_seen.maps rows) kinds },
    ghost bare: { (i : ℕ) → HasNoOwnPage (segments_of kinds i)
        → rows_seen.HasNoTree rows i } by { Prim.hlevel (props, no_tree-prop) },
}

impl PageCells {
    ghost use Rattle.std.specs.Prelude.{◌+◌, ◌*◌, ◌<◌, ◌≤◌, ◌≢◌, All, IfSome, length, Some};
    ghost use Rattle.std.specs.Option.{option_copied};
    ghost use Rattle.lwc_types.specs.declared.limits.TheConstants.{MOST_PAGE_PLACES, MOST_PAGES, MOST_RANGES};
    ghost use Rattle.lwc_types.specs.declared.page.TheConstants.{PAGE_BYTES};
    ghost use Rattle.page_tree.specs.declared.store.TheConstants.{TREE_NODES};
    ghost use Rattle.cow_space.specs.declared.rows.TheConstants.{FREE_NODES};
    ghost use Rattle.range_map.specs.Kinds.{IsCanonical, IsSegment, ranges, state_at};
    ghost use Rattle.cow_space.specs.Maps.{data_of};
    ghost use Rattle.cow_space.specs.Cells.{
      IsOwnPage,
      all_write,
      kinds_of,
      no_pages,
      place_of,
      rights_of,
      states_of,
    };
    ghost use Rattle.cow_space.specs.Frames.{HasFrame, HasLoneFrame};
    ghost use Rattle.cow_space.specs.Seen.{cells, frames_of, free_nodes, node_steps, rights};
    ghost use Rattle.cow_space.specs.Tags.{is_parting, own_values, used};

    /// This number of places without pages, over this number of frames. The only error is out of memory.
    pub fn open(alloc: Global, frames: u32, places: u32) -> Result<PageCells, OutOfMemory>
        requires few_frames { frames ≤ 65536 }
        requires few_places { places ≤ MOST_PAGE_PLACES }
        ensures cells { IfOk result (λ opened. cells opened ≡ replicate places no_pages) }
        ensures rights { IfOk result (λ opened. rights opened ≡ replicate places all_write) }
        ensures frames { IfOk result (λ opened. frames_of opened ≡ frames) }
        ensures nodes { IfOk result (λ opened. free_nodes opened ≡ TREE_NODES * places + FREE_NODES) }
        ensures no_step { IfOk result (λ opened. node_steps opened ≡ 0) }
    {
        let rows = Rows::open(alloc, frames, places)?;
        let kinds = LateRows::open(alloc, places)?;
        Ok(PageCells { rows, kinds })
    }

    /// How many places there are.
    pub fn len(&self) -> usize
        ensures { result ≡ length (cells self.now) }
    {
        self.kinds.len()
    }

    /// The kind of a page of a place; `None` where it is absent.
    pub fn kind(&self, place: usize, page: PageNumber) -> Option<SegmentKind>
        requires { place < length (cells self.now) }
        ensures { result ≡ kinds_of (place_of (cells self.now) place) page }
    {
        self.kinds[place].kind_at(page)
    }

    /// The right of a page of a place; `Write` where it is absent.
    pub fn right(&self, place: usize, page: PageNumber) -> Right
        requires { place < length (cells self.now) }
        ensures { result ≡ rights_of (rights self.now) place page }
    {
        self.kinds[place].right_at(page).unwrap_or(Right::Write)
    }

    /// The kind and the right of a page of a place; `None` where it is absent.
    #[inline(always)]
    pub fn state(&self, place: usize, page: PageNumber) -> Option<PageState>
        requires { place < length (cells self.now) }
        ensures { result
            ≡ states_of (place_of (cells self.now) place) (rights_of (rights self.now) place) page }
    {
        self.kinds[place].state_at(page)
    }

    /// The kind and the right of a page of a place, and the first page after it that has others, or the end of
    /// all pages. There are at most 64 ranges, so that a walk from run to run is short.
    pub fn run_at(&self, place: usize, page: PageNumber) -> (Option<PageState>, PageNumber)
        requires place { place < length (cells self.now) }
        requires page { page < MOST_PAGES }
        ensures state { result.0
            ≡ states_of (place_of (cells self.now) place) (rights_of (rights self.now) place) page }
        ensures past { page < result.1 }
        ensures within { result.1 ≤ MOST_PAGES }
        ensures alike { (q : ℕ) → page ≤ q → q < result.1
            → states_of (place_of (cells self.now) place) (rights_of (rights self.now) place) q
            ≡ states_of (place_of (cells self.now) place) (rights_of (rights self.now) place) page }
        ensures other { result.1 < MOST_PAGES
            → states_of (place_of (cells self.now) place) (rights_of (rights self.now) place) result.1
            ≢ states_of (place_of (cells self.now) place) (rights_of (rights self.now) place) page }
        ensures few { ranges MOST_PAGES
            (states_of (place_of (cells self.now) place) (rights_of (rights self.now) place)) ≤ MOST_RANGES }
    {
        self.kinds[place].run_at(page)
    }

    /// The number of ranges of a place.
    pub fn count(&self, place: usize) -> u32
        requires { place < length (cells self.now) }
        ensures ranges { result
            ≡ ranges MOST_PAGES
            (states_of (place_of (cells self.now) place) (rights_of (rights self.now) place)) }
        ensures few { result ≤ MOST_RANGES }
    {
        self.kinds[place].count()
    }

    /// The segments of a place, one for each range.
    pub fn segments(&self, place: usize) -> &[Segment]
        requires { place < length (cells self.now) }
        ensures states { state_at result.now
            ≡ states_of (place_of (cells self.now) place) (rights_of (rights self.now) place) }
        ensures count { length result.now
            ≡ ranges MOST_PAGES
            (states_of (place_of (cells self.now) place) (rights_of (rights self.now) place)) }
        ensures few { length result.now ≤ MOST_RANGES }
        ensures each { All IsSegment result.now }
        ensures canonical { IsCanonical result.now }
    {
        self.kinds[place].segments()
    }

    /// The bytes of a page that is the place's own. A page that is absent, common or zeros has none.
    pub fn bytes(&self, place: usize, page: PageNumber) -> Option<&[u8]>
        requires place { place < length (cells self.now) }
        requires page { page < MOST_PAGES }
        ensures value { option_copied result ≡ data_of (own_values (place_of (cells self.now) place) page) }
        ensures whole { IfSome result (λ bytes. length bytes.now ≡ PAGE_BYTES) }
    {
        match self.rows.cell(place, page) {
            PageCell::Frame(frame) => Some(self.rows.store.frames.bytes(frame)),
            _ => None,
        }
    }

    /// The frame that has the bytes of a page that is the place's own. A page that is absent, common or zeros has
    /// none.
    pub fn frame(&self, place: usize, page: PageNumber) -> Option<u32>
        requires place { place < length (cells self.now) }
        requires page { page < MOST_PAGES }
        ensures { IfSome result (λ f. HasFrame self.now place page f) }
    {
        match self.kind(place, page) {
            Some(SegmentKind::Own) => match self.rows.cell(place, page) {
                PageCell::Frame(frame) => Some(frame.n),
                _ => None,
            },
            _ => None,
        }
    }

    /// The frame of a page that is the place's own, may be stored to and does not part.
    #[inline(always)]
    pub fn lone_frame(&self, place: usize, page: PageNumber) -> Option<u32>
        requires { place < length (cells self.now) }
        ensures { IfSome result (λ f. HasLoneFrame self.now place page f) }
    {
        let Some(state) = self.state(place, page) else {
            return None;
        };
        match (state.kind, state.right) {
            (SegmentKind::Own, Right::Write) => {
                let frame = self.rows.lone_frame(place, page)?;
                Some(frame.n)
            }
            _ => None,
        }
    }

    /// The bytes of a page that has this frame.
    #[inline(always)]
    pub fn bytes_at(&self, place: usize, page: PageNumber, frame: u32) -> &[u8]
        requires { HasFrame self.now place page frame }
        ensures value { Some result.now ≡ data_of (own_values (place_of (cells self.now) place) page) }
        ensures own { IsOwnPage (place_of (cells self.now) place page) }
        ensures whole { length result.now ≡ PAGE_BYTES }
    {
        self.rows.store.frames.bytes(FrameNo { n: frame })
    }

    /// Whether a page that is the place's own parts when it is written: it is zeros, or its tag is at another
    /// page too.
    pub fn is_parting(&self, place: usize, page: PageNumber) -> bool
        requires place { place < length (cells self.now) }
        requires own { IsOwnPage (place_of (cells self.now) place page) }
        ensures { result ≡ is_parting (cells self.now) place page }
    {
        self.rows.lone_frame(place, page).is_none()
    }

    /// How many frames are in use: one for each different tag.
    pub fn used(&self) -> u32
        ensures used { result ≡ used (cells self.now) }
        ensures within { result ≤ frames_of self.now }
    {
        self.rows.store.frames.used()
    }

    /// How many frames there are, in use or free.
    pub fn frames(&self) -> u32
        ensures { result ≡ frames_of self.now }
    {
        self.rows.store.frames.len()
    }
}
