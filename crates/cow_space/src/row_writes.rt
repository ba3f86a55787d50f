ghost use Rattle.std.specs.Prelude.{◌≡◌, ◌≢◌, ℕ, ◌+◌, ◌<◌, ◌≤◌};
ghost use Rattle.frame_pool.specs.Frame.{free_frames, frame_count, frame_bytes, refill_frame};
ghost use Rattle.lwc_base.specs.Store.{bytes_after};
ghost use Rattle.page_tree.specs.Pages.{entry_for};
ghost use Rattle.cow_space.specs.Takes.{Takes, cell_bytes};

use crate::rows::Rows;
use frame_pool::{FrameNo, Pool};
use lwc_base::{PAGE_BYTES, PageNumber, Tag};
use page_tree::{PAGES, PageCell};

/// Puts what a piece at an address has of a page into the page's bytes.
#[inline(always)]
fn put_piece(page: &mut [u8; PAGE_BYTES], page_number: PageNumber, at: u32, piece: &[u8])
    ensures { page.new ≡ bytes_after (record { at = at; bytes = piece.now }) page_number page.old }
{
    let start = page_number as usize * PAGE_BYTES;
    let first = at as usize;
    // Where the piece is within the page, its length stays that of the caller, and a short copy takes no call.
    if start <= first
        && first - start <= PAGE_BYTES
        && piece.len() <= PAGE_BYTES - (first - start)
    {
        let from = first - start;
        page[from..from + piece.len()].copy_from_slice(&piece[0..piece.len()]);
        return;
    }
    put_across(page, page_number, at, piece);
}

/// Does so with a piece that may begin before the page or end behind it.
#[inline(never)]
fn put_across(page: &mut [u8; PAGE_BYTES], page_number: PageNumber, at: u32, piece: &[u8])
    ensures { page.new ≡ bytes_after (record { at = at; bytes = piece.now }) page_number page.old }
{
    let start = page_number as usize * PAGE_BYTES;
    let at = at as usize;
    let first = at.max(start);
    let skip = piece.len().min(first - at);
    let into = PAGE_BYTES.min(first - start);
    let count = (piece.len() - skip).min(PAGE_BYTES - into);
    page[into..into + count].copy_from_slice(&piece[skip..skip + count]);
}

/// Takes a frame with the bytes of a cell once a piece is there.
fn fill(
    frames: &mut Pool,
    cell: PageCell,
    page: PageNumber,
    at: u32,
    piece: &[u8],
    tag: Tag,
) -> FrameNo
    requires free { 0 < free_frames frames.old }
    requires held { (f : ℕ) → entry_for cell ≡ f + 2 → 0 < frame_count frames.old f }
    ensures { Takes frames.old frames.new result.n tag
        (bytes_after (record { at = at; bytes = piece.now }) page (cell_bytes frames.old cell)) }
{
    let frame = copy_cell(frames, cell, tag);
    write_frame(frames, frame, page, at, piece);
    frame
}

/// Takes a frame with the bytes of a cell.
fn copy_cell(frames: &mut Pool, cell: PageCell, tag: Tag) -> FrameNo
    requires free { 0 < free_frames frames.old }
    requires held { (f : ℕ) → entry_for cell ≡ f + 2 → 0 < frame_count frames.old f }
    ensures { Takes frames.old frames.new result.n tag (cell_bytes frames.old cell) }
{
    let taken = match cell {
        PageCell::Frame(from) => frames.take_copy(tag, from),
        PageCell::Absent | PageCell::Zero => frames.take(tag),
    };
    taken.unwrap()
}

/// Puts what a piece has of a page into a frame that is held once.
#[inline(always)]
fn write_frame(frames: &mut Pool, frame: FrameNo, page: PageNumber, at: u32, piece: &[u8])
    requires once { frame_count frames.old frame.n ≡ 1 }
    ensures { frames.new ≡ refill_frame frames.old frame.n
        (bytes_after (record { at = at; bytes = piece.now }) page (frame_bytes frames.old frame.n)) }
{
    put_piece(frames.bytes_mut(frame), page, at, piece);
}

impl Rows {
    ghost use Rattle.std.specs.Prelude.{true, false, length, not};
    ghost use Rattle.lwc_types.specs.declared.name.Tag.{Tag};
    ghost use Rattle.page_tree.specs.declared.store.TheConstants.{PAGES};
    ghost use Rattle.cow_space.specs.Maps.{row_of};
    ghost use Rattle.cow_space.specs.RowFrames.{LeadsAlone, LeadsTo};
    ghost use Rattle.cow_space.specs.RowWrites.{write_page};
    ghost use Rattle.cow_space.specs.RowSeen.{frames_of, free_nodes, maps, node_steps, HasNoTree};
    ghost use Rattle.cow_space.specs.Tags.{different, parts, row_tags, times};

    /// Writes a page that parts: it gets a frame of its own under a new tag.
    pub(crate) fn part(&mut self, place: usize, page: PageNumber, at: u32, piece: &[u8], tag: Tag)
        requires row { place < length (maps self.old) }
        requires page { page < PAGES }
        requires new { times tag (row_tags (maps self.old)) ≡ 0 }
        requires parts { parts (row_tags (maps self.old)) (row_of (maps self.old) place page) ≡ true }
        requires free { different (row_tags (maps self.old)) < frames_of self.old }
        ensures written { maps self.new
            ≡ write_page (maps self.old) place page (record { at = at; bytes = piece.now }) tag }
        ensures frames { frames_of self.new ≡ frames_of self.old }
        ensures others { (j : ℕ) → j ≢ place → HasNoTree self.old j → HasNoTree self.new j }
        ensures nodes { free_nodes self.old ≤ free_nodes self.new + 3 }
        ensures cost { node_steps self.new ≤ node_steps self.old + 54 }
    {
        let cell = self.cell(place, page);
        let frame = fill(&mut self.store.frames, cell, page, at, piece, tag);
        self.trees[place].set(&mut self.store, page, PageCell::Frame(frame));
        self.store.frames.drop_hold(frame);
    }

    /// Writes what a piece at an address has of a page of a row if the page does not part, and tells whether
    /// it did. If the page parts, nothing changes.
    #[inline(always)]
    pub(crate) fn write_in_place(
        &mut self,
        place: usize,
        page: PageNumber,
        at: u32,
        piece: &[u8],
    ) -> bool
        requires row { place < length (maps self.old) }
        requires page { page < PAGES }
        ensures tells { result ≡ not (parts (row_tags (maps self.old)) (row_of (maps self.old) place page)) }
        ensures written { result ≡ true → (tag : Tag) → maps self.new
            ≡ write_page (maps self.old) place page (record { at = at; bytes = piece.now }) tag }
        ensures same { result ≡ false → maps self.new ≡ maps self.old }
        ensures frames { frames_of self.new ≡ frames_of self.old }
        ensures others { (j : ℕ) → HasNoTree self.old j → HasNoTree self.new j }
        ensures nodes { free_nodes self.new ≡ free_nodes self.old }
        ensures cost { node_steps self.new ≡ node_steps self.old }
        ensures within { different (row_tags (maps self.old)) ≤ frames_of self.old }
    {
        let Some(frame) = self.lone_frame(place, page) else {
            return false;
        };
        self.write_lone(place, page, frame, at, piece);
        true
    }

    /// Writes what a piece at an address has of a page of a row to the frame that the page has alone.
    #[inline(always)]
    pub(crate) fn write_lone(
        &mut self,
        place: usize,
        page: PageNumber,
        frame: FrameNo,
        at: u32,
        piece: &[u8],
    )
        requires { LeadsAlone self.old place page frame.n }
        ensures written { (tag : Tag) → maps self.new
            ≡ write_page (maps self.old) place page (record { at = at; bytes = piece.now }) tag }
        ensures frames { frames_of self.new ≡ frames_of self.old }
        ensures others { (j : ℕ) → HasNoTree self.old j → HasNoTree self.new j }
        ensures nodes { free_nodes self.new ≡ free_nodes self.old }
        ensures cost { node_steps self.new ≡ node_steps self.old }
        ensures within { different (row_tags (maps self.old)) ≤ frames_of self.old }
        ensures leads { (j q f : ℕ) → LeadsTo self.old j q f → LeadsTo self.new j q f }
        ensures alone { (j q f : ℕ) → LeadsAlone self.old j q f → LeadsAlone self.new j q f }
    {
        write_frame(&mut self.store.frames, frame, page, at, piece);
    }
}
