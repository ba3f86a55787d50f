use crate::cells::PageCells;
use frame_pool::FrameNo;
use lwc_base::{PageNumber, Right, Tag};
use range_map::SegmentKind;
use thiserror::Error;

/// A page would part, and no frame is free.
#[derive(Clone, Copy, Debug, PartialEq, Eq, Error)]
#[error("no frame is free")]
pub struct NoFrame;

impl PageCells {
    ghost use Rattle.std.specs.Prelude.{ℕ, ◌≡◌, ◌↔◌, ◌+◌, ◌<◌, ◌≤◌, IfOk, IsErr, OnErr, false, length, true};
    ghost use Rattle.lwc_types.specs.declared.name.Tag.{Tag};
    ghost use Rattle.lwc_types.specs.declared.right.Right.TheVariants.{Write};
    ghost use Rattle.cow_space.specs.Cells.{IsOwnPage, place_of, rights_of};
    ghost use Rattle.cow_space.specs.Frames.{HasFrame, HasLoneFrame};
    ghost use Rattle.cow_space.specs.Seen.{cells, frames_of, free_nodes, node_steps, rights};
    ghost use Rattle.cow_space.specs.Tags.{IsNewTag, is_parting, taken_by, used};
    ghost use Rattle.cow_space.specs.Writes.{write_page};

    /// Writes what a piece at an address has of a page of a place, whose own it is, under a new tag if
    /// the page parts, and tells whether it did. No other page of any place changes, and no right does.
    ///
    /// # Errors
    ///
    /// `NoFrame` exactly where the frames in use and the one that the page takes are more than there are.
    /// Nothing changes then.
    #[tactic(auto, unfolding(crate::specs::Seen::rights))]
    pub fn write(
        &mut self,
        place: usize,
        page: PageNumber,
        at: u32,
        piece: &[u8],
        tag: Tag,
    ) -> Result<bool, NoFrame>
        requires place { place < length (cells self.old) }
        requires own { IsOwnPage (place_of (cells self.old) place page) }
        requires new { IsNewTag (cells self.old) tag }
        ensures full { IsErr result
            ↔ (frames_of self.old < used (cells self.old) + taken_by (cells self.old) place page) }
        ensures full_same { OnErr result (cells self.new ≡ cells self.old) }
        ensures written { IfOk result (λ parted. cells self.new
            ≡ write_page (cells self.old) place page (record { at = at; bytes = piece.now }) tag) }
        ensures parted { IfOk result (λ parted. parted ≡ is_parting (cells self.old) place page) }
        ensures rights { rights self.new ≡ rights self.old }
        ensures frames { frames_of self.new ≡ frames_of self.old }
        ensures nodes { free_nodes self.old ≤ free_nodes self.new + 3 }
        ensures cost { node_steps self.new ≤ node_steps self.old + 54 }
    {
        let parting = self.is_parting(place, page);
        if parting {
            if self.used() == self.frames() {
                return Err(NoFrame);
            }
            self.rows.part(place, page, at, piece, tag);
        } else {
            self.rows.write_in_place(place, page, at, piece);
        }
        Ok(parting)
    }

    /// Writes what a piece at an address has of a page of a place, which has this frame alone. No other page of any
    /// place changes, and no right does.
    #[inline(always)]
    pub fn write_at(&mut self, place: usize, page: PageNumber, frame: u32, at: u32, piece: &[u8])
        requires { HasLoneFrame self.old place page frame }
        ensures own { IsOwnPage (place_of (cells self.old) place page) }
        ensures may { rights_of (rights self.old) place page ≡ Write }
        ensures alone { is_parting (cells self.old) place page ≡ false }
        ensures enough { used (cells self.old) ≤ frames_of self.old }
        ensures written { (tag : Tag) → cells self.new
            ≡ write_page (cells self.old) place page (record { at = at; bytes = piece.now }) tag }
        ensures rights { rights self.new ≡ rights self.old }
        ensures frames { frames_of self.new ≡ frames_of self.old }
        ensures has { (j q f : ℕ) → HasFrame self.old j q f → HasFrame self.new j q f }
        ensures lone { (j q f : ℕ) → HasLoneFrame self.old j q f → HasLoneFrame self.new j q f }
    {
        self.rows
            .write_lone(place, page, FrameNo { n: frame }, at, piece);
    }

    /// Writes what a piece at an address has of a page of a place, if the page is the place's own, may be
    /// written and does not part, and tells whether it did. No other page of any place changes, and no right
    /// does. If it did not, nothing changes.
    #[inline(always)]
    #[tactic(auto, unfolding(crate::specs::Seen::rights))]
    pub fn write_in_place(&mut self, place: usize, page: PageNumber, at: u32, piece: &[u8]) -> bool
        requires place { place < length (cells self.old) }
        ensures tells { (result ≡ true) ↔ (IsOwnPage (place_of (cells self.old) place page)
            × ((rights_of (rights self.old) place page ≡ Write) ×
            (is_parting (cells self.old) place page ≡ false))) }
        ensures enough { result ≡ true → used (cells self.old) ≤ frames_of self.old }
        ensures written { result ≡ true → (tag : Tag) → cells self.new
            ≡ write_page (cells self.old) place page (record { at = at; bytes = piece.now }) tag }
        ensures same { result ≡ false → cells self.new ≡ cells self.old }
        ensures rights { rights self.new ≡ rights self.old }
        ensures frames { frames_of self.new ≡ frames_of self.old }
        ensures nodes { free_nodes self.new ≡ free_nodes self.old }
        ensures cost { node_steps self.new ≡ node_steps self.old }
    {
        let Some(state) = self.state(place, page) else {
            return false;
        };
        match (state.kind, state.right) {
            (SegmentKind::Own, Right::Write) => self.rows.write_in_place(place, page, at, piece),
            _ => false,
        }
    }
}
