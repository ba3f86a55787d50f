ghost use Rattle.std.specs.Prelude.{◌≡◌, ℕ, IfOk, replicate};
ghost use Rattle.cow_space.specs.RowKept.{IsKept};

use frame_pool::FrameNo;
use lwc_base::{OutOfMemory, PageNumber};
use page_tree::{PAGES, PageCell, PageTree, Store, TREE_NODES};
use std::alloc::Global;

/// The free nodes that each call finds: it changes at most two trees.
pub const FREE_NODES: u32 = 2 * TREE_NODES;

/// A fixed number of rows, each a map from pages to values. A page with bytes has a frame under a tag, and
/// pages that were copied share it until one of them is written. After `open` no call takes memory, and none
/// wants for nodes.
#[derive(Drop)]
pub struct Rows {
    pub(crate) store: Store,
    pub(crate) trees: Vec<PageTree>,
    ghost kept: { IsKept store.nodes.all store.frames trees.items },
}

/// This number of empty trees. The only error is out of memory.
fn empty_trees(alloc: Global, rows: u32) -> Result<Vec<PageTree>, OutOfMemory>
    ensures { IfOk result (λ trees. trees.items ≡ replicate rows 0) }
{
    let mut trees = Vec::with_capacity(alloc, rows as usize)?;
    'rows: for _ in 0..rows {
        trees.push_reserved(PageTree::empty());
    }
    Ok(trees)
}

impl Rows {
    ghost use Rattle.std.specs.Prelude.{◌≡◌, ℕ, ◌+◌, ◌*◌, ◌<◌, ◌≤◌, true, false, IfNone, IfOk, IfSome, length};
    ghost use Rattle.std.specs.Prelude.{replicate, slice_index};
    ghost use Rattle.page_tree.specs.declared.cell.PageCell.TheVariants as cell;
    ghost use Rattle.page_tree.specs.declared.store.TheConstants.{PAGES, TREE_NODES};
    ghost use Rattle.page_tree.specs.Pages.{page};
    ghost use Rattle.lwc_types.specs.declared.limits.TheConstants.{MOST_PAGE_PLACES};
    ghost use Rattle.cow_space.specs.Maps.{no_pages, row_of};
    ghost use Rattle.cow_space.specs.RowSeen.{frames_of, free_nodes, maps, node_steps, HasNoTree};
    ghost use Rattle.cow_space.specs.RowFrames.{LeadsAlone};
    ghost use Rattle.cow_space.specs.Tags.{parts, row_tags};

    /// This number of rows without pages, over this number of frames. The only error is out of memory.
    pub fn open(alloc: Global, frames: u32, rows: u32) -> Result<Rows, OutOfMemory>
        requires few_frames { frames ≤ 65536 }
        requires few_rows { rows ≤ MOST_PAGE_PLACES }
        ensures maps { IfOk result (λ opened. maps opened ≡ replicate rows no_pages) }
        ensures frames { IfOk result (λ opened. frames_of opened ≡ frames) }
        ensures nodes { IfOk result (λ opened. free_nodes opened ≡ TREE_NODES * rows + FREE_NODES) }
        ensures empty { IfOk result (λ opened. (i : ℕ) → HasNoTree opened i) }
        ensures no_step { IfOk result (λ opened. node_steps opened ≡ 0) }
    {
        let store = Store::open(alloc, frames, TREE_NODES * rows + FREE_NODES)?;
        let trees = empty_trees(alloc, rows)?;
        Ok(Rows { store, trees })
    }

    /// What a row's tree has for a page.
    pub(crate) fn cell(&self, place: usize, page_number: PageNumber) -> PageCell
        requires row { place < length self.now.trees.items }
        requires page { page_number < PAGES }
        ensures { result
            ≡ page self.now.store.nodes.all (slice_index self.now.trees.items place) page_number }
    {
        self.trees[place].get(&self.store, page_number)
    }

    /// The frame of a page that does not part when it is written: no other page has its tag.
    #[inline(always)]
    pub(crate) fn lone_frame(&self, place: usize, page_number: PageNumber) -> Option<FrameNo>
        requires row { place < length (maps self.now) }
        requires page { page_number < PAGES }
        ensures frame { IfSome result (λ frame. page self.now.store.nodes.all
            (slice_index self.now.trees.items place) page_number ≡ cell.Frame frame) }
        ensures lone { IfSome result (λ frame. LeadsAlone self.now place page_number frame.n) }
        ensures alone { IfSome result
            (λ frame. parts (row_tags (maps self.now)) (row_of (maps self.now) place page_number) ≡ false) }
        ensures parts { IfNone result
            (parts (row_tags (maps self.now)) (row_of (maps self.now) place page_number) ≡ true) }
    {
        let (cell, alone) = self.trees[place].look(&self.store, page_number);
        match cell {
            PageCell::Frame(frame) => {
                if alone && self.store.frames.count(frame) == 1 {
                    Some(frame)
                } else {
                    None
                }
            }
            _ => None,
        }
    }
}
