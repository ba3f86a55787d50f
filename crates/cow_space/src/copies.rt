use crate::rows::Rows;
use lwc_base::{PageNumber, Range};
use page_tree::{PAGES, PageTree};
use std::mem::replace;

/// All pages of a row.
const ALL_PAGES: Range = Range {
    from: 0,
    to: PAGES as PageNumber,
};

impl Rows {
    ghost use Rattle.std.specs.Prelude.{◌≡◌, ◌≢◌, ℕ, ◌+◌, ◌<◌, ◌≤◌, ◌⊎◌, length, slice_set};
    ghost use Rattle.page_tree.specs.declared.store.TheConstants.{PAGES, TREE_NODES};
    ghost use Rattle.page_tree.specs.Open.{entries_passed};
    ghost use Rattle.cow_space.specs.Maps.{no_pages, put_range, row_of, share_range};
    ghost use Rattle.cow_space.specs.RowSeen.{HasNoTree, HasOwnRoot, IsOpen, edge_short, frames_of, free_frames};
    ghost use Rattle.cow_space.specs.RowSeen.{free_nodes, maps, node_steps, pool};

    /// Makes the pages of a range of one row those of another. No frame is taken or written. A row that gets
    /// its pages in rising order takes few nodes and steps.
    pub fn share_between(&mut self, to: usize, from: usize, range: Range)
        requires to { to < length (maps self.old) }
        requires from { from < length (maps self.old) }
        requires apart { from ≢ to }
        requires order { range.from ≤ range.to }
        requires inside { range.to ≤ PAGES }
        ensures maps { maps self.new ≡ share_range (maps self.old) to from range.from range.to }
        ensures frames { frames_of self.new ≡ frames_of self.old }
        ensures pool { pool self.new ≡ pool self.old }
        ensures free { free_frames self.old ≤ free_frames self.new }
        ensures others { (j : ℕ) → j ≢ to → HasNoTree self.old j → HasNoTree self.new j }
        ensures own { HasOwnRoot self.new to }
        ensures nodes { free_nodes self.old ≤ free_nodes self.new + 5 }
        ensures nodes_own { HasOwnRoot self.old to → free_nodes self.old ≤ free_nodes self.new + 4 }
        ensures cost { node_steps self.new ≤ node_steps self.old + 766 }
        ensures opened { IsOpen self.old to range.from → range.from < range.to → IsOpen self.new to range.to }
        ensures nodes_open { IsOpen self.old to range.from → range.from < range.to
            → free_nodes self.old + edge_short self.new to range.to
            ≤ free_nodes self.new + edge_short self.old to range.from + 2 }
        ensures cost_open { IsOpen self.old to range.from
            → node_steps self.new + entries_passed range.from
            ≤ node_steps self.old + entries_passed range.to + 36 }
    {
        let mut tree = replace(&mut self.trees[to], PageTree::empty());
        tree.share_range(&self.trees[from], &mut self.store, range);
        self.trees[to] = tree;
    }

    /// Takes the pages of a range from a row. No frame is written.
    pub fn clear(&mut self, place: usize, range: Range)
        requires row { place < length (maps self.old) }
        requires order { range.from ≤ range.to }
        requires inside { range.to ≤ PAGES }
        ensures maps { maps self.new
            ≡ slice_set (maps self.old) place
            (put_range (row_of (maps self.old) place) range.from range.to no_pages) }
        ensures frames { frames_of self.new ≡ frames_of self.old }
        ensures pool { pool self.new ≡ pool self.old }
        ensures free { free_frames self.old ≤ free_frames self.new }
        ensures others { (j : ℕ) → j ≢ place → HasNoTree self.old j → HasNoTree self.new j }
        ensures own { (HasNoTree self.new place) ⊎ (HasOwnRoot self.new place) }
        ensures all { range.from ≡ 0 → range.to ≡ PAGES → HasNoTree self.new place }
        ensures nodes { free_nodes self.old ≤ free_nodes self.new + 5 }
        ensures nodes_own { HasOwnRoot self.old place → free_nodes self.old ≤ free_nodes self.new + 4 }
        ensures given_up { HasNoTree self.new place → free_nodes self.old ≤ free_nodes self.new }
        ensures cost { node_steps self.new ≤ node_steps self.old + 766 }
        ensures opened { IsOpen self.old place range.from → range.from < range.to
            → IsOpen self.new place range.to }
        ensures nodes_open { IsOpen self.old place range.from → range.from < range.to
            → free_nodes self.old + edge_short self.new place range.to
            ≤ free_nodes self.new + edge_short self.old place range.from + 2 }
        ensures cost_open { IsOpen self.old place range.from
            → node_steps self.new + entries_passed range.from
            ≤ node_steps self.old + entries_passed range.to + 36 }
        ensures cost_all { range.from ≡ 0 → range.to ≡ PAGES
            → node_steps self.new ≤ node_steps self.old + TREE_NODES }
        ensures cost_none { HasNoTree self.old place → node_steps self.new ≡ node_steps self.old }
    {
        self.trees[place].clear_range(&mut self.store, range);
    }

    /// Takes all pages from a row, and gives back all that no other row holds.
    pub fn drop_row(&mut self, place: usize)
        requires row { place < length (maps self.old) }
        ensures maps { maps self.new ≡ slice_set (maps self.old) place no_pages }
        ensures frames { frames_of self.new ≡ frames_of self.old }
        ensures pool { pool self.new ≡ pool self.old }
        ensures free { free_frames self.old ≤ free_frames self.new }
        ensures others { (j : ℕ) → j ≢ place → HasNoTree self.old j → HasNoTree self.new j }
        ensures nodes { free_nodes self.old ≤ free_nodes self.new }
        ensures empty { HasNoTree self.new place }
        ensures cost { node_steps self.new ≤ node_steps self.old + TREE_NODES }
        ensures cost_empty { HasNoTree self.old place → node_steps self.new ≡ node_steps self.old }
    {
        self.clear(place, ALL_PAGES);
    }

    /// Makes all pages of a row those of another, by one hold of its root. The row's own pages are given up
    /// first.
    pub fn clone_row(&mut self, to: usize, from: usize)
        requires to { to < length (maps self.old) }
        requires from { from < length (maps self.old) }
        requires apart { from ≢ to }
        ensures maps { maps self.new ≡ slice_set (maps self.old) to (row_of (maps self.old) from) }
        ensures frames { frames_of self.new ≡ frames_of self.old }
        ensures pool { pool self.new ≡ pool self.old }
        ensures free { free_frames self.old ≤ free_frames self.new }
        ensures others { (j : ℕ) → j ≢ to → HasNoTree self.old j → HasNoTree self.new j }
        ensures nodes { free_nodes self.old ≤ free_nodes self.new }
        ensures cost { node_steps self.new ≤ node_steps self.old + (1 + TREE_NODES) }
        ensures cost_empty { HasNoTree self.old to → node_steps self.new ≤ node_steps self.old + 1 }
    {
        self.drop_row(to);
        let tree = self.trees[from].held_too(&mut self.store);
        self.trees[to] = tree;
    }
}
