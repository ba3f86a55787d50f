ghost use Rattle.std.specs.Prelude.{◌≡◌, ◌≢◌, ℕ, ◌+◌, ◌^◌, ◌<◌, ◌≤◌, ◌⊎◌, ◌↔◌, true};
ghost use Rattle.frame_pool.specs.Frame.{frame_count};
ghost use Rattle.node_pool.specs.Nodes.{free_of};
ghost use Rattle.page_tree.specs.declared.cell.PageCell.TheVariants.{Absent};
ghost use Rattle.page_tree.specs.declared.store.TheConstants.{PAGES, TREE_NODES};
ghost use Rattle.page_tree.specs.Changes.{KeepsFrames, KeepsMaps, KeepsTrees};
ghost use Rattle.page_tree.specs.Pages.{entry_for, page};
ghost use Rattle.page_tree.specs.Open.{IsOpen, entries_passed};
ghost use Rattle.page_tree.specs.Short.{clear_short, edge_short, page_short, range_short, link_short};
ghost use Rattle.page_tree.specs.Sound.{IsSound, IsTree, trees_at};

use crate::cell::{PageCell, cell_from};
use crate::store::{PAGES, ROOT_LEVEL, Store, node_of};
use lwc_types::{PageNumber, Range};
use std::marker::Model;

/// A tree of pages. By itself it is no more than the number of its root, which is how contracts see it: 0
/// is the empty tree, and n + 1 has node n as its root. Together with its store it stands for a map from
/// pages to cells.
#[derive(Drop)]
pub struct PageTree {
    root: u32,
}

impl Model for PageTree {
    ghost use Rattle.std.specs.Prelude.{ℕ};

    ghost Value = { ℕ };

    ghost view = { λ tree. tree.root };
}

impl PageTree {
    /// A tree without pages.
    pub fn empty() -> PageTree
        ensures { result ≡ 0 }
    {
        PageTree { root: 0 }
    }

    /// Another tree with all pages of this one: its root is held once more, and no node is taken.
    pub fn held_too(&self, store: &mut Store) -> PageTree
        requires sound { IsSound store.old.nodes.all store.old.frames }
        requires tree { IsTree store.old.nodes.all self.now }
        requires few { (n : ℕ) → self.now ≡ n + 1 → trees_at store.old.nodes.all n + 1 < 2 ^ 31 }

        ensures same { result ≡ self.now }
        ensures sound { IsSound store.new.nodes.all store.new.frames }
        ensures tree { IsTree store.new.nodes.all result }
        ensures trees { KeepsTrees store.old.nodes.all store.new.nodes.all 0 result }
        ensures maps { KeepsMaps store.old.nodes.all store.new.nodes.all 0 }
        ensures frames { KeepsFrames store.old.nodes.all store.new.nodes.all store.old.frames store.new.frames }
        ensures free { free_of store.old.nodes.all ≤ free_of store.new.nodes.all }
        ensures cost { store.new.nodes.steps ≤ store.old.nodes.steps + 1 }
    {
        if self.root == 0 {
            return PageTree { root: 0 };
        }
        store.hold(node_of(self.root), ROOT_LEVEL);
        PageTree { root: self.root }
    }

    /// What the tree has for a page.
    pub fn get(&self, store: &Store, page_number: PageNumber) -> PageCell
        requires sound { IsSound store.now.nodes.all store.now.frames }
        requires tree { IsTree store.now.nodes.all self.now }
        requires page { page_number < PAGES }
        ensures { result ≡ page store.now.nodes.all self.now page_number }
    {
        cell_from(store.look_at(self.root, page_number as usize).0)
    }

    /// Whether nobody else holds the nodes on the way to a page, and all of them are there.
    pub fn is_alone(&self, store: &Store, page: PageNumber) -> bool
        requires sound { IsSound store.now.nodes.all store.now.frames }
        requires tree { IsTree store.now.nodes.all self.now }
        requires page { page < PAGES }
        ensures { (result ≡ true) ↔ (page_short store.now.nodes.all self.now page ≡ 0) }
    {
        store.look_at(self.root, page as usize).1
    }

    /// What the tree has for a page, and whether nobody else holds the nodes on the way there, and all of
    /// them are there.
    #[inline(always)]
    pub fn look(&self, store: &Store, page_number: PageNumber) -> (PageCell, bool)
        requires sound { IsSound store.now.nodes.all store.now.frames }
        requires tree { IsTree store.now.nodes.all self.now }
        requires page { page_number < PAGES }
        ensures cell { result.0 ≡ page store.now.nodes.all self.now page_number }
        ensures alone { (result.1 ≡ true) ↔ (page_short store.now.nodes.all self.now page_number ≡ 0) }
    {
        let (entry, alone) = store.look_at(self.root, page_number as usize);
        (cell_from(entry), alone)
    }

    /// Makes a page of the tree that cell. Its frame is held once more, and that of the old cell once less.
    pub fn set(&mut self, store: &mut Store, page_number: PageNumber, cell: PageCell)
        requires sound { IsSound store.old.nodes.all store.old.frames }
        requires tree { IsTree store.old.nodes.all self.old }
        requires page { page_number < PAGES }
        requires held { (f : ℕ) → entry_for cell ≡ f + 2 → 0 < frame_count store.old.frames f }
        requires free { page_short store.old.nodes.all self.old page_number ≤ free_of store.old.nodes.all }

        ensures page { page store.new.nodes.all self.new page_number ≡ cell }
        ensures alone { page_short store.new.nodes.all self.new page_number ≡ 0 }
        ensures pages { (q : ℕ) → q ≢ page_number → q < PAGES
            → page store.new.nodes.all self.new q ≡ page store.old.nodes.all self.old q }

        ensures sound { IsSound store.new.nodes.all store.new.frames }
        ensures tree { IsTree store.new.nodes.all self.new }
        ensures trees { KeepsTrees store.old.nodes.all store.new.nodes.all self.old self.new }
        ensures maps { KeepsMaps store.old.nodes.all store.new.nodes.all self.old }
        ensures frames { KeepsFrames store.old.nodes.all store.new.nodes.all store.old.frames store.new.frames }
        ensures free { free_of store.old.nodes.all
            ≤ free_of store.new.nodes.all + page_short store.old.nodes.all self.old page_number }
        ensures grows { page store.old.nodes.all self.old page_number ≡ cell
            → (f : ℕ) → frame_count store.old.frames f ≤ frame_count store.new.frames f }
        ensures cost { store.new.nodes.steps ≤ store.old.nodes.steps + 54 }
    {
        let root = store.set_at(self.root, ROOT_LEVEL, page_number as usize, cell);
        self.root = root.n + 1;
    }

    /// Lets nobody else hold the nodes on the way to a page. No page changes.
    pub fn unshare_path(&mut self, store: &mut Store, page_number: PageNumber)
        requires sound { IsSound store.old.nodes.all store.old.frames }
        requires tree { IsTree store.old.nodes.all self.old }
        requires page { page_number < PAGES }
        requires free { page_short store.old.nodes.all self.old page_number ≤ free_of store.old.nodes.all }

        ensures alone { page_short store.new.nodes.all self.new page_number ≡ 0 }
        ensures pages { (q : ℕ) → q < PAGES
            → page store.new.nodes.all self.new q ≡ page store.old.nodes.all self.old q }

        ensures sound { IsSound store.new.nodes.all store.new.frames }
        ensures tree { IsTree store.new.nodes.all self.new }
        ensures trees { KeepsTrees store.old.nodes.all store.new.nodes.all self.old self.new }
        ensures maps { KeepsMaps store.old.nodes.all store.new.nodes.all self.old }
        ensures frames { KeepsFrames store.old.nodes.all store.new.nodes.all store.old.frames store.new.frames }
        ensures free { free_of store.old.nodes.all
            ≤ free_of store.new.nodes.all + page_short store.old.nodes.all self.old page_number }
        ensures grows { (f : ℕ) → frame_count store.old.frames f ≤ frame_count store.new.frames f }
        ensures cost { store.new.nodes.steps ≤ store.old.nodes.steps + 54 }
    {
        let cell = self.get(store, page_number);
        self.set(store, page_number, cell);
    }

    /// Makes the pages of a range those of another tree. Whole nodes are shared, and take no node. A walk
    /// that gives a tree its pages in rising order takes few steps: nothing that it put is given up again.
    pub fn share_range(&mut self, from: &PageTree, store: &mut Store, range: Range)
        requires sound { IsSound store.old.nodes.all store.old.frames }
        requires tree { IsTree store.old.nodes.all self.old }
        requires from { IsTree store.old.nodes.all from.now }
        // Where both trees have one root, both are counted there.
        requires both { (n : ℕ) → self.old ≡ n + 1 → from.now ≡ n + 1 → 1 < trees_at store.old.nodes.all n }
        requires order { range.from ≤ range.to }
        requires inside { range.to ≤ PAGES }
        requires free { range_short store.old.nodes.all self.old range.from range.to
            ≤ free_of store.old.nodes.all }

        ensures alone { link_short store.new.nodes.all self.new ≡ 0 }
        ensures within { (q : ℕ) → range.from ≤ q → q < range.to →
            page store.new.nodes.all self.new q ≡ page store.old.nodes.all from.now q }
        ensures before { (q : ℕ) → q < range.from
            → page store.new.nodes.all self.new q ≡ page store.old.nodes.all self.old q }
        ensures after { (q : ℕ) → range.to ≤ q → q < PAGES →
            page store.new.nodes.all self.new q ≡ page store.old.nodes.all self.old q }

        ensures sound { IsSound store.new.nodes.all store.new.frames }
        ensures tree { IsTree store.new.nodes.all self.new }
        ensures trees { KeepsTrees store.old.nodes.all store.new.nodes.all self.old self.new }
        ensures maps { KeepsMaps store.old.nodes.all store.new.nodes.all self.old }
        ensures frames { KeepsFrames store.old.nodes.all store.new.nodes.all store.old.frames store.new.frames }
        ensures free { free_of store.old.nodes.all
            ≤ free_of store.new.nodes.all + range_short store.old.nodes.all self.old range.from range.to }
        ensures cost { store.new.nodes.steps ≤ store.old.nodes.steps + 766 }

        // A tree that gets its pages in rising order takes a node for each cut, and a step for each entry.
        ensures open { IsOpen store.old.nodes.all self.old range.from → range.from < range.to
            → IsOpen store.new.nodes.all self.new range.to }
        ensures edge_open { IsOpen store.old.nodes.all self.old range.from → range.from < range.to
            → edge_short store.new.nodes.all self.new range.to ≡ 0 }
        ensures free_open { IsOpen store.old.nodes.all self.old range.from
            → free_of store.old.nodes.all
            ≤ free_of store.new.nodes.all + edge_short store.old.nodes.all self.old range.from + 2 }
        ensures cost_open { IsOpen store.old.nodes.all self.old range.from
            → store.new.nodes.steps + entries_passed range.from
            ≤ store.old.nodes.steps + entries_passed range.to + 36 }
    {
        let first = range.from as usize;
        let end = range.to as usize;
        let root = store.share_at(self.root, ROOT_LEVEL, first, end, from.root);
        self.root = root.n + 1;
    }

    /// Makes the pages of a range absent. Where these are all pages, the root is given up, and no node is
    /// taken. An empty tree stays empty.
    pub fn clear_range(&mut self, store: &mut Store, range: Range)
        requires sound { IsSound store.old.nodes.all store.old.frames }
        requires tree { IsTree store.old.nodes.all self.old }
        requires order { range.from ≤ range.to }
        requires inside { range.to ≤ PAGES }
        requires free { clear_short store.old.nodes.all self.old range.from range.to
            ≤ free_of store.old.nodes.all }

        ensures all { range.from ≡ 0 → range.to ≡ PAGES → self.new ≡ 0 }
        ensures alone { (self.new ≡ 0) ⊎ (link_short store.new.nodes.all self.new ≡ 0) }
        ensures within { (q : ℕ) → range.from ≤ q → q < range.to
            → page store.new.nodes.all self.new q ≡ Absent }
        ensures before { (q : ℕ) → q < range.from
            → page store.new.nodes.all self.new q ≡ page store.old.nodes.all self.old q }
        ensures after { (q : ℕ) → range.to ≤ q → q < PAGES →
            page store.new.nodes.all self.new q ≡ page store.old.nodes.all self.old q }

        ensures sound { IsSound store.new.nodes.all store.new.frames }
        ensures tree { IsTree store.new.nodes.all self.new }
        ensures trees { KeepsTrees store.old.nodes.all store.new.nodes.all self.old self.new }
        ensures maps { KeepsMaps store.old.nodes.all store.new.nodes.all self.old }
        ensures frames { KeepsFrames store.old.nodes.all store.new.nodes.all store.old.frames store.new.frames }
        ensures free { free_of store.old.nodes.all
            ≤ free_of store.new.nodes.all + clear_short store.old.nodes.all self.old range.from range.to }
        ensures given_up { self.new ≡ 0 → free_of store.old.nodes.all ≤ free_of store.new.nodes.all }
        ensures none { self.old ≡ 0 → self.new ≡ 0 }
        ensures cost { store.new.nodes.steps ≤ store.old.nodes.steps + 766 }
        ensures cost_none { self.old ≡ 0 → store.new.nodes.steps ≡ store.old.nodes.steps }
        ensures cost_all { range.from ≡ 0 → range.to ≡ PAGES
            → store.new.nodes.steps ≤ store.old.nodes.steps + TREE_NODES }

        // A tree that gets its pages in rising order, as for `share_range`.
        ensures open { IsOpen store.old.nodes.all self.old range.from → range.from < range.to
            → IsOpen store.new.nodes.all self.new range.to }
        ensures free_open { IsOpen store.old.nodes.all self.old range.from → range.from < range.to
            → free_of store.old.nodes.all + edge_short store.new.nodes.all self.new range.to
            ≤ free_of store.new.nodes.all + edge_short store.old.nodes.all self.old range.from + 2 }
        ensures cost_open { IsOpen store.old.nodes.all self.old range.from
            → store.new.nodes.steps + entries_passed range.from
            ≤ store.old.nodes.steps + entries_passed range.to + 36 }
    {
        let first = range.from as usize;
        let end = range.to as usize;
        if first == 0 && end == PAGES {
            store.release(self.root, ROOT_LEVEL);
            self.root = 0;
        } else if self.root != 0 {
            let root = store.share_at(self.root, ROOT_LEVEL, first, end, 0);
            self.root = root.n + 1;
        }
    }
}
