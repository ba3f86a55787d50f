ghost use Rattle.std.specs.Prelude.{◌≡◌, ◌≢◌, ℕ, ◌+◌, ◌-◌, ◌*◌, ◌^◌, ◌<◌, ◌≤◌, ◌↔◌, true};
ghost use Rattle.frame_pool.specs.Frame.{frame_count};
ghost use Rattle.node_pool.specs.declared.pool.TheConstants.{NODE_ENTRIES};
ghost use Rattle.node_pool.specs.Nodes.{count_of, level_of, entry_of, free_of};
ghost use Rattle.page_tree.specs.declared.store.TheConstants.{LEAF_LEVEL, PAGES, ROOT_ENTRIES, ROOT_LEVEL};
ghost use Rattle.page_tree.specs.Costs.{way_steps};
ghost use Rattle.page_tree.specs.Pages.{entry_below, entry_for, link_of};
ghost use Rattle.page_tree.specs.Short.{link_short, short_below};
ghost use Rattle.page_tree.specs.Sound.{IsSoundTo, is_root};
ghost use Rattle.page_tree.specs.Steps.{IsLoose, IsOwned, Moves};

use crate::cell::PageCell;
use crate::store::{LEAF_LEVEL, ROOT_LEVEL, Store, node_of};
use node_pool::{NODE_ENTRIES, NodeNo};

/// How many bits of a page's number choose an entry of a node.
const ENTRY_BITS: u8 = 5;

/// How many pages an entry of a node of a level leads to.
pub(crate) fn width(level: u8) -> usize
    requires low { LEAF_LEVEL ≤ level }
    requires high { level ≤ ROOT_LEVEL }
    ensures { result ≡ NODE_ENTRIES ^ (level - 1) }
{
    1 << (ENTRY_BITS * (level - 1))
}

impl Store {
    /// The entry for a page on the way down from the root of a tree; and whether all nodes on the way are there,
    /// and held once.
    #[inline(always)]
    pub(crate) fn look_at(&self, root: u32, page: usize) -> (u32, bool)
        requires sound { IsSoundTo ROOT_LEVEL self.now.nodes.all self.now.frames }
        requires held { (n : ℕ) → root ≡ n + 1
            → (level_of self.now.nodes.all n ≡ ROOT_LEVEL) × (0 < count_of self.now.nodes.all n) }
        requires page { page < NODE_ENTRIES ^ ROOT_LEVEL }
        ensures entry { result.0 ≡ entry_below self.now.nodes.all ROOT_LEVEL root page }
        ensures alone { (result.1 ≡ true) ↔ (short_below self.now.nodes.all ROOT_LEVEL root page ≡ 0) }
    {
        let mut link = root;
        let mut p = page;
        let mut alone = true;
        let mut level = ROOT_LEVEL;
        'levels: while level >= LEAF_LEVEL {
            if link == 0 {
                return (0, false);
            }
            let node = node_of(link);
            let once = self.nodes.count(node) == 1;
            alone = alone && once;
            let width = width(level);
            link = self.nodes.entry(node, p / width);
            p %= width;
            level -= 1;
        }
        (link, alone)
    }

    /// Lets a link at a level, which is given up, have a cell for a page.
    pub(crate) fn set_at(&mut self, link: u32, level: u8, page: usize, cell: PageCell) -> NodeNo
        requires low { LEAF_LEVEL ≤ level }
        requires high { level ≤ ROOT_LEVEL }
        requires sound { IsSoundTo level self.old.nodes.all self.old.frames }
        requires loose { IsLoose self.old.nodes.all level link }
        requires page { page < NODE_ENTRIES ^ level }
        requires inside { level ≡ ROOT_LEVEL → page < PAGES }
        requires held { (f : ℕ) → entry_for cell ≡ f + 2 → 0 < frame_count self.old.frames f }
        requires free { short_below self.old.nodes.all level link page ≤ free_of self.old.nodes.all }
        ensures sound { IsSoundTo level self.new.nodes.all self.new.frames }
        ensures own { IsOwned self.new.nodes.all level result.n }
        ensures moves { Moves level self.old.nodes.all self.new.nodes.all self.old.frames self.new.frames
            (is_root link) (is_root (result.n + 1)) }
        ensures page { entry_below self.new.nodes.all level (result.n + 1) page ≡ entry_for cell }
        ensures pages { (q : ℕ) → q < NODE_ENTRIES ^ level → q ≢ page
            → entry_below self.new.nodes.all level (result.n + 1) q
            ≡ entry_below self.old.nodes.all level link q }
        ensures alone { short_below self.new.nodes.all level (result.n + 1) page ≡ 0 }
        ensures free { free_of self.old.nodes.all
            ≤ free_of self.new.nodes.all + short_below self.old.nodes.all level link page }
        ensures grows { entry_for cell ≡ entry_below self.old.nodes.all level link page
            → (f : ℕ) → frame_count self.old.frames f ≤ frame_count self.new.frames f }
        ensures cost { self.new.nodes.steps ≤ self.old.nodes.steps + way_steps level }
    {
        let node = self.own(link, level);
        if level == LEAF_LEVEL {
            self.write(node, page, cell);
        } else {
            let width = width(level);
            let child = self.swap(node, page / width, 0, level);
            let child = self.set_at(child, level - 1, page % width, cell);
            self.swap(node, page / width, child.n + 1, level);
        }
        node
    }
}
