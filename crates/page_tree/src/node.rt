ghost use Rattle.std.specs.Prelude.{◌≡◌, ◌≢◌, ℕ, ◌+◌, ◌-◌, ◌*◌, ◌<◌, ◌≤◌, slice_index, true};
ghost use Rattle.frame_pool.specs.Frame.{frame_count};
ghost use Rattle.node_pool.specs.declared.pool.TheConstants.{NODE_ENTRIES};
ghost use Rattle.node_pool.specs.Nodes.{node_at, count_of, level_of, entry_of, free_of};
ghost use Rattle.page_tree.specs.declared.store.TheConstants.{LEAF_LEVEL, ROOT_ENTRIES, ROOT_LEVEL};
ghost use Rattle.page_tree.specs.Costs.{copy_steps, entries_in, most_nodes};
ghost use Rattle.page_tree.specs.Pages.{entry_below, link_of};
ghost use Rattle.page_tree.specs.Sound.{IsSoundTo, is_root, leading_to};
ghost use Rattle.page_tree.specs.Steps.{IsLoose, IsOwned, IsWay, KeepsLone, Moves, leads_to, none_shared};
ghost use Rattle.page_tree.specs.Short.{range_below, link_short};

use crate::cell::cell_from;
use crate::store::{LEAF_LEVEL, Store, node_of};
use node_pool::{NODE_ENTRIES, NodeNo};

impl Store {
    /// Holds what a link leads to once more, if it leads to a node.
    fn hold_link(&mut self, link: u32, level: u8)
        requires sound { IsSoundTo (level + 1) self.old.nodes.all self.old.frames }
        requires held { (n : ℕ) → link ≡ n + 1
            → (level_of self.old.nodes.all n ≡ level) × (0 < count_of self.old.nodes.all n) }
        ensures sound { IsSoundTo level self.new.nodes.all self.new.frames }
        ensures loose { IsLoose self.new.nodes.all level link }
        ensures moves { Moves level self.old.nodes.all self.new.nodes.all self.old.frames self.new.frames
            (λ n. 0) (is_root link) }
        ensures free { free_of self.new.nodes.all ≡ free_of self.old.nodes.all }
        ensures frames { self.new.frames ≡ self.old.frames }
        ensures cost { self.new.nodes.steps ≤ self.old.nodes.steps + 1 }
        ensures cost_none { link ≡ 0 → self.new.nodes.steps ≡ self.old.nodes.steps }
        ensures lone { KeepsLone self.old.nodes.all self.new.nodes.all (λ n. 0) (leads_to link) }
    {
        if link != 0 {
            self.hold(node_of(link), level);
        }
    }

    /// Lets an entry of an owned node be a link, or a cell, that is held once more for it. The one that was
    /// there is given up.
    #[cycle(parts)]
    pub(crate) fn put(&mut self, node: NodeNo, index: usize, link: u32, level: u8)
        requires low { LEAF_LEVEL ≤ level }
        requires sound { IsSoundTo level self.old.nodes.all self.old.frames }
        requires own { IsOwned self.old.nodes.all level node.n }
        requires place { index < NODE_ENTRIES }
        requires narrow { level ≡ ROOT_LEVEL → ROOT_ENTRIES ≤ index → link ≡ 0 }
        requires cell { level ≡ LEAF_LEVEL → (f : ℕ) → link ≡ f + 2 → 0 < frame_count self.old.frames f }
        requires held { LEAF_LEVEL < level → (n : ℕ) → link ≡ n + 1 →
            (level_of self.old.nodes.all n ≡ level - 1) × (0 < count_of self.old.nodes.all n) }
        ensures sound { IsSoundTo level self.new.nodes.all self.new.frames }
        ensures own { IsOwned self.new.nodes.all level node.n }
        ensures moves { Moves level self.old.nodes.all self.new.nodes.all self.old.frames self.new.frames
            (is_root (node.n + 1)) (is_root (node.n + 1)) }
        ensures here { entry_of self.new.nodes.all node.n index ≡ link }
        ensures others { (k : ℕ) → k ≢ index
            → entry_of self.new.nodes.all node.n k ≡ entry_of self.old.nodes.all node.n k }
        ensures there { (k q : ℕ) → k ≢ index
            → entry_below self.new.nodes.all (level - 1) (entry_of self.new.nodes.all node.n k) q
            ≡ entry_below self.old.nodes.all (level - 1) (entry_of self.old.nodes.all node.n k) q }
        ensures peers { (x : ℕ) → x ≢ node.n → 0 < count_of self.old.nodes.all x
            → level ≤ level_of self.old.nodes.all x
            → node_at self.new.nodes.all x ≡ node_at self.old.nodes.all x }
        ensures free { free_of self.old.nodes.all ≤ free_of self.new.nodes.all }
        ensures grows { entry_of self.old.nodes.all node.n index ≡ 0 → (f : ℕ) →
            frame_count self.old.frames f ≤ frame_count self.new.frames f }
        ensures cost { self.new.nodes.steps ≤ self.old.nodes.steps + (1 + most_nodes (level - 1)) }
        ensures lone { KeepsLone self.old.nodes.all self.new.nodes.all (is_root (node.n + 1))
            (λ m. (LEAF_LEVEL < level) × leads_to link m) }
        ensures rest { (k from to : ℕ) → k ≢ index
            → ((m : ℕ) → IsWay (λ x. count_of self.old.nodes.all x ≡ 1) self.old.nodes.all (level - 1)
            (entry_of self.old.nodes.all node.n k) m → leads_to link m → ⊥)
            → range_below self.new.nodes.all (level - 1) (entry_of self.new.nodes.all node.n k) from to
            ≤ range_below self.old.nodes.all (level - 1) (entry_of self.old.nodes.all node.n k) from to }
        ensures cost_leaf { level ≡ LEAF_LEVEL → self.new.nodes.steps ≡ self.old.nodes.steps }
        ensures cost_none { link ≡ 0 → self.new.nodes.steps ≤ self.old.nodes.steps + most_nodes (level - 1) }
        ensures cost_absent { entry_of self.old.nodes.all node.n index ≡ 0
            → self.new.nodes.steps ≤ self.old.nodes.steps + 1 }
    {
        if level == LEAF_LEVEL {
            self.write(node, index, cell_from(link));
        } else {
            self.hold_link(link, level - 1);
            let old = self.swap(node, index, link, level);
            self.release(old, level - 1);
        }
    }

    /// Gives up a hold of what a link leads to, and all that nobody else holds then.
    #[cycle(parts)]
    pub(crate) fn release(&mut self, link: u32, level: u8)
        requires low { LEAF_LEVEL ≤ level }
        requires sound { IsSoundTo level self.old.nodes.all self.old.frames }
        requires loose { IsLoose self.old.nodes.all level link }
        ensures sound { IsSoundTo level self.new.nodes.all self.new.frames }
        ensures moves { Moves level self.old.nodes.all self.new.nodes.all self.old.frames self.new.frames
            (is_root link) (λ n. 0) }
        ensures free { free_of self.old.nodes.all ≤ free_of self.new.nodes.all }
        ensures none_frames { link ≡ 0 → self.new.frames ≡ self.old.frames }
        ensures lone { KeepsLone self.old.nodes.all self.new.nodes.all (is_root link) none_shared }
        ensures cost { self.new.nodes.steps ≤ self.old.nodes.steps + most_nodes level }
        ensures none { link ≡ 0 → self.new.nodes.steps ≡ self.old.nodes.steps }
    {
        if link != 0 {
            let node = node_of(link);
            self.empty(node, level);
            self.give_up(node, level);
        }
    }

    /// Takes all entries from a node, if it is held once.
    #[cycle(parts)]
    fn empty(&mut self, node: NodeNo, level: u8)
        requires low { LEAF_LEVEL ≤ level }
        requires sound { IsSoundTo level self.old.nodes.all self.old.frames }
        requires loose { IsLoose self.old.nodes.all level (node.n + 1) }
        ensures sound { IsSoundTo level self.new.nodes.all self.new.frames }
        ensures loose { IsLoose self.new.nodes.all level (node.n + 1) }
        ensures clean { count_of self.new.nodes.all node.n ≡ 1 → (i : ℕ)
            → entry_of self.new.nodes.all node.n i ≡ 0 }
        ensures moves { Moves level self.old.nodes.all self.new.nodes.all self.old.frames self.new.frames
            (is_root (node.n + 1)) (is_root (node.n + 1)) }
        ensures free { free_of self.old.nodes.all ≤ free_of self.new.nodes.all }
        ensures lone { KeepsLone self.old.nodes.all self.new.nodes.all (is_root (node.n + 1)) none_shared }
        ensures cost { self.new.nodes.steps
            ≤ self.old.nodes.steps + entries_in level * most_nodes (level - 1) }
    {
        if self.nodes.count(node) == 1 {
            let links = self.nodes.entries(node);
            let mut i = next_link(&links, 0);
            'entries: while i < NODE_ENTRIES {
                self.put(node, i, 0, level);
                i = next_link(&links, i + 1);
            }
        }
    }
}

impl Store {
    /// A node that one link alone leads to, with the entries of what a link leads to: that node, a copy of
    /// it, or a new one.
    pub(crate) fn own(&mut self, link: u32, level: u8) -> NodeNo
        requires low { LEAF_LEVEL ≤ level }
        requires high { level ≤ ROOT_LEVEL }
        requires sound { IsSoundTo level self.old.nodes.all self.old.frames }
        requires loose { IsLoose self.old.nodes.all level link }
        requires free { link_short self.old.nodes.all link ≤ free_of self.old.nodes.all }
        ensures sound { IsSoundTo level self.new.nodes.all self.new.frames }
        ensures own { IsOwned self.new.nodes.all level result.n }
        ensures moves { Moves level self.old.nodes.all self.new.nodes.all self.old.frames self.new.frames
            (is_root link) (is_root (result.n + 1)) }
        ensures entries { (i : ℕ) → entry_of self.new.nodes.all result.n i
            ≡ link_of self.old.nodes.all link i }
        ensures maps { (q : ℕ) → entry_below self.new.nodes.all level (result.n + 1) q
            ≡ entry_below self.old.nodes.all level link q }
        ensures same { link_short self.old.nodes.all link ≡ 0 → self.new.nodes.all ≡ self.old.nodes.all }
        ensures free { free_of self.old.nodes.all
            ≤ free_of self.new.nodes.all + link_short self.old.nodes.all link }
        ensures grows { (f : ℕ) → frame_count self.old.frames f ≤ frame_count self.new.frames f }
        ensures lone { KeepsLone self.old.nodes.all self.new.nodes.all (is_root link) none_shared }
        ensures cost { self.new.nodes.steps ≤ self.old.nodes.steps + copy_steps level }
        ensures cost_own { link_short self.old.nodes.all link ≡ 0
            → self.new.nodes.steps ≡ self.old.nodes.steps }
        ensures cost_none { link ≡ 0 → self.new.nodes.steps ≤ self.old.nodes.steps + 1 }
    {
        if link == 0 {
            self.take(level)
        } else {
            self.own_node(node_of(link), level)
        }
    }

    /// A node that is held once, with the entries of a node: that node or a copy of it.
    fn own_node(&mut self, node: NodeNo, level: u8) -> NodeNo
        requires low { LEAF_LEVEL ≤ level }
        requires high { level ≤ ROOT_LEVEL }
        requires sound { IsSoundTo level self.old.nodes.all self.old.frames }
        requires loose { IsLoose self.old.nodes.all level (node.n + 1) }
        requires free { link_short self.old.nodes.all (node.n + 1) ≤ free_of self.old.nodes.all }
        ensures sound { IsSoundTo level self.new.nodes.all self.new.frames }
        ensures own { IsOwned self.new.nodes.all level result.n }
        ensures moves { Moves level self.old.nodes.all self.new.nodes.all self.old.frames self.new.frames
            (is_root (node.n + 1)) (is_root (result.n + 1)) }
        ensures entries { (i : ℕ) → entry_of self.new.nodes.all result.n i
            ≡ entry_of self.old.nodes.all node.n i }
        ensures maps { (q : ℕ) → entry_below self.new.nodes.all level (result.n + 1) q
            ≡ entry_below self.old.nodes.all level (node.n + 1) q }
        ensures same { link_short self.old.nodes.all (node.n + 1) ≡ 0
            → self.new.nodes.all ≡ self.old.nodes.all }
        ensures free { free_of self.old.nodes.all
            ≤ free_of self.new.nodes.all + link_short self.old.nodes.all (node.n + 1) }
        ensures grows { (f : ℕ) → frame_count self.old.frames f ≤ frame_count self.new.frames f }
        ensures lone { KeepsLone self.old.nodes.all self.new.nodes.all (is_root (node.n + 1)) none_shared }
        ensures cost { self.new.nodes.steps ≤ self.old.nodes.steps + copy_steps level }
        ensures cost_own { link_short self.old.nodes.all (node.n + 1) ≡ 0
            → self.new.nodes.steps ≡ self.old.nodes.steps }
    {
        if self.nodes.count(node) == 1 {
            node
        } else {
            self.copy(node, level)
        }
    }

    /// Gives up a hold of a node for a copy of it.
    fn copy(&mut self, node: NodeNo, level: u8) -> NodeNo
        requires low { LEAF_LEVEL ≤ level }
        requires high { level ≤ ROOT_LEVEL }
        requires sound { IsSoundTo level self.old.nodes.all self.old.frames }
        requires loose { IsLoose self.old.nodes.all level (node.n + 1) }
        requires shared { count_of self.old.nodes.all node.n ≢ 1 }
        requires free { 0 < free_of self.old.nodes.all }
        ensures sound { IsSoundTo level self.new.nodes.all self.new.frames }
        ensures own { IsOwned self.new.nodes.all level result.n }
        ensures moves { Moves level self.old.nodes.all self.new.nodes.all self.old.frames self.new.frames
            (is_root (node.n + 1)) (is_root (result.n + 1)) }
        ensures entries { (i : ℕ) → entry_of self.new.nodes.all result.n i
            ≡ entry_of self.old.nodes.all node.n i }
        ensures maps { (q : ℕ) → entry_below self.new.nodes.all level (result.n + 1) q
            ≡ entry_below self.old.nodes.all level (node.n + 1) q }
        ensures free { free_of self.old.nodes.all ≤ free_of self.new.nodes.all + 1 }
        ensures grows { (f : ℕ) → frame_count self.old.frames f ≤ frame_count self.new.frames f }
        ensures lone { KeepsLone self.old.nodes.all self.new.nodes.all (is_root (node.n + 1)) none_shared }
        ensures cost { self.new.nodes.steps ≤ self.old.nodes.steps + copy_steps level }
    {
        let copy = self.take(level);
        self.fill(copy, node, level);
        self.give_up(node, level);
        copy
    }

    /// Lets the entries of an owned node, which has none, be those of another one.
    fn fill(&mut self, copy: NodeNo, node: NodeNo, level: u8)
        requires low { LEAF_LEVEL ≤ level }
        requires sound { IsSoundTo level self.old.nodes.all self.old.frames }
        requires own { IsOwned self.old.nodes.all level copy.n }
        requires empty { (i : ℕ) → entry_of self.old.nodes.all copy.n i ≡ 0 }
        requires loose { IsLoose self.old.nodes.all level (node.n + 1) }
        requires shared { count_of self.old.nodes.all node.n ≢ 1 }
        requires apart { node.n ≢ copy.n }
        ensures sound { IsSoundTo level self.new.nodes.all self.new.frames }
        ensures own { IsOwned self.new.nodes.all level copy.n }
        ensures moves { Moves level self.old.nodes.all self.new.nodes.all self.old.frames self.new.frames
            (is_root (copy.n + 1)) (is_root (copy.n + 1)) }
        ensures entries { (i : ℕ) → entry_of self.new.nodes.all copy.n i
            ≡ entry_of self.old.nodes.all node.n i }
        ensures peer { node_at self.new.nodes.all node.n ≡ node_at self.old.nodes.all node.n }
        ensures free { free_of self.old.nodes.all ≤ free_of self.new.nodes.all }
        ensures grows { (f : ℕ) → frame_count self.old.frames f ≤ frame_count self.new.frames f }
        ensures lone { KeepsLone self.old.nodes.all self.new.nodes.all (is_root (copy.n + 1)) none_shared }
        ensures cost { self.new.nodes.steps ≤ self.old.nodes.steps + entries_in level }
        ensures cost_leaf { level ≡ LEAF_LEVEL → self.new.nodes.steps ≡ self.old.nodes.steps }
    {
        let links = self.nodes.entries(node);
        let mut i = next_link(&links, 0);
        'entries: while i < NODE_ENTRIES {
            self.put(copy, i, links[i], level);
            i = next_link(&links, i + 1);
        }
    }
}

/// The first place from this one on whose link leads somewhere; the number of places if there is none.
fn next_link(links: &[u32; NODE_ENTRIES], from: usize) -> usize
    requires { from ≤ NODE_ENTRIES }
    ensures order { (from ≤ result) × (result ≤ NODE_ENTRIES) }
    ensures none { (k : ℕ) → from ≤ k → k < result → slice_index links.now k ≡ 0 }
    ensures some { result < NODE_ENTRIES → slice_index links.now result ≢ 0 }
{
    let mut at = from;
    'places: while at < NODE_ENTRIES && links[at] == 0 {
        at += if at % 8 == 0 && are_zeros(links, at) {
            8
        } else {
            1
        };
    }
    at
}

/// Whether eight links from this place on lead nowhere.
fn are_zeros(links: &[u32; NODE_ENTRIES], at: usize) -> bool
    requires { at + 8 ≤ NODE_ENTRIES }
    ensures { result ≡ true → (k : ℕ) → at ≤ k → k < at + 8 → slice_index links.now k ≡ 0 }
{
    links[at] == 0
        && links[at + 1] == 0
        && links[at + 2] == 0
        && links[at + 3] == 0
        && links[at + 4] == 0
        && links[at + 5] == 0
        && links[at + 6] == 0
        && links[at + 7] == 0
}
