ghost use Rattle.std.specs.Prelude.{◌≡◌, ◌≢◌, ℕ, ◌+◌, ◌-◌, ◌*◌, ◌/◌, ◌%◌, ◌^◌, ◌<◌, ◌≤◌, ◌⊎◌, length};
ghost use Rattle.frame_pool.specs.Frame.{frame_count};
ghost use Rattle.node_pool.specs.declared.pool.TheConstants.{NODE_ENTRIES};
ghost use Rattle.node_pool.specs.Nodes.{entry_of, free_of};
ghost use Rattle.page_tree.specs.declared.store.TheConstants.{LEAF_LEVEL, PAGES, ROOT_ENTRIES, ROOT_LEVEL};
ghost use Rattle.page_tree.specs.Costs.{entries_in, entry_steps, open_steps, share_steps};
ghost use Rattle.page_tree.specs.Open.{IsOpenBelow, IsOpenNode, passed_below};
ghost use Rattle.page_tree.specs.Pages.{entry_below, link_of};
ghost use Rattle.page_tree.specs.Short.{cut_at, edge_below, entries_short, open_cuts, part_below, range_below};
ghost use Rattle.page_tree.specs.Sound.{IsSoundTo, is_root};
ghost use Rattle.page_tree.specs.Steps.{IsBeside, IsLoose, IsOwned, KeepsLone, Moves};
ghost use Rattle.page_tree.specs.Changes.{IsBelow};

use crate::store::{Store, node_of};
use crate::way::width;
use node_pool::{NODE_ENTRIES, NodeNo};

impl Store {
    /// An entry of what a link leads to.
    fn link_at(&self, link: u32, index: usize) -> u32
        requires inside { (n : ℕ) → link ≡ n + 1 → n < length self.now.nodes.all }
        requires place { index < NODE_ENTRIES }
        ensures { result ≡ link_of self.now.nodes.all link index }
    {
        if link == 0 {
            0
        } else {
            self.nodes.entry(node_of(link), index)
        }
    }

    /// Lets a link at a level, which is given up, have what another one has for a range of its pages.
    #[cycle(shares)]
    pub(crate) fn share_at(
        &mut self,
        link: u32,
        level: u8,
        first: usize,
        end: usize,
        from: u32,
    ) -> NodeNo
        requires low { LEAF_LEVEL ≤ level }
        requires high { level ≤ ROOT_LEVEL }
        requires sound { IsSoundTo level self.old.nodes.all self.old.frames }
        requires loose { IsLoose self.old.nodes.all level link }
        requires order { first ≤ end }
        requires page { end ≤ NODE_ENTRIES ^ level }
        requires inside { level ≡ ROOT_LEVEL → end ≤ PAGES }
        requires from { IsBeside self.old.nodes.all (is_root link) level from }
        requires free { range_below self.old.nodes.all level link first end ≤ free_of self.old.nodes.all }
        ensures sound { IsSoundTo level self.new.nodes.all self.new.frames }
        ensures own { IsOwned self.new.nodes.all level result.n }
        ensures moves { Moves level self.old.nodes.all self.new.nodes.all self.old.frames self.new.frames
            (is_root link) (is_root (result.n + 1)) }
        ensures within { (q : ℕ) → first ≤ q → q < end
            → entry_below self.new.nodes.all level (result.n + 1) q
            ≡ entry_below self.old.nodes.all level from q }
        ensures outside { (q : ℕ) → q < NODE_ENTRIES ^ level → (q < first) ⊎ (end ≤ q)
            → entry_below self.new.nodes.all level (result.n + 1) q
            ≡ entry_below self.old.nodes.all level link q }
        ensures free { free_of self.old.nodes.all
            ≤ free_of self.new.nodes.all + range_below self.old.nodes.all level link first end }
        ensures lone { KeepsLone self.old.nodes.all self.new.nodes.all (is_root link)
            (IsBelow self.old.nodes.all level from) }
        ensures cost { self.new.nodes.steps ≤ self.old.nodes.steps + share_steps level }
        ensures open { IsOpenBelow self.old.nodes.all level link first → first < end
            → IsOpenBelow self.new.nodes.all level (result.n + 1) end }
        ensures edge { IsOpenBelow self.old.nodes.all level link first → first < end
            → edge_below self.new.nodes.all level (result.n + 1) end ≡ 0 }
        ensures free_open { IsOpenBelow self.old.nodes.all level link first
            → free_of self.old.nodes.all
            ≤ free_of self.new.nodes.all + open_cuts self.old.nodes.all level link first end }
        ensures cost_open { IsOpenBelow self.old.nodes.all level link first
            → self.new.nodes.steps + passed_below level first
            ≤ self.old.nodes.steps + passed_below level end + open_steps level }
    {
        let node = self.own(link, level);
        if first < end {
            self.share_entries(node, level, first, end, from);
        }
        node
    }

    /// Lets an owned node have what a link has for a range of its pages.
    #[cycle(shares)]
    fn share_entries(&mut self, node: NodeNo, level: u8, first: usize, end: usize, from: u32)
        requires low { LEAF_LEVEL ≤ level }
        requires high { level ≤ ROOT_LEVEL }
        requires sound { IsSoundTo level self.old.nodes.all self.old.frames }
        requires own { IsOwned self.old.nodes.all level node.n }
        requires order { first < end }
        requires page { end ≤ NODE_ENTRIES ^ level }
        requires inside { level ≡ ROOT_LEVEL → end ≤ PAGES }
        requires from { IsBeside self.old.nodes.all (is_root (node.n + 1)) level from }
        requires free { entries_short self.old.nodes.all level node.n first end ≤ free_of self.old.nodes.all }
        ensures sound { IsSoundTo level self.new.nodes.all self.new.frames }
        ensures own { IsOwned self.new.nodes.all level node.n }
        ensures moves { Moves level self.old.nodes.all self.new.nodes.all self.old.frames self.new.frames
            (is_root (node.n + 1)) (is_root (node.n + 1)) }
        ensures within { (q : ℕ) → first ≤ q → q < end
            → entry_below self.new.nodes.all level (node.n + 1) q
            ≡ entry_below self.old.nodes.all level from q }
        ensures outside { (q : ℕ) → q < NODE_ENTRIES ^ level → (q < first) ⊎ (end ≤ q) →
            entry_below self.new.nodes.all level (node.n + 1) q
            ≡ entry_below self.old.nodes.all level (node.n + 1) q }
        ensures free { free_of self.old.nodes.all
            ≤ free_of self.new.nodes.all + entries_short self.old.nodes.all level node.n first end }
        ensures lone { KeepsLone self.old.nodes.all self.new.nodes.all (is_root (node.n + 1))
            (IsBelow self.old.nodes.all level from) }
        ensures cost { self.new.nodes.steps ≤ self.old.nodes.steps
            + (entries_in level * entry_steps level + 2 * share_steps (level - 1)) }
        ensures open { IsOpenNode self.old.nodes.all level node.n first
            → IsOpenNode self.new.nodes.all level node.n end }
        ensures edge { IsOpenNode self.old.nodes.all level node.n first
            → edge_below self.new.nodes.all level (node.n + 1) end ≡ 0 }
        ensures free_open { IsOpenNode self.old.nodes.all level node.n first
            → free_of self.old.nodes.all ≤ free_of self.new.nodes.all
            + (edge_below self.old.nodes.all (level - 1)
            (entry_of self.old.nodes.all node.n (first / NODE_ENTRIES ^ (level - 1)))
            (first % NODE_ENTRIES ^ (level - 1)) + cut_at level end (NODE_ENTRIES ^ level)) }
        ensures cost_open { IsOpenNode self.old.nodes.all level node.n first
            → self.new.nodes.steps + passed_below level first + 1
            ≤ self.old.nodes.steps + passed_below level end + open_steps level }
    {
        let width = width(level);
        'entries: for i in first / width..(end - 1) / width + 1 {
            let start = i * width;
            let low = first.max(start) - start;
            let high = end.min(start + width) - start;
            let link = self.link_at(from, i);
            self.share_entry(node, i, level, low, high, link);
        }
    }

    /// Lets an entry of an owned node have what a link, or a cell, has for a range of its pages.
    #[cycle(shares)]
    fn share_entry(
        &mut self,
        node: NodeNo,
        index: usize,
        level: u8,
        first: usize,
        end: usize,
        link: u32,
    )
        requires low { LEAF_LEVEL ≤ level }
        requires high { level ≤ ROOT_LEVEL }
        requires sound { IsSoundTo level self.old.nodes.all self.old.frames }
        requires own { IsOwned self.old.nodes.all level node.n }
        requires place { index < NODE_ENTRIES }
        requires narrow { level ≡ ROOT_LEVEL → index < ROOT_ENTRIES }
        requires order { first < end }
        requires page { end ≤ NODE_ENTRIES ^ (level - 1) }
        requires cell { level ≡ LEAF_LEVEL → (f : ℕ) → link ≡ f + 2 → 0 < frame_count self.old.frames f }
        requires beside { LEAF_LEVEL < level → IsBeside self.old.nodes.all (is_root (node.n + 1))
            (level - 1) link }
        requires free { part_below self.old.nodes.all (level - 1)
            (entry_of self.old.nodes.all node.n index) first end ≤ free_of self.old.nodes.all }
        ensures sound { IsSoundTo level self.new.nodes.all self.new.frames }
        ensures own { IsOwned self.new.nodes.all level node.n }
        ensures moves { Moves level self.old.nodes.all self.new.nodes.all self.old.frames self.new.frames
            (is_root (node.n + 1)) (is_root (node.n + 1)) }
        ensures within { (q : ℕ) → first ≤ q → q < end →
            entry_below self.new.nodes.all (level - 1) (entry_of self.new.nodes.all node.n index) q
            ≡ entry_below self.old.nodes.all (level - 1) link q }
        ensures outside { (q : ℕ) → q < NODE_ENTRIES ^ (level - 1) → (q < first) ⊎ (end ≤ q) →
            entry_below self.new.nodes.all (level - 1) (entry_of self.new.nodes.all node.n index) q
            ≡ entry_below self.old.nodes.all (level - 1) (entry_of self.old.nodes.all node.n index) q }
        ensures there { (k q : ℕ) → k ≢ index
            → entry_below self.new.nodes.all (level - 1) (entry_of self.new.nodes.all node.n k) q
            ≡ entry_below self.old.nodes.all (level - 1) (entry_of self.old.nodes.all node.n k) q }
        ensures others { (k : ℕ) → k ≢ index
            → entry_of self.new.nodes.all node.n k ≡ entry_of self.old.nodes.all node.n k }
        ensures free { free_of self.old.nodes.all ≤ free_of self.new.nodes.all
            + part_below self.old.nodes.all (level - 1) (entry_of self.old.nodes.all node.n index) first end }
        ensures lone { KeepsLone self.old.nodes.all self.new.nodes.all (is_root (node.n + 1))
            (λ m. (LEAF_LEVEL < level) × IsBelow self.old.nodes.all (level - 1) link m) }
        ensures rest { (k from to : ℕ) → k ≢ index
            → range_below self.new.nodes.all (level - 1) (entry_of self.new.nodes.all node.n k) from to
            ≤ range_below self.old.nodes.all (level - 1) (entry_of self.old.nodes.all node.n k) from to }
        ensures cost { self.new.nodes.steps
            ≤ self.old.nodes.steps + (entry_steps level + share_steps (level - 1)) }
        ensures cost_whole { first ≡ 0 → end ≡ NODE_ENTRIES ^ (level - 1)
            → self.new.nodes.steps ≤ self.old.nodes.steps + entry_steps level }
        ensures open { IsOpenBelow self.old.nodes.all (level - 1)
            (entry_of self.old.nodes.all node.n index) first
            → end ≢ NODE_ENTRIES ^ (level - 1)
            → IsOpenBelow self.new.nodes.all (level - 1) (entry_of self.new.nodes.all node.n index) end }
        ensures edge { IsOpenBelow self.old.nodes.all (level - 1)
            (entry_of self.old.nodes.all node.n index) first
            → end ≢ NODE_ENTRIES ^ (level - 1)
            → edge_below self.new.nodes.all (level - 1) (entry_of self.new.nodes.all node.n index) end ≡ 0 }
        ensures free_open { IsOpenBelow self.old.nodes.all (level - 1)
            (entry_of self.old.nodes.all node.n index) first
            → free_of self.old.nodes.all ≤ free_of self.new.nodes.all
            + open_cuts self.old.nodes.all (level - 1) (entry_of self.old.nodes.all node.n index) first end }
        ensures free_whole { first ≡ 0 → end ≡ NODE_ENTRIES ^ (level - 1)
            → free_of self.old.nodes.all ≤ free_of self.new.nodes.all }
        ensures cost_open { IsOpenBelow self.old.nodes.all (level - 1)
            (entry_of self.old.nodes.all node.n index) first
            → self.new.nodes.steps + passed_below (level - 1) first
            ≤ self.old.nodes.steps + passed_below (level - 1) end + open_steps (level - 1) }
        ensures cost_open_whole { IsOpenBelow self.old.nodes.all (level - 1)
            (entry_of self.old.nodes.all node.n index) first → first ≡ 0 → end ≡ NODE_ENTRIES ^ (level - 1)
            → self.new.nodes.steps ≤ self.old.nodes.steps + 1 }
        ensures cost_leaf { level ≡ LEAF_LEVEL → self.new.nodes.steps ≡ self.old.nodes.steps }
    {
        if first == 0 && end == width(level) {
            self.put(node, index, link, level);
        } else {
            let child = self.swap(node, index, 0, level);
            let child = self.share_at(child, level - 1, first, end, link);
            self.swap(node, index, child.n + 1, level);
        }
    }
}
