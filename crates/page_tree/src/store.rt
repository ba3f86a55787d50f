ghost use Rattle.std.specs.Prelude.{◌≡◌, ◌≢◌, ℕ, ◌+◌, ◌-◌, ◌^◌, ◌<◌, ◌≤◌, ◌==◌, IfOk, [], length, List, replicate};
ghost use Rattle.frame_pool.specs.Frame.{frame_count, zero_frame};
ghost use Rattle.node_pool.specs.declared.pool.TheConstants.{NODE_ENTRIES};
ghost use Rattle.node_pool.specs.Nodes.{node_at, count_of, level_of, entry_of, empty_node, enter, free_of};
ghost use Rattle.node_pool.specs.Nodes.{next_step, recount};
ghost use Rattle.page_tree.specs.declared.store.TheConstants.{LEAF_LEVEL, ROOT_ENTRIES, ROOT_LEVEL};
ghost use Rattle.page_tree.specs.Pages.{entry_for};
ghost use Rattle.page_tree.specs.Sound.{IsSound, IsSoundTo, is_root, leading_to, one_if};
ghost use Rattle.page_tree.specs.Tied.{IsTied};
ghost use Rattle.page_tree.specs.Steps.{HoldsMore, HoldsLess, IsLoose, IsOwned, Moves};

use crate::cell::{PageCell, cell_from, entry_from};
use frame_pool::Pool;
use lwc_types::OutOfMemory;
use node_pool::{NODE_ENTRIES, NodeNo, NodePool};
use std::alloc::Global;

/// The level of a node whose entries are pages.
pub const LEAF_LEVEL: u8 = 1;

/// The level of a node that is the root of a tree: how many levels a tree has.
pub const ROOT_LEVEL: u8 = 3;

/// How many entries of a root are in use.
pub const ROOT_ENTRIES: usize = 16;

/// How many pages a tree has.
pub const PAGES: usize = ROOT_ENTRIES * NODE_ENTRIES * NODE_ENTRIES;

/// How many nodes a tree has at most: its root, and the nodes of the two levels below.
pub const TREE_NODES: u32 = (1 + ROOT_ENTRIES + ROOT_ENTRIES * NODE_ENTRIES) as u32;

/// The frames and nodes that trees stand in.
#[derive(Drop)]
pub struct Store {
    pub frames: Pool,
    pub nodes: NodePool,
}

impl Store {
    /// A store of this many frames and nodes, all free. The only error is out of memory.
    pub fn open(alloc: Global, frames: u32, nodes: u32) -> Result<Store, OutOfMemory>
        requires few_frames { frames ≤ 65536 }
        requires few_nodes { nodes ≤ 1048576 }
        ensures tied { IfOk result (λ store. IsTied store.nodes.all store.frames []) }
        ensures sound { IfOk result (λ store. IsSound store.nodes.all store.frames) }
        ensures nodes { IfOk result (λ store. store.nodes.all ≡ replicate nodes (empty_node 0 0)) }
        ensures frames { IfOk result
            (λ store. store.frames ≡ replicate frames (zero_frame 0 (record { job = 0; k = 0 }))) }
        ensures free { IfOk result (λ store. free_of store.nodes.all ≡ nodes) }
        ensures no_step { IfOk result (λ store. store.nodes.steps ≡ 0) }
    {
        let frames = Pool::open(alloc, frames)?;
        let nodes = NodePool::open(alloc, nodes)?;
        Ok(Store { frames, nodes })
    }
}

/// Holds the frame of a cell once more, if it has one.
fn hold_cell(frames: &mut Pool, cell: PageCell)
    requires held { (f : ℕ) → entry_for cell ≡ f + 2 → 0 < frame_count frames.old f }
    requires fits { (f : ℕ) → entry_for cell ≡ f + 2 → frame_count frames.old f + 1 < 2 ^ 32 }
    ensures { HoldsMore frames.old frames.new (entry_for cell) }
{
    if let PageCell::Frame(frame) = cell {
        frames.hold(frame);
    }
}

/// Holds the frame of a cell once less, if it has one.
fn drop_cell(frames: &mut Pool, cell: PageCell)
    requires { (f : ℕ) → entry_for cell ≡ f + 2 → 0 < frame_count frames.old f }
    ensures { HoldsLess frames.old frames.new (entry_for cell) }
{
    if let PageCell::Frame(frame) = cell {
        frames.drop_hold(frame);
    }
}

/// The node that a link leads to.
pub(crate) fn node_of(link: u32) -> NodeNo
    requires { 0 < link }
    ensures { result.n + 1 ≡ link }
{
    NodeNo { n: link - 1 }
}

impl Store {
    /// Takes a node of a level, whose entries are all 0.
    pub(crate) fn take(&mut self, level: u8) -> NodeNo
        requires low { LEAF_LEVEL ≤ level }
        requires high { level ≤ ROOT_LEVEL }
        requires sound { IsSoundTo level self.old.nodes.all self.old.frames }
        requires free { 0 < free_of self.old.nodes.all }
        ensures sound { IsSoundTo level self.new.nodes.all self.new.frames }
        ensures own { IsOwned self.new.nodes.all level result.n }
        ensures empty { (i : ℕ) → entry_of self.new.nodes.all result.n i ≡ 0 }
        ensures was_free { count_of self.old.nodes.all result.n ≡ 0 }
        ensures others { (x : ℕ) → x ≢ result.n
            → node_at self.new.nodes.all x ≡ node_at self.old.nodes.all x }
        ensures moves { Moves level self.old.nodes.all self.new.nodes.all self.old.frames self.new.frames
            (λ n. 0) (is_root (result.n + 1)) }
        ensures free { free_of self.old.nodes.all ≡ free_of self.new.nodes.all + 1 }
        ensures frames { self.new.frames ≡ self.old.frames }
        ensures one_step { self.new.nodes.steps ≡ next_step self.old.nodes.steps }
    {
        self.nodes.take(level).unwrap()
    }

    /// Holds a node of a level once more.
    pub(crate) fn hold(&mut self, node: NodeNo, level: u8)
        requires sound { IsSoundTo level self.old.nodes.all self.old.frames }
        requires level { level_of self.old.nodes.all node.n ≡ level }
        requires held { 0 < count_of self.old.nodes.all node.n }
        requires fits { count_of self.old.nodes.all node.n + 1 < 2 ^ 32 }
        ensures sound { IsSoundTo level self.new.nodes.all self.new.frames }
        ensures loose { IsLoose self.new.nodes.all level (node.n + 1) }
        ensures moves { Moves level self.old.nodes.all self.new.nodes.all self.old.frames self.new.frames
            (λ n. 0) (is_root (node.n + 1)) }
        ensures free { free_of self.new.nodes.all ≡ free_of self.old.nodes.all }
        ensures frames { self.new.frames ≡ self.old.frames }
        ensures others { (x : ℕ) → x ≢ node.n → node_at self.new.nodes.all x ≡ node_at self.old.nodes.all x }
        ensures one_step { self.new.nodes.steps ≡ next_step self.old.nodes.steps }
    {
        self.nodes.hold(node);
    }

    /// Gives up one hold of a node. Where it is the last one, the node has no entries.
    pub(crate) fn give_up(&mut self, node: NodeNo, level: u8)
        requires sound { IsSoundTo level self.old.nodes.all self.old.frames }
        requires loose { IsLoose self.old.nodes.all level (node.n + 1) }
        requires clean { count_of self.old.nodes.all node.n ≡ 1 → (i : ℕ)
            → entry_of self.old.nodes.all node.n i ≡ 0 }
        ensures sound { IsSoundTo level self.new.nodes.all self.new.frames }
        ensures moves { Moves level self.old.nodes.all self.new.nodes.all self.old.frames self.new.frames
            (is_root (node.n + 1)) (λ n. 0) }
        ensures free { free_of self.old.nodes.all ≤ free_of self.new.nodes.all }
        ensures frames { self.new.frames ≡ self.old.frames }
        ensures others { (x : ℕ) → x ≢ node.n → node_at self.new.nodes.all x ≡ node_at self.old.nodes.all x }
        ensures one_step { self.new.nodes.steps ≡ next_step self.old.nodes.steps }
    {
        self.nodes.drop_hold(node);
    }

    /// Puts a link into an entry of an owned node above the leaves, and takes the one that was there out.
    pub(crate) fn swap(&mut self, node: NodeNo, index: usize, link: u32, level: u8) -> u32
        requires inner { LEAF_LEVEL < level }
        requires sound { IsSoundTo (level - 1) self.old.nodes.all self.old.frames }
        requires own { IsOwned self.old.nodes.all level node.n }
        requires place { index < NODE_ENTRIES }
        requires narrow { level ≡ ROOT_LEVEL → ROOT_ENTRIES ≤ index → link ≡ 0 }
        requires loose { IsLoose self.old.nodes.all (level - 1) link }
        ensures was { result ≡ entry_of self.old.nodes.all node.n index }
        ensures sound { IsSoundTo (level - 1) self.new.nodes.all self.new.frames }
        ensures own { IsOwned self.new.nodes.all level node.n }
        ensures loose { IsLoose self.new.nodes.all (level - 1) result }
        ensures moves { Moves level self.old.nodes.all self.new.nodes.all self.old.frames self.new.frames
            (λ n. is_root (node.n + 1) n + is_root link n) (λ n. is_root (node.n + 1) n + is_root result n) }
        ensures nodes { self.new.nodes.all ≡ enter self.old.nodes.all node.n index link }
        ensures no_step { self.new.nodes.steps ≡ self.old.nodes.steps }
        ensures free { free_of self.new.nodes.all ≡ free_of self.old.nodes.all }
        ensures frames { self.new.frames ≡ self.old.frames }
    {
        let old = self.nodes.entry(node, index);
        self.nodes.set_entry(node, index, link);
        old
    }

    /// Writes a cell of an owned leaf: its frame is held once more, and that of the old cell once less.
    pub(crate) fn write(&mut self, leaf: NodeNo, index: usize, cell: PageCell)
        requires sound { IsSoundTo LEAF_LEVEL self.old.nodes.all self.old.frames }
        requires own { IsOwned self.old.nodes.all LEAF_LEVEL leaf.n }
        requires place { index < NODE_ENTRIES }
        requires held { (f : ℕ) → entry_for cell ≡ f + 2 → 0 < frame_count self.old.frames f }
        ensures sound { IsSoundTo LEAF_LEVEL self.new.nodes.all self.new.frames }
        ensures own { IsOwned self.new.nodes.all LEAF_LEVEL leaf.n }
        ensures moves { Moves LEAF_LEVEL self.old.nodes.all self.new.nodes.all self.old.frames self.new.frames
            (is_root (leaf.n + 1)) (is_root (leaf.n + 1)) }
        ensures nodes { self.new.nodes.all ≡ enter self.old.nodes.all leaf.n index (entry_for cell) }
        ensures no_step { self.new.nodes.steps ≡ self.old.nodes.steps }
        ensures holds { (f : ℕ)
            → frame_count self.new.frames f + one_if (entry_of self.old.nodes.all leaf.n index == f + 2)
            ≡ frame_count self.old.frames f + one_if (entry_for cell == f + 2) }
    {
        let old = cell_from(self.nodes.entry(leaf, index));
        hold_cell(&mut self.frames, cell);
        self.nodes.set_entry(leaf, index, entry_from(cell));
        drop_cell(&mut self.frames, old);
    }
}
