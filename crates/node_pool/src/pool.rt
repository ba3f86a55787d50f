ghost use Rattle.std.specs.Prelude.{◌≡◌, ℕ, ◌+◌, ◌-◌, ◌<◌, ◌^◌, ◌↔◌, List, IfOk, IfSome, IfNone, IsNone, length};
ghost use Rattle.std.specs.Prelude.{replicate, slice_set};

use lwc_types::OutOfMemory;
use pool_base::{HoldCounts, put_next};
use std::alloc::Global;
use std::marker::Model;

/// How many entries a node has.
pub const NODE_ENTRIES: usize = 32;

/// Names a node of a pool by its place.
#[derive(Clone, Copy, Debug, PartialEq, Eq)]
pub struct NodeNo {
    pub n: u32,
}

/// What a node holds beside its count.
#[derive(Clone, Copy, Drop)]
struct NodeContent {
    level: u8,
    entries: [u32; NODE_ENTRIES],
}

/// Nodes in one region, seen as all of them, of each its count, its level and its 32 entries, and as the number
/// of node steps so far: each `take`, `hold` and `drop_hold` is one, and the number stays at the largest of 64
/// bits. No call tells it. No call looks for a free node, and a node's memory is first written when the node is
/// taken.
#[derive(Drop)]
pub struct NodePool {
    counts: HoldCounts,
    contents: Vec<NodeContent>,
    steps: u64,
}

impl Model for NodePool {
    ghost use Rattle.node_pool.specs.Nodes.{Nodes};

    ghost Value = { Nodes };

    ghost use Rattle.std.specs.Prelude.{◌≤◌, length, vec_capacity};
    ghost use Rattle.node_pool.specs.View.{seen_nodes, IsWhole};

    ghost view = { λ pool. record { all = seen_nodes pool.counts pool.contents.items; steps = pool.steps } };

    ghost invariant = { λ pool. record {
      whole : IsWhole pool.counts pool.contents.items;
      room : length pool.counts.counts ≤ vec_capacity pool.contents;
    } };
}

impl NodePool {
    ghost use Rattle.node_pool.specs.Nodes.{count_of, level_of, entry_of, recount, enter, free_of};
    ghost use Rattle.node_pool.specs.Nodes.{empty_node, next_step, node_at};

    /// A pool of this many nodes, all free. The only error is out of memory.
    pub fn open(alloc: Global, nodes: u32) -> Result<NodePool, OutOfMemory>
        ensures nodes { IfOk result (λ pool. pool.all ≡ replicate nodes (empty_node 0 0)) }
        ensures no_step { IfOk result (λ pool. pool.steps ≡ 0) }
    {
        let counts = HoldCounts::open(alloc, nodes)?;
        let contents = Vec::with_capacity(alloc, nodes as usize)?;
        Ok(NodePool {
            counts,
            contents,
            steps: 0,
        })
    }

    /// Takes a free node: it is held once, has the level, and all its entries are 0. None exactly where no
    /// node is free.
    pub fn take(&mut self, level: u8) -> Option<NodeNo>
        ensures full { IsNone result ↔ (free_of self.old.all ≡ 0) }
        ensures full_same { IfNone result (self.new.all ≡ self.old.all) }
        ensures inside { IfSome result (λ node. node.n < length self.old.all) }
        ensures was_free { IfSome result (λ node. count_of self.old.all node.n ≡ 0) }
        ensures taken { IfSome result
            (λ node. self.new.all ≡ slice_set self.old.all node.n (empty_node 1 level)) }
        ensures one_step { self.new.steps ≡ next_step self.old.steps }
    {
        self.steps = self.steps.saturating_add(1);
        let n = self.counts.take()?;
        let content = NodeContent {
            level,
            entries: [0; NODE_ENTRIES],
        };
        put_next(&mut self.contents, n as usize, content);
        Some(NodeNo { n })
    }

    /// Holds a held node once more.
    pub fn hold(&mut self, node: NodeNo)
        requires held { 0 < count_of self.old.all node.n }
        requires fits { count_of self.old.all node.n + 1 < 2 ^ 32 }
        ensures once_more { self.new.all ≡ recount self.old.all node.n (count_of self.old.all node.n + 1) }
        ensures one_step { self.new.steps ≡ next_step self.old.steps }
    {
        self.steps = self.steps.saturating_add(1);
        self.counts.hold(node.n);
    }

    /// Holds a held node once less. At 0 it is free.
    pub fn drop_hold(&mut self, node: NodeNo)
        requires { 0 < count_of self.old.all node.n }
        ensures once_less { self.new.all ≡ recount self.old.all node.n (count_of self.old.all node.n - 1) }
        ensures one_step { self.new.steps ≡ next_step self.old.steps }
    {
        self.steps = self.steps.saturating_add(1);
        self.counts.drop_hold(node.n);
    }

    /// The level that a held node was taken with.
    pub fn level(&self, node: NodeNo) -> u8
        requires { 0 < count_of self.now.all node.n }
        ensures { result ≡ level_of self.now.all node.n }
    {
        self.contents[node.n as usize].level
    }

    /// One entry of a node.
    pub fn entry(&self, node: NodeNo, index: usize) -> u32
        requires node { node.n < length self.now.all }
        requires entry { index < NODE_ENTRIES }
        ensures { result ≡ entry_of self.now.all node.n index }
    {
        let n = node.n as usize;
        if n < self.contents.len() {
            self.contents[n].entries[index]
        } else {
            0
        }
    }

    /// The entries of a held node, copied.
    pub fn entries(&self, node: NodeNo) -> [u32; NODE_ENTRIES]
        requires { 0 < count_of self.now.all node.n }
        ensures { result ≡ (node_at self.now.all node.n).entries }
    {
        self.contents[node.n as usize].entries
    }

    /// Writes one entry of a node that is held once.
    pub fn set_entry(&mut self, node: NodeNo, index: usize, value: u32)
        requires once { count_of self.old.all node.n ≡ 1 }
        requires entry { index < NODE_ENTRIES }
        ensures entered { self.new.all ≡ enter self.old.all node.n index value }
        ensures no_step { self.new.steps ≡ self.old.steps }
    {
        self.contents[node.n as usize].entries[index] = value;
    }

    /// How often a node is held.
    pub fn count(&self, node: NodeNo) -> u32
        requires { node.n < length self.now.all }
        ensures { result ≡ count_of self.now.all node.n }
    {
        self.counts.count(node.n)
    }
}
