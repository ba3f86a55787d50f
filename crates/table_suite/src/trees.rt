ghost use Rattle.std.specs.Prelude.{◌≡◌, ℕ, ◌+◌, ◌<◌, ◌≤◌, length};
ghost use Rattle.node_pool.specs.Nodes.{free_of};
ghost use Rattle.page_tree.specs.declared.store.TheConstants.{PAGES};
ghost use Rattle.page_tree.specs.Pages.{entry_for};
ghost use Rattle.page_tree.specs.Short.{link_short};
ghost use Rattle.page_tree.specs.Sound.{IsSound, IsTree, trees_at};

use crate::checks::check_equal;
use lwc_base::Range;
use node_pool::NodeNo;
use page_tree::{PAGES, PageCell, PageTree, Store};
use std::alloc::Global;
use std::process::Abort;
use std::test::Fail;

/// How far the present pages of a test are from one another: there are some below each entry of the root.
const APART: usize = 97;

/// How many pages of a test are present.
const PRESENT: usize = PAGES / APART + 1;

/// Pages that are far apart are present, as zeros.
fn cell_at_page(page: u16) -> PageCell
    ensures { (f : ℕ) → entry_for result ≡ f + 2 → ⊥ }
{
    if page as usize % APART == 0 {
        PageCell::Zero
    } else {
        PageCell::Absent
    }
}

/// Makes the present pages of a test those of a tree.
fn fill(tree: &mut PageTree, store: &mut Store)
    requires sound { IsSound store.old.nodes.all store.old.frames }
    requires tree { IsTree store.old.nodes.all tree.old }
    requires room { 507 ≤ free_of store.old.nodes.all }
    ensures sound { IsSound store.new.nodes.all store.new.frames }
    ensures tree { IsTree store.new.nodes.all tree.new }
    ensures alone { link_short store.new.nodes.all tree.new ≡ 0 }
    ensures room { free_of store.old.nodes.all ≤ free_of store.new.nodes.all + 507 }
    ensures size { length store.new.nodes.all ≡ length store.old.nodes.all }
{
    'pages: for k in 0..PRESENT {
        let p = (k * APART) as u16;
        let cell = cell_at_page(p);
        tree.set(store, p, cell);
    }
}

/// Stops unless the tree has the cells of the model within the range, or outside it, and nothing else.
fn compare(rt: &impl Abort, tree: &PageTree, store: &Store, range: Range, inside: bool)
    requires sound { IsSound store.now.nodes.all store.now.frames }
    requires tree { IsTree store.now.nodes.all tree.now }
{
    for p in 0..PAGES as u16 {
        let is_inside = range.from <= p && p < range.to;
        let expected = if is_inside == inside {
            cell_at_page(p)
        } else {
            PageCell::Absent
        };
        assert!(rt; tree.get(store, p) == expected);
    }
}

/// How many nodes are free.
fn free_nodes(store: &Store) -> u32
    requires { length store.now.nodes.all ≡ 2048 }
    ensures { result ≤ 2048 }
{
    let mut free = 0;
    for n in 0..2048u32 {
        if store.nodes.count(NodeNo { n }) == 0 {
            free += 1;
        }
    }
    free
}

/// All pages.
const WHOLE: Range = Range {
    from: 0,
    to: PAGES as u16,
};

/// Shares a range of a tree with an empty one, and takes the range from a copy of the tree.
fn try_range(rt: &impl Abort, tree: &PageTree, store: &mut Store, range: Range)
    requires sound { IsSound store.old.nodes.all store.old.frames }
    requires tree { IsTree store.old.nodes.all tree.now }
    requires few { (n : ℕ) → tree.now ≡ n + 1 → trees_at store.old.nodes.all n < 1000 }
    requires room { 15 ≤ free_of store.old.nodes.all }
    requires order { range.from ≤ range.to }
    requires inside { range.to ≤ PAGES }
    ensures sound { IsSound store.new.nodes.all store.new.frames }
    ensures trees { (n : ℕ) → trees_at store.new.nodes.all n ≡ trees_at store.old.nodes.all n }
    ensures room { free_of store.old.nodes.all ≤ free_of store.new.nodes.all + 15 }
{
    let mut copy = PageTree::empty();
    copy.share_range(tree, store, range);
    compare(rt, &copy, store, range, true);
    copy.share_range(tree, store, WHOLE);
    copy.clear_range(store, range);
    compare(rt, &copy, store, range, false);
    copy.clear_range(store, WHOLE);
    compare(rt, &copy, store, WHOLE, false);
}

/// Shares all pages of a tree, and then changes one of them.
fn try_whole(rt: &impl Abort, alloc: Global) -> Result<(), Fail> {
    let mut store = Store::open(alloc, 1, 2048)?;
    let mut tree = PageTree::empty();
    fill(&mut tree, &mut store);
    let before = free_nodes(&store);
    let mut copy = PageTree::empty();
    copy.share_range(&tree, &mut store, WHOLE);
    assert!(rt; before <= free_nodes(&store) + 1);
    compare(rt, &copy, &store, WHOLE, true);
    check_equal(rt, copy.look(&store, 12513), (PageCell::Zero, false));
    copy.unshare_path(&mut store, 12513);
    assert!(rt; copy.is_alone(&store, 12513));
    copy.set(&mut store, 12513, PageCell::Absent);
    check_equal(rt, copy.get(&store, 12513), PageCell::Absent);
    compare(rt, &tree, &store, WHOLE, true);
    Ok(())
}

/// Shares each of some ranges of a tree, and takes it away from a copy.
fn try_ranges(rt: &impl Abort, alloc: Global) -> Result<(), Fail> {
    let mut store = Store::open(alloc, 1, 2048)?;
    let mut tree = PageTree::empty();
    fill(&mut tree, &mut store);
    let rows = [
        (0, 16384),
        (0, 0),
        (7, 20),
        (5, 1000),
        (31, 33),
        (1000, 1060),
        (1024, 2048),
        (1023, 2049),
        (3072, 3200),
        (2000, 9003),
        (16000, 16384),
    ];
    'table: for (from, to) in rows {
        assert!(rt; from <= to && usize::from(to) <= PAGES);
        try_range(rt, &tree, &mut store, Range { from, to });
    }
    Ok(())
}

#[test]
fn a_whole_tree_is_shared_with_few_nodes(rt: HostRuntime) -> Result<(), Fail> {
    try_whole(&rt, rt.alloc())
}

#[test]
fn ranges_match_a_plain_model(rt: HostRuntime) -> Result<(), Fail> {
    try_ranges(&rt, rt.alloc())
}
