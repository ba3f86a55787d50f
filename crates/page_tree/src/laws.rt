//! Laws of trees: functions with empty bodies, each with a contract that is the law.

ghost use Rattle.page_tree.specs.Laws.{OpenLaws, TiedLaws, TreeLaws};

/// The empty tree has no page, and a change of one tree takes at most the root and, for each end of what is
/// changed, one node of each lower level.
pub fn a_change_takes_few_nodes()
    ensures { TreeLaws }
{}

/// A tree that is open from a page on is open from each later one on.
pub fn open_trees_stay_open()
    ensures { OpenLaws }
{}

/// Where all trees of a store are known, they take at most 529 nodes each, the held frames are those that
/// they have at pages, and a page shares its frame exactly where the way to it or the frame itself is shared.
pub fn trees_account_for_their_store()
    ensures { TiedLaws }
{}
