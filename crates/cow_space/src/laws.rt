//! Laws of the pages of places: functions with empty bodies, each with a contract that is the law.

ghost use Rattle.std.specs.Prelude.{◌≡◌, ◌+◌, ◌*◌};
ghost use Rattle.lwc_types.specs.declared.limits.TheConstants.{MOST_CONTEXTS, MOST_GROUPS};
ghost use Rattle.page_tree.specs.declared.store.TheConstants.{TREE_NODES};
ghost use Rattle.cow_space.specs.declared.rows.TheConstants.{FREE_NODES};
ghost use Rattle.cow_space.specs.Laws.{CopyLaws, StoreLaws, WriteLaws};
ghost use Rattle.cow_space.specs.Worlds.{WorldLaws};

/// A place without pages that gets what other places have takes no frame, and gives none back.
pub fn copies_take_no_frame()
    ensures { CopyLaws }
{}

/// The frames that are free and the different tags are as many as there are frames. A place without pages of
/// its own holds no tree node.
pub fn places_account_for_their_frames()
    ensures { StoreLaws }
{}

/// A write takes one frame if the page parts, and none otherwise. It leaves the kind of each page, and any
/// other new tag stays new. Another page, of this place or another one, is as before, and parts as before if
/// the two have no tag in common. So if the frames suffice for two such pages, neither write is refused.
pub fn page_writes_take_few_frames()
    ensures { WriteLaws }
{}

/// A world uses as many frames as the places, and the same pages part, if each context and group has a place
/// and no other place has a tag.
pub fn places_have_the_tags_of_their_world()
    ensures { WorldLaws }
{}

/// A tree has at most this number of nodes, a call finds nodes for two trees free, and a world opens with
/// nodes for a tree in each context and group, and for a call.
pub fn nodes_are_as_documented()
    ensures tree { TREE_NODES ≡ 529 }
    ensures free { FREE_NODES ≡ 1058 }
    ensures opened { TREE_NODES * (MOST_CONTEXTS + MOST_GROUPS) + FREE_NODES ≡ 822595 }
{}
