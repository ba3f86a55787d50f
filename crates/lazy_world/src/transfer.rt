ghost use Rattle.std.specs.Prelude.{◌≡◌, ℕ, [], IfNone, IfSome, Some, false, true};
ghost use Rattle.cow_space.specs.Changes.{have_page};
ghost use Rattle.lwc_base.specs.Modes.{IsItem, mode, names};
ghost use Rattle.lwc_types.specs.declared.key.Key.TheVariants.{Page};
ghost use Rattle.lwc_types.specs.declared.limits.TheConstants.{MOST_PAGES};
ghost use Rattle.range_map.specs.Kinds.{is_between};
ghost use Rattle.lazy_world.specs.Transfers.{copied_origin, is_read, moved_origin, other_origin, reads};
ghost use Rattle.lazy_world.specs.Transfers.{taken_origin, origin_of};

use arrayvec::ArrayVec;
use cow_space::Origin;
use lwc_base::{Item, Items, MOST_ITEMS, Mode, Name, Range, Right};
use range_map::SegmentKind;

/// What a place gets of the cells of a context, by the modes of their keys.
#[derive(Clone, Copy, PartialEq, Eq)]
pub enum Transfer {
    /// The context itself: its own values of mode share become common of the group of this name.
    Mark(Name),
    /// A new group: it gets the context's own values of mode share, and nothing else.
    Move,
    /// A new context: it gets each value by its mode, which is copy where no item names its key. Values that
    /// move are common of this group.
    Clone(Name),
    /// A context that takes over what items name, each value by its mode. Values that move are common of this
    /// group.
    Overlay(Name),
}

/// Who has the value of a cell, the place of the group that has it, if that group is live, and the right of a
/// page that is present.
#[derive(Clone, Copy, PartialEq, Eq)]
pub struct Found {
    pub kind: Option<SegmentKind>,
    pub holder: Option<usize>,
    pub right: Option<Right>,
}

/// The pages of an item that are copied and may only be read then, if it says so of pages.
fn read_range(item: &Item) -> Option<Range>
    requires { IsItem MOST_PAGES item.now }
    ensures none { IfNone result ((q : ℕ) → names item.now (Page q) ≡ true
        → is_read (Some item.now.mode) ≡ false) }
    ensures pages { IfSome result (λ r. (q : ℕ) → is_between r.from r.to q ≡ names item.now (Page q)) }
    ensures read { IfSome result (λ r. is_read (Some item.now.mode) ≡ true) }
{
    match item.mode {
        Mode::CopyRead => item.pages(),
        Mode::Copy | Mode::Share | Mode::Unmap => None,
    }
}

/// Lists the pages that items copy and that may only be read then.
pub(crate) fn list_read_pages(spec: &Items, pages: &mut ArrayVec<Range, MOST_ITEMS>)
    requires none { pages.old.items ≡ [] }
    ensures { (q : ℕ) → have_page pages.new.items q ≡ is_read (mode spec.now (Page q)) }
{
    for item in spec.items() {
        let Some(range) = read_range(item) else {
            continue;
        };
        pages.push(range);
    }
}

/// A copy from another place; what is at the place already stays.
fn other(from: usize, to: usize) -> Option<Origin>
    ensures { result ≡ other_origin from to }
{
    if from == to {
        None
    } else {
        Some(Origin::CopyOf(from))
    }
}

/// A copy of what a group has, or nothing where it has nothing.
fn copied(holder: Option<usize>) -> Origin
    ensures { result ≡ copied_origin holder }
{
    match holder {
        Some(place) => Origin::CopyOf(place),
        None => Origin::Absent,
    }
}

impl Found {
    /// Whether the value moves into a group: it is the context's own, and of mode share.
    pub fn moves(self, mode: Option<Mode>) -> bool
        ensures { result ≡ moved_origin mode self.kind }
    {
        mode == Some(Mode::Share) && self.kind == Some(SegmentKind::Own)
    }

    /// What the place `to` gets under a key of a mode, where this is at the place `from`, and what moves
    /// goes into a group.
    fn taken(self, mode: Mode, group: Name, from: usize, to: usize) -> Option<Origin>
        ensures { result ≡ taken_origin group mode self from to }
    {
        match mode {
            Mode::Unmap => Some(Origin::Absent),
            Mode::Copy | Mode::CopyRead => match self.kind {
                None => Some(Origin::Absent),
                Some(SegmentKind::Own) => other(from, to),
                Some(SegmentKind::Common(_)) => Some(copied(self.holder)),
            },
            Mode::Share => match self.kind {
                None => Some(Origin::Absent),
                Some(SegmentKind::Own) => Some(Origin::Common(group)),
                Some(SegmentKind::Common(g)) => Some(Origin::Common(g)),
            },
        }
    }
}

impl Transfer {
    /// Lists the pages that may only be read in the place that gets something.
    pub fn list_reads(self, spec: &Items, pages: &mut ArrayVec<Range, MOST_ITEMS>)
        requires none { pages.old.items ≡ [] }
        ensures { (q : ℕ) → have_page pages.new.items q ≡ reads self (mode spec.now (Page q)) }
    {
        match self {
            Transfer::Mark(_) | Transfer::Move => {}
            Transfer::Clone(_) | Transfer::Overlay(_) => list_read_pages(spec, pages),
        }
    }

    /// Whether pages of a mode may only be read in the place that gets something.
    pub fn makes_read(self, mode: Option<Mode>) -> bool
        ensures { result ≡ reads self mode }
    {
        match self {
            Transfer::Mark(_) | Transfer::Move => false,
            Transfer::Clone(_) | Transfer::Overlay(_) => match mode {
                Some(Mode::CopyRead) => true,
                _ => false,
            },
        }
    }

    /// What the place `to` gets under a key of a mode, where this is found at the place `from`; `None`
    /// where it keeps what it has.
    pub fn origin(self, mode: Option<Mode>, found: Found, from: usize, to: usize) -> Option<Origin>
        ensures { result ≡ origin_of self mode found from to }
    {
        match self {
            Transfer::Mark(g) => {
                if found.moves(mode) {
                    Some(Origin::Common(g))
                } else {
                    None
                }
            }
            Transfer::Move => {
                if found.moves(mode) {
                    Some(Origin::CopyOf(from))
                } else {
                    Some(Origin::Absent)
                }
            }
            Transfer::Clone(g) => found.taken(mode.unwrap_or(Mode::Copy), g, from, to),
            Transfer::Overlay(g) => found.taken(mode?, g, from, to),
        }
    }
}
