ghost use Rattle.std.specs.Prelude.{◌≡◌};
ghost use Rattle.range_map.specs.Kinds.{given, state_in};

use lwc_base::{Name, PageNumber, Right};

/// What a present page is: the context's own, or common of the group of this name.
#[derive(Clone, Copy, Debug, Default, PartialEq, Eq)]
pub enum SegmentKind {
    #[default]
    Own,
    Common(Name),
}

/// A present page's kind and its right.
#[derive(Clone, Copy, PartialEq, Eq)]
pub struct PageState {
    pub kind: SegmentKind,
    pub right: Right,
}

/// The pages from `from` up to and without `to`, which are all of one kind and of one right.
#[derive(Clone, Copy, Default, PartialEq, Eq)]
pub struct Segment {
    pub from: PageNumber,
    pub to: PageNumber,
    pub kind: SegmentKind,
    pub right: Right,
}

/// The kind and the right that the pages from `from` up to and without `to` are to have; with no kind they
/// become absent.
#[derive(Clone, Copy, Default, PartialEq, Eq)]
pub struct Change {
    pub from: PageNumber,
    pub to: PageNumber,
    pub kind: Option<SegmentKind>,
    pub right: Right,
}

impl Segment {
    /// The state of each of its pages.
    pub(crate) fn state(&self) -> PageState
        ensures { result ≡ state_in self.now }
    {
        PageState {
            kind: self.kind,
            right: self.right,
        }
    }
}

impl Change {
    /// The state that its pages get; `None` where they become absent.
    pub fn state(&self) -> Option<PageState>
        ensures { result ≡ given self.now }
    {
        match self.kind {
            Some(kind) => Some(PageState {
                kind,
                right: self.right,
            }),
            None => None,
        }
    }
}
