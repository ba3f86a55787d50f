ghost use Rattle.std.specs.Prelude.{◌≡◌, ◌≢◌, IfNone, IfSome};
ghost use Rattle.lwc_base.specs.Modes.{IsItem};
ghost use Rattle.lwc_types.specs.declared.key.Kind.TheVariants.{Page};
ghost use Rattle.lwc_types.specs.declared.limits.TheConstants.{MOST_PAGES};

use lwc_types::{Kind, PageNumber, Range};

/// What a new context or an overlay gets under a key.
#[derive(Clone, Copy, Debug, Default, PartialEq, Eq)]
pub enum Mode {
    /// The value is copied.
    #[default]
    Copy,
    /// The value is common from now on.
    Share,
    /// The key is left out.
    Unmap,
    /// The value is copied, and a page may not be stored to there.
    CopyRead,
}

/// The keys of one kind from `from` up to and without `to`, and their mode.
#[derive(Clone, Copy, Debug, Default, PartialEq, Eq)]
pub struct Item {
    pub kind: Kind,
    pub mode: Mode,
    pub from: u32,
    pub to: u32,
}

impl Item {
    /// The pages that the item names; `None` if its keys are of another kind.
    pub fn pages(&self) -> Option<Range>
        requires { IsItem MOST_PAGES self.now }
        ensures pages { IfSome result (λ range. (self.now.kind ≡ Page)
            × (range.from ≡ self.now.from) × (range.to ≡ self.now.to)) }
        ensures other { IfNone result (self.now.kind ≢ Page) }
    {
        match self.kind {
            Kind::Page => Some(Range {
                from: self.from as PageNumber,
                to: self.to as PageNumber,
            }),
            Kind::Slot | Kind::Cred => None,
        }
    }
}
