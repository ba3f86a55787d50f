ghost use Rattle.std.specs.Prelude.{◌≡◌};
ghost use Rattle.whole_world.specs.Holders.{is_somebody, same_holder};
ghost use Rattle.whole_world.specs.declared.holder.Holder.TheVariants.{Own};

use lwc_base::{Name, Right};

/// Who has the value under a key.
#[derive(Clone, Copy, PartialEq, Eq)]
pub enum Holder {
    /// Nobody: the page is absent.
    Nobody,
    /// The context itself.
    Own,
    /// A group, for all its contexts.
    Group(Name),
    /// The group that a clone would make.
    NewGroup,
}

impl Holder {
    /// Whether the context itself has it.
    pub fn is_own(self) -> bool
        ensures { result ≡ same_holder self Own }
    {
        matches!(self, Holder::Own)
    }

    /// Whether anybody has it.
    pub fn is_somebody(self) -> bool
        ensures { result ≡ is_somebody self }
    {
        !matches!(self, Holder::Nobody)
    }
}

/// Who has the value of a page of a context, and the right of the page.
#[derive(Clone, Copy, PartialEq, Eq)]
pub struct Side {
    pub holder: Holder,
    pub right: Right,
}
