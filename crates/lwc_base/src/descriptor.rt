ghost use Rattle.std.specs.Prelude.{◌≡◌};
ghost use Rattle.lwc_base.specs.Lending.{descriptor_of};

use lwc_types::{Name, PageNumber};

/// An access capability: the set of keys that may be taken from a context. Page p is bit p mod 64 of
/// `pages[p / 64]`, slot n is bit n of `slots`, and the credential is `cred`.
#[derive(Clone, Copy, PartialEq, Eq)]
pub struct Cap {
    pub pages: [u64; 256],
    pub slots: u64,
    pub cred: bool,
}

/// What a slot of a descriptor table has.
#[derive(Clone, Copy, PartialEq, Eq)]
pub enum Descriptor {
    Empty,
    Console,
    /// A file of the image, read up to `at`.
    File { file: u8, at: u32 },
    /// The bytes of request `r`, read up to `at`.
    Request { r: u16, at: u32 },
    /// The reply to request `r`.
    Reply { r: u16 },
    /// A context, and which of its keys may be taken through this slot.
    Ctx { name: Name, cap: Cap },
}

impl Descriptor {
    /// The descriptor, lent.
    pub fn lend(&self) -> Lent<'_>
        ensures { descriptor_of result ≡ self.now }
    {
        match self {
            Descriptor::Empty => Lent::Empty,
            Descriptor::Console => Lent::Console,
            Descriptor::File { file, at } => Lent::File {
                file: *file,
                at: *at,
            },
            Descriptor::Request { r, at } => Lent::Request { r: *r, at: *at },
            Descriptor::Reply { r } => Lent::Reply { r: *r },
            Descriptor::Ctx { name, cap } => Lent::Ctx {
                name: *name,
                keys: Grant::Of(cap),
            },
        }
    }
}

/// The keys that a lent descriptor grants. Most capabilities are full or empty, which a word tells.
#[derive(Clone, Copy)]
pub enum Grant<'a> {
    /// Every key of a context with this number of pages.
    All { pages: PageNumber },
    /// No key.
    None,
    /// The keys of a capability.
    Of(&'a Cap),
}

/// A descriptor that is lent: as `Descriptor`, but with a capability that is not copied.
#[derive(Clone, Copy)]
pub enum Lent<'a> {
    Empty,
    Console,
    File { file: u8, at: u32 },
    Request { r: u16, at: u32 },
    Reply { r: u16 },
    Ctx { name: Name, keys: Grant<'a> },
}
