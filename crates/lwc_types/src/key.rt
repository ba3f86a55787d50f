/// The number of a page of a context, below `MOST_PAGES`; or a number of pages, or the end of a range of them,
/// at most `MOST_PAGES`.
pub type PageNumber = u16;

/// The number of a slot of a context, below `SLOTS`; or a number of slots, at most `SLOTS`.
pub type SlotNumber = u8;

/// The number of slots of a context.
pub const SLOTS: SlotNumber = 64;

/// The kinds of keys: pages, slots, and the credential.
#[derive(Clone, Copy, Debug, Default, PartialEq, Eq)]
pub enum Kind {
    #[default]
    Page,
    Slot,
    Cred,
}

/// What a context has a value under: a page of its memory, a slot of its descriptor table, or the credential.
#[derive(Clone, Copy, PartialEq, Eq)]
pub enum Key {
    Page(PageNumber),
    Slot(SlotNumber),
    Cred,
}

/// The uid of a credential that is left out.
pub const NOBODY: u32 = 65534;
