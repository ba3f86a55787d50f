use crate::key::PageNumber;

/// The size of a world: its frames, the most contexts and groups that live at once, its jobs, and its pages.
#[derive(Clone, Copy, PartialEq, Eq)]
pub struct WorldSize {
    pub frames: u32,
    pub contexts: u32,
    pub groups: u32,
    pub jobs: u32,
    pub pages: PageNumber,
}

/// What a report says of a context: the numbers of its pages and of its slots in use, and the uid.
#[derive(Clone, Copy, Debug, PartialEq, Eq)]
pub struct Summary {
    pub pages: u32,
    pub slots: u32,
    pub uid: u32,
}

/// Why bytes were not stored.
#[derive(Clone, Copy, Debug, PartialEq, Eq)]
pub enum StoreFault {
    /// A touched page is absent.
    BadAddress,
    /// A touched page has the right Read.
    ReadOnly,
    /// Too few frames are free.
    NoFrame,
    OutOfMemory,
}
