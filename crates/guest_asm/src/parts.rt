//! Parts of an image as a source gives them, before they are tested. Definitions speak of them.

use lwc_types::Sequence;

/// A page: its number, and its first bytes.
#[derive(Drop)]
pub struct PageDraft {
    /// The number.
    pub number: u32,
    /// The bytes that the source gives; zeros follow up to the end of the page.
    pub bytes: Sequence<u8>,
}

/// A file: its owner, whether it is public, and its bytes.
#[derive(Drop)]
pub struct FileDraft {
    /// The uid of the owner.
    pub owner: u32,
    /// 1 for a public file, 0 for another; any number in a draft.
    pub public: u32,
    /// The content.
    pub bytes: Sequence<u8>,
}

/// A slot that is filled from the start, and its file's place in the list of files.
#[derive(Clone, Copy)]
pub struct SlotDraft {
    /// The slot.
    pub slot: u32,
    /// The file.
    pub file: u32,
}
