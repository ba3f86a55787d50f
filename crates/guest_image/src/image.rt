//! What an image holds.

ghost use Rattle.std.specs.Prelude.{◌≡◌};
ghost use Rattle.guest_image.specs.Limits.{pages_of};
ghost use Rattle.guest_image.specs.Spelling.{magic};

use guest_isa::Text;
use lwc_types::{
    FileImage, MOST_PAGES, PAGES_OF_FORM_ONE, PageBytes, PageNumber, Sequence, SlotNumber,
};

/// The first slot that an image may fill; those below it are the console.
pub const FIRST_SLOT: u8 = 2;

/// The slot of the first context in which a start with a vault has a descriptor of it.
pub const VAULT_SLOT: u8 = 63;

/// The most pages that a vault may have.
pub const MOST_VAULT_PAGES: u32 = 64;

/// The form of an image: how many pages its contexts may have.
#[derive(Clone, Copy, Debug, Default, PartialEq, Eq)]
pub enum Form {
    /// 1024 pages.
    #[default]
    One,
    /// 16384 pages.
    Two,
}

impl Form {
    /// The number of pages that a context may have (`pages_of`).
    pub fn pages(self) -> PageNumber
        ensures { result ≡ pages_of self }
    {
        match self {
            Form::One => PAGES_OF_FORM_ONE,
            Form::Two => MOST_PAGES,
        }
    }

    /// The four bytes that an image of the form begins with (`magic`).
    pub fn magic<'a>(self) -> &'a [u8]
        ensures { result.now ≡ magic self }
    {
        match self {
            Form::One => b"LWC1",
            Form::Two => b"LWC2",
        }
    }
}

/// A page of an image: its number and its bytes.
#[derive(Drop)]
pub struct PageImage {
    /// The number, below the pages of the image's form.
    pub number: PageNumber,
    /// What the page holds.
    pub bytes: PageBytes,
}

/// A slot that is filled from the start, with a file of the image.
#[derive(Clone, Copy, PartialEq, Eq)]
pub struct SlotImage {
    /// The slot, from `FIRST_SLOT` on.
    pub slot: SlotNumber,
    /// The file's place in the image's list of files.
    pub file: u8,
}

/// A guest and what it starts with.
#[derive(Drop)]
pub struct Image {
    /// The form, which says how many pages there may be.
    pub form: Form,
    /// The instructions.
    pub text: Text,
    /// The uid that the guest starts with.
    pub uid: u32,
    /// The pages that are present at the start, in the order of their numbers.
    pub pages: Sequence<PageImage>,
    /// The files that the guest may open.
    pub files: Sequence<FileImage>,
    /// The slots that are filled at the start, in their order.
    pub slots: Sequence<SlotImage>,
    /// Where each thread begins: a place in the text.
    pub entries: Sequence<u32>,
}

/// A secret beside an image: where it is entered, and what it holds.
#[derive(Drop)]
pub struct Vault {
    /// Where a thread enters it: a place in the image's text.
    pub entry: u32,
    /// Its pages, in the order of their numbers.
    pub pages: Sequence<PageImage>,
}
