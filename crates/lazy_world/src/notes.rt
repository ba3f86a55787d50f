//! Where pages were found, so that they need not be searched for again.

ghost use Rattle.std.specs.Prelude.{◌≡◌, ◌==◌, ◌<◌, ◌⊎◌, if◌then◌else◌, ℕ, IfSome, Some, slice_get, true};
ghost use Rattle.lazy_world.specs.declared.notes.Note.{Note};
ghost use Rattle.lwc_base.specs.Capabilities.{has_bit};

use lwc_base::{Name, PageNumber};

/// How many notes there are, one for each bit of a word.
const NOTES: usize = 64;

/// Where a page of a context was found: at which place the context is, and which frame has the page's bytes.
#[derive(Clone, Copy)]
pub struct Note {
    pub context: Name,
    pub place: usize,
    pub page: PageNumber,
    pub frame: u32,
}

/// Notes, each for the pages that fall on it. Those with a bit in `read` hold for reads, and those with one in
/// `write` for stores.
#[derive(Drop)]
pub struct Notes {
    pub(crate) notes: [Note; NOTES],
    pub(crate) read: u64,
    pub(crate) write: u64,
}

/// The note that a page of a context falls on.
#[inline(always)]
fn note_of(context: Name, page: PageNumber) -> usize
    ensures { result < 64 }
{
    let sum = context
        .k
        .wrapping_mul(8)
        .wrapping_add(context.job)
        .wrapping_add(u32::from(page));
    (sum % 64) as usize
}

/// A word with the bit of a number on or off.
#[inline(always)]
fn with_bit(word: u64, number: u8, on: bool) -> u64
    requires { number < 64 }
    ensures { (m : ℕ) → m < 64 → has_bit result m ≡ (if m == number then on else has_bit word m) }
{
    let bit = 1u64 << number;
    if on { word | bit } else { word & !bit }
}

/// Whether a word has the bit of a number.
#[inline(always)]
fn has_bit(word: u64, number: usize) -> bool
    requires { number < 64 }
    ensures { result ≡ has_bit word number }
{
    word >> number & 1 == 1
}

impl Notes {
    /// No note holds.
    pub(crate) fn none() -> Notes
        ensures read { result.read ≡ 0 }
        ensures write { result.write ≡ 0 }
    {
        let note = Note {
            context: Name { job: 0, k: 0 },
            place: 0,
            page: 0,
            frame: 0,
        };
        Notes {
            notes: [note; NOTES],
            read: 0,
            write: 0,
        }
    }

    /// Forgets all.
    #[inline(always)]
    pub(crate) fn forget(&mut self)
        ensures read { self.new.read ≡ 0 }
        ensures write { self.new.write ≡ 0 }
    {
        self.read = 0;
        self.write = 0;
    }

    /// The note of a page, if it holds for reads.
    #[inline(always)]
    pub(crate) fn for_read(&self, context: Name, page: PageNumber) -> Option<&Note>
        ensures noted { IfSome result (λ note. (k : ℕ)
            × ((slice_get self.now.notes k ≡ Some note.now) × (has_bit self.now.read k ≡ true))) }
        ensures context { IfSome result (λ note. note.now.context ≡ context) }
        ensures page { IfSome result (λ note. note.now.page ≡ page) }
    {
        let k = note_of(context, page);
        let note = &self.notes[k];
        if has_bit(self.read, k) && note.context == context && note.page == page {
            Some(note)
        } else {
            None
        }
    }

    /// The note of a page, if it holds for stores.
    #[inline(always)]
    pub(crate) fn for_write(&self, context: Name, page: PageNumber) -> Option<&Note>
        ensures noted { IfSome result (λ note. (k : ℕ)
            × ((slice_get self.now.notes k ≡ Some note.now) × (has_bit self.now.write k ≡ true))) }
        ensures context { IfSome result (λ note. note.now.context ≡ context) }
        ensures page { IfSome result (λ note. note.now.page ≡ page) }
    {
        let k = note_of(context, page);
        let note = &self.notes[k];
        if has_bit(self.write, k) && note.context == context && note.page == page {
            Some(note)
        } else {
            None
        }
    }

    /// Puts a note that holds for reads, and for stores too where the page has its frame alone.
    pub(crate) fn put(&mut self, note: &Note, alone: bool)
        ensures read { (k : ℕ) (other : Note) → slice_get self.new.notes k ≡ Some other
            → has_bit self.new.read k ≡ true → (other ≡ note.now)
            ⊎ ((slice_get self.old.notes k ≡ Some other) × (has_bit self.old.read k ≡ true)) }
        ensures write { (k : ℕ) (other : Note) → slice_get self.new.notes k ≡ Some other
            → has_bit self.new.write k ≡ true → ((other ≡ note.now) × (alone ≡ true))
            ⊎ ((slice_get self.old.notes k ≡ Some other) × (has_bit self.old.write k ≡ true)) }
    {
        let k = note_of(note.context, note.page);
        self.notes[k] = *note;
        self.read = with_bit(self.read, k as u8, true);
        self.write = with_bit(self.write, k as u8, alone);
    }
}
