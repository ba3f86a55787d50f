//! Loads and stores by the notes of where pages were found.

ghost use Rattle.std.specs.Prelude.{◌≡◌, ◌≤◌, ◌+◌, ◌*◌, ℕ, IfNone, IfSome, Some, false, is_some, length, map, true};
ghost use Rattle.std.specs.List.{list_all, range_with_len};
ghost use Rattle.cow_space.specs.Frames.{HasFrame};
ghost use Rattle.lwc_base.specs.Memory.{load, touched};
ghost use Rattle.lwc_base.specs.Store.{store};
ghost use Rattle.lwc_base.specs.Store as stores;
ghost use Rattle.lwc_types.specs.declared.limits.TheConstants.{MOST_PAGES};
ghost use Rattle.lwc_types.specs.declared.page.TheConstants.{PAGE_BYTES};
ghost use Rattle.world_face.specs.Calls.{IsLive};
ghost use Rattle.lazy_world.specs.Lazy as lazy;
ghost use Rattle.lazy_world.specs.Memory.{byte_in, page_in};
ghost use Rattle.lazy_world.specs.Notes.{AreRight, IsRead, IsWrite};
ghost use Rattle.lazy_world.specs.Seen.{rows};
ghost use Rattle.lazy_world.specs.Worlds.{seen};
ghost use Rattle.lazy_world.specs.declared.notes.Notes.{Notes};

use crate::lazy::LazyWorld;
use crate::notes::Note;
use crate::world::PlacedWorld;
use lwc_base::{Name, PAGE_BYTES, PageNumber, touched_pages};

impl PlacedWorld {
    /// Copies bytes from an address on, if they are in the page of a note, and tells whether it did. If it did not,
    /// nothing changes.
    #[inline(always)]
    fn copy_noted(&self, note: &Note, at: usize, out: &mut [u8]) -> bool
        requires has { HasFrame self.now.places.pages note.now.place note.now.page note.now.frame }
        requires within { at + length out.old ≤ MOST_PAGES * PAGE_BYTES }
        ensures present { result ≡ true
            → list_all (λ p. is_some (page_in (seen self.now) (rows self.now.places note.now.place) p))
            (touched at (length out.old)) ≡ true }
        ensures copied { result ≡ true
            → out.new ≡ map (byte_in (seen self.now) (rows self.now.places note.now.place))
            (range_with_len at (length out.old)) }
        ensures same { result ≡ false → out.new ≡ out.old }
    {
        let pages = touched_pages(at, out.len());
        if pages.to - pages.from != 1 || pages.from != note.page {
            return false;
        }
        let from = at % PAGE_BYTES;
        let bytes = self.places.bytes_at(note.place, note.page, note.frame);
        out.copy_from_slice(&bytes[from..from + out.len()]);
        true
    }

    /// Reads as `bytes` does, if the bytes are in the page of a note, and tells whether it did. If it did not, nothing
    /// changes.
    #[inline(always)]
    pub(crate) fn load_noted(&self, context: Name, note: &Note, at: u32, out: &mut [u8]) -> bool
        requires live { IsLive (seen self.now) context }
        requires note { IsRead self.now note.now }
        requires context { note.now.context ≡ context }
        requires within { at + length out.old ≤ (seen self.now).size.pages * PAGE_BYTES }
        ensures done { result ≡ true → load (seen self.now) context at (length out.old) ≡ Some out.new }
        ensures same { result ≡ false → out.new ≡ out.old }
    {
        self.copy_noted(note, at as usize, out)
    }

    /// Stores as `store` does, if the bytes are in the page of a note, and tells whether it did. If it did not, nothing
    /// changes. Notes that are right stay so.
    #[inline(always)]
    pub(crate) fn store_noted(&mut self, context: Name, note: &Note, at: u32, piece: &[u8]) -> bool
        requires live { IsLive (seen self.old) context }
        requires note { IsWrite self.old note.now }
        requires context { note.now.context ≡ context }
        requires within { at + length piece.now ≤ (seen self.old).size.pages * PAGE_BYTES }
        ensures done { result ≡ true → (job : ℕ) → store (seen self.old) context job
            (record { at = at; bytes = piece.now }) ≡ stores.Done (seen self.new) }
        ensures same { result ≡ false → seen self.new ≡ seen self.old }
        ensures notes { (notes : Notes) → AreRight self.old notes → AreRight self.new notes }
    {
        let pages = touched_pages(at as usize, piece.len());
        if pages.to - pages.from != 1 || pages.from != note.page {
            return false;
        }
        self.places
            .write_at(note.place, note.page, note.frame, at, piece);
        true
    }
}

impl LazyWorld {
    /// Reads as `bytes` does, if the bytes are in one page that is noted for reads, and tells whether it did. If it did
    /// not, nothing changes.
    #[inline(always)]
    pub(crate) fn load_where_noted(&self, context: Name, at: u32, out: &mut [u8]) -> bool
        requires live { IsLive (lazy.seen_lazy self.now) context }
        requires within { at + length out.old ≤ (lazy.seen_lazy self.now).size.pages * PAGE_BYTES }
        ensures done { result ≡ true
            → load (lazy.seen_lazy self.now) context at (length out.old) ≡ Some out.new }
        ensures same { result ≡ false → out.new ≡ out.old }
    {
        let page = (at as usize / PAGE_BYTES) as PageNumber;
        match self.notes.for_read(context, page) {
            Some(note) => self.world.load_noted(context, note, at, out),
            None => false,
        }
    }

    /// Notes for reads where a page of a context is, if it is the context's own and has bytes.
    fn note_read(&mut self, context: Name, page: PageNumber)
        requires { IsLive (lazy.seen_lazy self.old) context }
        ensures { self.new.world ≡ self.old.world }
    {
        if page >= self.world.pages() {
            return;
        }
        let place = self.world.place(context);
        if let Some(frame) = self.world.places.frame(place, page) {
            let note = Note {
                context,
                place,
                page,
                frame,
            };
            self.notes.put(&note, false);
        }
    }

    /// Reads as `bytes` does, and notes where the page is.
    #[inline(never)]
    pub(crate) fn load_unnoted(&mut self, context: Name, at: u32, out: &mut [u8]) -> bool
        requires live { IsLive (lazy.seen_lazy self.old) context }
        requires within { at + length out.old ≤ (lazy.seen_lazy self.old).size.pages * PAGE_BYTES }
        ensures present { result ≡ is_some (load (lazy.seen_lazy self.old) context at (length out.old)) }
        ensures found { IfSome (load (lazy.seen_lazy self.old) context at (length out.old))
            (λ bytes. out.new ≡ bytes) }
        ensures absent { IfNone (load (lazy.seen_lazy self.old) context at (length out.old))
            (out.new ≡ out.old) }
        ensures same { lazy.seen_lazy self.new ≡ lazy.seen_lazy self.old }
    {
        self.note_read(context, (at as usize / PAGE_BYTES) as PageNumber);
        self.load_where_noted(context, at, out) || self.world.bytes(context, at, out)
    }

    /// Stores as `store` does, if the bytes are in one page that is noted for stores, and tells whether it did. If it
    /// did not, nothing changes.
    #[inline(always)]
    pub(crate) fn store_where_noted(&mut self, context: Name, at: u32, piece: &[u8]) -> bool
        requires live { IsLive (lazy.seen_lazy self.old) context }
        requires within { at + length piece.now ≤ (lazy.seen_lazy self.old).size.pages * PAGE_BYTES }
        ensures done { result ≡ true → (job : ℕ) → store (lazy.seen_lazy self.old) context job
            (record { at = at; bytes = piece.now }) ≡ stores.Done (lazy.seen_lazy self.new) }
        ensures same { result ≡ false → lazy.seen_lazy self.new ≡ lazy.seen_lazy self.old }
    {
        let page = (at as usize / PAGE_BYTES) as PageNumber;
        match self.notes.for_write(context, page) {
            Some(note) => self.world.store_noted(context, note, at, piece),
            None => false,
        }
    }

    /// Notes for stores where a page of a context is, if it is the context's own, may be stored to and does not part.
    fn note_write(&mut self, context: Name, page: PageNumber)
        requires { IsLive (lazy.seen_lazy self.old) context }
        ensures { self.new.world ≡ self.old.world }
    {
        let place = self.world.place(context);
        if let Some(frame) = self.world.places.lone_frame(place, page) {
            let note = Note {
                context,
                place,
                page,
                frame,
            };
            self.notes.put(&note, true);
        }
    }

    /// Stores as `store` does, if the bytes are in one page, which is the context's own, may be stored to and does not
    /// part, and notes where it is. It tells whether it did, and if it did not, nothing changes.
    #[inline(never)]
    pub(crate) fn store_unnoted(&mut self, context: Name, at: u32, piece: &[u8]) -> bool
        requires live { IsLive (lazy.seen_lazy self.old) context }
        requires within { at + length piece.now ≤ (lazy.seen_lazy self.old).size.pages * PAGE_BYTES }
        ensures done { result ≡ true → (job : ℕ) → store (lazy.seen_lazy self.old) context job
            (record { at = at; bytes = piece.now }) ≡ stores.Done (lazy.seen_lazy self.new) }
        ensures same { result ≡ false → lazy.seen_lazy self.new ≡ lazy.seen_lazy self.old }
    {
        self.note_write(context, (at as usize / PAGE_BYTES) as PageNumber);
        self.store_where_noted(context, at, piece)
    }

    /// The same, where the page may be noted already.
    #[inline(always)]
    pub(crate) fn store_in_place(&mut self, context: Name, at: u32, piece: &[u8]) -> bool
        requires live { IsLive (lazy.seen_lazy self.old) context }
        requires within { at + length piece.now ≤ (lazy.seen_lazy self.old).size.pages * PAGE_BYTES }
        ensures done { result ≡ true → (job : ℕ) → store (lazy.seen_lazy self.old) context job
            (record { at = at; bytes = piece.now }) ≡ stores.Done (lazy.seen_lazy self.new) }
        ensures same { result ≡ false → lazy.seen_lazy self.new ≡ lazy.seen_lazy self.old }
    {
        self.store_where_noted(context, at, piece) || self.store_unnoted(context, at, piece)
    }
}
