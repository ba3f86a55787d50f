ghost use Rattle.std.specs.Prelude.{◌≡◌, ◌+◌, ◌-◌, ◌*◌, ◌<◌, ◌≤◌, IfNone, IfSome, Option, false, is_some, length};
ghost use Rattle.std.specs.Prelude.{map, slice_index, true};
ghost use Rattle.std.specs.Option.{option_copied, option_map_or};
ghost use Rattle.lwc_types.specs.declared.limits.TheConstants.{MOST_PAGES};
ghost use Rattle.lwc_types.specs.declared.page.PageValue.{PageValue};
ghost use Rattle.lwc_types.specs.declared.page.TheConstants.{PAGE_BYTES};
ghost use Rattle.lwc_types.specs.Pages.{bytes_of};
ghost use Rattle.cow_space.specs.Maps.{data_of};
ghost use Rattle.lazy_world.specs.Memory.{byte_in, holder, page_in};
ghost use Rattle.lazy_world.specs.Seen.{count, rows};

use crate::world::PlacedWorld;
use lwc_base::{Name, PAGE_BYTES, PageNumber, Range, touched_pages};
use range_map::SegmentKind;

/// The byte at an offset of a page that has these bytes; 0 of one without bytes.
fn byte_of(page: Option<&[u8]>, at: usize) -> u8
    ensures { (value : Option PageValue) → option_copied page.entry ≡ data_of value
        → result ≡ option_map_or (λ value. slice_index (bytes_of value) at) value 0 }
{
    match page {
        Some(bytes) => bytes.get(at).copied().unwrap_or(0),
        None => 0,
    }
}

impl PlacedWorld {
    ghost use Rattle.std.specs.List.{list_all, range_with_len};
    ghost use Rattle.lwc_base.specs.Memory.{load, touched};
    ghost use Rattle.world_face.specs.Calls.{IsLive};
    ghost use Rattle.lazy_world.specs.Worlds.{parts, seen};

    /// The place that has what is under a page of the context at a place: that place itself, or the place of
    /// the group that the page is common of. `None` if the page is absent, or that group is not live.
    pub(crate) fn holder(&self, place: usize, page: PageNumber) -> Option<usize>
        requires { place < count self.now.places }
        ensures place { result ≡ holder (parts self.now) place page }
        ensures inside { IfSome result (λ j. j < count self.now.places) }
    {
        match self.places.kind(place, page) {
            None => None,
            Some(SegmentKind::Own) => Some(place),
            Some(SegmentKind::Common(g)) => match self.groups.place(g) {
                Some(j) => Some(self.size.contexts as usize + j),
                None => None,
            },
        }
    }

    /// The bytes of a page of the context at a place. A page that is absent or zeros has none.
    fn page_bytes(&self, place: usize, page: PageNumber) -> Option<&[u8]>
        requires place { place < count self.now.places }
        requires page { page < MOST_PAGES }
        ensures { option_copied result ≡ data_of (page_in (seen self.now) (rows self.now.places place) page) }
    {
        match self.holder(place, page) {
            Some(j) => self.places.bytes(j, page),
            None => None,
        }
    }

    /// Copies the bytes of the context at a place from an address on; 0 where a page is absent. Each touched
    /// page is found once.
    fn copy_to(&self, place: usize, at: usize, out: &mut [u8])
        requires place { place < count self.now.places }
        requires within { at + length out.old ≤ MOST_PAGES * PAGE_BYTES }
        ensures { out.new ≡ map (byte_in (seen self.now) (rows self.now.places place))
            (range_with_len at (length out.old)) }
    {
        let mut page = None;
        for (k, byte) in out.iter_mut().enumerate() {
            let address = at + k;
            if k == 0 || address % PAGE_BYTES == 0 {
                page = self.page_bytes(place, (address / PAGE_BYTES) as PageNumber);
            }
            *byte = byte_of(page, address % PAGE_BYTES);
        }
    }

    /// Copies bytes of the context at a place from an address on, if they are in one page, which is its own,
    /// and tells whether it did. If it did not, nothing changes.
    fn copy_own(&self, place: usize, at: usize, out: &mut [u8]) -> bool
        requires place { place < count self.now.places }
        requires within { at + length out.old ≤ MOST_PAGES * PAGE_BYTES }
        ensures present { result ≡ true
            → list_all (λ p. is_some (page_in (seen self.now) (rows self.now.places place) p))
            (touched at (length out.old)) ≡ true }
        ensures copied { result ≡ true → out.new ≡ map (byte_in (seen self.now) (rows self.now.places place))
            (range_with_len at (length out.old)) }
        ensures same { result ≡ false → out.new ≡ out.old }
    {
        let pages = touched_pages(at, out.len());
        if pages.to - pages.from != 1 {
            return false;
        }
        match self.places.kind(place, pages.from) {
            Some(SegmentKind::Own) => {
                let from = at % PAGE_BYTES;
                match self.places.bytes(place, pages.from) {
                    Some(bytes) => out.copy_from_slice(&bytes[from..from + out.len()]),
                    None => out.fill(0),
                }
                true
            }
            _ => false,
        }
    }

    /// Whether all of some pages of the context at a place are present.
    pub(crate) fn are_present(&self, place: usize, pages: Range) -> bool
        requires { place < count self.now.places }
        ensures { result ≡ list_all (λ p. is_some (page_in (seen self.now) (rows self.now.places place) p))
            (range_with_len pages.from (pages.to - pages.from)) }
    {
        (pages.from..pages.to).all(|p| self.is_present(place, p))
    }

    /// Reads `out.len()` bytes of the context's memory from the address `at` on into `out`. Answers
    /// `false`, with `out` unchanged, if a page of them is absent.
    pub(crate) fn bytes(&self, context: Name, at: u32, out: &mut [u8]) -> bool
        requires live { IsLive (seen self.now) context }
        requires within { at + length out.old ≤ (seen self.now).size.pages * PAGE_BYTES }
        ensures present { result ≡ is_some (load (seen self.now) context at (length out.old)) }
        ensures found { IfSome (load (seen self.now) context at (length out.old)) (λ bytes. out.new ≡ bytes) }
        ensures absent { IfNone (load (seen self.now) context at (length out.old)) (out.new ≡ out.old) }
    {
        let i = self.place(context);
        if self.copy_own(i, at as usize, out) {
            return true;
        }
        let pages = touched_pages(at as usize, out.len());
        if !self.are_present(i, pages) {
            return false;
        }
        self.copy_to(i, at as usize, out);
        true
    }
}
