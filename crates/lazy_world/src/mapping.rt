ghost use Rattle.std.specs.Prelude.{◌≡◌, ◌<◌, ◌≤◌, None};
ghost use Rattle.lwc_types.specs.declared.limits.TheConstants.{MOST_PAGES, MOST_RANGES};
ghost use Rattle.range_map.specs.Kinds.{ranges};
ghost use Rattle.lwc_base.specs.Mapping.{writable_in};
ghost use Rattle.lazy_world.specs.Cells.{origin_of, put_rights, put_row, set_pages, states_of};
ghost use Rattle.lazy_world.specs.Seen.{count, frame_count, rights, rows};

use crate::places::Places;
use crate::world::PlacedWorld;
use cow_space::{Origin, PageRun};
use lwc_base::{Name, Range};

/// The page run by which pages become zeros that may be stored to, or absent.
fn page_run_of(range: Range, present: bool) -> PageRun
    ensures { result ≡ record { range = range; origin = origin_of present; right = None } }
{
    let origin = if present {
        Origin::Zeros
    } else {
        Origin::Absent
    };
    PageRun {
        range,
        origin,
        right: None,
    }
}

impl Places {
    /// Makes each page of a range a page of zeros of the place's own with the right `Write`, or absent.
    pub fn set_pages(&mut self, place: usize, range: Range, present: bool)
        requires place { place < count self.old }
        requires order { range.from ≤ range.to }
        requires inside { range.to ≤ MOST_PAGES }
        requires few { ranges MOST_PAGES
            (states_of (set_pages range.from range.to present (rows self.old place))
            (writable_in range.from range.to (rights self.old place))) ≤ MOST_RANGES }
        ensures rows { rows self.new
            ≡ put_row (rows self.old) place (set_pages range.from range.to present (rows self.old place)) }
        ensures rights { rights self.new
            ≡ put_rights (rights self.old) place (writable_in range.from range.to (rights self.old place)) }
        ensures count { count self.new ≡ count self.old }
        ensures frames { frame_count self.new ≡ frame_count self.old }
    {
        let page_run = page_run_of(range, present);
        self.pages.change(place, &[page_run], &[]);
    }

    /// The number of ranges of a place once each page of a range were zeros, or absent.
    pub fn count_after(&self, place: usize, range: Range, present: bool) -> u32
        requires place { place < count self.now }
        requires order { range.from ≤ range.to }
        requires inside { range.to ≤ MOST_PAGES }
        ensures { result ≡ ranges MOST_PAGES
            (states_of (set_pages range.from range.to present (rows self.now place))
            (writable_in range.from range.to (rights self.now place))) }
    {
        let page_run = page_run_of(range, present);
        self.pages.count_after(place, &[page_run], &[])
    }
}

impl PlacedWorld {
    ghost use Rattle.lwc_base.specs.Mapping.{map_pages, mapped_or_not, unmap_pages};
    ghost use Rattle.lwc_base.specs.Ranges.{ranges_of};
    ghost use Rattle.world_face.specs.Calls.{IsLive};
    ghost use Rattle.lazy_world.specs.Worlds.{seen};

    /// Makes each page of the range a page of zeros of the context's own with the right `Write`, or absent,
    /// whatever it was.
    fn set_pages(&mut self, context: Name, range: Range, present: bool)
        requires live { IsLive (seen self.old) context }
        requires some { range.from < range.to }
        requires within { range.to ≤ (seen self.old).size.pages }
        requires few { ranges_of (mapped_or_not (seen self.old) context range.from range.to present) context
            ≤ MOST_RANGES }
        ensures { seen self.new ≡ mapped_or_not (seen self.old) context range.from range.to present }
    {
        let i = self.place(context);
        self.places.set_pages(i, range, present);
    }

    /// Makes each page of the range a page of zeros of the context's own with the right `Write`, whatever it
    /// was.
    pub(crate) fn map(&mut self, context: Name, range: Range)
        requires live { IsLive (seen self.old) context }
        requires some { range.from < range.to }
        requires within { range.to ≤ (seen self.old).size.pages }
        requires few { ranges_of (map_pages (seen self.old) context range.from range.to) context
            ≤ MOST_RANGES }
        ensures mapped { seen self.new ≡ map_pages (seen self.old) context range.from range.to }
    {
        self.set_pages(context, range, true);
    }

    /// Makes each page of the range absent, whatever it was.
    pub(crate) fn unmap(&mut self, context: Name, range: Range)
        requires live { IsLive (seen self.old) context }
        requires some { range.from < range.to }
        requires within { range.to ≤ (seen self.old).size.pages }
        requires few { ranges_of (unmap_pages (seen self.old) context range.from range.to) context
            ≤ MOST_RANGES }
        ensures unmapped { seen self.new ≡ unmap_pages (seen self.old) context range.from range.to }
    {
        self.set_pages(context, range, false);
    }

    /// The number of ranges that the context would have after `map` if `present` is true, and else after
    /// `unmap`.
    pub(crate) fn ranges_after_map(&self, context: Name, range: Range, present: bool) -> u32
        requires live { IsLive (seen self.now) context }
        requires some { range.from < range.to }
        requires within { range.to ≤ (seen self.now).size.pages }
        ensures value { result
            ≡ ranges_of (mapped_or_not (seen self.now) context range.from range.to present) context }
    {
        self.places.count_after(self.place(context), range, present)
    }
}
