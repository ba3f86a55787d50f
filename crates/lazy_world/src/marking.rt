ghost use Rattle.std.specs.Prelude.{◌≡◌, ◌<◌, ◌≤◌, [], ℕ, Some, slice_get, true};
ghost use Rattle.std.specs.FinMap as fm;
ghost use Rattle.std.specs.List.{list_any, range_with_len};
ghost use Rattle.lwc_base.specs.Life.{is_in};
ghost use Rattle.lwc_types.specs.declared.key.TheConstants.{SLOTS};
ghost use Rattle.lwc_types.specs.declared.key.Key.TheVariants.{Page, Slot, Cred};
ghost use Rattle.lwc_types.specs.declared.name.Name.{Name};
ghost use Rattle.reach.specs.Reach.{is_marked};
ghost use Rattle.lazy_world.specs.KeyValues.{group_in};
ghost use Rattle.lazy_world.specs.Reaping.{AddsMarks, is_name, is_of, names_at};
ghost use Rattle.lazy_world.specs.Seen.{count, rows};
ghost use Rattle.lazy_world.specs.Worlds.{parts};

use crate::places::Places;
use crate::world::PlacedWorld;
use fd_table::lowest_bit;
use lwc_base::{Cell, Name, SlotNumber};
use range_map::SegmentKind;

impl Places {
    /// The group that a slot of a place is common of, if it is.
    fn slot_group(&self, place: usize, slot: SlotNumber) -> Option<Name>
        requires place { place < count self.now }
        requires slot { slot < SLOTS }
        ensures { result ≡ group_in (rows self.now place (Slot slot)) }
    {
        match self.slot(place, slot) {
            Cell::Own(_) => None,
            Cell::Common(g) => Some(g),
        }
    }

    /// The group that the credential of a place is common of, if it is.
    fn uid_group(&self, place: usize) -> Option<Name>
        requires { place < count self.now }
        ensures { result ≡ group_in (rows self.now place Cred) }
    {
        match self.uid(place) {
            Cell::Own(_) => None,
            Cell::Common(g) => Some(*g),
        }
    }
}

impl PlacedWorld {
    /// Marks for the places of the groups that cells name. It goes from context to context, and no further
    /// once each live group is marked.
    pub(crate) fn named_groups(&self) -> [bool; 1024]
        ensures { AddsMarks self.now.groups.places
            (λ g. list_any (names_at (parts self.now) g) (range_with_len 0 self.now.size.contexts))
            [] result }
    {
        let mut marks = [false; 1024];
        let mut k = 0;
        for i in 0..self.size.contexts as usize {
            k = self.first_unmarked(k, &marks);
            if k >= self.groups.len() {
                return marks;
            }
            self.mark_named(i, &mut marks);
        }
        marks
    }

    /// Marks the groups that the cells of the context at a place name, if there is one.
    fn mark_named(&self, place: usize, marks: &mut [bool; 1024])
        requires { place < (parts self.now).size.contexts }
        ensures { AddsMarks self.now.groups.places
            (λ g. names_at (parts self.now) g place) marks.old marks.new }
    {
        if self.contexts.at(place).is_none() {
            return;
        }
        self.mark_pages(place, marks);
        self.mark_slots(place, marks);
        self.mark_group(self.places.uid_group(place), marks);
    }

    /// The number in the order of names of the first live group from one on that is not marked; the number of
    /// live groups if there is none.
    pub(crate) fn first_unmarked(&self, from: u32, marks: &[bool; 1024]) -> u32
        ensures { (n : ℕ) → from ≤ n → n < result → (g : Name) (j : ℕ)
            → slice_get (fm.keys self.now.groups.map) n ≡ Some g → fm.get self.now.groups.map g ≡ Some j
            → is_marked marks.now j ≡ true }
    {
        for k in from..self.groups.len() {
            if !self.is_marked(k, marks) {
                return k;
            }
        }
        self.groups.len()
    }

    /// Whether the k-th live group in the order of names is marked, if there is one.
    fn is_marked(&self, index: u32, marks: &[bool; 1024]) -> bool
        ensures { (g : Name) (j : ℕ) → slice_get (fm.keys self.now.groups.map) index ≡ Some g →
            fm.get self.now.groups.map g ≡ Some j → result ≡ is_marked marks.now j }
    {
        let Some(g) = self.groups.nth(index) else {
            return true;
        };
        match self.groups.place(g) {
            Some(j) => marks[j],
            None => true,
        }
    }

    /// Marks the groups that pages of a place are common of, by its segments.
    fn mark_pages(&self, place: usize, marks: &mut [bool; 1024])
        requires { place < count self.now.places }
        ensures { AddsMarks self.now.groups.places
            (λ g. list_any (λ p. is_in g (rows self.now.places place (Page p)))
            (range_with_len 0 self.now.size.pages))
            marks.old marks.new }
    {
        for segment in self.places.pages.segments(place) {
            self.mark_kind(segment.kind, marks);
        }
    }

    /// Marks the groups that slots of a place are common of.
    fn mark_slots(&self, place: usize, marks: &mut [bool; 1024])
        requires { place < count self.now.places }
        ensures { AddsMarks self.now.groups.places
            (λ g. list_any (λ n. is_in g (rows self.now.places place (Slot n))) (range_with_len 0 SLOTS))
            marks.old marks.new }
    {
        let common = self.places.common(place);
        let mut from = 0;
        'slots: while let Some(n) = lowest_bit(common, from) {
            self.mark_group(self.places.slot_group(place, n), marks);
            from = n + 1;
        }
    }

    /// Marks the group that pages of a kind are common of, if they are and it is live.
    fn mark_kind(&self, kind: SegmentKind, marks: &mut [bool; 1024])
        ensures { AddsMarks self.now.groups.places (is_of kind) marks.old marks.new }
    {
        match kind {
            SegmentKind::Own => {}
            SegmentKind::Common(g) => self.mark_group(Some(g), marks),
        }
    }

    /// Marks a group, if one is given and it is live.
    fn mark_group(&self, group: Option<Name>, marks: &mut [bool; 1024])
        ensures { AddsMarks self.now.groups.places (is_name group) marks.old marks.new }
    {
        if let Some(g) = group {
            if let Some(j) = self.groups.place(g) {
                marks[j] = true;
            }
        }
    }
}
