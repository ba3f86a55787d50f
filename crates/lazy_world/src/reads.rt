ghost use Rattle.std.specs.Prelude.{◌≡◌, ◌<◌, ◌≤◌, ◌^◌, ℕ, IfNone, IfSome, Some};
ghost use Rattle.std.specs.Prelude.{count_by, false, is_some, not};
ghost use Rattle.std.specs.FinMap as fm;
ghost use Rattle.lwc_types.specs.declared.key.TheConstants.{SLOTS};
ghost use Rattle.lwc_types.specs.declared.key.Key.TheVariants.{Page, Slot, Cred};
ghost use Rattle.lwc_types.specs.declared.limits.TheConstants.{MOST_PAGES, MOST_THREADS};

use crate::world::PlacedWorld;
use fd_table::lowest_bit;
use lwc_base::{Cell, Lent, NOBODY, Name, PageNumber, Regs, SLOTS, SlotNumber, Summary};
use range_map::SegmentKind;

impl PlacedWorld {
    ghost use Rattle.std.specs.List.{find, range_with_len};
    ghost use Rattle.lwc_base.specs.Capabilities.{has_bit};
    ghost use Rattle.lwc_base.specs.Cells.{slot_at, uid_at, value_of};
    ghost use Rattle.lwc_base.specs.Lending.{descriptor_of};
    ghost use Rattle.lwc_base.specs.Slots.{lowest_empty};
    ghost use Rattle.lwc_base.specs.Summaries.{is_empty, summary_of};
    ghost use Rattle.lwc_base.specs.World.{context, group, new_group};
    ghost use Rattle.world_face.specs.Calls.{IsLive};
    ghost use Rattle.lazy_world.specs.Clones.{place_of_group};
    ghost use Rattle.lazy_world.specs.Seen.{count, rows};
    ghost use Rattle.lazy_world.specs.States.{context_at, group_of};
    ghost use Rattle.lazy_world.specs.Worlds.{parts, seen};

    /// The number of pages of each context.
    #[tactic(auto, unfolding(crate::specs::Worlds::seen, crate::specs::Worlds::parts, crate::specs::States::world_of))]
    pub(crate) fn pages(&self) -> PageNumber
        ensures pages { result ≡ (seen self.now).size.pages }
        ensures few { (seen self.now).size.pages ≤ MOST_PAGES }
    {
        self.size.pages
    }

    /// The place of a live context.
    #[inline(always)]
    pub(crate) fn place(&self, of_context: Name) -> usize
        requires { IsLive (seen self.now) of_context }
        ensures found { fm.get (parts self.now).contexts.map of_context ≡ Some result }
        ensures context { context (seen self.now) of_context ≡ context_at (parts self.now) result }
        ensures low { result < (parts self.now).size.contexts }
        ensures inside { result < count self.now.places }
    {
        match self.contexts.place(of_context) {
            Some(i) => i,
            None => unreachable!(),
        }
    }

    /// The place of a group's values, if it is live.
    pub(crate) fn group_place(&self, group_name: Name) -> Option<usize>
        ensures found { IfSome result
            (λ i. group (seen self.now) group_name ≡ group_of (rows self.now.places i)) }
        ensures inside { IfSome result (λ i. i < count self.now.places) }
        ensures behind { IfSome result (λ i. (parts self.now).size.contexts ≤ i) }
        ensures missed { IfNone result (group (seen self.now) group_name ≡ new_group) }
        ensures place { result ≡ place_of_group (parts self.now) group_name }
    {
        match self.groups.place(group_name) {
            Some(j) => Some(self.size.contexts as usize + j),
            None => None,
        }
    }

    /// The value of a group's slot, lent.
    fn group_slot(&self, group_name: Name, slot: SlotNumber) -> Lent<'_>
        requires { slot < SLOTS }
        ensures { descriptor_of result ≡ (group (seen self.now) group_name).value (Slot slot) }
    {
        let Some(i) = self.group_place(group_name) else {
            return Lent::Empty;
        };
        match self.places.slot(i, slot) {
            Cell::Own(value) => value,
            Cell::Common(_) => Lent::Empty,
        }
    }

    /// The descriptor in a slot of the context at a place, lent.
    pub(crate) fn slot_at(&self, place: usize, slot: SlotNumber) -> Lent<'_>
        requires place { place < count self.now.places }
        requires slot { slot < SLOTS }
        ensures { descriptor_of result
            ≡ value_of (seen self.now) (Slot slot) (rows self.now.places place (Slot slot)) }
    {
        match self.places.slot(place, slot) {
            Cell::Own(value) => value,
            Cell::Common(g) => self.group_slot(g, slot),
        }
    }

    /// The descriptor in a slot of the context, lent.
    pub(crate) fn slot(&self, context: Name, slot_number: SlotNumber) -> Lent<'_>
        requires live { IsLive (seen self.now) context }
        requires within { slot_number < SLOTS }
        ensures value { descriptor_of result ≡ slot_at (seen self.now) context slot_number }
    {
        self.slot_at(self.place(context), slot_number)
    }

    /// Whether a slot of the context at a place is empty.
    fn is_slot_empty(&self, place: usize, slot: SlotNumber) -> bool
        requires place { place < count self.now.places }
        requires slot { slot < SLOTS }
        ensures { result
            ≡ is_empty (value_of (seen self.now) (Slot slot) (rows self.now.places place (Slot slot))) }
    {
        if !self.places.is_filled(place, slot) {
            return true;
        }
        if !self.places.is_common(place, slot) {
            return false;
        }
        matches!(self.slot_at(place, slot), Lent::Empty)
    }

    /// The slots of the context at a place that may be empty, those that are not filled and those that are
    /// common: slot n is bit n.
    fn open_slots(&self, place: usize) -> u64
        requires { place < count self.now.places }
        ensures { (n : ℕ) → n < SLOTS → has_bit result n ≡ false →
            is_empty (value_of (seen self.now) (Slot n) (rows self.now.places place (Slot n))) ≡ false }
    {
        !self.places.filled(place) | self.places.common(place)
    }

    /// The lowest empty slot of the context at a place.
    fn lowest_empty_at(&self, place: usize) -> Option<SlotNumber>
        requires { place < count self.now.places }
        ensures { result
            ≡ find (λ n. is_empty (value_of (seen self.now) (Slot n) (rows self.now.places place (Slot n))))
            (range_with_len 0 SLOTS) }
    {
        let open = self.open_slots(place);
        let mut from = 0;
        'slots: while let Some(n) = lowest_bit(open, from) {
            if self.is_slot_empty(place, n) {
                return Some(n);
            }
            from = n + 1;
        }
        None
    }

    /// The lowest empty slot of the context; `None` if no slot is empty.
    pub(crate) fn lowest_empty(&self, context: Name) -> Option<SlotNumber>
        requires { IsLive (seen self.now) context }
        ensures { result ≡ lowest_empty (seen self.now) context }
    {
        self.lowest_empty_at(self.place(context))
    }

    /// The credential of a group.
    fn group_uid(&self, group_name: Name) -> u32
        ensures { result ≡ (group (seen self.now) group_name).value Cred }
    {
        let Some(i) = self.group_place(group_name) else {
            return NOBODY;
        };
        match self.places.uid(i) {
            Cell::Own(value) => *value,
            Cell::Common(_) => NOBODY,
        }
    }

    /// The credential of the context.
    pub(crate) fn uid(&self, context: Name) -> u32
        requires { IsLive (seen self.now) context }
        ensures { result ≡ uid_at (seen self.now) context }
    {
        match self.places.uid(self.place(context)) {
            Cell::Own(value) => *value,
            Cell::Common(g) => self.group_uid(*g),
        }
    }

    /// Whether a page of a group is present.
    #[tactic(auto, unfolding(crate::specs::Seen::rows, crate::specs::Cells::rows_of))]
    fn has_group_page(&self, group_name: Name, page: PageNumber) -> bool
        ensures { result ≡ is_some ((group (seen self.now) group_name).value (Page page)) }
    {
        match self.group_place(group_name) {
            Some(i) => matches!(self.places.pages.kind(i, page), Some(SegmentKind::Own)),
            None => false,
        }
    }

    /// Whether a page of the context at a place is present.
    #[tactic(auto, unfolding(crate::specs::Seen::rows, crate::specs::Cells::rows_of))]
    pub(crate) fn is_present(&self, place: usize, page: PageNumber) -> bool
        requires { place < count self.now.places }
        ensures { result
            ≡ is_some (value_of (seen self.now) (Page page) (rows self.now.places place (Page page))) }
    {
        match self.places.pages.kind(place, page) {
            None => false,
            Some(SegmentKind::Own) => true,
            Some(SegmentKind::Common(g)) => self.has_group_page(g, page),
        }
    }

    /// The number of pages of the context at a place that are present.
    #[tactic(auto, using(lwc_types::proofs::Small::count_of_range))]
    fn present_count(&self, place: usize) -> usize
        requires { place < count self.now.places }
        ensures present { result
            ≡ count_by (λ p. is_some
            (value_of (seen self.now) (Page p) (rows self.now.places place (Page p))))
            (range_with_len 0 (seen self.now).size.pages) }
        ensures few { result < 2 ^ 32 }
    {
        (0..self.pages())
            .filter(|p| self.is_present(place, *p))
            .count()
    }

    /// The number of slots of the context at a place that are not empty.
    #[tactic(auto, using(lwc_types::proofs::Small::count_of_range))]
    fn filled_count(&self, place: usize) -> usize
        requires { place < count self.now.places }
        ensures filled { result
            ≡ count_by (λ n. not
            (is_empty (value_of (seen self.now) (Slot n) (rows self.now.places place (Slot n)))))
            (range_with_len 0 SLOTS) }
        ensures few { result ≤ SLOTS }
    {
        (0..SLOTS)
            .filter(|n| !self.is_slot_empty(place, *n))
            .count()
    }

    /// The numbers of pages and slots in use of the context, and its uid, as a report prints them.
    pub(crate) fn summary(&self, context: Name) -> Summary
        requires { IsLive (seen self.now) context }
        ensures { result ≡ summary_of (seen self.now) context }
    {
        let i = self.place(context);
        Summary {
            pages: self.present_count(i) as u32,
            slots: self.filled_count(i) as u32,
            uid: self.uid(context),
        }
    }

    /// The registers that the context begins with.
    pub(crate) fn entry(&self, of_context: Name) -> Regs
        requires { IsLive (seen self.now) of_context }
        ensures { result ≡ (context (seen self.now) of_context).entry }
    {
        self.registers[self.place(of_context)].entry()
    }

    /// The registers that the context keeps for a thread; `None` if it keeps none for it.
    pub(crate) fn saved(&self, of_context: Name, thread: u32) -> Option<Regs>
        requires live { IsLive (seen self.now) of_context }
        requires thread { thread < MOST_THREADS }
        ensures value { result ≡ (context (seen self.now) of_context).saved thread }
    {
        self.registers[self.place(of_context)].saved(thread)
    }
}
