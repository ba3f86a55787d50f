ghost use Rattle.std.specs.Prelude.{◌≡◌, ◌+◌, ◌-◌, ◌<◌, ◌≤◌, ◌^◌, IfNone, IfSome, IsTrue, count_by, is_some};
ghost use Rattle.std.specs.Prelude.{length, map, not};
ghost use Rattle.std.specs.Option.{option_copied};
ghost use Rattle.lwc_types.specs.declared.key.TheConstants.{SLOTS};
ghost use Rattle.lwc_types.specs.declared.key.Key.TheVariants.{Page, Slot, Cred};

use crate::context_row::ContextRow;
use crate::group_row::GroupRow;
use crate::world::WholeWorld;
use lwc_base::{
    Cell, Lent, NOBODY, Name, PAGE_BYTES, PageNumber, PageValue, Range, Right, SLOTS, SlotNumber,
};

impl WholeWorld {
    ghost use Rattle.std.specs.List.{list_all, range_with_len};
    ghost use Rattle.lwc_base.specs.Cells.{page_at, slot_at, uid_at};
    ghost use Rattle.lwc_base.specs.Lending.{descriptor_of};
    ghost use Rattle.lwc_base.specs.Memory.{byte_at};
    ghost use Rattle.lwc_base.specs.Rights.{may_write, right_at};
    ghost use Rattle.lwc_base.specs.Summaries.{is_empty};
    ghost use Rattle.lwc_base.specs.World.{context, group, is_live, new_group};
    ghost use Rattle.whole_world.specs.Rows.{context_of, group_of};
    ghost use Rattle.whole_world.specs.Sound.{IsWhole, IsWholeGroup};
    ghost use Rattle.whole_world.specs.Worlds.{seen};

    /// The number of pages of each context.
    #[tactic(auto, unfolding(crate::specs::Worlds::seen, crate::specs::States::world_of))]
    pub(crate) fn page_count(&self) -> PageNumber
        ensures { result ≡ (seen self.now).size.pages }
    {
        self.size.pages
    }

    /// The row of a live context.
    pub(crate) fn row(&self, of_context: Name) -> &ContextRow
        requires { IsTrue (is_live (seen self.now) of_context) }
        ensures context { context (seen self.now) of_context ≡ context_of result.now }
        ensures whole { IsWhole (seen self.now).size.pages result.now }
    {
        match self.contexts.get(of_context) {
            Some(row) => row,
            None => unreachable!(),
        }
    }

    /// The row of a group, if it is live.
    fn group(&self, group_name: Name) -> Option<&GroupRow>
        ensures found { IfSome result (λ row. group (seen self.now) group_name ≡ group_of row.now) }
        ensures whole { IfSome result (λ row. IsWholeGroup (seen self.now).size.pages row.now) }
        ensures missed { IfNone result (group (seen self.now) group_name ≡ new_group) }
    {
        self.groups.get(group_name)
    }

    /// The value of a group's page.
    fn group_page(&self, group_name: Name, page: PageNumber) -> Option<&PageValue>
        ensures { option_copied result ≡ (group (seen self.now) group_name).value (Page page) }
    {
        match self.group(group_name) {
            Some(row) => row.page(page),
            None => None,
        }
    }

    /// The value of a group's slot, lent.
    fn group_slot(&self, group_name: Name, slot: SlotNumber) -> Lent<'_>
        requires { slot < SLOTS }
        ensures { descriptor_of result ≡ (group (seen self.now) group_name).value (Slot slot) }
    {
        match self.group(group_name) {
            Some(row) => row.slot(slot).lend(),
            None => Lent::Empty,
        }
    }

    /// The credential of a group.
    fn group_uid(&self, group_name: Name) -> u32
        ensures { result ≡ (group (seen self.now) group_name).value Cred }
    {
        match self.group(group_name) {
            Some(row) => row.uid(),
            None => NOBODY,
        }
    }

    /// The value of a page of a context.
    #[tactic(auto, unfolding(lwc_base::specs::Cells::value_at))]
    pub(crate) fn page_value(&self, context: Name, page: PageNumber) -> Option<&PageValue>
        requires { IsTrue (is_live (seen self.now) context) }
        ensures { option_copied result ≡ page_at (seen self.now) context page }
    {
        match self.row(context).page(page) {
            Some(Cell::Own(value)) => value.as_ref(),
            Some(Cell::Common(g)) => self.group_page(*g, page),
            None => None,
        }
    }

    /// The descriptor in a slot of a context, lent.
    #[tactic(auto, unfolding(lwc_base::specs::Cells::value_at))]
    pub(crate) fn slot_value(&self, context: Name, slot: SlotNumber) -> Lent<'_>
        requires live { IsTrue (is_live (seen self.now) context) }
        requires within { slot < SLOTS }
        ensures { descriptor_of result ≡ slot_at (seen self.now) context slot }
    {
        match self.row(context).slot(slot) {
            Cell::Own(value) => value.lend(),
            Cell::Common(g) => self.group_slot(*g, slot),
        }
    }

    /// The credential of a context.
    #[tactic(auto, unfolding(lwc_base::specs::Cells::value_at))]
    pub(crate) fn uid_value(&self, context: Name) -> u32
        requires { IsTrue (is_live (seen self.now) context) }
        ensures { result ≡ uid_at (seen self.now) context }
    {
        match self.row(context).uid() {
            Cell::Own(value) => *value,
            Cell::Common(g) => self.group_uid(*g),
        }
    }

    /// Whether a page is present.
    pub(crate) fn is_present(&self, context: Name, page: PageNumber) -> bool
        requires { IsTrue (is_live (seen self.now) context) }
        ensures { result ≡ is_some (page_at (seen self.now) context page) }
    {
        self.page_value(context, page).is_some()
    }

    /// Whether all of some pages are present.
    pub(crate) fn are_present(&self, context: Name, pages: Range) -> bool
        requires { IsTrue (is_live (seen self.now) context) }
        ensures { result ≡ list_all (λ p. is_some (page_at (seen self.now) context p))
            (range_with_len pages.from (pages.to - pages.from)) }
    {
        (pages.from..pages.to).all(|p| self.is_present(context, p))
    }

    /// The right of a page.
    pub(crate) fn right(&self, context: Name, page: PageNumber) -> Right
        requires { IsTrue (is_live (seen self.now) context) }
        ensures { result ≡ right_at (seen self.now) context page }
    {
        self.row(context).right(page)
    }

    /// Whether bytes may be stored to a page.
    fn may_write(&self, context: Name, page: PageNumber) -> bool
        requires { IsTrue (is_live (seen self.now) context) }
        ensures { result ≡ may_write (right_at (seen self.now) context page) }
    {
        matches!(self.right(context, page), Right::Write)
    }

    /// Whether bytes may be stored to all of some pages.
    pub(crate) fn are_writable(&self, context: Name, pages: Range) -> bool
        requires { IsTrue (is_live (seen self.now) context) }
        ensures { result ≡ list_all (λ p. may_write (right_at (seen self.now) context p))
            (range_with_len pages.from (pages.to - pages.from)) }
    {
        (pages.from..pages.to).all(|p| self.may_write(context, p))
    }

    /// Whether a slot of a context is empty.
    pub(crate) fn is_slot_empty(&self, context: Name, slot: SlotNumber) -> bool
        requires live { IsTrue (is_live (seen self.now) context) }
        requires within { slot < SLOTS }
        ensures { result ≡ is_empty (slot_at (seen self.now) context slot) }
    {
        matches!(self.slot_value(context, slot), Lent::Empty)
    }

    /// The number of pages of a context that are present.
    #[tactic(auto, using(lwc_types::proofs::Small::count_of_range))]
    pub(crate) fn present_count(&self, context: Name) -> usize
        requires { IsTrue (is_live (seen self.now) context) }
        ensures present { result ≡ count_by (λ p. is_some (page_at (seen self.now) context p))
            (range_with_len 0 (seen self.now).size.pages) }
        ensures few { result < 2 ^ 32 }
    {
        (0..self.page_count())
            .filter(|p| self.is_present(context, *p))
            .count()
    }

    /// The number of slots of a context that are not empty.
    #[tactic(auto, using(lwc_types::proofs::Small::count_of_range))]
    pub(crate) fn filled_count(&self, context: Name) -> usize
        requires { IsTrue (is_live (seen self.now) context) }
        ensures filled { result ≡ count_by (λ n. not (is_empty (slot_at (seen self.now) context n)))
            (range_with_len 0 SLOTS) }
        ensures few { result ≤ SLOTS }
    {
        (0..SLOTS)
            .filter(|n| !self.is_slot_empty(context, *n))
            .count()
    }

    /// The byte at an address, 0 where its page is absent.
    #[tactic(auto, unfolding(lwc_base::specs::Memory::byte_at), using(lwc_types::proofs::Small::zeros_at))]
    fn byte(&self, context: Name, at: usize) -> u8
        requires live { IsTrue (is_live (seen self.now) context) }
        requires within { at < 2 ^ 28 }
        ensures { result ≡ byte_at (seen self.now) context at }
    {
        match self.page_value(context, (at / PAGE_BYTES) as PageNumber) {
            Some(PageValue::Data(_, bytes)) => bytes.as_slice()[at % PAGE_BYTES],
            _ => 0,
        }
    }

    /// Copies the bytes from an address on.
    pub(crate) fn copy_to(&self, context: Name, at: usize, out: &mut [u8])
        requires live { IsTrue (is_live (seen self.now) context) }
        requires within { at + length out.old ≤ 2 ^ 28 }
        ensures { out.new ≡ map (byte_at (seen self.now) context) (range_with_len at (length out.old)) }
    {
        for (i, byte) in out.iter_mut().enumerate() {
            *byte = self.byte(context, at + i);
        }
    }
}
