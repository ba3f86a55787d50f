#![tactic(auto, unfolding(crate::specs::Seen::rows, crate::specs::Seen::rights, crate::specs::Cells::rows_of))]

ghost use Rattle.std.specs.Prelude.{◌≡◌, ◌<◌, IfOk, replicate};
ghost use Rattle.lwc_base.specs.declared.cell.Cell.TheVariants.{Own};
ghost use Rattle.lwc_types.specs.declared.key.TheConstants.{NOBODY};
ghost use Rattle.fd_table.specs.Seen as slots_seen;
ghost use Rattle.cow_space.specs.Seen as pages_seen;
ghost use Rattle.fd_table.specs.declared.slots.TheConstants.{NUMBERS};
ghost use Rattle.lazy_world.specs.Kept.{IsKept, number_of};

use crate::key_value::KeyValue;
use cow_space::PageCells;
use fd_table::{NUMBERS, Slots, TargetNumber};
use lwc_base::{Cell, Lent, NOBODY, Name, OutOfMemory, PageNumber, SlotNumber};
use range_map::SegmentKind;
use std::alloc::Global;

/// The cells of a fixed number of places: of each the pages, the slots and the credential.
#[derive(Drop)]
pub struct Places {
    pub(crate) pages: PageCells,
    pub(crate) slots: Slots,
    pub(crate) uids: Vec<Cell<u32>>,
    ghost kept: { IsKept (pages_seen.cells pages) (slots_seen.slots slots) uids.items },
}

/// The credential of nobody at each of this number of places. The only error is out of memory.
fn no_uids(alloc: Global, places: u32) -> Result<Vec<Cell<u32>>, OutOfMemory>
    ensures { IfOk result (λ uids. uids.items ≡ replicate places (Own NOBODY)) }
{
    let mut uids = Vec::with_capacity(alloc, places as usize)?;
    'places: for _ in 0..places {
        uids.push_reserved(Cell::Own(NOBODY));
    }
    Ok(uids)
}

/// The number of a name. Other names may have it too.
#[tactic(auto, unfolding(crate::specs::Kept::number_of))]
fn number_of(name: Name) -> TargetNumber
    ensures number { result ≡ number_of name }
    ensures within { result < NUMBERS }
{
    ((u64::from(name.job) * 4096 + u64::from(name.k)) % u64::from(NUMBERS)) as TargetNumber
}

impl Places {
    ghost use Rattle.std.specs.Prelude.{◌≤◌, ◌≢◌, ℕ, IfSome, Some, false, length, true};
    ghost use Rattle.std.specs.Option.{option_copied};
    ghost use Rattle.lwc_base.specs.Frames.{own_value};
    ghost use Rattle.lwc_base.specs.Keys.{with_key};
    ghost use Rattle.lwc_base.specs.declared.cell.Cell.{Cell};
    ghost use Rattle.lwc_types.specs.declared.key.TheConstants.{SLOTS};
    ghost use Rattle.lwc_types.specs.declared.key.Key.TheVariants.{Page, Slot, Cred};
    ghost use Rattle.lwc_types.specs.declared.limits.TheConstants.{MOST_PAGES};
    ghost use Rattle.lwc_types.specs.declared.page.TheConstants.{PAGE_BYTES};
    ghost use Rattle.cow_space.specs.Frames.{HasFrame, HasLoneFrame};
    ghost use Rattle.range_map.specs.declared.segment.SegmentKind.TheVariants as kinds;
    ghost use Rattle.cow_space.specs.Maps.{data_of};
    ghost use Rattle.range_map.specs.Kinds.{kind_of};
    ghost use Rattle.cow_space.specs.Cells.{all_write};
    ghost use Rattle.lwc_base.specs.Capabilities.{has_bit};
    ghost use Rattle.fd_table.specs.declared.slots.TheConstants.{NUMBERS};
    ghost use Rattle.fd_table.specs.Slots.{cell_of, context_in, is_common, is_filled};
    ghost use Rattle.lazy_world.specs.Cells.{no_row, put_row};
    ghost use Rattle.lazy_world.specs.Kept.{target_of};
    ghost use Rattle.lwc_types.specs.declared.limits.TheConstants.{MOST_PAGE_PLACES};
    ghost use Rattle.lazy_world.specs.KeyValues.{HasSlot, group_in, key_in, value_in};
    ghost use Rattle.lazy_world.specs.Seen.{KeepsStore, count, frame_count, node_steps, rights, rows};

    /// This number of places with nothing in them, over this number of frames. The only error is out of
    /// memory.
    pub fn open(alloc: Global, frames: u32, places: u32) -> Result<Places, OutOfMemory>
        requires frames { frames ≤ 65536 }
        requires places { places ≤ MOST_PAGE_PLACES }
        ensures rows { IfOk result (λ opened. rows opened ≡ λ i. no_row) }
        ensures rights { IfOk result (λ opened. rights opened ≡ λ i. all_write) }
        ensures count { IfOk result (λ opened. count opened ≡ places) }
        ensures frames { IfOk result (λ opened. frame_count opened ≡ frames) }
        ensures no_step { IfOk result (λ opened. node_steps opened ≡ 0) }
    {
        let uids = no_uids(alloc, places)?;
        let slots = Slots::open(alloc, places)?;
        let pages = PageCells::open(alloc, frames, places)?;
        Ok(Places { pages, slots, uids })
    }

    /// The kind of a page of a place; `None` where it is absent.
    pub fn kind(&self, place: usize, page: PageNumber) -> Option<SegmentKind>
        requires { place < count self.now }
        ensures { result ≡ kind_of (rows self.now place (Page page)) }
    {
        self.pages.kind(place, page)
    }

    /// The bytes of a page that is the place's own. A page that is absent, common or zeros has none.
    pub fn bytes(&self, place: usize, page: PageNumber) -> Option<&[u8]>
        requires place { place < count self.now }
        requires page { page < MOST_PAGES }
        ensures value { option_copied result ≡ data_of (own_value (rows self.now place (Page page))) }
        ensures whole { IfSome result (λ bytes. length bytes.now ≡ PAGE_BYTES) }
    {
        self.pages.bytes(place, page)
    }

    /// The frame that has the bytes of a page that is the place's own. A page that is absent, common or zeros has
    /// none.
    pub fn frame(&self, place: usize, page: PageNumber) -> Option<u32>
        requires place { place < count self.now }
        requires page { page < MOST_PAGES }
        ensures { IfSome result (λ f. HasFrame self.now.pages place page f) }
    {
        self.pages.frame(place, page)
    }

    /// The frame of a page that is the place's own, may be stored to and does not part.
    pub fn lone_frame(&self, place: usize, page: PageNumber) -> Option<u32>
        requires place { place < count self.now }
        ensures { IfSome result (λ f. HasLoneFrame self.now.pages place page f) }
    {
        self.pages.lone_frame(place, page)
    }

    /// The bytes of a page that has this frame.
    #[inline(always)]
    pub fn bytes_at(&self, place: usize, page: PageNumber, frame: u32) -> &[u8]
        requires { HasFrame self.now.pages place page frame }
        ensures value { Some result.now ≡ data_of (own_value (rows self.now place (Page page))) }
        ensures own { kind_of (rows self.now place (Page page)) ≡ Some kinds.Own }
        ensures whole { length result.now ≡ PAGE_BYTES }
    {
        self.pages.bytes_at(place, page, frame)
    }

    /// The cell of a slot of a place, lent.
    pub fn slot(&self, place: usize, slot_number: SlotNumber) -> Cell<Lent<'_>>
        requires place { place < count self.now }
        requires slot { slot_number < SLOTS }
        ensures { cell_of result ≡ rows self.now place (Slot slot_number) }
    {
        self.slots.cell(place, slot_number)
    }

    /// The cell of the credential of a place.
    pub fn uid(&self, place: usize) -> &Cell<u32>
        requires { place < count self.now }
        ensures { result.now ≡ rows self.now place Cred }
    {
        &self.uids[place]
    }

    /// The number of the context that a cell has a descriptor of, if it has one.
    fn target_of(cell: &Cell<Lent<'_>>) -> Option<TargetNumber>
        ensures target { result ≡ target_of (cell_of cell.now) }
        ensures within { IfSome result (λ number. number < NUMBERS) }
    {
        match cell {
            Cell::Own(Lent::Ctx { name, .. }) => Some(number_of(*name)),
            _ => None,
        }
    }

    /// The slots of a place that are common: slot n is bit n.
    pub fn common(&self, place: usize) -> u64
        requires { place < count self.now }
        ensures { (n : ℕ) → n < SLOTS → has_bit result n ≡ is_common (rows self.now place (Slot n)) }
    {
        self.slots.common(place)
    }

    /// Whether a slot of a place is common.
    pub fn is_common(&self, place: usize, slot: SlotNumber) -> bool
        requires place { place < count self.now }
        requires slot { slot < SLOTS }
        ensures { result ≡ is_common (rows self.now place (Slot slot)) }
    {
        self.common(place) >> slot & 1 == 1
    }

    /// Whether two slots of a place are both its own.
    pub fn are_own(&self, place: usize, slot: SlotNumber, other_slot: SlotNumber) -> bool
        requires place { place < count self.now }
        requires slot { slot < SLOTS }
        requires other { other_slot < SLOTS }
        ensures slot { result ≡ true → is_common (rows self.now place (Slot slot)) ≡ false }
        ensures other { result ≡ true → is_common (rows self.now place (Slot other_slot)) ≡ false }
    {
        !self.is_common(place, slot) && !self.is_common(place, other_slot)
    }

    /// The slots of a place that are more than empty ones of its own: slot n is bit n.
    pub fn filled(&self, place: usize) -> u64
        requires { place < count self.now }
        ensures { (n : ℕ) → n < SLOTS → has_bit result n ≡ is_filled (rows self.now place (Slot n)) }
    {
        self.slots.filled(place)
    }

    /// Whether a slot of a place is more than an empty slot of its own.
    pub fn is_filled(&self, place: usize, slot: SlotNumber) -> bool
        requires place { place < count self.now }
        requires slot { slot < SLOTS }
        ensures { result ≡ is_filled (rows self.now place (Slot slot)) }
    {
        self.filled(place) >> slot & 1 == 1
    }

    /// Whether a slot of any place may have a descriptor of a context.
    pub fn may_name(&self, context: Name) -> bool
        ensures { result ≡ false → (i n : ℕ) → context_in (rows self.now i (Slot n)) ≢ Some context }
    {
        self.slots.is_named(number_of(context))
    }

    /// Puts another cell into a slot of a place.
    pub fn put_slot(&mut self, place: usize, slot: SlotNumber, cell: Cell<Lent<'_>>)
        requires place { place < count self.old }
        requires slot { slot < SLOTS }
        ensures rows { rows self.new
            ≡ put_row (rows self.old) place
            (with_key Cell (Slot slot) (cell_of cell.entry) (rows self.old place)) }
        ensures count { count self.new ≡ count self.old }
        ensures frames { frame_count self.new ≡ frame_count self.old }
        ensures store { KeepsStore self.old self.new }
    {
        let target = Places::target_of(&cell);
        self.slots.put(place, slot, cell, target);
    }

    /// Puts another cell of the credential at a place.
    pub fn put_uid(&mut self, place: usize, cell: Cell<u32>)
        requires { place < count self.old }
        ensures rows { rows self.new
            ≡ put_row (rows self.old) place (with_key Cell Cred cell (rows self.old place)) }
        ensures count { count self.new ≡ count self.old }
        ensures frames { frame_count self.new ≡ frame_count self.old }
        ensures store { KeepsStore self.old self.new }
    {
        self.uids[place] = cell;
    }

    /// Puts a value of a place's own under a key.
    pub fn put(&mut self, place: usize, value: KeyValue<'_>)
        requires place { place < count self.old }
        requires slot { HasSlot value }
        ensures rows { rows self.new ≡ put_row (rows self.old) place
            (with_key Cell (key_in value.entry) (Own (value_in value.entry)) (rows self.old place)) }
        ensures count { count self.new ≡ count self.old }
        ensures frames { frame_count self.new ≡ frame_count self.old }
        ensures store { KeepsStore self.old self.new }
    {
        match value {
            KeyValue::Slot(n, descriptor) => self.put_slot(place, n, Cell::Own(descriptor)),
            KeyValue::Cred(uid) => self.put_uid(place, Cell::Own(uid)),
        }
    }

    /// The group that the cell of a place under a key names, if it names one.
    pub fn group(&self, place: usize, value: KeyValue<'_>) -> Option<Name>
        requires place { place < count self.now }
        requires slot { HasSlot value }
        ensures { result ≡ group_in (rows self.now place (key_in value.entry)) }
    {
        match value {
            KeyValue::Slot(n, _) => {
                if !self.is_common(place, n) {
                    return None;
                }
                match self.slot(place, n) {
                    Cell::Own(_) => None,
                    Cell::Common(g) => Some(g),
                }
            }
            KeyValue::Cred(_) => match self.uid(place) {
                Cell::Own(_) => None,
                Cell::Common(g) => Some(*g),
            },
        }
    }
}
