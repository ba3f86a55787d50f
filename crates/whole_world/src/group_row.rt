ghost use Rattle.std.specs.Prelude.{◌≡◌, ◌<◌, IfOk, None, replicate, vec_len};
ghost use Rattle.std.specs.Option.{option_copied};
ghost use Rattle.lwc_base.specs.declared.descriptor.Descriptor.TheVariants.{Empty};
ghost use Rattle.lwc_base.specs.Cells.{with_value};
ghost use Rattle.lwc_base.specs.World.{new_group};
ghost use Rattle.lwc_types.specs.declared.key.TheConstants.{SLOTS};
ghost use Rattle.lwc_types.specs.declared.key.Key.TheVariants.{Page, Slot, Cred};
ghost use Rattle.whole_world.specs.KeyValues.{key_in, value_in};
ghost use Rattle.whole_world.specs.Rows.{group_of};
ghost use Rattle.whole_world.specs.Sound.{HasGroupSizeOf, HasKey, IsWholeGroup};

use crate::key_value::KeyValue;
use lwc_base::{Descriptor, NOBODY, OutOfMemory, PageNumber, PageValue, SLOTS, SlotNumber};
use std::alloc::Global;

/// What a group has: the values that contexts have in common, and nothing under each other key.
#[derive(Drop)]
pub struct GroupRow {
    pub pages: Vec<Option<PageValue>>,
    pub slots: Vec<Descriptor>,
    pub uid: u32,
}

impl GroupRow {
    /// A group with nothing in it, with this number of pages. The only error is out of memory.
    #[tactic(auto, unfolding(crate::specs::Rows::group_of, crate::specs::Rows::value_of))]
    pub fn new(alloc: Global, pages: PageNumber) -> Result<GroupRow, OutOfMemory>
        ensures whole { IfOk result (IsWholeGroup pages) }
        ensures group { IfOk result (λ row. group_of row ≡ new_group) }
    {
        Ok(GroupRow {
            pages: no_pages(alloc, pages)?,
            slots: no_slots(alloc)?,
            uid: NOBODY,
        })
    }

    /// The value under a page, if there is one.
    #[tactic(auto, unfolding(crate::specs::Rows::group_of, crate::specs::Rows::value_of))]
    pub fn page(&self, page_number: PageNumber) -> Option<&PageValue>
        ensures { option_copied result ≡ (group_of self.now).value (Page page_number) }
    {
        let page_number = page_number as usize;
        if page_number < self.pages.len() {
            self.pages[page_number].as_ref()
        } else {
            None
        }
    }

    /// The descriptor under a slot.
    #[tactic(auto, unfolding(crate::specs::Rows::group_of, crate::specs::Rows::value_of))]
    pub fn slot(&self, slot_number: SlotNumber) -> &Descriptor
        requires { slot_number < vec_len self.now.slots }
        ensures { result.now ≡ (group_of self.now).value (Slot slot_number) }
    {
        &self.slots[slot_number as usize]
    }

    /// The credential.
    #[tactic(auto, unfolding(crate::specs::Rows::group_of, crate::specs::Rows::value_of))]
    pub fn uid(&self) -> u32
        ensures { result ≡ (group_of self.now).value Cred }
    {
        self.uid
    }

    /// Puts a value under a key.
    pub fn put(&mut self, value: KeyValue)
        requires { HasKey (vec_len self.old.pages) (vec_len self.old.slots) (key_in value) }
        ensures size { HasGroupSizeOf self.old self.new }
        ensures group { group_of self.new ≡ with_value (key_in value) (value_in value) (group_of self.old) }
    {
        match value {
            KeyValue::Page(p, value) => self.pages[p as usize] = value,
            KeyValue::Slot(n, value) => self.slots[n as usize] = value,
            KeyValue::Cred(uid) => self.uid = uid,
        }
    }
}

/// Pages that are all absent. The only error is out of memory.
fn no_pages(alloc: Global, count: PageNumber) -> Result<Vec<Option<PageValue>>, OutOfMemory>
    ensures none { IfOk result (λ pages. pages.items ≡ replicate count None) }
    ensures many { IfOk result (λ pages. vec_len pages ≡ count) }
{
    let mut pages = Vec::with_capacity(alloc, count as usize)?;
    for _ in 0..count {
        pages.push(None)?;
    }
    Ok(pages)
}

/// Slots that are all empty. The only error is out of memory.
fn no_slots(alloc: Global) -> Result<Vec<Descriptor>, OutOfMemory>
    ensures empty { IfOk result (λ slots. slots.items ≡ replicate SLOTS Empty) }
    ensures many { IfOk result (λ slots. vec_len slots ≡ SLOTS) }
{
    let mut slots = Vec::with_capacity(alloc, SLOTS as usize)?;
    for _ in 0..SLOTS {
        slots.push(Descriptor::Empty)?;
    }
    Ok(slots)
}
