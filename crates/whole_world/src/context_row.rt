ghost use Rattle.std.specs.Prelude.{◌≡◌, if◌then◌else◌, ℕ, ◌<◌, ◌≤◌, IfOk, Option, Some, None, replicate};
ghost use Rattle.std.specs.Prelude.{true, unwrap_or, vec_len};
ghost use Rattle.std.specs.Option.{option_copied};
ghost use Rattle.lwc_base.specs.declared.cell.Cell.TheVariants.{Own, Common};
ghost use Rattle.lwc_base.specs.declared.descriptor.Descriptor.TheVariants.{Empty};
ghost use Rattle.lwc_base.specs.Cells.{with_cell};
ghost use Rattle.lwc_base.specs.Saved.{with_saved};
ghost use Rattle.lwc_base.specs.Ranges.{has_page};
ghost use Rattle.lwc_base.specs.Sharing.{has_own, is_moved};
ghost use Rattle.lwc_base.specs.World.{new_context};
ghost use Rattle.lwc_types.specs.declared.key.TheConstants.{SLOTS};
ghost use Rattle.lwc_types.specs.declared.key.Key.TheVariants.{Page, Slot, Cred};
ghost use Rattle.lwc_types.specs.declared.page.PageValue.TheVariants.{Zero};
ghost use Rattle.lwc_types.specs.declared.limits.TheConstants.{MOST_THREADS};
ghost use Rattle.lwc_types.specs.declared.right.Right.TheVariants.{Write};
ghost use Rattle.whole_world.specs.Holders.{holder, holder_of};
ghost use Rattle.whole_world.specs.declared.holder.Holder.TheVariants as holders;
ghost use Rattle.whole_world.specs.KeyValues.{key_in, value_in};
ghost use Rattle.whole_world.specs.Rows.{context_of, with_pages, with_right};
ghost use Rattle.whole_world.specs.Sound.{HasKey, HasSlot, HasSizeOf, IsWhole};

use crate::holder::Holder;
use crate::key_value::KeyValue;
use lwc_base::{
    Cell, Descriptor, Key, Mode, Name, OutOfMemory, PageNumber, PageValue, Regs, Right, SLOTS,
    SlotNumber,
};
use std::alloc::Global;

/// What a context has: under each key its cell, the right of each page, the registers that it begins with,
/// and those that it keeps for each thread.
#[derive(Drop)]
pub struct ContextRow {
    pub pages: Vec<Cell<Option<PageValue>>>,
    pub rights: Vec<Right>,
    pub slots: Vec<Cell<Descriptor>>,
    pub uid: Cell<u32>,
    pub entry: Regs,
    pub saved: [Option<Regs>; 16],
}

impl ContextRow {
    /// A context as it is made, with none of this number of pages present. The only error is out of memory.
    #[tactic(auto, unfolding(crate::specs::Rows::context_of, crate::specs::Rows::cell_of))]
    pub fn new(
        alloc: Global,
        pages: PageNumber,
        uid: u32,
        entry: &Regs,
    ) -> Result<ContextRow, OutOfMemory>
        ensures whole { IfOk result (IsWhole pages) }
        ensures context { IfOk result (λ row. context_of row ≡ new_context uid entry.now) }
    {
        Ok(ContextRow {
            pages: absent_pages(alloc, pages)?,
            rights: writable_pages(alloc, pages)?,
            slots: empty_slots(alloc)?,
            uid: Cell::Own(uid),
            entry: *entry,
            saved: [None; 16],
        })
    }

    /// The cell of a page; `None` past the last page.
    #[tactic(auto, unfolding(crate::specs::Rows::context_of, crate::specs::Rows::cell_of))]
    pub fn page(&self, page_number: PageNumber) -> Option<&Cell<Option<PageValue>>>
        ensures { unwrap_or (option_copied result) (Own None)
            ≡ (context_of self.now).cell (Page page_number) }
    {
        let page_number = page_number as usize;
        if page_number < self.pages.len() {
            Some(&self.pages[page_number])
        } else {
            None
        }
    }

    /// The right of a page; Write past the last page.
    #[tactic(auto, unfolding(crate::specs::Rows::context_of))]
    pub fn right(&self, page: PageNumber) -> Right
        ensures { result ≡ (context_of self.now).right page }
    {
        let page = page as usize;
        if page < self.rights.len() {
            self.rights[page]
        } else {
            Right::Write
        }
    }

    /// Whether there is a page.
    pub fn has_page(&self, page: PageNumber) -> bool
        ensures { result ≡ has_page (context_of self.now) page }
    {
        match self.page(page) {
            Some(Cell::Own(value)) => value.is_some(),
            Some(Cell::Common(_)) => true,
            None => false,
        }
    }

    /// The cell of a slot.
    #[tactic(auto, unfolding(crate::specs::Rows::context_of, crate::specs::Rows::cell_of))]
    pub fn slot(&self, slot_number: SlotNumber) -> &Cell<Descriptor>
        requires { slot_number < vec_len self.now.slots }
        ensures { result.now ≡ (context_of self.now).cell (Slot slot_number) }
    {
        &self.slots[slot_number as usize]
    }

    /// The cell of the credential.
    #[tactic(auto, unfolding(crate::specs::Rows::context_of, crate::specs::Rows::cell_of))]
    pub fn uid(&self) -> &Cell<u32>
        ensures { result.now ≡ (context_of self.now).cell Cred }
    {
        &self.uid
    }

    /// Who has the value of a page.
    fn page_holder(&self, page: PageNumber) -> Holder
        ensures { result ≡ holder_of (Page page) ((context_of self.now).cell (Page page)) }
    {
        match self.page(page) {
            Some(Cell::Own(Some(_))) => Holder::Own,
            Some(Cell::Common(g)) => Holder::Group(*g),
            _ => Holder::Nobody,
        }
    }

    /// Who has the value under a key.
    pub fn holder(&self, key: Key) -> Holder
        requires { HasSlot (vec_len self.now.slots) key }
        ensures { result ≡ holder_of key ((context_of self.now).cell key) }
    {
        match key {
            Key::Page(p) => self.page_holder(p),
            Key::Slot(n) => holder_of(self.slot(n)),
            Key::Cred => holder_of(self.uid()),
        }
    }

    /// Whether the value under a key moves into a group where the key has this mode.
    pub fn is_moved(&self, mode: Mode, key: Key) -> bool
        requires { HasSlot (vec_len self.now.slots) key }
        ensures { result ≡ is_moved mode key ((context_of self.now).cell key) }
    {
        match mode {
            Mode::Share => self.holder(key).is_own(),
            Mode::Copy | Mode::Unmap | Mode::CopyRead => false,
        }
    }

    /// Puts a value of the context's own under a key.
    pub fn put(&mut self, value: KeyValue)
        requires { HasKey (vec_len self.old.pages) (vec_len self.old.slots) (key_in value) }
        ensures size { HasSizeOf self.old self.new }
        ensures context { context_of self.new
            ≡ with_cell (key_in value) (Own (value_in value)) (context_of self.old) }
    {
        match value {
            KeyValue::Page(p, value) => self.pages[p as usize] = Cell::Own(value),
            KeyValue::Slot(n, value) => self.slots[n as usize] = Cell::Own(value),
            KeyValue::Cred(uid) => self.uid = Cell::Own(uid),
        }
    }

    /// Makes a key common of a group, and gives the value of the context's own that was under it.
    pub fn give(&mut self, key: Key, group: Name) -> KeyValue
        requires place { HasKey (vec_len self.old.pages) (vec_len self.old.slots) key }
        requires own { has_own key ((context_of self.old).cell key) ≡ true }
        ensures key { key_in result ≡ key }
        ensures value { (context_of self.old).cell (key_in result) ≡ Own (value_in result) }
        ensures size { HasSizeOf self.old self.new }
        ensures context { context_of self.new ≡ with_cell key (Common group) (context_of self.old) }
    {
        match key {
            Key::Page(p) => KeyValue::Page(p, give(&mut self.pages[p as usize], group)),
            Key::Slot(n) => KeyValue::Slot(n, give(&mut self.slots[n as usize], group)),
            Key::Cred => KeyValue::Cred(give(&mut self.uid, group)),
        }
    }

    /// Makes a key common of a group.
    pub fn join(&mut self, key: Key, group: Name)
        requires { HasKey (vec_len self.old.pages) (vec_len self.old.slots) key }
        ensures size { HasSizeOf self.old self.new }
        ensures context { context_of self.new ≡ with_cell key (Common group) (context_of self.old) }
    {
        match key {
            Key::Page(p) => self.pages[p as usize] = Cell::Common(group),
            Key::Slot(n) => self.slots[n as usize] = Cell::Common(group),
            Key::Cred => self.uid = Cell::Common(group),
        }
    }

    /// The registers that are kept for a thread.
    #[tactic(auto, unfolding(crate::specs::Rows::context_of))]
    pub fn saved(&self, thread: u32) -> Option<Regs>
        requires { thread < MOST_THREADS }
        ensures { result ≡ (context_of self.now).saved thread }
    {
        self.saved[thread as usize]
    }

    /// Keeps registers for a thread.
    pub fn save(&mut self, thread: u32, regs: &Regs)
        requires { thread < MOST_THREADS }
        ensures size { HasSizeOf self.old self.new }
        ensures context { context_of self.new ≡ with_saved thread regs.now (context_of self.old) }
    {
        self.saved[thread as usize] = Some(*regs);
    }

    /// Makes each page of a range present, as zeros of the context's own, or absent, with the right Write.
    pub fn set_pages(&mut self, from: PageNumber, to: PageNumber, present: bool)
        requires order { from ≤ to }
        requires pages { to ≤ vec_len self.old.pages }
        requires rights { to ≤ vec_len self.old.rights }
        ensures size { HasSizeOf self.old self.new }
        ensures context { context_of self.new ≡ with_pages from to present (context_of self.old) }
    {
        for p in from..to {
            self.put(KeyValue::Page(p, zeros_if(present)));
            self.set_right(p, Right::Write);
        }
    }

    /// Gives a page another right.
    pub fn set_right(&mut self, page: PageNumber, right: Right)
        requires { page < vec_len self.old.rights }
        ensures size { HasSizeOf self.old self.new }
        ensures context { context_of self.new ≡ with_right page right (context_of self.old) }
    {
        self.rights[page as usize] = right;
    }
}

/// A page of zeros if it is to be present.
fn zeros_if(present: bool) -> Option<PageValue>
    ensures { result ≡ if present then Some Zero else None }
{
    if present { Some(PageValue::Zero) } else { None }
}

/// Who has the value of a cell that is never absent.
fn holder_of<T>(cell: &Cell<T>) -> Holder
    ensures { result ≡ holder cell.now }
{
    match cell {
        Cell::Own(_) => Holder::Own,
        Cell::Common(g) => Holder::Group(*g),
    }
}

/// Makes a cell common of a group, and gives the own value that it had.
fn give<T: Drop>(cell: &mut Cell<T>, group: Name) -> T
    requires { holder cell.old ≡ holders.Own }
    ensures value { cell.old ≡ Own result }
    ensures cell { cell.new ≡ Common group }
{
    match std::mem::replace(cell, Cell::Common(group)) {
        Cell::Own(value) => value,
        Cell::Common(_) => unreachable!(),
    }
}

/// The cells of pages of which none is present. The only error is out of memory.
fn absent_pages(
    alloc: Global,
    count: PageNumber,
) -> Result<Vec<Cell<Option<PageValue>>>, OutOfMemory>
    ensures absent { IfOk result (λ pages. pages.items ≡ replicate count (Own None)) }
    ensures many { IfOk result (λ pages. vec_len pages ≡ count) }
{
    let mut pages = Vec::with_capacity(alloc, count as usize)?;
    for _ in 0..count {
        pages.push(Cell::Own(None))?;
    }
    Ok(pages)
}

/// The rights of pages to all of which bytes may be stored. The only error is out of memory.
fn writable_pages(alloc: Global, count: PageNumber) -> Result<Vec<Right>, OutOfMemory>
    ensures writable { IfOk result (λ rights. rights.items ≡ replicate count Write) }
    ensures many { IfOk result (λ rights. vec_len rights ≡ count) }
{
    let mut rights = Vec::with_capacity(alloc, count as usize)?;
    for _ in 0..count {
        rights.push(Right::Write)?;
    }
    Ok(rights)
}

/// The cells of empty slots. The only error is out of memory.
fn empty_slots(alloc: Global) -> Result<Vec<Cell<Descriptor>>, OutOfMemory>
    ensures empty { IfOk result (λ slots. slots.items ≡ replicate SLOTS (Own Empty)) }
    ensures many { IfOk result (λ slots. vec_len slots ≡ SLOTS) }
{
    let mut slots = Vec::with_capacity(alloc, SLOTS as usize)?;
    for _ in 0..SLOTS {
        slots.push(Cell::Own(Descriptor::Empty))?;
    }
    Ok(slots)
}
