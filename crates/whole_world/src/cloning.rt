ghost use Rattle.std.specs.Prelude.{◌≡◌, ◌≢◌, ◌<◌, IfOk, IsTrue, OnOk, unwrap_or};
ghost use Rattle.std.specs.Option.{option_copied};
ghost use Rattle.lwc_base.specs.declared.item.Mode.TheVariants.{Share};
ghost use Rattle.lwc_base.specs.Cells.{value_at, with_cell};
ghost use Rattle.lwc_base.specs.Modes.{IsKey, IsSpec, mode};
ghost use Rattle.lwc_types.specs.declared.key.TheConstants.{SLOTS};
ghost use Rattle.lwc_types.specs.declared.key.Kind.TheVariants as kind;
ghost use Rattle.whole_world.specs.KeyValues.{key_in, value_in};

use crate::context_row::ContextRow;
use crate::holder::Holder;
use crate::key_value::KeyValue;
use crate::world::WholeWorld;
use access_cap::owned;
use lwc_base::{
    Items, Key, Mode, NOBODY, Name, OutOfMemory, PageBytes, PageNumber, PageValue, Regs, Right,
    SLOTS,
};
use res_spec::mode_of;
use std::alloc::Global;

/// A copy of a page's value. The only error is out of memory.
fn copied_page(alloc: Global, value: Option<&PageValue>) -> Result<Option<PageValue>, OutOfMemory>
    ensures { IfOk result (λ copy. copy ≡ option_copied value.entry) }
{
    Ok(match value {
        None => None,
        Some(PageValue::Zero) => Some(PageValue::Zero),
        Some(PageValue::Data(tag, bytes)) => {
            Some(PageValue::Data(*tag, PageBytes::copy_of(alloc, bytes)?))
        }
    })
}

/// The mode of a key, or another one where no item names it.
fn mode_or(spec: &Items, key: Key, rest: Mode) -> Mode
    ensures { result ≡ unwrap_or (mode spec.now key) rest }
{
    mode_of(spec, key).unwrap_or(rest)
}

impl WholeWorld {
    ghost use Rattle.lwc_base.specs.Ranges.{has_page};
    ghost use Rattle.lwc_base.specs.Rights.{read_right};
    ghost use Rattle.lwc_base.specs.Sharing.{cloned_right};
    ghost use Rattle.lwc_base.specs.World.{context, is_live, new_context};
    ghost use Rattle.lwc_types.specs.declared.key.TheConstants.{NOBODY};
    ghost use Rattle.lwc_types.specs.declared.key.Key.TheVariants.{Page};
    ghost use Rattle.whole_world.specs.Rows.{context_of};
    ghost use Rattle.whole_world.specs.Sharing.{clone_cells, clone_rights, is_below, with_cells, with_rights};
    ghost use Rattle.whole_world.specs.Sound.{HasSizeOf, HasSlot, IsWhole};
    ghost use Rattle.whole_world.specs.Worlds.{seen};

    /// The row of a new context with what a clone gets of another one. Keys that no item names go by the mode
    /// `rest`, which is copy or unmap. The only error is out of memory.
    pub(crate) fn cloned_row(
        &self,
        context: Name,
        spec: &Items,
        job: u32,
        rest: Mode,
        entry: &Regs,
    ) -> Result<ContextRow, OutOfMemory>
        requires live { IsTrue (is_live (seen self.now) context) }
        requires within { IsSpec (seen self.now).size.pages spec.now }
        requires known { job < (seen self.now).size.jobs }
        requires rest { rest ≢ Share }
        ensures whole { IfOk result (IsWhole (seen self.now).size.pages) }
        ensures context { IfOk result (λ row. context_of row
            ≡ record (new_context NOBODY entry.now) {
              cell = clone_cells (seen self.now) context job spec.now rest;
              right = clone_rights (seen self.now) context job spec.now rest;
            }) }
    {
        let mut row = ContextRow::new(self.alloc, self.page_count(), NOBODY, entry)?;
        self.clone_pages(context, spec, job, rest, &mut row)?;
        self.clone_slots(context, spec, job, rest, &mut row)?;
        self.clone_key(context, spec, job, rest, Key::Cred, &mut row)?;
        self.clone_rights(context, spec, rest, &mut row);
        Ok(row)
    }

    /// Gives each page of the new context its right.
    fn clone_rights(&self, context: Name, spec: &Items, rest: Mode, row: &mut ContextRow)
        requires live { IsTrue (is_live (seen self.now) context) }
        requires whole { IsWhole (seen self.now).size.pages row.old }
        ensures whole { IsWhole (seen self.now).size.pages row.new }
        ensures context { context_of row.new ≡ with_rights (seen self.now).size.pages
            (λ p. cloned_right (seen self.now) context p (unwrap_or (mode spec.now (Page p)) rest))
            (context_of row.old) }
    {
        for p in 0..self.page_count() {
            let mode = mode_or(spec, Key::Page(p), rest);
            row.set_right(p, self.cloned_right(context, p, mode));
        }
    }

    /// The right that a page of a new context gets by its mode.
    pub(crate) fn cloned_right(&self, context: Name, page: PageNumber, mode: Mode) -> Right
        requires { IsTrue (is_live (seen self.now) context) }
        ensures { result ≡ cloned_right (seen self.now) context page mode }
    {
        match mode {
            Mode::Copy | Mode::Share => self.right(context, page),
            Mode::Unmap => Right::Write,
            Mode::CopyRead => self.read_right(context, page),
        }
    }

    /// The right of a page that is copied to be read alone: Read where it is present.
    fn read_right(&self, of_context: Name, page: PageNumber) -> Right
        requires { IsTrue (is_live (seen self.now) of_context) }
        ensures { result ≡ read_right (has_page (context (seen self.now) of_context) page) }
    {
        if self.row(of_context).has_page(page) {
            Right::Read
        } else {
            Right::Write
        }
    }

    /// Gives each page of the new context its cell. The only error is out of memory.
    fn clone_pages(
        &self,
        context: Name,
        spec: &Items,
        job: u32,
        rest: Mode,
        row: &mut ContextRow,
    ) -> Result<(), OutOfMemory>
        requires live { IsTrue (is_live (seen self.now) context) }
        requires within { IsSpec (seen self.now).size.pages spec.now }
        requires known { job < (seen self.now).size.jobs }
        requires rest { rest ≢ Share }
        requires whole { IsWhole (seen self.now).size.pages row.old }
        ensures whole { IsWhole (seen self.now).size.pages row.new }
        ensures context { OnOk result (context_of row.new
            ≡ with_cells (is_below kind.Page (seen self.now).size.pages)
            (clone_cells (seen self.now) context job spec.now rest) (context_of row.old)) }
    {
        for p in 0..self.page_count() {
            self.clone_key(context, spec, job, rest, Key::Page(p), row)?;
        }
        Ok(())
    }

    /// Gives each slot of the new context its cell. The only error is out of memory.
    fn clone_slots(
        &self,
        context: Name,
        spec: &Items,
        job: u32,
        rest: Mode,
        row: &mut ContextRow,
    ) -> Result<(), OutOfMemory>
        requires live { IsTrue (is_live (seen self.now) context) }
        requires within { IsSpec (seen self.now).size.pages spec.now }
        requires known { job < (seen self.now).size.jobs }
        requires rest { rest ≢ Share }
        requires whole { IsWhole (seen self.now).size.pages row.old }
        ensures whole { IsWhole (seen self.now).size.pages row.new }
        ensures context { OnOk result (context_of row.new ≡ with_cells (is_below kind.Slot SLOTS)
            (clone_cells (seen self.now) context job spec.now rest) (context_of row.old)) }
    {
        for n in 0..SLOTS {
            self.clone_key(context, spec, job, rest, Key::Slot(n), row)?;
        }
        Ok(())
    }

    /// Gives a key of the new context its cell, as after the sharing. The only error is out of memory.
    fn clone_key(
        &self,
        context: Name,
        spec: &Items,
        job: u32,
        rest: Mode,
        key: Key,
        row: &mut ContextRow,
    ) -> Result<(), OutOfMemory>
        requires live { IsTrue (is_live (seen self.now) context) }
        requires within { IsSpec (seen self.now).size.pages spec.now }
        requires known { job < (seen self.now).size.jobs }
        requires rest { rest ≢ Share }
        requires key { IsKey (seen self.now).size.pages key }
        requires whole { IsWhole (seen self.now).size.pages row.old }
        ensures size { HasSizeOf row.old row.new }
        ensures context { OnOk result (context_of row.new ≡ with_cell key
            (clone_cells (seen self.now) context job spec.now rest key) (context_of row.old)) }
    {
        match mode_or(spec, key, rest) {
            Mode::Copy | Mode::CopyRead => row.put(self.copied_value(context, key)?),
            Mode::Share => match self.row(context).holder(key) {
                Holder::Own => row.join(key, self.next_group(job)),
                Holder::Group(g) => row.join(key, g),
                Holder::Nobody | Holder::NewGroup => row.put(KeyValue::nothing(key)),
            },
            Mode::Unmap => row.put(KeyValue::nothing(key)),
        }
        Ok(())
    }

    /// A copy of the value under a key of a context. The only error is out of memory.
    fn copied_value(&self, context: Name, key: Key) -> Result<KeyValue, OutOfMemory>
        requires live { IsTrue (is_live (seen self.now) context) }
        requires within { HasSlot SLOTS key }
        ensures key { IfOk result (λ copy. key_in copy ≡ key) }
        ensures value { IfOk result (λ copy. value_in copy ≡ value_at (seen self.now) context (key_in copy)) }
    {
        match key {
            Key::Page(p) => {
                let copy = copied_page(self.alloc, self.page_value(context, p))?;
                Ok(KeyValue::Page(p, copy))
            }
            Key::Slot(n) => Ok(KeyValue::Slot(n, owned(self.slot_value(context, n)))),
            Key::Cred => Ok(KeyValue::Cred(self.uid_value(context))),
        }
    }
}
