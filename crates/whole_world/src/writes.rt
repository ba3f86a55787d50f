ghost use Rattle.std.specs.Prelude.{◌≡◌, ◌<◌, ◌≤◌, ◌^◌, IsTrue, OnOk};
ghost use Rattle.lwc_types.specs.declared.key.TheConstants.{SLOTS};

use crate::context_row::ContextRow;
use crate::holder::Holder;
use crate::key_value::KeyValue;
use crate::world::WholeWorld;
use lwc_base::{Name, OutOfMemory, PageNumber, PageValue, Range, Regs};

impl WholeWorld {
    ghost use Rattle.lwc_base.specs.Cells.{put_at, with_value};
    ghost use Rattle.lwc_base.specs.Fresh.{named_groups};
    ghost use Rattle.lwc_base.specs.Holders.{InContext};
    ghost use Rattle.whole_world.specs.Holders.{holder_of};
    ghost use Rattle.whole_world.specs.declared.holder.Holder.TheVariants as spec;
    ghost use Rattle.lwc_base.specs.Mapping.{mapped_or_not};
    ghost use Rattle.lwc_base.specs.Modes.{IsKey};
    ghost use Rattle.lwc_base.specs.Saved.{save};
    ghost use Rattle.lwc_base.specs.Store.{put_pages};
    ghost use Rattle.lwc_base.specs.World.{add_context, change_group, context, is_live, next_context};
    ghost use Rattle.lwc_types.specs.declared.limits.TheConstants.{MOST_THREADS};
    ghost use Rattle.whole_world.specs.KeyValues.{key_in, value_in};
    ghost use Rattle.whole_world.specs.Rows.{context_of};
    ghost use Rattle.whole_world.specs.Sound.{HasSlot, IsWhole};
    ghost use Rattle.whole_world.specs.Worlds.{HasRoom, seen};
    ghost use Rattle.world_face.specs.Calls.{HasPlace};

    /// Puts a value of a context's own under a key.
    fn put_own(&mut self, of_context: Name, value: KeyValue)
        requires within { IsKey (seen self.old).size.pages (key_in value) }
        requires own { holder_of (key_in value) ((context (seen self.old) of_context).cell (key_in value))
            ≡ spec.Own }
        ensures { seen self.new ≡ put_at (seen self.old) of_context (key_in value) (value_in value) }
    {
        match self.contexts.position(of_context) {
            Some(i) => self.contexts.rows[i].1.put(value),
            None => {}
        }
    }

    /// Puts a value under a key of a group.
    fn put_common(&mut self, group: Name, value: KeyValue)
        requires { IsKey (seen self.old).size.pages (key_in value) }
        ensures { seen self.new ≡ change_group (seen self.old) group (with_value (key_in value)
            (value_in value)) }
    {
        match self.groups.position(group) {
            Some(i) => self.groups.rows[i].1.put(value),
            None => {}
        }
    }

    /// Puts another value under a key of a context, where the old one is. An absent page stays absent.
    pub(crate) fn put(&mut self, context: Name, value: KeyValue)
        requires live { IsTrue (is_live (seen self.old) context) }
        requires within { HasSlot SLOTS (key_in value) }
        ensures { seen self.new ≡ put_at (seen self.old) context (key_in value) (value_in value) }
    {
        match self.row(context).holder(value.key()) {
            Holder::Own => self.put_own(context, value),
            Holder::Group(g) => self.put_common(g, value),
            Holder::Nobody | Holder::NewGroup => {}
        }
    }

    /// Puts other values under pages of a context, one after another.
    pub(crate) fn put_pages(&mut self, context: Name, values: Vec<(PageNumber, PageValue)>)
        requires { IsTrue (is_live (seen self.old) context) }
        ensures { seen self.new ≡ put_pages (seen self.old) context values.items }
    {
        for (p, value) in values {
            self.put(context, KeyValue::Page(p, Some(value)));
        }
    }

    /// Makes each page of a range present, as zeros of the context's own, or absent, with the right Write.
    pub(crate) fn set_pages(&mut self, context: Name, range: Range, present: bool)
        requires order { range.from ≤ range.to }
        requires pages { range.to ≤ (seen self.old).size.pages }
        ensures { seen self.new ≡ mapped_or_not (seen self.old) context range.from range.to present }
    {
        match self.contexts.position(context) {
            Some(i) => self.contexts.rows[i]
                .1
                .set_pages(range.from, range.to, present),
            None => {}
        }
    }

    /// Keeps registers for a thread in a context.
    pub(crate) fn save_regs(&mut self, context: Name, thread: u32, regs: &Regs)
        requires { thread < MOST_THREADS }
        ensures { seen self.new ≡ save (seen self.old) context thread regs.now }
    {
        match self.contexts.position(context) {
            Some(i) => self.contexts.rows[i].1.save(thread, regs),
            None => {}
        }
    }

    /// Takes the memory for one more context and for one more group. The only error is out of memory.
    pub(crate) fn reserve(&mut self) -> Result<(), OutOfMemory>
        ensures world { seen self.new ≡ seen self.old }
        ensures room { OnOk result (HasRoom self.new.contexts) }
        ensures group_room { OnOk result (HasRoom self.new.groups) }
    {
        self.contexts.reserve()?;
        self.groups.reserve()
    }

    /// A job makes its next context, which has this row, and answers its name. Memory for it has been taken.
    pub(crate) fn add_context(&mut self, job: u32, row: ContextRow) -> Name
        requires known { job < (seen self.old).size.jobs }
        requires few { ((seen self.old).next job).contexts < 2 ^ 31 }
        requires old_groups { InContext (named_groups (seen self.old).next) job (context_of row) }
        requires whole { IsWhole (seen self.old).size.pages row }
        requires place { HasPlace (seen self.old) }
        requires room { HasRoom self.old.contexts }
        ensures name { result ≡ next_context (seen self.old) job }
        ensures world { seen self.new ≡ add_context (seen self.old) job (context_of row) }
    {
        let name = self.next_context(job);
        self.count_context(job);
        self.contexts.insert(name, row);
        name
    }
}
