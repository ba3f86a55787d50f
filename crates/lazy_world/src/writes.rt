ghost use Rattle.std.specs.Prelude.{◌≡◌, ◌<◌, ◌^◌, Some};
ghost use Rattle.std.specs.FinMap as fm;
ghost use Rattle.lwc_types.specs.declared.key.TheConstants.{SLOTS};
ghost use Rattle.lwc_types.specs.declared.limits.TheConstants.{MOST_THREADS};

use crate::key_value::KeyValue;
use crate::world::PlacedWorld;
use access_cap::owned;
use lwc_base::{Counters, Lent, Name, Regs, SlotNumber};

impl PlacedWorld {
    ghost use Rattle.lwc_base.specs.Cells.{put_at, put_slot, put_uid, slot_at, with_value};
    ghost use Rattle.lwc_base.specs.Lending.{descriptor_of};
    ghost use Rattle.lwc_base.specs.Saved.{save};
    ghost use Rattle.lwc_base.specs.World.{add_context, change_group, new_context, next_context};
    ghost use Rattle.world_face.specs.Calls.{HasPlace, IsLive};
    ghost use Rattle.lazy_world.specs.KeyValues.{HasSlot, key_in, value_in};
    ghost use Rattle.lazy_world.specs.Seen.{KeepsStore, count};
    ghost use Rattle.lazy_world.specs.Worlds.{parts, seen};

    /// Puts a value under a key of a group.
    fn put_common(&mut self, group: Name, value: KeyValue<'_>)
        requires { HasSlot value }
        ensures { seen self.new
            ≡ change_group (seen self.old) group (with_value (key_in value.entry) (value_in value.entry)) }
    {
        match self.groups.place(group) {
            Some(j) => self.places.put(self.size.contexts as usize + j, value),
            None => {}
        }
    }

    /// Puts a value under a key of the context at a place, where the old one is.
    #[inline(always)]
    fn put(&mut self, context: Name, place: usize, value: KeyValue<'_>)
        requires found { fm.get (parts self.old).contexts.map context ≡ Some place }
        requires inside { place < count self.old.places }
        requires slot { HasSlot value }
        ensures { seen self.new ≡ put_at (seen self.old) context (key_in value.entry) (value_in value.entry) }
    {
        match self.places.group(place, value) {
            None => self.places.put(place, value),
            Some(g) => self.put_common(g, value),
        }
    }

    /// Puts another descriptor into a slot of the context at a place.
    #[inline(always)]
    pub(crate) fn set_slot(
        &mut self,
        context: Name,
        place: usize,
        slot: SlotNumber,
        value: Lent<'_>,
    )
        requires found { fm.get (parts self.old).contexts.map context ≡ Some place }
        requires inside { place < count self.old.places }
        requires within { slot < SLOTS }
        ensures put { seen self.new ≡ put_slot (seen self.old) context slot (descriptor_of value.entry) }
    {
        self.put(context, place, KeyValue::Slot(slot, value));
    }

    /// Puts the descriptor in the slot `from` of the context at a place into its slot `to` too. Where both slots
    /// are the context's own, they share it.
    pub(crate) fn dup_slot(&mut self, context: Name, place: usize, from: SlotNumber, to: SlotNumber)
        requires found { fm.get (parts self.old).contexts.map context ≡ Some place }
        requires inside { place < count self.old.places }
        requires from { from < SLOTS }
        requires to { to < SLOTS }
        ensures put { seen self.new
            ≡ put_slot (seen self.old) context to (slot_at (seen self.old) context from) }
    {
        if self.places.are_own(place, from, to) {
            self.places.copy_slot(place, to, place, from);
        } else {
            let value = owned(self.slot_at(place, from));
            self.set_slot(context, place, to, value.lend());
        }
    }

    /// Changes the credential of the context.
    pub(crate) fn set_uid(&mut self, context: Name, uid: u32)
        requires { IsLive (seen self.old) context }
        ensures { seen self.new ≡ put_uid (seen self.old) context uid }
    {
        let i = self.place(context);
        self.put(context, i, KeyValue::Cred(uid));
    }

    /// Keeps registers for a thread in the context, in place of those that it kept for it.
    pub(crate) fn save(&mut self, context: Name, thread: u32, regs: &Regs)
        requires live { IsLive (seen self.old) context }
        requires thread { thread < MOST_THREADS }
        ensures saved { seen self.new ≡ save (seen self.old) context thread regs.now }
    {
        let i = self.place(context);
        self.registers[i].save(thread, regs);
    }

    /// The name of a job's next context.
    pub(crate) fn next_name(&self, job: u32) -> Name
        requires { job < (seen self.now).size.jobs }
        ensures { result ≡ next_context (seen self.now) job }
    {
        Name {
            job,
            k: self.counts[job as usize].contexts,
        }
    }

    /// A job makes its next context, which has nothing but a credential, and answers its name.
    pub(crate) fn add_context(&mut self, job: u32, uid: u32, entry: &Regs) -> Name
        requires known { job < (seen self.old).size.jobs }
        requires few { ((seen self.old).next job).contexts < 2 ^ 31 }
        requires place { HasPlace (seen self.old) }
        ensures name { result ≡ next_context (seen self.old) job }
        ensures world { seen self.new ≡ add_context (seen self.old) job (new_context uid entry.now) }
        ensures store { KeepsStore self.old.places self.new.places }
    {
        let counts = self.counts[job as usize];
        let name = Name {
            job,
            k: counts.contexts,
        };
        let i = self.contexts.insert(name);
        self.places.put(i, KeyValue::Cred(uid));
        self.registers[i].begin(entry);
        self.counts[job as usize] = Counters {
            contexts: counts.contexts + 1,
            ..counts
        };
        name
    }

    /// Makes a new context of job 0 with no page, empty slots, this uid, and these registers to begin with.
    /// Answers its name.
    pub(crate) fn first(&mut self, uid: u32, entry: &Regs) -> Name
        requires known { 0 < (seen self.old).size.jobs }
        requires few { ((seen self.old).next 0).contexts < 2 ^ 31 }
        requires place { HasPlace (seen self.old) }
        ensures name { result ≡ next_context (seen self.old) 0 }
        ensures made { seen self.new ≡ add_context (seen self.old) 0 (new_context uid entry.now) }
    {
        self.add_context(0, uid, entry)
    }
}
