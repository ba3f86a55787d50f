ghost use Rattle.std.specs.Prelude.{◌≡◌, IfOk, replicate, vec_len};
ghost use Rattle.std.proofs.Props.{props};
ghost use Rattle.whole_world.specs.Sound.{IsSound, named_cell-prop};
ghost use Rattle.lwc_base.specs.World.{nothing_counted};

use crate::context_row::ContextRow;
use crate::group_row::GroupRow;
use crate::key_value::KeyValue;
use crate::table::Table;
use access_cap::owned;
use lwc_base::{
    Counters, Items, Lent, Mode, Name, OutOfMemory, PageNumber, Range, Regs, SLOTS, SlotNumber,
    StoreFault, Summary, WorldSize, touched_pages,
};
use std::alloc::Global;
use world_face::World;

/// A world in which each context and each group has its own copy of all that it has. It stands for `seen`.
#[derive(Drop)]
pub struct WholeWorld {
    pub(crate) alloc: Global,
    pub(crate) size: WorldSize,
    pub(crate) contexts: Table<ContextRow>,
    pub(crate) groups: Table<GroupRow>,
    pub(crate) counts: Vec<Counters>,
    ghost sound: { IsSound size contexts.rows.items groups.rows.items counts.items } by { Prim.hlevel
        (props, named_cell-prop) },
}

impl World for WholeWorld {
    ghost use Rattle.std.specs.Prelude.{false};
    ghost use Rattle.whole_world.specs.Worlds as spec;

    ghost seen = { spec.seen };

    ghost roomy = { false };

    fn is_roomy() -> bool {
        false
    }

    fn open(alloc: Global, world_size: &WorldSize) -> Result<WholeWorld, OutOfMemory> {
        Ok(WholeWorld {
            alloc,
            size: *world_size,
            contexts: Table::new(alloc),
            groups: Table::new(alloc),
            counts: nothing_counted(alloc, world_size.jobs)?,
        })
    }

    fn pages(&self) -> PageNumber {
        self.page_count()
    }

    fn first(&mut self, uid: u32, entry: &Regs) -> Result<Name, OutOfMemory> {
        let row = ContextRow::new(self.alloc, self.page_count(), uid, entry)?;
        self.reserve()?;
        Ok(self.add_context(0, row))
    }

    fn map(&mut self, context: Name, range: Range) -> Result<(), OutOfMemory> {
        self.set_pages(context, range, true);
        Ok(())
    }

    fn unmap(&mut self, context: Name, range: Range) -> Result<(), OutOfMemory> {
        self.set_pages(context, range, false);
        Ok(())
    }

    fn bytes(&self, context: Name, at: u32, out: &mut [u8]) -> bool {
        let pages = touched_pages(at as usize, out.len());
        if !self.are_present(context, pages) {
            return false;
        }
        self.copy_to(context, at as usize, out);
        true
    }

    fn load(&mut self, context: Name, at: u32, out: &mut [u8]) -> bool {
        self.bytes(context, at, out)
    }

    fn store(&mut self, context: Name, at: u32, piece: &[u8], job: u32) -> Result<(), StoreFault> {
        let pages = touched_pages(at as usize, piece.len());
        if !self.are_present(context, pages) {
            return Err(StoreFault::BadAddress);
        }
        if !self.are_writable(context, pages) {
            return Err(StoreFault::ReadOnly);
        }
        let parting = self.parting_count(context, pages);
        if (self.size.frames as usize) < self.used() as usize + parting {
            return Err(StoreFault::NoFrame);
        }
        match self.stored_pages(context, at as usize, piece, job, pages) {
            Ok(values) => {
                self.put_pages(context, values);
                self.count_tags(job, parting as u32);
                Ok(())
            }
            Err(OutOfMemory) => Err(StoreFault::OutOfMemory),
        }
    }

    fn slot(&self, context: Name, slot_number: SlotNumber) -> Lent<'_> {
        self.slot_value(context, slot_number)
    }

    fn set_slot(&mut self, context: Name, slot: SlotNumber, value: Lent<'_>) {
        self.put(context, KeyValue::Slot(slot, owned(value)));
    }

    fn dup_slot(&mut self, context: Name, from: SlotNumber, to: SlotNumber) {
        let value = owned(self.slot_value(context, from));
        self.put(context, KeyValue::Slot(to, value));
    }

    #[tactic(auto, unfolding(lwc_base::specs::Slots::lowest_empty))]
    fn lowest_empty(&self, context: Name) -> Option<SlotNumber> {
        (0..SLOTS).find(|n| self.is_slot_empty(context, *n))
    }

    fn uid(&self, context: Name) -> u32 {
        self.uid_value(context)
    }

    fn set_uid(&mut self, context: Name, uid: u32) {
        self.put(context, KeyValue::Cred(uid));
    }

    #[tactic(auto, unfolding(crate::specs::Rows::context_of))]
    fn entry(&self, context: Name) -> Regs {
        self.row(context).entry
    }

    fn saved(&self, context: Name, thread: u32) -> Option<Regs> {
        self.row(context).saved(thread)
    }

    fn save(&mut self, context: Name, thread: u32, regs: &Regs) {
        self.save_regs(context, thread, regs);
    }

    fn clone_context(
        &mut self,
        context: Name,
        spec: &Items,
        job: u32,
        entry: &Regs,
    ) -> Result<Name, OutOfMemory> {
        let row = self.cloned_row(context, spec, job, Mode::Copy, entry)?;
        self.reserve()?;
        self.share(context, spec, job)?;
        Ok(self.add_context(job, row))
    }

    fn overlay(&mut self, to: Name, from: Name, spec: &Items, job: u32) -> Result<(), OutOfMemory> {
        let row = self.cloned_row(from, spec, job, Mode::Unmap, &Regs::fresh(0))?;
        self.reserve()?;
        self.share(from, spec, job)?;
        self.take_over(to, spec, row);
        Ok(())
    }

    fn reap(&mut self, roots: &[Name]) {
        self.drop_contexts(roots);
        self.drop_groups();
    }

    fn needs_group(&self, context: Name, spec: &Items) -> bool {
        self.moves_any(context, spec)
    }

    fn ranges_after_clone(&self, context: Name, spec: &Items) -> (u32, u32) {
        self.clone_ranges(context, spec)
    }

    fn ranges_after_overlay(&self, to: Name, from: Name, spec: &Items) -> (u32, u32) {
        self.overlay_ranges(to, from, spec)
    }

    fn ranges_after_map(&self, context: Name, range: Range, present: bool) -> u32 {
        self.map_ranges(context, range, present)
    }

    fn live_of(&self, job: u32) -> u32 {
        self.contexts.count_of(job) as u32
    }

    fn groups_of(&self, job: u32) -> u32 {
        self.groups.count_of(job) as u32
    }

    fn nth_context(&self, index: u32) -> Option<Name> {
        self.contexts.name_at(index as usize)
    }

    #[tactic(auto, unfolding(lwc_base::specs::Summaries::summary_of))]
    fn summary(&self, context: Name) -> Summary {
        Summary {
            pages: self.present_count(context) as u32,
            slots: self.filled_count(context) as u32,
            uid: self.uid_value(context),
        }
    }

    fn context_count(&self) -> u32 {
        self.contexts.rows.len() as u32
    }

    fn group_count(&self) -> u32 {
        self.groups.rows.len() as u32
    }

    fn used(&self) -> u32 {
        self.used_count() as u32
    }
}

/// What the jobs have counted before they have named anything. The only error is out of memory.
fn nothing_counted(alloc: Global, jobs: u32) -> Result<Vec<Counters>, OutOfMemory>
    ensures nothing { IfOk result (λ counts. counts.items ≡ replicate jobs nothing_counted) }
    ensures each { IfOk result (λ counts. vec_len counts ≡ jobs) }
{
    let mut counts = Vec::with_capacity(alloc, jobs as usize)?;
    for _ in 0..jobs {
        counts.push(Counters {
            contexts: 0,
            groups: 0,
            tags: 0,
        })?;
    }
    Ok(counts)
}
