use crate::lazy::{LazyWorld, set_cached_roots};
use crate::notes::Notes;
use crate::world::PlacedWorld;
use arrayvec::ArrayVec;
use lwc_base::{
    Items, Lent, Name, OutOfMemory, PageNumber, Range, Regs, SlotNumber, StoreFault, Summary,
    WorldSize,
};
use std::alloc::Global;
use world_face::World;

impl World for LazyWorld {
    ghost use Rattle.std.specs.Prelude.{◌≡◌, IfOk, IsOk, OnErr, OnOk, true};
    ghost use Rattle.lwc_base.specs.Modes.{IsSpec};
    ghost use Rattle.lwc_base.specs.Overlay.{overlay, ranges_after_overlay};
    ghost use Rattle.lwc_base.specs.Sharing.{clone_context, needs_group, ranges_after_clone};
    ghost use Rattle.lwc_base.specs.World.{empty_world, next_context};
    ghost use Rattle.world_face.specs.Calls.{AreFew, HasGroupPlace, HasPlace, IsLive, IsSize, MayName};
    ghost use Rattle.lazy_world.specs.Costs.{CloneSteps, CloneStore, OverlaySteps, OverlayStore};
    ghost use Rattle.lazy_world.specs.Lazy as lazy;
    ghost use Rattle.lazy_world.specs.Seen.{node_steps};

    ghost seen = { lazy.seen_lazy };

    ghost roomy = { true };

    #[inline(always)]
    fn is_roomy() -> bool {
        true
    }

    fn open(alloc: Global, world_size: &WorldSize) -> Result<LazyWorld, OutOfMemory>
        requires { IsSize world_size.now }
        ensures opened { IfOk result (λ w. lazy.seen_lazy w ≡ empty_world world_size.now) }
        ensures no_step { IfOk result (λ w. node_steps (lazy.placed w).places ≡ 0) }
    {
        Ok(LazyWorld {
            world: PlacedWorld::open(alloc, world_size)?,
            cached_roots: ArrayVec::new(),
            known: false,
            notes: Notes::none(),
        })
    }

    fn pages(&self) -> PageNumber {
        self.world.pages()
    }

    fn first(&mut self, uid: u32, entry: &Regs) -> Result<Name, OutOfMemory> {
        self.known = false;
        self.notes.forget();
        Ok(self.world.first(uid, entry))
    }

    fn map(&mut self, context: Name, range: Range) -> Result<(), OutOfMemory> {
        self.notes.forget();
        self.world.map(context, range);
        Ok(())
    }

    fn unmap(&mut self, context: Name, range: Range) -> Result<(), OutOfMemory> {
        self.notes.forget();
        self.world.unmap(context, range);
        Ok(())
    }

    #[inline(always)]
    fn bytes(&self, context: Name, at: u32, out: &mut [u8]) -> bool {
        self.world.bytes(context, at, out)
    }

    #[inline(always)]
    fn load(&mut self, context: Name, at: u32, out: &mut [u8]) -> bool {
        self.load_where_noted(context, at, out) || self.load_unnoted(context, at, out)
    }

    #[inline(always)]
    fn store(&mut self, context: Name, at: u32, piece: &[u8], job: u32) -> Result<(), StoreFault> {
        if self.store_in_place(context, at, piece) {
            return Ok(());
        }
        self.notes.forget();
        self.world.store(context, at, piece, job)
    }

    fn slot(&self, context: Name, slot_number: SlotNumber) -> Lent<'_> {
        self.world.slot(context, slot_number)
    }

    fn set_slot(&mut self, context: Name, slot: SlotNumber, value: Lent<'_>) {
        let i = self.world.place(context);
        // What the old descriptor is of may have lost its only link.
        let cut = self.world.linked(i, slot);
        self.add_cached_root(cut);
        self.notes.forget();
        self.world.set_slot(context, i, slot, value);
    }

    fn dup_slot(&mut self, context: Name, from: SlotNumber, to: SlotNumber) {
        let i = self.world.place(context);
        // As in `set_slot`.
        let lost = self.world.linked(i, to);
        self.add_cached_root(lost);
        self.notes.forget();
        self.world.dup_slot(context, i, from, to);
    }

    fn lowest_empty(&self, context: Name) -> Option<SlotNumber> {
        self.world.lowest_empty(context)
    }

    fn uid(&self, context: Name) -> u32 {
        self.world.uid(context)
    }

    fn set_uid(&mut self, context: Name, uid: u32) {
        self.notes.forget();
        self.world.set_uid(context, uid);
    }

    fn entry(&self, context: Name) -> Regs {
        self.world.entry(context)
    }

    fn saved(&self, context: Name, thread: u32) -> Option<Regs> {
        self.world.saved(context, thread)
    }

    fn save(&mut self, context: Name, thread: u32, regs: &Regs) {
        self.notes.forget();
        self.world.save(context, thread, regs);
    }

    fn clone_context(
        &mut self,
        context: Name,
        spec: &Items,
        job: u32,
        entry: &Regs,
    ) -> Result<Name, OutOfMemory>
        requires live { IsLive (lazy.seen_lazy self.old) context }
        requires within { IsSpec (lazy.seen_lazy self.old).size.pages spec.now }
        requires may { MayName (lazy.seen_lazy self.old) job }
        requires place { HasPlace (lazy.seen_lazy self.old) }
        requires group { needs_group (lazy.seen_lazy self.old) context spec.now ≡ true
            → HasGroupPlace (lazy.seen_lazy self.old) }
        requires few { AreFew (ranges_after_clone (lazy.seen_lazy self.old) context job spec.now) }
        ensures name { IfOk result (λ made. made ≡ next_context (lazy.seen_lazy self.old) job) }
        ensures cloned { OnOk result (lazy.seen_lazy self.new
            ≡ clone_context (lazy.seen_lazy self.old) context job spec.now entry.now) }
        ensures err { OnErr result (lazy.seen_lazy self.new ≡ lazy.seen_lazy self.old) }
        ensures ample { IsOk result }
        ensures store { CloneStore (lazy.placed self.old) (lazy.placed self.new) context job spec.now }
        ensures steps { CloneSteps (lazy.placed self.old) (lazy.placed self.new) context job spec.now }
    {
        Ok(self.clone_with_costs(context, spec, job, entry))
    }

    fn overlay(&mut self, to: Name, from: Name, spec: &Items, job: u32) -> Result<(), OutOfMemory>
        requires to { IsLive (lazy.seen_lazy self.old) to }
        requires from { IsLive (lazy.seen_lazy self.old) from }
        requires within { IsSpec (lazy.seen_lazy self.old).size.pages spec.now }
        requires may { MayName (lazy.seen_lazy self.old) job }
        requires group { needs_group (lazy.seen_lazy self.old) from spec.now ≡ true
            → HasGroupPlace (lazy.seen_lazy self.old) }
        requires few { AreFew (ranges_after_overlay (lazy.seen_lazy self.old) to from job spec.now) }
        ensures overlaid { OnOk result (lazy.seen_lazy self.new
            ≡ overlay (lazy.seen_lazy self.old) to from job spec.now) }
        ensures err { OnErr result (lazy.seen_lazy self.new ≡ lazy.seen_lazy self.old) }
        ensures ample { IsOk result }
        ensures store { OverlayStore (lazy.placed self.old) (lazy.placed self.new) from job spec.now }
        ensures steps { OverlaySteps (lazy.placed self.old) (lazy.placed self.new) from job spec.now }
    {
        self.overlay_with_costs(to, from, spec, job);
        Ok(())
    }

    fn reap(&mut self, roots: &[Name]) {
        self.notes.forget();
        self.world
            .reap_from(self.known, self.cached_roots.as_slice(), roots);
        set_cached_roots(&mut self.cached_roots, roots);
        self.known = true;
    }

    fn needs_group(&self, context: Name, spec: &Items) -> bool {
        self.world.needs_group(context, spec)
    }

    fn ranges_after_clone(&self, context: Name, spec: &Items) -> (u32, u32) {
        self.world.ranges_after_clone(context, spec)
    }

    fn ranges_after_overlay(&self, to: Name, from: Name, spec: &Items) -> (u32, u32) {
        self.world.ranges_after_overlay(to, from, spec)
    }

    fn ranges_after_map(&self, context: Name, range: Range, present: bool) -> u32 {
        self.world.ranges_after_map(context, range, present)
    }

    fn live_of(&self, job: u32) -> u32 {
        self.world.contexts.count_of(job)
    }

    fn groups_of(&self, job: u32) -> u32 {
        self.world.groups.count_of(job)
    }

    fn nth_context(&self, index: u32) -> Option<Name> {
        self.world.contexts.nth(index)
    }

    fn summary(&self, context: Name) -> Summary {
        self.world.summary(context)
    }

    fn context_count(&self) -> u32 {
        self.world.contexts.len()
    }

    fn group_count(&self) -> u32 {
        self.world.groups.len()
    }

    fn used(&self) -> u32 {
        self.world.places.pages.used()
    }
}
