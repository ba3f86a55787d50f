ghost use Rattle.std.specs.Prelude.{◌≡◌, ◌≢◌, ◌<◌, ◌≤◌, ◌*◌, ◌+◌, ◌↔◌, ℕ, All, Bool, true, length, is_some};
ghost use Rattle.std.specs.Prelude.{slice_get, IfOk, IfSome, IfNone, IsOk, OnOk, OnErr};
ghost use Rattle.std.specs.FinMap as fm;
ghost use Rattle.lwc_base.specs.World as worlds;
ghost use Rattle.lwc_base.specs.World.{empty_world, add_context, context, groups_of, live_of, new_context};
ghost use Rattle.lwc_base.specs.World.{next_context};
ghost use Rattle.lwc_base.specs.Cells.{slot_at, put_slot, uid_at, put_uid};
ghost use Rattle.lwc_base.specs.Frames.{used};
ghost use Rattle.lwc_base.specs.Life.{reap};
ghost use Rattle.lwc_base.specs.Mapping.{map_pages, mapped_or_not, unmap_pages};
ghost use Rattle.lwc_base.specs.Modes.{IsSpec};
ghost use Rattle.lwc_base.specs.Memory.{load};
ghost use Rattle.lwc_base.specs.Lending.{descriptor_of};
ghost use Rattle.lwc_base.specs.Overlay.{overlay, ranges_after_overlay};
ghost use Rattle.lwc_base.specs.Ranges.{ranges_of};
ghost use Rattle.lwc_base.specs.Saved.{save};
ghost use Rattle.lwc_base.specs.Sharing.{clone_context, needs_group, ranges_after_clone};
ghost use Rattle.lwc_base.specs.Slots.{lowest_empty};
ghost use Rattle.lwc_base.specs.Store.{store};
ghost use Rattle.lwc_base.specs.Store as stores;
ghost use Rattle.lwc_base.specs.Summaries.{summary_of};
ghost use Rattle.lwc_types.specs.declared.key.TheConstants.{SLOTS};
ghost use Rattle.lwc_types.specs.declared.limits.TheConstants.{MOST_PAGES, MOST_RANGES, MOST_ROOTS, MOST_THREADS};
ghost use Rattle.lwc_types.specs.declared.page.TheConstants.{PAGE_BYTES};
ghost use Rattle.world_face.specs.Calls.{AreFew, HasGroupPlace, HasPlace, IsSize, IsLive, MayName};

use lwc_base::{
    Items, Lent, Name, OutOfMemory, PageNumber, Range, Regs, SlotNumber, StoreFault, Summary,
    WorldSize,
};
use std::alloc::Global;

/// A world of contexts and groups. However it is represented, it stands for the value `seen`; each call
/// changes `seen` as its definition says, and nothing else of it. After an error nothing has changed.
pub trait World: Sized + Drop + Send + Sync {
    /// The contexts, the groups, the counters of each job, and the size.
    ghost seen: { Self → worlds.World };

    /// Whether all memory is taken at opening, so that no later call runs out of memory.
    ghost roomy: { Bool };

    /// Whether all memory is taken at opening. A caller need not keep what it would put back after an error
    /// that cannot come.
    fn is_roomy() -> bool
        ensures { result ≡ roomy };

    /// A world of this size in which nothing is live. The only error is out of memory.
    fn open(alloc: Global, world_size: &WorldSize) -> Result<Self, OutOfMemory>
        requires { IsSize world_size.now }
        ensures opened { IfOk result (λ w. seen w ≡ empty_world world_size.now) };

    /// The number of pages that a context may have, at most `MOST_PAGES`: 1024 for an image of form 1, 16384
    /// for form 2.
    fn pages(&self) -> PageNumber
        ensures pages { result ≡ (seen self.now).size.pages }
        ensures few { (seen self.now).size.pages ≤ MOST_PAGES };

    /// Makes a new context of job 0 with no page, empty slots, this uid, and these registers to begin with.
    /// Answers its name. The only error is out of memory.
    fn first(&mut self, uid: u32, entry: &Regs) -> Result<Name, OutOfMemory>
        requires may { MayName (seen self.old) 0 }
        requires place { HasPlace (seen self.old) }
        ensures name { IfOk result (λ c. c ≡ next_context (seen self.old) 0) }
        ensures made { OnOk result (seen self.new ≡
            add_context (seen self.old) 0 (new_context uid entry.now)) }
        ensures err { OnErr result (seen self.new ≡ seen self.old) }
        ensures ample { roomy ≡ true → IsOk result };

    /// Makes each page of the range a page of zeros of the context's own with the right Write, whatever it
    /// was. The only error is out of memory.
    fn map(&mut self, context: Name, range: Range) -> Result<(), OutOfMemory>
        requires live { IsLive (seen self.old) context }
        requires some { range.from < range.to }
        requires within { range.to ≤ (seen self.old).size.pages }
        requires few { ranges_of (map_pages (seen self.old) context range.from range.to) context
            ≤ MOST_RANGES }
        ensures mapped { OnOk result (seen self.new ≡ map_pages (seen self.old) context range.from range.to) }
        ensures err { OnErr result (seen self.new ≡ seen self.old) }
        ensures ample { roomy ≡ true → IsOk result };

    /// Makes each page of the range absent, whatever it was. The only error is out of memory.
    fn unmap(&mut self, context: Name, range: Range) -> Result<(), OutOfMemory>
        requires live { IsLive (seen self.old) context }
        requires some { range.from < range.to }
        requires within { range.to ≤ (seen self.old).size.pages }
        requires few { ranges_of (unmap_pages (seen self.old) context range.from range.to) context
            ≤ MOST_RANGES }
        ensures unmapped { OnOk result
            (seen self.new ≡ unmap_pages (seen self.old) context range.from range.to) }
        ensures err { OnErr result (seen self.new ≡ seen self.old) }
        ensures ample { roomy ≡ true → IsOk result };

    /// Reads `out.len()` bytes of the context's memory from the address `at` on into `out`. Answers
    /// `false`, with `out` unchanged, if a page of them is absent.
    fn bytes(&self, context: Name, at: u32, out: &mut [u8]) -> bool
        requires live { IsLive (seen self.now) context }
        requires within { at + length out.old ≤ (seen self.now).size.pages * PAGE_BYTES }
        ensures present { result ≡ is_some (load (seen self.now) context at (length out.old)) }
        ensures found { IfSome (load (seen self.now) context at (length out.old)) (λ bytes. out.new ≡ bytes) }
        ensures absent { IfNone (load (seen self.now) context at (length out.old)) (out.new ≡ out.old) };

    /// Reads as `bytes` does, and may note where the bytes are, so that the next read or store there is cheaper.
    fn load(&mut self, context: Name, at: u32, out: &mut [u8]) -> bool
        requires live { IsLive (seen self.old) context }
        requires within { at + length out.old ≤ (seen self.old).size.pages * PAGE_BYTES }
        ensures present { result ≡ is_some (load (seen self.old) context at (length out.old)) }
        ensures found { IfSome (load (seen self.old) context at (length out.old)) (λ bytes. out.new ≡ bytes) }
        ensures absent { IfNone (load (seen self.old) context at (length out.old)) (out.new ≡ out.old) }
        ensures same { seen self.new ≡ seen self.old };

    /// Stores bytes in the context's memory from the address `at` on, for a job.
    ///
    /// # Errors
    ///
    /// `BadAddress` if a touched page is absent; else `ReadOnly` if one has the right Read; else `NoFrame` if
    /// the frames in use and the pages that part are more than the frames; or `OutOfMemory`.
    fn store(&mut self, context: Name, at: u32, piece: &[u8], job: u32) -> Result<(), StoreFault>
        requires live { IsLive (seen self.old) context }
        requires within { at + length piece.now ≤ (seen self.old).size.pages * PAGE_BYTES }
        requires short { length piece.now ≤ PAGE_BYTES }
        requires may { MayName (seen self.old) job }
        ensures done { OnOk result
            (store (seen self.old) context job (record { at = at; bytes = piece.now }) ≡
            stores.Done (seen self.new)) }
        ensures bad_address { (result ≡ Err StoreFault.BadAddress) ↔
            (store (seen self.old) context job (record { at = at; bytes = piece.now }) ≡ stores.Absent) }
        ensures read_only { (result ≡ Err StoreFault.ReadOnly) ↔
            (store (seen self.old) context job (record { at = at; bytes = piece.now }) ≡ stores.ReadOnly) }
        ensures no_frame { (result ≡ Err StoreFault.NoFrame) ↔
            (store (seen self.old) context job (record { at = at; bytes = piece.now }) ≡ stores.Full) }
        ensures err { OnErr result (seen self.new ≡ seen self.old) }
        ensures ample { roomy ≡ true → result ≢ Err StoreFault.OutOfMemory };

    /// The descriptor in a slot of the context, lent.
    fn slot(&self, context: Name, slot_number: SlotNumber) -> Lent<'_>
        requires live { IsLive (seen self.now) context }
        requires within { slot_number < SLOTS }
        ensures value { descriptor_of result ≡ slot_at (seen self.now) context slot_number };

    /// Puts another descriptor into a slot of the context.
    fn set_slot(&mut self, context: Name, slot: SlotNumber, value: Lent<'_>)
        requires live { IsLive (seen self.old) context }
        requires within { slot < SLOTS }
        ensures put { seen self.new ≡ put_slot (seen self.old) context slot (descriptor_of value.entry) };

    /// Puts the descriptor in the slot `from` of the context into its slot `to` too.
    fn dup_slot(&mut self, context: Name, from: SlotNumber, to: SlotNumber)
        requires live { IsLive (seen self.old) context }
        requires from { from < SLOTS }
        requires to { to < SLOTS }
        ensures put { seen self.new
            ≡ put_slot (seen self.old) context to (slot_at (seen self.old) context from) };

    /// The lowest empty slot of the context; `None` if no slot is empty.
    fn lowest_empty(&self, context: Name) -> Option<SlotNumber>
        requires live { IsLive (seen self.now) context }
        ensures lowest { result ≡ lowest_empty (seen self.now) context };

    /// The credential of the context.
    fn uid(&self, context: Name) -> u32
        requires live { IsLive (seen self.now) context }
        ensures value { result ≡ uid_at (seen self.now) context };

    /// Changes the credential of the context.
    fn set_uid(&mut self, context: Name, uid: u32)
        requires live { IsLive (seen self.old) context }
        ensures put { seen self.new ≡ put_uid (seen self.old) context uid };

    /// The registers that the context begins with.
    fn entry(&self, of_context: Name) -> Regs
        requires live { IsLive (seen self.now) of_context }
        ensures value { result ≡ (context (seen self.now) of_context).entry };

    /// The registers that the context keeps for a thread; `None` if it keeps none for it.
    fn saved(&self, of_context: Name, thread: u32) -> Option<Regs>
        requires live { IsLive (seen self.now) of_context }
        requires thread { thread < MOST_THREADS }
        ensures value { result ≡ (context (seen self.now) of_context).saved thread };

    /// Keeps registers for a thread in the context, in place of those that it kept for it.
    fn save(&mut self, context: Name, thread: u32, regs: &Regs)
        requires live { IsLive (seen self.old) context }
        requires thread { thread < MOST_THREADS }
        ensures saved { seen self.new ≡ save (seen self.old) context thread regs.now };

    /// Makes a new context of a job from another one. Values of mode share that are the other's own move
    /// into one new group, and both contexts have them in common from then on; what was common already
    /// stays so. Values of mode copy and values that no item names are copied, and those of mode unmap are
    /// left out. Pages keep their rights; those of mode copy read-only are copied with the right Read. The
    /// new context begins with these registers and has no saved ones. Answers its name. The only error is
    /// out of memory.
    fn clone_context(
        &mut self,
        context: Name,
        spec: &Items,
        job: u32,
        entry: &Regs,
    ) -> Result<Name, OutOfMemory>
        requires live { IsLive (seen self.old) context }
        requires within { IsSpec (seen self.old).size.pages spec.now }
        requires may { MayName (seen self.old) job }
        requires place { HasPlace (seen self.old) }
        requires group { needs_group (seen self.old) context spec.now ≡ true → HasGroupPlace (seen self.old) }
        requires few { AreFew (ranges_after_clone (seen self.old) context job spec.now) }
        ensures name { IfOk result (λ made. made ≡ next_context (seen self.old) job) }
        ensures cloned { OnOk result (seen self.new ≡
            clone_context (seen self.old) context job spec.now entry.now) }
        ensures err { OnErr result (seen self.new ≡ seen self.old) }
        ensures ample { roomy ≡ true → IsOk result };

    /// Takes over what the items name from the context `from` into the context `to`, for a job; both may be
    /// the same. First the values of mode share that are `from`'s own move into one new group. Then `to` gets
    /// a copy of each value of mode copy, has each value of mode share in common with `from`, and nothing
    /// under a key of mode unmap. A page has the right that it has in `from`, and the right Read where its
    /// mode is copy read-only. An absent page of `from` becomes absent in `to`. The only error is out of
    /// memory.
    fn overlay(&mut self, to: Name, from: Name, spec: &Items, job: u32) -> Result<(), OutOfMemory>
        requires to { IsLive (seen self.old) to }
        requires from { IsLive (seen self.old) from }
        requires within { IsSpec (seen self.old).size.pages spec.now }
        requires may { MayName (seen self.old) job }
        requires group { needs_group (seen self.old) from spec.now ≡ true → HasGroupPlace (seen self.old) }
        requires few { AreFew (ranges_after_overlay (seen self.old) to from job spec.now) }
        ensures overlaid { OnOk result (seen self.new ≡ overlay (seen self.old) to from job spec.now) }
        ensures err { OnErr result (seen self.new ≡ seen self.old) }
        ensures ample { roomy ≡ true → IsOk result };

    /// Drops the contexts that are not reached from the roots by descriptors in slots, and then the groups
    /// that no cell names.
    fn reap(&mut self, roots: &[Name])
        requires few { length roots.now ≤ MOST_ROOTS }
        requires live { All (λ root. IsLive (seen self.old) root) roots.now }
        ensures reaped { seen self.new ≡ reap (seen self.old) roots.now };

    /// Whether `clone_context` and `overlay` make a group: an item of mode share names a key that is present
    /// and the context's own.
    fn needs_group(&self, context: Name, spec: &Items) -> bool
        requires live { IsLive (seen self.now) context }
        requires within { IsSpec (seen self.now).size.pages spec.now }
        ensures value { result ≡ needs_group (seen self.now) context spec.now };

    /// The numbers of ranges that the context and the new one would have after `clone_context`, in this
    /// order. They are the same for every job.
    fn ranges_after_clone(&self, context: Name, spec: &Items) -> (u32, u32)
        requires live { IsLive (seen self.now) context }
        requires within { IsSpec (seen self.now).size.pages spec.now }
        ensures value { (job : ℕ) → result ≡ ranges_after_clone (seen self.now) context job spec.now };

    /// The numbers of ranges that the contexts `from` and `to` would have after `overlay`, in this order.
    /// They are the same for every job.
    fn ranges_after_overlay(&self, to: Name, from: Name, spec: &Items) -> (u32, u32)
        requires to { IsLive (seen self.now) to }
        requires from { IsLive (seen self.now) from }
        requires within { IsSpec (seen self.now).size.pages spec.now }
        ensures value { (job : ℕ) → result ≡ ranges_after_overlay (seen self.now) to from job spec.now };

    /// The number of ranges that the context would have after `map` if `present` is true, and else after
    /// `unmap`.
    fn ranges_after_map(&self, context: Name, range: Range, present: bool) -> u32
        requires live { IsLive (seen self.now) context }
        requires some { range.from < range.to }
        requires within { range.to ≤ (seen self.now).size.pages }
        ensures value { result
            ≡ ranges_of (mapped_or_not (seen self.now) context range.from range.to present) context };

    /// The number of live contexts of the job.
    fn live_of(&self, job: u32) -> u32
        ensures value { result ≡ live_of (seen self.now) job };

    /// The number of live groups of the job.
    fn groups_of(&self, job: u32) -> u32
        ensures value { result ≡ groups_of (seen self.now) job };

    /// The name of the i-th live context in the order of names; `None` if at most i contexts are live.
    fn nth_context(&self, index: u32) -> Option<Name>
        ensures { result ≡ slice_get (fm.keys (seen self.now).contexts) index };

    /// The numbers of pages and slots in use of the context, and its uid, as a report prints them.
    fn summary(&self, context: Name) -> Summary
        requires live { IsLive (seen self.now) context }
        ensures value { result ≡ summary_of (seen self.now) context };

    /// The number of live contexts.
    fn context_count(&self) -> u32
        ensures { result ≡ fm.len (seen self.now).contexts };

    /// The number of live groups.
    fn group_count(&self) -> u32
        ensures { result ≡ fm.len (seen self.now).groups };

    /// The number of frames in use.
    fn used(&self) -> u32
        ensures { result ≡ used (seen self.now) };
}
