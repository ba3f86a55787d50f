ghost use Rattle.std.specs.Prelude.{◌≡◌, ◌≢◌, ◌<◌, ◌≤◌, ◌++◌, false, true, IfErr, IfOk, IsOk, None, OnErr, OnOk};
ghost use Rattle.std.specs.Prelude.{Some, [], length};
ghost use Rattle.std.specs.FinMap as fm;
ghost use Rattle.guest_image.specs.Limits.{IsImage};
ghost use Rattle.kernel_core.specs.declared.acting.Change.TheVariants as changes;
ghost use Rattle.kernel_core.specs.Kernel as kernels;
ghost use Rattle.kernel_core.specs.Machine.{is_ended};
ghost use Rattle.kernel_core.specs.Settings.{IsSettings};
ghost use Rattle.kernel_core.specs.Start.{inputs_of, thread_count};
ghost use Rattle.lwc_base.specs.World as worlds;
ghost use Rattle.lwc_types.specs.declared.limits.TheConstants.{MOST_STEPS};
ghost use Rattle.lwc_guard.specs.Reports.{report_after_guarded};
ghost use Rattle.lwc_guard.specs.Steady as spec;
ghost use Rattle.lwc_guard.specs.Steady.{state_of};
ghost use Rattle.lwc_text.specs.Report.{threads_text};

use crate::guards::Guards;
use crate::lines::guard_lines;
use crate::stepping::step_guarded;
use guest_image::Image;
use kernel_core::{Change, Job, Kernel, OpenFault, Parts, Settings, Turn};
use lwc_base::{OutOfMemory, Requests};
use lwc_monitor::traps::Traps;
use lwc_text::{context_lines, groups_line, tail_lines, thread_lines};
use std::alloc::Global;
use std::marker::Model;
use std::snapshot::Snapshot;
use world_face::World;

/// Threads that run an image over a world in which contexts may be trapped and guarded. It is seen as its history, as
/// a kernel is.
#[derive(Drop)]
pub struct Guarded<W: World> {
    image: Snapshot<Image>,
    settings: Settings,
    parts: Parts<W>,
    traps: Traps,
    guards: Guards,
}

impl<W: World> Model for Guarded<W> {
    ghost use Rattle.std.specs.Prelude.{◌+◌, ◌≤◌, [], None, vec_capacity, vec_len};
    ghost use Rattle.kernel_core.specs.Kernel.{History};
    ghost use Rattle.kernel_core.specs.Steady.{history, machine};
    ghost use Rattle.lwc_guard.specs.Steady.{IsSteady};

    ghost Value = { History };

    ghost view = { λ k. history k.image.value None [] k.settings k.parts.schedule.items
        k.parts.room };

    ghost invariant = { λ k. (vec_len k.parts.schedule + k.parts.room ≤ vec_capacity k.parts.schedule)
        × IsSteady (record {
          machine = machine (W.seen k.parts.world) k.parts.channels k.parts.threads.items k.parts.text None;
          traps = k.traps;
          guards = k.guards;
        })
        k.parts.peak
        (history k.image.value None [] k.settings k.parts.schedule.items k.parts.room) };
}

impl<W: World> Guarded<W> {
    /// A run at the start of an image, in which no context is trapped or guarded, with room for this number of steps.
    ///
    /// # Errors
    ///
    /// `ImageTooLarge` exactly where the image has more pages than there are frames, which is tested before
    /// memory is taken; or `OutOfMemory`.
    pub fn open(
        alloc: Global,
        image: &Image,
        steps: u32,
        settings: &Settings,
    ) -> Result<Guarded<W>, OpenFault>
        requires image { IsImage image.now }
        requires settings { IsSettings settings.now }
        requires run { settings.now.job ≡ Job.Run }
        requires steps { steps ≤ MOST_STEPS }
        ensures opened { IfOk result (λ k. k ≡ kernels.opened (inputs_of image.now [] settings.now) steps) }
        ensures too_large { settings.now.frames < length image.now.pages →
            result ≡ Err (OpenFault.ImageTooLarge (length image.now.pages) settings.now.frames) }
        ensures fits { length image.now.pages ≤ settings.now.frames →
            IfErr result (λ fault. fault ≡ OpenFault.OutOfMemory) }
    {
        let requests = Requests::of(Vec::new(alloc));
        let kernel: Kernel<W> = Kernel::open(alloc, image, requests, steps, settings)?;
        let Ok((traps, guards)) = no_traps(alloc) else {
            return Err(OpenFault::OutOfMemory);
        };
        Ok(Guarded {
            image: Snapshot::of(image),
            settings: *settings,
            parts: kernel.into_parts(),
            traps,
            guards,
        })
    }

    /// One step of a thread, which is kept unless the thread had ended. The only error is out of memory: then nothing has changed, and the world has not taken all its memory at
    /// opening.
    pub fn step(&mut self, thread_number: u32) -> Result<Turn, OutOfMemory>
        requires within { thread_number < thread_count self.old.inputs }
        requires room { is_ended (state_of self.old).machine thread_number ≡ false → 0 < self.old.room }
        ensures step { OnOk result (self.new ≡ spec.stepped_guarded self.old thread_number) }
        ensures turn { IfOk result (λ turn. spec.turn_guarded self.new thread_number ≡ Some turn) }
        ensures err { OnErr result (self.new ≡ self.old) }
        ensures ample { W.roomy ≡ true → IsOk result }
    {
        let mut thread = self.parts.threads[thread_number as usize];
        let Some(effect) = step_guarded(
            &mut self.traps,
            &mut self.guards,
            &mut self.parts.world,
            &mut self.parts.channels,
            &self.parts.text,
            thread_number,
            &mut thread,
        )?
        else {
            return Ok(thread.turn(None));
        };
        self.parts.threads[thread_number as usize] = thread;
        self.parts.keep_step(thread_number, 0, effect.change);
        keep_reached(
            &mut self.traps,
            &mut self.guards,
            &self.parts.world,
            effect.change,
        );
        Ok(thread.turn(None))
    }

    /// The number of steps that there is room for.
    pub fn room(&self) -> u32
        ensures { result ≡ self.now.room }
    {
        self.parts.room
    }

    /// The report of the run: that of a kernel, with a line for each trapped context after the contexts. The
    /// only error is out of memory.
    #[tactic(auto, unfolding(crate::specs::Reports::report_guarded, crate::specs::Steady::state_of))]
    pub fn report(&self, alloc: Global) -> Result<Vec<u8>, OutOfMemory>
        ensures { IfOk result (λ text. text.items ≡ report_after_guarded self.now.inputs self.now.steps) }
    {
        let mut text = self.threads_text(alloc)?;
        context_lines(&mut text, &self.parts.world)?;
        guard_lines(&mut text, &self.traps, &self.guards)?;
        groups_line(&mut text, self.parts.world.group_count())?;
        tail_lines(
            &mut text,
            self.parts.channels.console(),
            self.parts.world.used(),
            self.parts.peak,
            self.parts.schedule.as_slice(),
        )?;
        Ok(text)
    }

    /// The lines of all threads.
    #[tactic(auto, using(lwc_text::proofs::Machines::more_threads), unfolding(lwc_text::specs::Report::threads_text))]
    fn threads_text(&self, alloc: Global) -> Result<Vec<u8>, OutOfMemory>
        ensures { IfOk result (λ text. text.items ≡ threads_text (state_of self.now).machine) }
    {
        let mut text = Vec::new(alloc);
        'threads: for t in 0..self.parts.threads.len() {
            thread_lines(&mut text, t as u32, &self.parts.threads[t].view())?;
        }
        Ok(text)
    }
}

/// No traps and no guards. The only error is out of memory.
fn no_traps(alloc: Global) -> Result<(Traps, Guards), OutOfMemory>
    ensures traps { IfOk result (λ both. both.0 ≡ fm.empty) }
    ensures guards { IfOk result (λ both. both.1 ≡ fm.empty) }
{
    let traps = Traps::new(alloc)?;
    let guards = Guards::new(alloc)?;
    Ok((traps, guards))
}

/// Keeps the traps and the guards of live contexts alone. All are live if the step has cut no link: then no work is
/// done.
fn keep_reached<W: World>(traps: &mut Traps, guards: &mut Guards, world: &W, change: Change)
    requires traps { change ≢ changes.Links →
        traps.old ≡ fm.retain_keys traps.old (worlds.is_live (W.seen world.now)) }
    requires guards { change ≢ changes.Links →
        guards.old ≡ fm.retain_keys guards.old (worlds.is_live (W.seen world.now)) }
    ensures traps { traps.new ≡ fm.retain_keys traps.old (worlds.is_live (W.seen world.now)) }
    ensures guards { guards.new ≡ fm.retain_keys guards.old (worlds.is_live (W.seen world.now)) }
{
    if change == Change::Links {
        traps.keep_live(world);
        guards.keep_live(world);
    }
}
