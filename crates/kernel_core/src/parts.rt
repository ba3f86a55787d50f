//! What a kernel and a run under traps are both made of.

ghost use Rattle.std.specs.Prelude.{◌≡◌, ◌≢◌, ◌<◌, All, ◌≤◌, ◌+◌, ◌-◌, ◌++◌, ◌∷◌, [], IfOk, length, max};
ghost use Rattle.std.specs.Prelude.{vec_capacity, vec_len};
ghost use Rattle.std.specs.Option.{option_map};
ghost use Rattle.kernel_core.specs.Kernel.{CanOpen};
ghost use Rattle.kernel_core.specs.Machine.{homes_of};
ghost use Rattle.kernel_core.specs.Start.{threads_at, with_its_vault, world_for};
ghost use Rattle.kernel_core.specs.Step.{contexts_of};
ghost use Rattle.kernel_core.specs.declared.acting.Change.TheVariants as changes;
ghost use Rattle.lwc_base.specs.Channels.{opened};
ghost use Rattle.lwc_base.specs.Frames.{used};
ghost use Rattle.lwc_base.specs.Life as life;
ghost use Rattle.lwc_base.specs.Life.{IsReaped};
ghost use Rattle.lwc_types.specs.declared.limits.TheConstants.{MOST_THREADS};
ghost use Rattle.world_face.specs.Calls.{IsLive};

use crate::acting::Change;
use crate::serve::home_of;
use crate::settings::Settings;
use crate::starting::{open_channels, threads_at, world_with_vault};
use crate::thread::Thread;
use arrayvec::ArrayVec;
use guest_image::{Image, Vault};
use guest_isa::Text;
use lwc_base::{Channels, Name, OutOfMemory, Requests};
use std::alloc::Global;
use world_face::World;

/// What threads run with: the world, what calls read and write beside it, the instructions and the threads;
/// the steps that were kept, each the number of its thread, and how many more there is room for; and the
/// most frames that were in use.
#[derive(Drop)]
pub struct Parts<W: World> {
    pub world: W,
    pub channels: Channels,
    pub text: Text,
    pub threads: Vec<Thread>,
    pub schedule: Vec<u8>,
    pub room: u32,
    pub peak: u32,
}

impl<W: World> Parts<W> {
    /// The parts at the start of an image with these requests, with a vault if one is given, and with room for
    /// this number of steps. The only error is out of memory.
    pub(crate) fn start(
        alloc: Global,
        image: &Image,
        vault: Option<&Vault>,
        requests: Requests,
        steps: u32,
        settings: &Settings,
    ) -> Result<Parts<W>, OutOfMemory>
        requires { CanOpen (record {
          image = image.now;
          vault = option_map (λ v. v.now) vault;
          requests = requests;
          settings = settings.now;
        }) }
        ensures world { IfOk result (λ parts. W.seen parts.world ≡ with_its_vault
            (world_for image.now settings.now.frames settings.now.job)
            (option_map (λ v. v.now) vault.entry)) }
        ensures channels { IfOk result (λ parts. parts.channels ≡ opened image.now.files requests) }
        ensures text { IfOk result (λ parts. parts.text ≡ image.now.text) }
        ensures threads { IfOk result (λ parts. parts.threads.items
            ≡ threads_at image.now settings.now.budget settings.now.job) }
        ensures schedule { IfOk result (λ parts. parts.schedule.items ≡ []) }
        ensures room { IfOk result (λ parts. parts.room ≡ steps) }
        ensures fits { IfOk result (λ parts.
            vec_len parts.schedule + parts.room ≤ vec_capacity parts.schedule) }
        ensures peak { IfOk result (λ parts. parts.peak ≡ used (W.seen parts.world)) }
    {
        let schedule = Vec::with_capacity(alloc, steps as usize)?;
        let text = image.text.copy(alloc)?;
        let threads = threads_at(alloc, image, settings.budget, settings.job)?;
        let world: W = world_with_vault(alloc, image, vault, settings)?;
        let channels = open_channels(alloc, image, requests)?;
        let peak = world.used();
        Ok(Parts {
            world,
            channels,
            text,
            threads,
            schedule,
            room: steps,
            peak,
        })
    }

    /// Keeps the step that a thread has just made, for which there is room, with what it has changed. Drops
    /// the contexts that neither a thread's context nor the home of one of this number of workers reaches,
    /// and the groups that no cell names; raises the peak to the frames in use; appends the thread's number
    /// to the schedule; and takes 1 from the room. Nothing is dropped where the change has cut no link.
    #[inline(always)]
    pub fn keep_step(&mut self, thread_number: u32, workers: u32, change: Change)
        requires number { thread_number < MOST_THREADS }
        requires few { length self.old.threads.items ≤ MOST_THREADS }
        requires few_homes { workers ≤ MOST_THREADS }
        requires live { All (λ x. IsLive (W.seen self.old.world) x.context) self.old.threads.items }
        requires homes { All (λ home. IsLive (W.seen self.old.world) home) (homes_of workers) }
        requires uncut { change ≢ changes.Links →
            IsReaped (W.seen self.old.world) (contexts_of self.old.threads.items ++ homes_of workers) }
        requires used { change ≡ changes.Thread → used (W.seen self.old.world) ≤ self.old.peak }
        requires room { 0 < self.old.room }
        requires fits { vec_len self.old.schedule + self.old.room ≤ vec_capacity self.old.schedule }
        ensures world { W.seen self.new.world
            ≡ life.reap (W.seen self.old.world) (contexts_of self.old.threads.items ++ homes_of workers) }
        ensures channels { self.new.channels ≡ self.old.channels }
        ensures text { self.new.text ≡ self.old.text }
        ensures threads { self.new.threads.items ≡ self.old.threads.items }
        ensures steps { self.new.schedule.items ≡ self.old.schedule.items ++ thread_number ∷ [] }
        ensures room { self.new.room ≡ self.old.room - 1 }
        ensures fits { vec_len self.new.schedule + self.new.room ≤ vec_capacity self.new.schedule }
        ensures peak { self.new.peak ≡ max self.old.peak (used (W.seen self.new.world)) }
    {
        drop_unreached(&mut self.world, self.threads.as_slice(), workers, change);
        self.peak = peak_after(self.peak, &self.world, change);
        self.schedule.push_reserved(thread_number as u8);
        self.room -= 1;
    }
}

/// Drops the contexts that are reached neither from a thread's context nor from the homes of this number
/// of workers, and then the groups that no cell names. There are none if the step has cut no link, and
/// then no work is done.
fn drop_unreached<W: World>(world: &mut W, threads: &[Thread], workers: u32, change: Change)
    requires few { length threads.now ≤ MOST_THREADS }
    requires few_homes { workers ≤ MOST_THREADS }
    requires live { All (λ x. IsLive (W.seen world.old) x.context) threads.now }
    requires homes { All (λ home. IsLive (W.seen world.old) home) (homes_of workers) }
    requires uncut { change ≢ changes.Links →
        IsReaped (W.seen world.old) (contexts_of threads.now ++ homes_of workers) }
    ensures { W.seen world.new
        ≡ life.reap (W.seen world.old) (contexts_of threads.now ++ homes_of workers) }
{
    if change == Change::Links {
        let mut contexts: ArrayVec<Name, 32> = ArrayVec::new();
        'threads: for i in 0..threads.len() {
            contexts.push(threads[i].context);
        }
        'homes: for t in 0..workers {
            contexts.push(home_of(t));
        }
        world.reap(contexts.as_slice());
    }
}

/// The most frames in use after a step. A step that changes the thread alone does not raise it.
fn peak_after<W: World>(peak: u32, world: &W, change: Change) -> u32
    requires { change ≡ changes.Thread → used (W.seen world.now) ≤ peak }
    ensures { result ≡ max peak (used (W.seen world.now)) }
{
    match change {
        Change::Thread => peak,
        Change::World | Change::Links => peak.max(world.used()),
    }
}
