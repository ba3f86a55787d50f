ghost use Rattle.std.specs.Prelude.{◌≡◌, ◌<◌, All, ◌≤◌, ◌+◌, ◌*◌, ◌-◌, ◌^◌, [], false, true, None, IfErr, IfOk, IfSome};
ghost use Rattle.std.specs.Prelude.{IsOk, OnErr, OnOk, Some, length, vec_capacity, vec_len};
ghost use Rattle.guest_image.specs.Limits.{IsImage};
ghost use Rattle.guest_image.specs.declared.image.TheConstants.{MOST_VAULT_PAGES};
ghost use Rattle.guest_machine.specs.Advances.{advanced};
ghost use Rattle.kernel_core.specs.Kernel as spec;
ghost use Rattle.kernel_core.specs.Kernel.{CanKeep, CanOpen, MayHave, machine_of};
ghost use Rattle.kernel_core.specs.Machine.{is_ended, reply_of, steps_after, steps_for_requests};
ghost use Rattle.kernel_core.specs.Machine.{steps_left, work};
ghost use Rattle.kernel_core.specs.Machine as machines;
ghost use Rattle.kernel_core.specs.Runs as runs;
ghost use Rattle.kernel_core.specs.Settings.{IsSettings};
ghost use Rattle.kernel_core.specs.Start.{start, thread_count};
ghost use Rattle.lwc_base.specs.Frames.{used};
ghost use Rattle.lwc_types.specs.declared.limits.TheConstants.{MOST_BUDGET, MOST_REQUESTS, MOST_STEPS};
ghost use Rattle.lwc_types.specs.declared.limits.TheConstants.{MOST_THREADS};
ghost use Rattle.std.specs.List.{sum_by};
ghost use Rattle.std.specs.Option.{option_map};

use crate::acting::step_thread;
use crate::parts::Parts;
use crate::serve::{Serve, recorded, status_of, worker_count};
use crate::settings::{OpenFault, Settings};
use crate::starting::first_serve;
use crate::thread::{Thread, ThreadView, Turn};
use guest_image::{Image, Vault};
use guest_isa::Text;
use guest_machine::Advance;
use lwc_base::{Channels, OutOfMemory, Requests, ThreadStatus};
use snapshot_host::FinishedView;
use std::alloc::Global;
use std::marker::Model;
use std::snapshot::Snapshot;
use world_face::World;

/// Threads that run an image over a world. A kernel is seen as its history: what it was opened with, the
/// steps that it has kept, each the number of the thread that made it, and how many more steps it has room
/// for.
#[derive(Drop)]
pub struct Kernel<W: World> {
    image: Snapshot<Image>,
    vault: Option<Snapshot<Vault>>,
    requests: Snapshot<Requests>,
    settings: Settings,
    serve: Option<Serve>,
    parts: Parts<W>,
}

impl<W: World> Model for Kernel<W> {
    ghost use Rattle.std.specs.Prelude.{◌+◌, ◌≤◌, vec_len, vec_capacity};
    ghost use Rattle.std.specs.Option.{option_map};
    ghost use Rattle.kernel_core.specs.Kernel.{History};

    ghost Value = { History };

    ghost use Rattle.kernel_core.specs.Steady.{IsSteady, history, machine};

    ghost view = { λ k. history k.image.value (option_map (λ v. v.value) k.vault) k.requests.value k.settings
        k.parts.schedule.items k.parts.room };

    ghost invariant = { λ k. (vec_len k.parts.schedule + k.parts.room ≤ vec_capacity k.parts.schedule)
        × IsSteady
        (machine (W.seen k.parts.world) k.parts.channels k.parts.threads.items k.parts.text k.serve)
        k.parts.peak
        (history k.image.value (option_map (λ v. v.value) k.vault) k.requests.value k.settings
        k.parts.schedule.items k.parts.room) };
}

impl<W: World> Kernel<W> {
    /// A kernel at the start of an image, with room for this number of steps. The memory for the steps is
    /// taken here, and so no step is refused for lack of room. A run has no requests.
    ///
    /// # Errors
    ///
    /// `ImageTooLarge` exactly where the image has more pages than there are frames, which is tested before
    /// memory is taken; or `OutOfMemory`.
    pub fn open(
        alloc: Global,
        image: &Image,
        requests: Requests,
        steps: u32,
        settings: &Settings,
    ) -> Result<Kernel<W>, OpenFault>
        requires image { IsImage image.now }
        requires settings { IsSettings settings.now }
        requires requests { MayHave settings.now.job requests }
        requires steps { steps ≤ MOST_STEPS }
        ensures opened { IfOk result (λ k. k ≡ spec.opened (record {
          image = image.now;
          vault = None;
          requests = requests;
          settings = settings.now;
        }) steps) }
        ensures too_large { settings.now.frames < length image.now.pages →
            result ≡ Err (OpenFault.ImageTooLarge (length image.now.pages) settings.now.frames) }
        ensures fits { length image.now.pages ≤ settings.now.frames →
            IfErr result (λ fault. fault ≡ OpenFault.OutOfMemory) }
    {
        Kernel::open_at(alloc, image, None, requests, steps, settings)
    }

    /// A kernel at the start of a run of an image with a vault beside its first context. It is else opened as
    /// by `open`.
    ///
    /// # Errors
    ///
    /// `ImageTooLarge` exactly where the image and the vault together have more pages than there are frames,
    /// which is tested before memory is taken, and has that sum; or `OutOfMemory`.
    pub fn open_with_vault(
        alloc: Global,
        image: &Image,
        vault: &Vault,
        steps: u32,
        settings: &Settings,
    ) -> Result<Kernel<W>, OpenFault>
        requires image { IsImage image.now }
        requires vault { CanKeep image.now settings.now.job vault.now }
        requires settings { IsSettings settings.now }
        requires steps { steps ≤ MOST_STEPS }
        ensures opened { IfOk result (λ k. k ≡ spec.opened (record {
          image = image.now;
          vault = Some vault.now;
          requests = [];
          settings = settings.now;
        }) steps) }
        ensures too_large { settings.now.frames < length image.now.pages + length vault.now.pages →
            result ≡ Err (OpenFault.ImageTooLarge (length image.now.pages + length vault.now.pages)
            settings.now.frames) }
        ensures fits { length image.now.pages + length vault.now.pages ≤ settings.now.frames →
            IfErr result (λ fault. fault ≡ OpenFault.OutOfMemory) }
    {
        let requests = Requests::of(Vec::new(alloc));
        Kernel::open_at(alloc, image, Some(vault), requests, steps, settings)
    }

    /// A kernel at the start of an image, with a vault if one is given.
    fn open_at(
        alloc: Global,
        image: &Image,
        vault: Option<&Vault>,
        requests: Requests,
        steps: u32,
        settings: &Settings,
    ) -> Result<Kernel<W>, OpenFault>
        requires image { IsImage image.now }
        requires vault { IfSome vault (λ v. CanKeep image.now settings.now.job v.now) }
        requires settings { IsSettings settings.now }
        requires requests { MayHave settings.now.job requests }
        requires steps { steps ≤ MOST_STEPS }
        ensures opened { IfOk result (λ k. k ≡ spec.opened (record {
          image = image.now;
          vault = option_map (λ v. v.now) vault.entry;
          requests = requests;
          settings = settings.now;
        }) steps) }
        ensures too_large { settings.now.frames
            < spec.pages_in image.now (option_map (λ v. v.now) vault.entry) →
            result ≡ Err (OpenFault.ImageTooLarge
            (spec.pages_in image.now (option_map (λ v. v.now) vault.entry))
            settings.now.frames) }
        ensures fits { spec.pages_in image.now (option_map (λ v. v.now) vault.entry) ≤ settings.now.frames →
            IfErr result (λ fault. fault ≡ OpenFault.OutOfMemory) }
    {
        let pages = pages_in(image, vault);
        if pages > settings.frames {
            return Err(OpenFault::ImageTooLarge {
                pages,
                frames: settings.frames,
            });
        }
        match Kernel::start(alloc, image, vault, requests, steps, settings) {
            Ok(kernel) => Ok(kernel),
            Err(_) => Err(OpenFault::OutOfMemory),
        }
    }

    /// A kernel at the start of an image, with a vault if one is given, that have no more pages than there are
    /// frames.
    fn start(
        alloc: Global,
        image: &Image,
        vault: Option<&Vault>,
        requests: Requests,
        steps: u32,
        settings: &Settings,
    ) -> Result<Kernel<W>, OutOfMemory>
        requires inputs { CanOpen (record {
          image = image.now;
          vault = option_map (λ v. v.now) vault;
          requests = requests;
          settings = settings.now;
        }) }
        requires steps { steps ≤ MOST_STEPS }
        ensures { IfOk result (λ k. k ≡ spec.opened (record {
          image = image.now;
          vault = option_map (λ v. v.now) vault.entry;
          requests = requests;
          settings = settings.now;
        }) steps) }
    {
        let asked = Snapshot::of(&requests);
        let serve = first_serve(alloc, settings, requests.len())?;
        let parts = Parts::start(alloc, image, vault, requests, steps, settings)?;
        Ok(Kernel {
            image: Snapshot::of(image),
            vault: snapshot_of(vault),
            requests: asked,
            settings: *settings,
            serve,
            parts,
        })
    }

    /// One step of a thread, which is kept unless the thread had ended. A proposal is used if it begins
    /// with the thread's registers. The only error is out of memory, which comes only over a world that is
    /// not roomy, and then nothing has changed.
    pub fn step(&mut self, thread: u32, proposal: Option<&Advance>) -> Result<Turn, OutOfMemory>
        requires within { thread < thread_count self.old.inputs }
        requires room { is_ended (machine_of self.old) thread ≡ false → 0 < self.old.room }
        requires proposal { IfSome proposal (λ a. a.now ≡ advanced self.old.inputs.image.text a.now.before) }
        ensures step { OnOk result (self.new ≡ spec.stepped self.old thread) }
        ensures turn { IfOk result (λ turn. spec.turn self.new thread ≡ Some turn) }
        ensures room { OnOk result (is_ended (machine_of self.old) thread ≡ false →
            self.new.room + 1 ≡ self.old.room) }
        ensures work { OnOk result (is_ended (machine_of self.old) thread ≡ false →
            work (machine_of self.new) < work (machine_of self.old)) }
        ensures err { OnErr result (self.new ≡ self.old) }
        ensures ample { W.roomy ≡ true → IsOk result }
    {
        let finished = self.make_step(thread, proposal)?;
        Ok(self.turn(thread, finished))
    }

    /// The step of `step`, which answers the number of the request that it has finished, if it has, in
    /// place of the turn. `note_turn` tells the turn by that number.
    #[inline(always)]
    pub fn make_step(
        &mut self,
        thread_number: u32,
        proposal: Option<&Advance>,
    ) -> Result<Option<u16>, OutOfMemory>
        requires within { thread_number < thread_count self.old.inputs }
        requires room { is_ended (machine_of self.old) thread_number ≡ false → 0 < self.old.room }
        requires proposal { IfSome proposal (λ a. a.now ≡ advanced self.old.inputs.image.text a.now.before) }
        ensures step { OnOk result (self.new ≡ spec.stepped self.old thread_number) }
        ensures turn { IfOk result
            (λ r. spec.turn self.new thread_number ≡ spec.turn_at (machine_of self.new) thread_number r) }
        ensures number { IfOk result (λ r. r ≡ option_map (λ f. f.request)
            (runs.last_finished (start self.new.inputs) self.new.steps thread_number None)) }
        ensures room { OnOk result (is_ended (machine_of self.old) thread_number ≡ false →
            self.new.room + 1 ≡ self.old.room) }
        ensures work { OnOk result (is_ended (machine_of self.old) thread_number ≡ false →
            work (machine_of self.new) < work (machine_of self.old)) }
        ensures err { OnErr result (self.new ≡ self.old) }
        ensures ample { W.roomy ≡ true → IsOk result }
    {
        let world = &mut self.parts.world;
        let io = &mut self.parts.channels;
        let serve = &mut self.serve;
        let thread = &mut self.parts.threads[thread_number as usize];
        let Some(effect) = step_thread(
            world,
            io,
            serve,
            &self.parts.text,
            thread_number,
            thread,
            proposal,
        )?
        else {
            return Ok(None);
        };
        let workers = worker_count(&self.serve);
        self.parts.keep_step(thread_number, workers, effect.change);
        Ok(effect.finished)
    }

    /// Notes in `last` what the last step of a thread left, which finished the request of this number, or
    /// none. It takes no memory.
    pub fn note_turn(&self, thread: u32, finished: Option<u16>, last: &mut Turn)
        requires { thread < thread_count self.now.inputs }
        ensures { spec.turn_at (machine_of self.now) thread finished ≡ Some last.new }
    {
        last.note(
            &self.parts.threads[thread as usize],
            self.recorded(finished),
        );
    }

    /// What the last step of a thread left, which finished the request of this number, or none.
    fn turn(&self, thread: u32, finished: Option<u16>) -> Turn
        requires { thread < thread_count self.now.inputs }
        ensures { spec.turn_at (machine_of self.now) thread finished ≡ Some result }
    {
        self.parts.threads[thread as usize].turn(self.recorded(finished))
    }

    /// What is recorded of the request of this number, where one is given.
    #[tactic(auto, unfolding(crate::specs::Machine::reply_of))]
    fn recorded(&self, finished: Option<u16>) -> Option<FinishedView<'_>>
        ensures { result ≡ machines.recorded (machine_of self.now).serve finished }
    {
        match finished {
            Some(r) => self.reply(r),
            None => None,
        }
    }

    /// The number of steps that the kernel has room for.
    pub fn room(&self) -> u32
        ensures { result ≡ self.now.room }
    {
        self.parts.room
    }

    /// The instructions.
    pub fn text(&self) -> &Text
        ensures { result.now ≡ self.now.inputs.image.text }
    {
        &self.parts.text
    }

    /// The number of threads, 1 to 16.
    pub fn thread_count(&self) -> u32
        ensures count { result ≡ thread_count self.now.inputs }
        ensures threads { result ≡ length (machine_of self.now).threads }
        ensures some { 1 ≤ result }
        ensures few { result ≤ MOST_THREADS }
    {
        self.parts.threads.len() as u32
    }

    /// The steps that were kept, each the number of the thread that made it.
    pub fn schedule(&self) -> &[u8]
        ensures steps { result.now ≡ self.now.steps }
        ensures few { length self.now.steps + self.now.room ≤ MOST_STEPS }
    {
        self.parts.schedule.as_slice()
    }

    /// The most frames that were in use, at the start and after each step that was kept.
    pub fn peak(&self) -> u32
        ensures { result ≡ runs.peak (start self.now.inputs) self.now.steps }
    {
        self.parts.peak
    }

    /// The world of the threads.
    pub fn world(&self) -> &W
        ensures { W.seen result.now ≡ (machine_of self.now).environment.world }
    {
        &self.parts.world
    }

    /// The status, the context and the registers of a thread.
    pub fn thread(&self, thread_number: u32) -> ThreadView
        requires { thread_number < thread_count self.now.inputs }
        ensures { spec.view_of (machine_of self.now) thread_number ≡ Some result }
    {
        self.parts.threads[thread_number as usize].view()
    }

    /// The number of steps that the threads may still make (`work`): in a run the budgets of those that
    /// run. In a serve, for each request that is not begun the budget and 1, for each idle worker 1, and
    /// for each other one what is left of its budget and 1.
    pub fn work(&self) -> u32
        ensures { result ≡ work (machine_of self.now) }
    {
        let requests = self.parts.channels.requests().len();
        work_of(self.parts.threads.as_slice(), &self.serve, requests)
    }

    /// How a thread is at the start, before any step.
    pub fn first_turn(&self, thread: u32) -> Turn
        requires within { thread < thread_count self.now.inputs }
        requires fresh { self.now.steps ≡ [] }
        ensures { spec.turn self.now thread ≡ Some result }
    {
        self.parts.threads[thread as usize].turn(None)
    }

    /// The number of requests.
    pub fn request_count(&self) -> u32
        ensures count { result ≡ length self.now.inputs.requests }
        ensures requests { result ≡ length (machine_of self.now).environment.channels.requests }
        ensures few { result ≤ MOST_REQUESTS }
    {
        self.parts.channels.requests().len() as u32
    }

    /// What is recorded of a request; `None` if it is not finished, or if there is none of this number. The
    /// bytes are lent: they are the first ones of the reply in the channels.
    pub fn reply(&self, request: u16) -> Option<FinishedView<'_>>
        ensures { result ≡ reply_of (machine_of self.now) request }
    {
        recorded(&self.serve, &self.parts.channels, request)
    }

    /// How a request ended; `None` if it is not finished, or if there is none of this number.
    pub fn reply_status(&self, request: u16) -> Option<ThreadStatus>
        ensures { result ≡ option_map (λ x. x.status) (reply_of (machine_of self.now) request) }
    {
        status_of(&self.serve, request)
    }

    /// What calls of guests read and write beside the world.
    pub fn channels(&self) -> &Channels
        ensures { result.now ≡ (machine_of self.now).environment.channels }
    {
        &self.parts.channels
    }

    /// The parts of a kernel that has kept no step: those of its start, with the room that it was opened with.
    pub fn into_parts(self) -> Parts<W>
        requires { self.steps ≡ [] }
        ensures world { W.seen result.world ≡ (start self.inputs).environment.world }
        ensures channels { result.channels ≡ (start self.inputs).environment.channels }
        ensures text { result.text ≡ self.inputs.image.text }
        ensures threads { result.threads.items ≡ (start self.inputs).threads }
        ensures schedule { result.schedule.items ≡ [] }
        ensures room { result.room ≡ self.room }
        ensures fits { vec_len result.schedule + result.room ≤ vec_capacity result.schedule }
        ensures peak { result.peak ≡ used (W.seen result.world) }
    {
        self.parts
    }

    /// A law of each kernel: a kernel can be opened with its inputs.
    pub fn was_opened(&self)
        ensures { CanOpen self.now.inputs }
    {
        let _room = self.parts.room;
    }
}

/// The number of steps that the threads may still make, those for this number of requests among them.
fn work_of(threads: &[Thread], serve: &Option<Serve>, requests: usize) -> u32
    requires few { All (λ x. x.budget ≤ MOST_BUDGET) threads.now }
    requires fits { sum_by (λ x. steps_left (steps_after serve.now) x.budget x.status) threads.now ≤ 1600032 }
    requires serve { IfSome serve.now (λ s. (s.next ≤ requests) × (s.budget ≤ MOST_BUDGET)) }
    requires requests { requests ≤ MOST_REQUESTS }
    ensures { result ≡ sum_by (λ x. steps_left (steps_after serve.now) x.budget x.status) threads.now
        + steps_for_requests serve.now requests }
{
    match serve {
        None => work_left(threads, 0),
        Some(serve) => work_left(threads, 1) + work_for_requests(serve, requests as u32),
    }
}

/// The number of steps for those of this number of requests that are not begun.
#[tactic(auto, using(crate::proofs::HomeMade::few_steps))]
fn work_for_requests(serve: &Serve, requests: u32) -> u32
    requires next { serve.now.next ≤ requests }
    requires requests { requests ≤ MOST_REQUESTS }
    requires budget { serve.now.budget ≤ MOST_BUDGET }
    ensures steps { result ≡ (requests - serve.now.next) * (serve.now.budget + 1) }
    ensures few { result ≤ 102401024 }
{
    (requests - u32::from(serve.next)) * (serve.budget + 1)
}

/// The number of steps that the threads may still make, where each that runs makes this number more after
/// those of its budget.
fn work_left(threads: &[Thread], more: u32) -> u32
    requires more { more ≤ 1 }
    requires few { All (λ x. x.budget ≤ MOST_BUDGET) threads.now }
    requires fits { sum_by (λ x. steps_left more x.budget x.status) threads.now < 2 ^ 32 }
    ensures { result ≡ sum_by (λ x. steps_left more x.budget x.status) threads.now }
{
    threads.iter().map(|thread| thread.steps_left(more)).sum()
}

/// The number of pages of an image, and of a vault if one is given.
fn pages_in(image: &Image, vault: Option<&Vault>) -> u32
    requires image { IsImage image.now }
    requires vault { IfSome vault (λ v. length v.now.pages ≤ MOST_VAULT_PAGES) }
    ensures { result ≡ spec.pages_in image.now (option_map (λ v. v.now) vault.entry) }
{
    let pages = image.pages.len() as u32;
    match vault {
        None => pages,
        Some(vault) => pages + vault.pages.len() as u32,
    }
}

/// A snapshot of a vault, if one is given.
fn snapshot_of(vault: Option<&Vault>) -> Option<Snapshot<Vault>>
    ensures { option_map (λ v. v.value) result ≡ option_map (λ v. v.now) vault.entry }
{
    match vault {
        None => None,
        Some(vault) => Some(Snapshot::of(vault)),
    }
}
