ghost use Rattle.std.specs.Prelude.{[], ◌≡◌, ◌≢◌, ◌==◌, ◌<◌, ◌≤◌, ◌+◌, IfOk, IfSome, OnOk, length, take};
ghost use Rattle.std.specs.List.{find};
ghost use Rattle.std.specs.Option.{option_map};
ghost use Rattle.guest_image.specs.Limits.{IsImage, IsVault, pages_of};
ghost use Rattle.kernel_core.specs.Start as spec;
ghost use Rattle.kernel_core.specs.Kernel.{AreRequests, CanKeep, pages_in};
ghost use Rattle.kernel_core.specs.Ready.{CanPutPage, mapped, page_stored};
ghost use Rattle.kernel_core.specs.Settings.{IsJob, IsSettings};
ghost use Rattle.lwc_base.specs.Store as stores;
ghost use Rattle.lwc_base.specs.Channels.{opened};
ghost use Rattle.lwc_base.specs.Lending.{descriptor_of};
ghost use Rattle.lwc_types.specs.declared.key.TheConstants.{SLOTS};
ghost use Rattle.lwc_types.specs.declared.limits.TheConstants.{MOST_FRAMES, MOST_THREADS};

use crate::serve::{Serve, home_of};
use crate::settings::{Job, Settings};
use crate::thread::Thread;
use arrayvec::ArrayVec;
use guest_image::{Image, PageImage, SlotImage, VAULT_SLOT, Vault};
use lwc_base::{
    Channels, FileImage, Grant, Items, Lent, MOST_CONTEXTS, MOST_GROUPS, MOST_JOBS, NOBODY, Name,
    OutOfMemory, PAGE_BYTES, Range, Regs, Requests, SLOTS, Sequence, StoreFault, ThreadStatus,
};
use std::alloc::Global;
use world_face::{World, WorldSize};

/// The name of the first context.
const FIRST: Name = Name { job: 0, k: 0 };

/// The number of slots, from 0 on, that have the console.
const CONSOLES: u8 = 2;

/// The threads of a start, by the job. The only error is out of memory.
pub(crate) fn threads_at(
    alloc: Global,
    image: &Image,
    budget: u32,
    job: Job,
) -> Result<Vec<Thread>, OutOfMemory>
    requires image { IsImage image.now }
    requires job { IsJob job }
    ensures { IfOk result (λ threads. threads.items ≡ spec.threads_at image.now budget job) }
{
    match job {
        Job::Run => first_threads(alloc, budget, image.entries.as_slice()),
        Job::Serve { workers } => first_workers(alloc, image.entries.as_slice()[0], workers),
    }
}

/// The workers of a start, each idle in its home. The only error is out of memory.
fn first_workers(alloc: Global, entry: u32, workers: u32) -> Result<Vec<Thread>, OutOfMemory>
    requires { workers ≤ MOST_THREADS }
    ensures { IfOk result (λ threads. threads.items ≡ spec.first_workers entry workers) }
{
    let regs = Regs::fresh(u64::from(entry));
    let mut threads = Vec::new(alloc);
    'workers: for t in 0..workers {
        threads.push(Thread::waiting(home_of(t), regs))?;
    }
    Ok(threads)
}

/// The serve of a start, if it is one: no request is begun. The only error is out of memory.
pub(crate) fn first_serve(
    alloc: Global,
    settings: &Settings,
    requests: usize,
) -> Result<Option<Serve>, OutOfMemory>
    requires { IsJob settings.now.job }
    ensures { IfOk result (λ serve. serve
        ≡ spec.serve_at settings.now.job settings.now.budget requests) }
{
    match settings.job {
        Job::Run => Ok(None),
        Job::Serve { workers } => Ok(Some(Serve::open(alloc, workers, settings.budget, requests)?)),
    }
}

/// The threads of a run's start. The only error is out of memory.
fn first_threads(alloc: Global, budget: u32, entries: &[u32]) -> Result<Vec<Thread>, OutOfMemory>
    requires { length entries.now ≤ MOST_THREADS }
    ensures { IfOk result (λ threads. threads.items ≡ spec.first_threads budget entries.now) }
{
    let mut threads = Vec::new(alloc);
    'entries: for (t, entry) in entries.iter().enumerate() {
        threads.push(first_thread(budget, t as u32, *entry))?;
    }
    Ok(threads)
}

/// The thread of a number.
fn first_thread(budget: u32, thread: u32, entry: u32) -> Thread
    requires { thread < MOST_THREADS }
    ensures { result ≡ spec.first_thread budget thread entry }
{
    Thread {
        status: ThreadStatus::Running,
        context: FIRST,
        regs: Regs::fresh(u64::from(entry)),
        job: thread + 1,
        budget,
    }
}

/// The channels of a start: the image's files, these requests, and nothing that has been written. The only
/// error is out of memory.
pub(crate) fn open_channels(
    alloc: Global,
    image: &Image,
    requests: Requests,
) -> Result<Channels, OutOfMemory>
    requires image { IsImage image.now }
    requires requests { AreRequests requests }
    ensures { IfOk result (λ io. io ≡ opened image.now.files requests) }
{
    Channels::open(alloc, copy_files(alloc, image.files.as_slice())?, requests)
}

/// The same files. The only error is out of memory.
fn copy_files(alloc: Global, files: &[FileImage]) -> Result<Sequence<FileImage>, OutOfMemory>
    ensures { IfOk result (λ copy. copy ≡ files.now) }
{
    let mut copies = Vec::new(alloc);
    'files: for i in 0..files.len() {
        copies.push(copy_file(alloc, &files[i])?)?;
    }
    Ok(Sequence::of(copies))
}

/// The same file. The only error is out of memory.
fn copy_file(alloc: Global, file: &FileImage) -> Result<FileImage, OutOfMemory>
    ensures { IfOk result (λ copy. copy ≡ file.now) }
{
    Ok(FileImage {
        owner: file.owner,
        public: file.public,
        bytes: Sequence::of(Vec::from_slice(alloc, file.bytes.as_slice())?),
    })
}

/// The world of a start, by the job, and with a vault if one is given. The only error is out of memory.
pub(crate) fn world_with_vault<W: World>(
    alloc: Global,
    image: &Image,
    vault: Option<&Vault>,
    settings: &Settings,
) -> Result<W, OutOfMemory>
    requires image { IsImage image.now }
    requires vault { IfSome vault (λ v. CanKeep image.now settings.now.job v.now) }
    requires settings { IsSettings settings.now }
    requires fits { pages_in image.now (option_map (λ v. v.now) vault) ≤ settings.now.frames }
    ensures { IfOk result (λ w. W.seen w ≡ spec.with_its_vault
        (spec.world_for image.now settings.now.frames settings.now.job)
        (option_map (λ v. v.now) vault.entry)) }
{
    let mut world: W = world_for(alloc, image, settings.frames, settings.job)?;
    if let Some(vault) = vault {
        put_vault(&mut world, image, vault)?;
    }
    Ok(world)
}

/// Makes a vault beside the first context of a run's start, and puts a descriptor of it without a key into the
/// vault's slot. The only error is out of memory.
fn put_vault<W: World>(world: &mut W, image: &Image, vault: &Vault) -> Result<(), OutOfMemory>
    requires image { IsImage image.now }
    requires vault { IsVault (length image.now.text) (pages_of image.now.form) vault.now }
    requires fits { length image.now.pages + length vault.now.pages ≤ (W.seen world.old).size.frames }
    requires before { W.seen world.old ≡ spec.start_world image.now (W.seen world.old).size.frames }
    ensures { OnOk result (W.seen world.new ≡ spec.with_vault (W.seen world.old) vault.now) }
{
    let name = world.first(NOBODY, &Regs::fresh(u64::from(vault.entry)))?;
    'pages: for k in 0..vault.pages.len() {
        put_page(world, name, vault.pages.get(k))?;
    }
    let descriptor = Lent::Ctx {
        name,
        keys: Grant::None,
    };
    world.set_slot(FIRST, VAULT_SLOT, descriptor);
    Ok(())
}

/// The world of a start, by the job. The only error is out of memory.
fn world_for<W: World>(
    alloc: Global,
    image: &Image,
    frames: u32,
    job: Job,
) -> Result<W, OutOfMemory>
    requires image { IsImage image.now }
    requires some { 1 ≤ frames }
    requires few { frames ≤ MOST_FRAMES }
    requires fits { length image.now.pages ≤ frames }
    requires job { IsJob job }
    ensures { IfOk result (λ w. W.seen w ≡ spec.world_for image.now frames job) }
{
    match job {
        Job::Run => start_world(alloc, image, frames),
        Job::Serve { workers } => serve_world(alloc, image, frames, workers),
    }
}

/// The world of a serve's start. The only error is out of memory.
fn serve_world<W: World>(
    alloc: Global,
    image: &Image,
    frames: u32,
    workers: u32,
) -> Result<W, OutOfMemory>
    requires image { IsImage image.now }
    requires some { 1 ≤ frames }
    requires few { frames ≤ MOST_FRAMES }
    requires fits { length image.now.pages ≤ frames }
    requires workers { workers ≤ MOST_THREADS }
    ensures { IfOk result (λ w. W.seen w ≡ spec.serve_world image.now frames workers) }
{
    let mut world: W = start_world(alloc, image, frames)?;
    put_homes(&mut world, image, workers)?;
    Ok(world)
}

/// Makes the homes of a serve from the first context, and drops that. The only error is out of memory.
#[tactic(auto, using(crate::proofs::HomeStart::homes_are_made))]
fn put_homes<W: World>(world: &mut W, image: &Image, workers: u32) -> Result<(), OutOfMemory>
    requires image { IsImage image.now }
    requires few { workers ≤ MOST_THREADS }
    requires before { W.seen world.old ≡ spec.start_world image.now (W.seen world.old).size.frames }
    ensures { OnOk result (W.seen world.new
        ≡ spec.serve_world image.now (W.seen world.old).size.frames workers) }
{
    'workers: for t in 0..workers {
        put_home(world, image, t)?;
    }
    let mut homes: ArrayVec<Name, 16> = ArrayVec::new();
    'homes: for t in 0..workers {
        homes.push(home_of(t));
    }
    world.reap(homes.as_slice());
    Ok(())
}

/// Makes one more home from the first context. The only error is out of memory.
fn put_home<W: World>(world: &mut W, image: &Image, thread: u32) -> Result<(), OutOfMemory>
    requires image { IsImage image.now }
    requires few { thread < MOST_THREADS }
    requires before { W.seen world.old ≡ spec.homes_so_far image.now (W.seen world.old).size.frames thread }
    ensures { OnOk result (W.seen world.new
        ≡ spec.homes_so_far image.now (W.seen world.old).size.frames (thread + 1)) }
{
    let entry = Regs::fresh(u64::from(image.entries.as_slice()[0]));
    let home = world.clone_context(FIRST, &Items::empty(), 0, &entry)?;
    world.set_slot(home, 1, Lent::Empty);
    world.set_slot(home, 0, Lent::Empty);
    Ok(())
}

/// The world of a run's start. The only error is out of memory.
fn start_world<W: World>(alloc: Global, image: &Image, frames: u32) -> Result<W, OutOfMemory>
    requires image { IsImage image.now }
    requires some { 1 ≤ frames }
    requires few { frames ≤ MOST_FRAMES }
    requires fits { length image.now.pages ≤ frames }
    ensures { IfOk result (λ w. W.seen w ≡ spec.start_world image.now frames) }
{
    let mut world = W::open(
        alloc,
        &WorldSize {
            frames,
            contexts: MOST_CONTEXTS,
            groups: MOST_GROUPS,
            jobs: MOST_JOBS,
            pages: image.form.pages(),
        },
    )?;
    let entry = image.entries.as_slice()[0];
    world.first(image.uid, &Regs::fresh(u64::from(entry)))?;
    put_pages(&mut world, image)?;
    put_slots(&mut world, image);
    Ok(world)
}

/// Stores all pages of an image. The only error is out of memory.
fn put_pages<W: World>(world: &mut W, image: &Image) -> Result<(), OutOfMemory>
    requires image { IsImage image.now }
    requires frames { length image.now.pages ≤ (W.seen world.old).size.frames }
    requires before { W.seen world.old ≡ spec.world_so_far image.now (W.seen world.old).size.frames 0 0 }
    ensures { OnOk result (W.seen world.new
        ≡ spec.world_so_far image.now (W.seen world.old).size.frames (length image.now.pages) 0) }
{
    'pages: for k in 0..image.pages.len() {
        put_page(world, FIRST, image.pages.get(k))?;
    }
    Ok(())
}

/// Maps a page in a context, and stores its bytes there for job 0. The only error is out of memory.
fn put_page<W: World>(world: &mut W, context: Name, page: &PageImage) -> Result<(), OutOfMemory>
    requires { CanPutPage (W.seen world.old) context page.now }
    ensures { OnOk result (page_stored (mapped (W.seen world.old) context page.now) context page.now
        ≡ stores.Done (W.seen world.new)) }
{
    world.map(
        context,
        Range {
            from: page.number,
            to: page.number + 1,
        },
    )?;
    let at = u32::from(page.number) * PAGE_BYTES as u32;
    match world.store(context, at, page.bytes.as_slice(), 0) {
        Ok(()) => Ok(()),
        Err(fault) => Err(out_of_memory(fault)),
    }
}

/// The only error of a store of a page that is present, may be stored to and has a frame.
fn out_of_memory(fault: StoreFault) -> OutOfMemory
    requires present { fault ≢ StoreFault.BadAddress }
    requires writable { fault ≢ StoreFault.ReadOnly }
    requires frame { fault ≢ StoreFault.NoFrame }
{
    match fault {
        StoreFault::OutOfMemory => OutOfMemory,
        StoreFault::BadAddress => unreachable!(),
        StoreFault::ReadOnly => unreachable!(),
        StoreFault::NoFrame => unreachable!(),
    }
}

/// Fills all slots.
fn put_slots<W: World>(world: &mut W, image: &Image)
    requires image { IsImage image.now }
    requires before { W.seen world.old
        ≡ spec.world_so_far image.now (W.seen world.old).size.frames (length image.now.pages) 0 }
    ensures { W.seen world.new
        ≡ spec.world_so_far image.now (W.seen world.old).size.frames (length image.now.pages) SLOTS }
{
    'slots: for n in 0..SLOTS {
        put_slot(world, image, n);
    }
}

/// Fills a slot.
fn put_slot<W: World>(world: &mut W, image: &Image, slot: u8)
    requires image { IsImage image.now }
    requires within { slot < SLOTS }
    requires before { W.seen world.old
        ≡ spec.world_so_far image.now (W.seen world.old).size.frames (length image.now.pages) slot }
    ensures { W.seen world.new
        ≡ spec.world_so_far image.now (W.seen world.old).size.frames (length image.now.pages) (slot + 1) }
{
    world.set_slot(FIRST, slot, first_slot(image.slots.as_slice(), slot));
}

/// What is in a slot at the start.
#[tactic(auto, unfolding(crate::specs::Start::first_slot))]
fn first_slot(slots: &[SlotImage], slot_number: u8) -> Lent<'_>
    ensures { descriptor_of result ≡ spec.first_slot slots.now slot_number }
{
    if slot_number < CONSOLES {
        return Lent::Console;
    }
    match slot_of(slots, slot_number) {
        Some(slot) => Lent::File {
            file: slot.file,
            at: 0,
        },
        None => Lent::Empty,
    }
}

/// The first of an image's slots with this number.
fn slot_of(slots: &[SlotImage], slot_number: u8) -> Option<SlotImage>
    ensures { result ≡ find (λ slot. slot.slot == slot_number) slots.now }
{
    slots.iter().copied().find(|slot| slot.slot == slot_number)
}
