//! What can be seen of a run.

ghost use Rattle.std.specs.Prelude.{◌≡◌, ◌≢◌, Err, IfErr, IfOk, None, OnErr, OnOk, Some, length};
ghost use Rattle.std.specs.Option.{option_map};
ghost use Rattle.kernel_core.specs.Kernel.{machine_of, view_of};
ghost use Rattle.lwc_types.specs.declared.page.TheConstants.{PAGE_BYTES};
ghost use Rattle.run_views.specs.Runs.{MayRefuse, Sees, page_at, slot_in, slot_of, state_of, totals_of, world_of};

use crate::runs::{Run, RunError};
use crate::shapes::{SlotState, ThreadState, Totals};
use kernel_core::Kernel;
use lwc_base::{Name, PAGE_BYTES, SLOTS};
use lwc_debug::is_live;
use std::alloc::Global;
use world_face::World;

/// The totals of a run.
pub fn totals_of_run<W: World>(alloc: Global, run: &Run<'_>) -> Result<Totals, RunError>
    ensures totals { IfOk result (λ totals. Sees run.now (λ k. totals ≡ totals_of k)) }
    ensures refused { IfErr result (MayRefuse run.now) }
{
    let kernel = run.kernel::<W>(alloc)?;
    Ok(totals(&kernel))
}

/// The thread of this number of a run.
///
/// # Errors
///
/// `Missing` where there is none, or why there is no run.
pub fn thread_of_run<W: World>(
    alloc: Global,
    run: &Run<'_>,
    thread_number: u32,
) -> Result<ThreadState, RunError>
    ensures state { IfOk result (λ state.
        Sees run.now (λ k. option_map state_of (view_of (machine_of k) thread_number) ≡ Some state)) }
    ensures missing { result ≡ Err RunError.Missing
        → Sees run.now (λ k. view_of (machine_of k) thread_number ≡ None) }
    ensures refused { IfErr result (λ error. error ≢ RunError.Missing → MayRefuse run.now error) }
{
    let kernel = run.kernel::<W>(alloc)?;
    thread(&kernel, thread_number)
}

/// Copies the bytes of a page of a context of a run.
///
/// # Errors
///
/// Those of `copy_page`, or why there is no run. The buffer is unchanged then.
pub fn copy_page_of_run<W: World>(
    alloc: Global,
    run: &Run<'_>,
    name: Name,
    page: u32,
    bytes: &mut [u8],
) -> Result<(), RunError>
    ensures page { OnOk result (Sees run.now (λ k. page_at (world_of k) name page ≡ Some bytes.new)) }
    ensures missing { result ≡ Err RunError.Missing
        → Sees run.now (λ k. page_at (world_of k) name page ≡ None) }
    ensures length { result ≡ Err RunError.Length → length bytes.old ≢ PAGE_BYTES }
    ensures refused { IfErr result (λ error. error ≢ RunError.Missing → error ≢ RunError.Length
        → MayRefuse run.now error) }
    ensures error { OnErr result (bytes.new ≡ bytes.old) }
{
    let kernel = run.kernel::<W>(alloc)?;
    copy_page(&kernel, name, page, bytes)
}

/// What is in a slot of a context of a run.
///
/// # Errors
///
/// Those of `slot`, or why there is no run.
pub fn slot_of_run<W: World>(
    alloc: Global,
    run: &Run<'_>,
    name: Name,
    slot_number: u32,
) -> Result<SlotState, RunError>
    ensures state { IfOk result (λ state.
        Sees run.now (λ k. option_map slot_of (slot_in (world_of k) name slot_number) ≡ Some state)) }
    ensures missing { result ≡ Err RunError.Missing
        → Sees run.now (λ k. slot_in (world_of k) name slot_number ≡ None) }
    ensures refused { IfErr result (λ error. error ≢ RunError.Missing → MayRefuse run.now error) }
{
    let kernel = run.kernel::<W>(alloc)?;
    slot(&kernel, name, slot_number)
}

/// The totals.
fn totals<W: World>(kernel: &Kernel<W>) -> Totals
    ensures { result ≡ totals_of kernel.now }
{
    Totals {
        threads: kernel.thread_count(),
        steps: kernel.schedule().len() as u32,
        work: kernel.work(),
        contexts: kernel.world().context_count(),
        frames: kernel.world().used(),
        peak: kernel.peak(),
    }
}

/// The thread of this number.
///
/// # Errors
///
/// `Missing` where there is none.
#[tactic(auto, using(lwc_debug::proofs::Living::no_view))]
fn thread<W: World>(kernel: &Kernel<W>, thread_number: u32) -> Result<ThreadState, RunError>
    ensures state { IfOk result
        (λ state. option_map state_of (view_of (machine_of kernel.now) thread_number) ≡ Some state) }
    ensures missing { IfErr result (λ error.
        (error ≡ RunError.Missing) × (view_of (machine_of kernel.now) thread_number ≡ None)) }
{
    if thread_number >= kernel.thread_count() {
        return Err(RunError::Missing);
    }
    Ok(ThreadState::of(&kernel.thread(thread_number)))
}

/// Copies the bytes of a page of the context of this name.
///
/// # Errors
///
/// `Missing` where the context is not live or the page is absent, `Length` where the buffer is not as long as a page.
/// The buffer is unchanged then.
fn copy_page<W: World>(
    kernel: &Kernel<W>,
    name: Name,
    page: u32,
    bytes: &mut [u8],
) -> Result<(), RunError>
    ensures page { OnOk result (page_at (world_of kernel.now) name page ≡ Some bytes.new) }
    ensures missing { result ≡ Err RunError.Missing → page_at (world_of kernel.now) name page ≡ None }
    ensures length { result ≡ Err RunError.Length → length bytes.old ≢ PAGE_BYTES }
    ensures only { IfErr result (λ error. error ≢ RunError.Missing → error ≡ RunError.Length) }
    ensures error { OnErr result (bytes.new ≡ bytes.old) }
{
    if bytes.len() != PAGE_BYTES {
        return Err(RunError::Length);
    }
    let world = kernel.world();
    if !is_live(world, name) || page >= u32::from(world.pages()) {
        return Err(RunError::Missing);
    }
    if world.bytes(name, page * PAGE_BYTES as u32, bytes) {
        Ok(())
    } else {
        Err(RunError::Missing)
    }
}

/// What is in a slot of the context of this name.
///
/// # Errors
///
/// `Missing` where the context is not live, or a context has no slot of this number.
fn slot<W: World>(kernel: &Kernel<W>, name: Name, slot_number: u32) -> Result<SlotState, RunError>
    ensures state { IfOk result
        (λ state. option_map slot_of (slot_in (world_of kernel.now) name slot_number) ≡ Some state) }
    ensures missing { IfErr result (λ error.
        (error ≡ RunError.Missing) × (slot_in (world_of kernel.now) name slot_number ≡ None)) }
{
    let world = kernel.world();
    if !is_live(world, name) || slot_number >= u32::from(SLOTS) {
        return Err(RunError::Missing);
    }
    Ok(SlotState::of(world.slot(name, slot_number as u8)))
}
