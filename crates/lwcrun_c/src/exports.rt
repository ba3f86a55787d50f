//! The functions that C calls. `include/lwcrun.h` says what each wants and answers; a caller that passes what no Rust
//! reference may be, as a null pointer, breaks what every line here rests on.

ghost use Rattle.std.specs.Prelude.{◌≡◌, ◌≢◌, ◌<◌, ◌≤◌, ◌⊎◌, IfSome, None, Some, length, map};
ghost use Rattle.std.specs.Option.{option_map};
ghost use Rattle.kernel_core.specs.Kernel.{machine_of, view_of};
ghost use Rattle.lwc_types.specs.declared.page.TheConstants.{PAGE_BYTES};
ghost use Rattle.memory_lines.specs.Border.{AreText, line_of, named};
ghost use Rattle.memory_lines.specs.Lines.{IsAnswer};
ghost use Rattle.run_views.specs.Runs.{
  MayRefuse,
  Sees,
  SaysWhy,
  page_at,
  slot_in,
  slot_of,
  state_of,
  totals_of,
  world_of,
};
ghost use Rattle.lwcrun_line.specs.Lines.{RunsThreads, command_of};

use lazy_world::LazyWorld;
use lwc_base::Name;
use memory_lines::{Answer, Bytes, FileBytes, outcome, put_answer};
use run_views::{
    Run, RunError, SlotState, ThreadState, Totals, copy_page_of_run, slot_of_run, thread_of_run,
    totals_of_run,
};
use std::alloc::Global;

/// Carries out a line, its words from the mode on, over files in memory. Answers its exit status, 0 to 7, and puts
/// there what it wrote and its message. At 1, where memory ran out, at 8, where the line runs threads, and at 9, where
/// a word or a name is not UTF-8, the answer is unchanged.
#[unsafe(no_mangle)]
pub extern "C" fn lwcrun_c_line(
    alloc: Global,
    words: &[Bytes<'_>],
    files: &[FileBytes<'_>],
    answer: &mut Answer<'_>,
) -> u32
    ensures answered { result < 8 → result ≢ 1
        → IsAnswer (line_of words.now)
        (map named files.now) result answer.new.output.now answer.new.message.now }
    ensures statuses { result ≤ 9 }
    ensures threads { result ≡ 8 → IfSome (command_of (line_of words.now)) RunsThreads }
    ensures text { result ≡ 9 → AreText words.now files.now → ⊥ }
    ensures unchanged { (result ≡ 1) ⊎ (8 ≤ result) → answer.new ≡ answer.old }
{
    match outcome(alloc, words, files) {
        Ok(outcome) => put_answer(outcome, answer),
        Err(error) => error.number(),
    }
}

/// Puts there the size of a run. Answers 0, or why not, and then nothing is put.
#[unsafe(no_mangle)]
pub extern "C" fn lwcrun_c_totals(alloc: Global, run: &Run<'_>, totals: &mut Totals) -> u32
    ensures seen { result ≡ 0 → Sees run.now (λ k. totals.new ≡ totals_of k) }
    ensures refused { SaysWhy result (MayRefuse run.now) }
    ensures unchanged { result ≢ 0 → totals.new ≡ totals.old }
{
    match totals_of_run::<LazyWorld>(alloc, run) {
        Ok(found) => {
            *totals = found;
            0
        }
        Err(error) => error.number(),
    }
}

/// Puts there a thread of a run. Answers 0, or why not, and then nothing is put.
#[unsafe(no_mangle)]
pub extern "C" fn lwcrun_c_thread(
    alloc: Global,
    run: &Run<'_>,
    thread: u32,
    state: &mut ThreadState,
) -> u32
    ensures seen { result ≡ 0
        → Sees run.now (λ k. option_map state_of (view_of (machine_of k) thread) ≡ Some state.new) }
    ensures refused { SaysWhy result (λ error. (error ≢ RunError.Missing → MayRefuse run.now error)
        × (error ≡ RunError.Missing → Sees run.now (λ k. view_of (machine_of k) thread ≡ None))) }
    ensures unchanged { result ≢ 0 → state.new ≡ state.old }
{
    match thread_of_run::<LazyWorld>(alloc, run, thread) {
        Ok(found) => {
            *state = found;
            0
        }
        Err(error) => error.number(),
    }
}

/// Copies the bytes of a page of the context of the name `job`:`context`. Answers 0, or why not, and then nothing is
/// copied.
#[unsafe(no_mangle)]
pub extern "C" fn lwcrun_c_page(
    alloc: Global,
    run: &Run<'_>,
    job: u32,
    context: u32,
    page: u32,
    bytes: &mut [u8],
) -> u32
    ensures seen { result ≡ 0 → Sees run.now (λ k.
        page_at (world_of k) (record { job = job; k = context }) page ≡ Some bytes.new) }
    ensures refused { SaysWhy result (λ error.
        (error ≢ RunError.Missing → error ≢ RunError.Length → MayRefuse run.now error)
        × (error ≡ RunError.Missing → Sees run.now (λ k.
        page_at (world_of k) (record { job = job; k = context }) page ≡ None))
        × (error ≡ RunError.Length → length bytes.old ≢ PAGE_BYTES)) }
    ensures unchanged { result ≢ 0 → bytes.new ≡ bytes.old }
{
    match copy_page_of_run::<LazyWorld>(alloc, run, Name { job, k: context }, page, bytes) {
        Ok(()) => 0,
        Err(error) => error.number(),
    }
}

/// Puts there what is in a slot of the context of the name `job`:`context`. Answers 0, or why not, and then nothing is
/// put.
#[unsafe(no_mangle)]
pub extern "C" fn lwcrun_c_slot(
    alloc: Global,
    run: &Run<'_>,
    job: u32,
    context: u32,
    slot: u32,
    state: &mut SlotState,
) -> u32
    ensures seen { result ≡ 0 → Sees run.now (λ k.
        option_map slot_of (slot_in (world_of k) (record { job = job; k = context }) slot) ≡ Some state.new) }
    ensures refused { SaysWhy result (λ error. (error ≢ RunError.Missing → MayRefuse run.now error)
        × (error ≡ RunError.Missing → Sees run.now (λ k.
        slot_in (world_of k) (record { job = job; k = context }) slot ≡ None))) }
    ensures unchanged { result ≢ 0 → state.new ≡ state.old }
{
    match slot_of_run::<LazyWorld>(alloc, run, Name { job, k: context }, slot) {
        Ok(found) => {
            *state = found;
            0
        }
        Err(error) => error.number(),
    }
}
