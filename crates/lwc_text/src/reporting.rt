//! The report of a run.

ghost use Rattle.std.specs.Prelude.{◌≡◌, ◌++◌, [], IfOk, OnErr, OnOk, length, take};
ghost use Rattle.std.specs.FinMap as fm;
ghost use Rattle.kernel_core.specs.Kernel.{machine_of};
ghost use Rattle.kernel_core.specs.Runs.{frames_of, peak};
ghost use Rattle.kernel_core.specs.Start.{start};
ghost use Rattle.lwc_text.specs.Lines.{groups_line, tail_lines};
ghost use Rattle.lwc_text.specs.Report.{contexts_text, replies_text, report_after, rest_after, threads_text};

use crate::lines::{context_line, groups_line, reply_line, tail_lines, thread_lines};
use kernel_core::Kernel;
use lwc_base::OutOfMemory;
use std::alloc::Global;
use world_face::World;

/// The report of a run: its threads with their registers, its contexts, the number of live groups, the
/// replies to its requests, what was written to the console, the frames in use and the most that were,
/// and the steps that were kept. The only error is out of memory.
#[tactic(auto, unfolding(crate::specs::Report::report_of, kernel_core::specs::Kernel::machine_of))]
pub fn report<W: World>(alloc: Global, kernel: &Kernel<W>) -> Result<Vec<u8>, OutOfMemory>
    ensures exact { IfOk result (λ text. text.items ≡ report_after kernel.now.inputs kernel.now.steps) }
{
    let mut text = world_text(alloc, kernel)?;
    reply_lines(&mut text, kernel)?;
    last_lines(&mut text, kernel)?;
    Ok(text)
}

/// The report of a run without the lines of replies. The only error is out of memory.
#[tactic(auto, unfolding(crate::specs::Report::rest_of, kernel_core::specs::Kernel::machine_of))]
pub fn rest_of_report<W: World>(alloc: Global, kernel: &Kernel<W>) -> Result<Vec<u8>, OutOfMemory>
    ensures exact { IfOk result (λ text. text.items ≡ rest_after kernel.now.inputs kernel.now.steps) }
{
    let mut text = world_text(alloc, kernel)?;
    last_lines(&mut text, kernel)?;
    Ok(text)
}

/// The lines of all threads and contexts, and that of the groups.
fn world_text<W: World>(alloc: Global, kernel: &Kernel<W>) -> Result<Vec<u8>, OutOfMemory>
    ensures { IfOk result (λ text. text.items ≡ threads_text (machine_of kernel.now)
        ++ contexts_text (machine_of kernel.now).environment.world
        ++ groups_line (fm.len (machine_of kernel.now).environment.world.groups)) }
{
    let world = kernel.world();
    let mut text = threads_text(alloc, kernel)?;
    context_lines(&mut text, world)?;
    groups_line(&mut text, world.group_count())?;
    Ok(text)
}

/// Appends the last five lines.
fn last_lines<W: World>(out: &mut Vec<u8>, kernel: &Kernel<W>) -> Result<(), OutOfMemory>
    ensures { OnOk result (out.new.items ≡ out.old.items
        ++ tail_lines (machine_of kernel.now).environment.channels.console (frames_of (machine_of kernel.now))
        (peak (start kernel.now.inputs) kernel.now.steps) kernel.now.steps) }
{
    tail_lines(
        out,
        kernel.channels().console(),
        kernel.world().used(),
        kernel.peak(),
        kernel.schedule(),
    )
}

/// The lines of all threads.
#[tactic(auto, using(crate::proofs::Machines::more_threads), unfolding(crate::specs::Report::threads_text))]
fn threads_text<W: World>(alloc: Global, kernel: &Kernel<W>) -> Result<Vec<u8>, OutOfMemory>
    ensures { IfOk result (λ text. text.items ≡ threads_text (machine_of kernel.now)) }
{
    let mut text = Vec::new(alloc);
    'threads: for t in 0..kernel.thread_count() {
        thread_lines(&mut text, t, &kernel.thread(t))?;
    }
    Ok(text)
}

/// Appends the lines of all contexts, in the order of their names. The only error is out of memory, and nothing is
/// appended then.
pub fn context_lines<W: World>(out: &mut Vec<u8>, world: &W) -> Result<(), OutOfMemory>
    ensures ok { OnOk result (out.new.items ≡ out.old.items ++ contexts_text (W.seen world.now)) }
    ensures err { OnErr result (out.new.items ≡ out.old.items) }
{
    let before = out.len();
    let appended = each_context_line(out, world);
    if appended.is_err() {
        out.truncate(before);
    }
    appended
}

/// Appends the lines of all contexts. After an error there are some of them.
#[tactic(auto, using(crate::proofs::Machines::live_names), unfolding(crate::specs::Report::contexts_text))]
fn each_context_line<W: World>(out: &mut Vec<u8>, world: &W) -> Result<(), OutOfMemory>
    ensures ok { OnOk result (out.new.items ≡ out.old.items ++ contexts_text (W.seen world.now)) }
    ensures err { OnErr result (take (length out.old.items) out.new.items ≡ out.old.items) }
{
    'contexts: for i in 0..world.context_count() {
        let Some(name) = world.nth_context(i) else {
            unreachable!();
        };
        context_line(out, name, &world.summary(name))?;
    }
    Ok(())
}

/// Appends the lines of the replies to all requests.
#[tactic(auto, using(crate::proofs::Machines::more_replies), unfolding(crate::specs::Report::replies_text))]
fn reply_lines<W: World>(out: &mut Vec<u8>, kernel: &Kernel<W>) -> Result<(), OutOfMemory>
    ensures { OnOk result (out.new.items ≡ out.old.items ++ replies_text (machine_of kernel.now)) }
{
    'requests: for r in 0..kernel.request_count() as u16 {
        reply_line(out, r, kernel.reply(r))?;
    }
    Ok(())
}
