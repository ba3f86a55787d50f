//! A request that is served alone.

ghost use Rattle.std.specs.Prelude.{◌≡◌, ◌∷◌, ◌++◌, ◌+◌, ◌<◌, ◌≤◌, [], IfOk, OnOk, false};
ghost use Rattle.std.specs.Option.{option_map};
ghost use Rattle.kernel_core.specs.Kernel.{CanOpen, machine_of};
ghost use Rattle.kernel_core.specs.Machine.{is_ended, work};
ghost use Rattle.kernel_core.specs.Start.{start};
ghost use Rattle.kernel_core.specs.declared.settings.Job.TheVariants as jobs;
ghost use Rattle.lwc_session.specs.Served as spec;

use crate::pages::{are_fitting, pages_in};
use guest_image::PageImage;
use guest_isa::Op;
use guest_machine::{Next, advance};
use kernel_core::{Kernel, ThreadView};
use lwc_base::{Name, OutOfMemory, ThreadStatus};
use std::alloc::Global;
use world_face::World;

/// The number of the call by which a thread exits.
const EXIT: u32 = 10;

/// The number of the call that makes another one, an exit too, over contexts of its choice.
const LW_SYSCALL: u32 = 20;

/// The context in which the one request of a serve begins.
const FIRST: Name = Name { job: 1, k: 0 };

/// Makes all steps of a kernel that serves one request by one worker. Answers the pages that the request
/// leaves, if it is kept. The only error is out of memory.
pub(crate) fn serve_alone<W: World>(
    alloc: Global,
    kernel: &mut Kernel<W>,
    frames: u32,
) -> Result<Option<Vec<PageImage>>, OutOfMemory>
    requires fresh { kernel.old.steps ≡ [] }
    requires worker { kernel.old.inputs.settings.job ≡ jobs.Serve 1 }
    requires frames { kernel.old.inputs.settings.frames ≡ frames }
    requires room { work (start kernel.old.inputs) ≤ kernel.old.room }
    ensures inputs { OnOk result (kernel.new.inputs ≡ kernel.old.inputs) }
    ensures steps { OnOk result (kernel.new.steps ≡ spec.history kernel.old.inputs) }
    ensures pages { IfOk result (λ pages.
        option_map (λ v. v.items) pages ≡ (spec.served kernel.old.inputs).pages) }
{
    kernel.was_opened();
    let mut kept = None;
    'steps: while !has_ended(kernel) {
        if let Some(pages) = next_step(alloc, kernel)? {
            kept = Some(pages);
        }
    }
    Ok(those_fitting(kept, frames))
}

/// Pages that an image may have, where there are no more of them than frames.
fn those_fitting(pages: Option<Vec<PageImage>>, frames: u32) -> Option<Vec<PageImage>>
    ensures { option_map (λ v. v.items) result ≡ spec.those_fitting frames (option_map (λ v. v.items) pages) }
{
    let pages = pages?;
    if are_fitting(pages.as_slice(), frames) {
        Some(pages)
    } else {
        None
    }
}

/// Whether the one worker has ended.
fn has_ended<W: World>(kernel: &Kernel<W>) -> bool
    requires { kernel.now.inputs.settings.job ≡ jobs.Serve 1 }
    ensures { result ≡ is_ended (machine_of kernel.now) 0 }
{
    match kernel.thread(0).status {
        ThreadStatus::Idle | ThreadStatus::Running => false,
        ThreadStatus::Done { .. } | ThreadStatus::Faulted { .. } => true,
    }
}

/// Makes the next step of the one worker. Answers the pages of the request's first context, if the request has ended
/// there with code 0 in this step. The only error is out of memory.
fn next_step<W: World>(
    alloc: Global,
    kernel: &mut Kernel<W>,
) -> Result<Option<Vec<PageImage>>, OutOfMemory>
    requires opened { CanOpen kernel.old.inputs }
    requires worker { kernel.old.inputs.settings.job ≡ jobs.Serve 1 }
    requires goes_on { is_ended (machine_of kernel.old) 0 ≡ false }
    requires room { 0 < kernel.old.room }
    ensures inputs { OnOk result (kernel.new.inputs ≡ kernel.old.inputs) }
    ensures steps { OnOk result (kernel.new.steps ≡ kernel.old.steps ++ 0 ∷ []) }
    ensures room { OnOk result (kernel.old.room ≤ kernel.new.room + 1) }
    ensures work { OnOk result (work (machine_of kernel.new) < work (machine_of kernel.old)) }
    ensures pages { IfOk result (λ pages.
        option_map (λ v. v.items) pages ≡ spec.left_by (machine_of kernel.old)) }
{
    let view = kernel.thread(0);
    let advance = advance(kernel.text(), &view.regs);
    let pages = if may_end(&view, &advance.next) {
        Some(pages_in(alloc, kernel.world(), FIRST)?)
    } else {
        None
    };
    kernel.make_step(0, Some(&advance))?;
    if is_done(kernel.reply_status(0)) {
        Ok(pages)
    } else {
        Ok(None)
    }
}

/// Whether a request has ended with code 0.
fn is_done(status: Option<ThreadStatus>) -> bool
    ensures { result ≡ spec.is_done status }
{
    matches!(status, Some(ThreadStatus::Done { code: 0 }))
}

/// Whether a thread stands in the request's first context, and what comes next may end it with code 0.
fn may_end(view: &ThreadView, next: &Next) -> bool
    ensures { result ≡ spec.may_end view.now next.now }
{
    if view.status != ThreadStatus::Running
        || view.context.job != FIRST.job
        || view.context.k != FIRST.k
    {
        return false;
    }
    match next {
        Next::Shared(instruction) => match instruction.op {
            Op::Halt => true,
            Op::Sys => instruction.imm == EXIT || instruction.imm == LW_SYSCALL,
            _ => false,
        },
        Next::Pause | Next::BadPc => false,
    }
}
