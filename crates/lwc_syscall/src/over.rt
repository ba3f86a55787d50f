ghost use Rattle.std.specs.Prelude.{◌≡◌, None, Some, true, IfErr, IfOk, IsOk, OnErr, slice_index};
ghost use Rattle.lwc_base.specs.Channels.{HasItsFiles};
ghost use Rattle.lwc_base.specs.Life.{HasItsContexts};
ghost use Rattle.lwc_base.specs.Refusals.{first_refusal};
ghost use Rattle.lwc_syscall.specs.Syscall as spec;
ghost use Rattle.world_face.specs.Calls.{IsLive, MayName};

use crate::answer::CallAnswer;
use crate::calls::{CallContexts, plain};
use crate::plain_call::PlainCall;
use access_cap::{Mask, grants_kinds};
use guest_call::context_for;
use lwc_base::{Channels, Kind, Name, OutOfMemory, Refusal, Regs};
use world_face::World;

/// Makes a plain call for a context and a job, over the contexts that the mask in r2 chooses: what it
/// chooses is taken from the context that the slot in r1 names, and the rest from `context` (`lw_syscall`). The
/// only error is out of memory, and then nothing has changed.
#[tactic(auto, unfolding(crate::specs::Syscall::lw_syscall))]
pub fn lw_syscall<W: World>(
    world: &mut W,
    io: &mut Channels,
    context: Name,
    job: u32,
    regs: &Regs,
) -> Result<CallAnswer, OutOfMemory>
    requires live { IsLive (W.seen world.old) context }
    requires named { HasItsContexts (W.seen world.old) }
    requires may { MayName (W.seen world.old) job }
    requires files { HasItsFiles io.old (W.seen world.old) }
    ensures done { IfOk result (λ answer. spec.lw_syscall (W.seen world.old) io.old context job regs.now
        ≡ record { answer = answer; world = W.seen world.new; io = io.new }) }
    ensures err { OnErr result (W.seen world.new ≡ W.seen world.old) }
    ensures err_io { OnErr result (io.new ≡ io.old) }
    ensures ample { W.roomy ≡ true → IsOk result }
{
    let targets = match chosen(world, context, regs) {
        Ok(targets) => targets,
        Err(refusal) => return Ok(CallAnswer::Refused(refusal)),
    };
    let args = [regs.r[4], regs.r[5], regs.r[6]];
    plain(
        world,
        io,
        &targets,
        job,
        PlainCall::from_number(regs.r[3]),
        args,
    )
}

/// The contexts of the inner call, or the first refusal before it is looked at.
#[tactic(auto, unfolding(crate::specs::Syscall::refusals))]
fn chosen<W: World>(world: &W, context: Name, regs: &Regs) -> Result<CallContexts, Refusal>
    requires live { IsLive (W.seen world.now) context }
    requires named { HasItsContexts (W.seen world.now) }
    ensures refused { IfErr result (λ refusal.
        first_refusal (spec.refusals (W.seen world.now) context regs.now) ≡ Some refusal) }
    ensures passed { IfOk result (λ targets.
        first_refusal (spec.refusals (W.seen world.now) context regs.now) ≡ None) }
    ensures targets { IfOk result (λ targets. targets ≡ spec.targets_of (W.seen world.now) context regs.now) }
    ensures memory { IfOk result (λ targets. IsLive (W.seen world.now) targets.memory) }
    ensures slots { IfOk result (λ targets. IsLive (W.seen world.now) targets.slots) }
    ensures cred { IfOk result (λ targets. IsLive (W.seen world.now) targets.cred) }
{
    let (d, keys) = context_for(world, context, regs.r[1])?;
    let Some(mask) = Mask::from_bits(regs.r[2]) else {
        return Err(Refusal::BadMode);
    };
    if !grants_kinds(keys, mask, world.pages()) {
        return Err(Refusal::NotCovered);
    }
    if regs.r[3] < 1 || regs.r[3] > 9 {
        return Err(Refusal::BadCall);
    }
    let taken = |kind| if mask.chooses(kind) { d } else { context };
    Ok(CallContexts {
        memory: taken(Kind::Page),
        slots: taken(Kind::Slot),
        cred: taken(Kind::Cred),
    })
}
