ghost use Rattle.std.specs.Prelude.{◌≡◌, ◌<◌, Some, None, IfErr, IfOk};
ghost use Rattle.lwc_base.specs.Life.{HasItsContexts};
ghost use Rattle.lwc_base.specs.Refusals.{first_refusal};
ghost use Rattle.lwc_base.specs.Saved.{entered};
ghost use Rattle.lwc_base.specs.Slots.{lowest_empty};
ghost use Rattle.lwc_base.specs.World.{context};
ghost use Rattle.lwc_types.specs.declared.key.TheConstants.{SLOTS};
ghost use Rattle.lwc_types.specs.declared.limits.TheConstants.{MOST_THREADS};
ghost use Rattle.lwc_switch.specs.Switch as spec;
ghost use Rattle.lwc_switch.specs.Switch.{IfRefused};
ghost use Rattle.world_face.specs.Calls.{IsLive};

use guest_call::{context_for, with_answer};
use lwc_base::{Grant, Lent, Moved, Name, Refusal, Regs, SlotNumber};
use world_face::World;

/// Takes a thread from a context to the context that the slot in r1 has a descriptor of, with r2 as the
/// argument. The registers are those at the call (`switch`). A refusal changes nothing.
#[tactic(auto, unfolding(crate::specs::Switch::switch))]
pub fn switch<W: World>(world: &mut W, from: Name, thread: u32, regs: &Regs) -> Moved
    requires live { IsLive (W.seen world.old) from }
    requires thread { thread < MOST_THREADS }
    requires named { HasItsContexts (W.seen world.old) }
    ensures done { spec.switch (W.seen world.old) from thread regs.now ≡ (result, W.seen world.new) }
    ensures refused { IfRefused result (W.seen world.new ≡ W.seen world.old) }
{
    let (target, slot) = match allowed(world, from, regs) {
        Ok(found) => found,
        Err(refusal) => return Moved::Refused(refusal),
    };
    Moved::To {
        context: target,
        regs: enter(world, from, thread, regs, target, slot, regs.r[2]),
    }
}

/// Takes a thread, with these registers, from a context to the context `target`. The registers are kept in the
/// first one, and the slot of the target gets a descriptor of it without a key. Answers the registers that the
/// thread goes on with: the slot's number is in r1, and the argument in r2.
#[tactic(auto, using(crate::proofs::Saving::live_after_save))]
pub fn enter<W: World>(
    world: &mut W,
    context: Name,
    thread: u32,
    regs: &Regs,
    target: Name,
    slot: SlotNumber,
    argument: u64,
) -> Regs
    requires live { IsLive (W.seen world.old) context }
    requires there { IsLive (W.seen world.old) target }
    requires thread { thread < MOST_THREADS }
    requires within { slot < SLOTS }
    ensures regs { result ≡ spec.entering (W.seen world.old) context thread regs.now target slot argument }
    ensures world { W.seen world.new ≡ spec.switched (W.seen world.old) context thread regs.now target slot }
{
    world.save(context, thread, &with_answer(regs, 0));
    let entered = entered(world, target, thread);
    let back = Lent::Ctx {
        name: context,
        keys: Grant::None,
    };
    world.set_slot(target, slot, back);
    arriving(&entered, slot, argument)
}

/// The target and its slot, or the first refusal.
#[tactic(auto, unfolding(crate::specs::Switch::refusals, crate::specs::Switch::target))]
fn allowed<W: World>(world: &W, context: Name, regs: &Regs) -> Result<(Name, u8), Refusal>
    requires live { IsLive (W.seen world.now) context }
    requires named { HasItsContexts (W.seen world.now) }
    ensures refused { IfErr result (λ refusal.
        first_refusal (spec.refusals (W.seen world.now) context regs.now) ≡ Some refusal) }
    ensures passed { IfOk result (λ found.
        first_refusal (spec.refusals (W.seen world.now) context regs.now) ≡ None) }
    ensures target { IfOk result (λ found. found.0 ≡ spec.target (W.seen world.now) context regs.now) }
    ensures live { IfOk result (λ found. IsLive (W.seen world.now) found.0) }
    ensures lowest { IfOk result (λ found. lowest_empty (W.seen world.now) found.0 ≡ Some found.1) }
{
    let (target, _) = context_for(world, context, regs.r[1])?;
    match world.lowest_empty(target) {
        Some(slot) => Ok((target, slot)),
        None => Err(Refusal::NoSlotThere),
    }
}

/// The registers that a thread enters a context with: those that the context keeps for it, else those that
/// it begins with.
fn entered<W: World>(world: &W, target: Name, thread: u32) -> Regs
    requires live { IsLive (W.seen world.now) target }
    requires thread { thread < MOST_THREADS }
    ensures { result ≡ entered (context (W.seen world.now) target) thread }
{
    match world.saved(target, thread) {
        Some(saved) => saved,
        None => world.entry(target),
    }
}

/// The registers that a thread arrives with: the slot's number is in r1, and the argument in r2.
fn arriving(regs: &Regs, slot: SlotNumber, argument: u64) -> Regs
    ensures { result ≡ spec.arriving regs.now slot argument }
{
    let mut r = regs.r;
    r[1] = u64::from(slot);
    r[2] = argument;
    Regs { r, pc: regs.pc }
}
