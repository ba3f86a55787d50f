ghost use Rattle.std.specs.Prelude.{◌≡◌, ◌<◌, Some, true, IfNone, IfOk, IsOk, OnErr};
ghost use Rattle.lwc_base.specs.Lending.{keys_of};
ghost use Rattle.lwc_base.specs.Life.{HasItsContexts};
ghost use Rattle.lwc_base.specs.Modes.{IsSpec};
ghost use Rattle.lwc_base.specs.Refusals.{first_refusal};
ghost use Rattle.lwc_base.specs.World.{groups_of};
ghost use Rattle.lwc_types.specs.declared.limits.TheConstants.{MOST_GROUPS_OF_JOB};
ghost use Rattle.lwc_overlay.specs.Named.{IfRefused};
ghost use Rattle.lwc_overlay.specs.OverlayCall as spec;
ghost use Rattle.lwc_overlay.specs.OverlayCall.{MayTake};
ghost use Rattle.world_face.specs.Calls.{HasGroupPlace, IsLive, MayName};

use crate::naming::named;
use access_cap::grants;
use guest_call::{are_too_many, with_answer};
use lwc_base::{Answer, Grant, Items, MOST_GROUPS_OF_JOB, Name, OutOfMemory, Refusal, Regs};
use res_spec::SpecCall;
use world_face::World;

/// Takes over, for a job, what items name from the context that the slot in r1 has a descriptor of. The
/// items are those by r2 and r3 (`overlay`). The only error is out of memory, and then nothing has changed.
#[tactic(auto, unfolding(crate::specs::OverlayCall::overlay, crate::specs::OverlayCall::refusals))]
pub fn overlay<W: World>(
    world: &mut W,
    context: Name,
    job: u32,
    regs: &Regs,
) -> Result<Answer, OutOfMemory>
    requires live { IsLive (W.seen world.old) context }
    requires named { HasItsContexts (W.seen world.old) }
    requires may { MayName (W.seen world.old) job }
    requires place { groups_of (W.seen world.old) job < MOST_GROUPS_OF_JOB →
        HasGroupPlace (W.seen world.old) }
    ensures done { IfOk result (λ answer.
        spec.overlay (W.seen world.old) context job regs.now ≡ (answer, W.seen world.new)) }
    ensures refused { IfOk result (λ answer. IfRefused answer (W.seen world.new ≡ W.seen world.old)) }
    ensures err { OnErr result (W.seen world.new ≡ W.seen world.old) }
    ensures ample { W.roomy ≡ true → IsOk result }
{
    let ((giver, keys), items) = match named(world, context, SpecCall::Overlay, regs) {
        Ok(found) => found,
        Err(refusal) => return Ok(Answer::Refused(refusal)),
    };
    if let Some(refusal) = refusal_of(world, context, job, giver, keys, &items) {
        return Ok(Answer::Refused(refusal));
    }
    world.overlay(context, giver, &items, job)?;
    Ok(Answer::Done(with_answer(regs, 0)))
}

/// Why items may not be taken over from a context through a capability: the first refusal, if one holds.
#[tactic(auto, unfolding(crate::specs::OverlayCall::giver_refusals))]
fn refusal_of<W: World>(
    world: &W,
    context: Name,
    job: u32,
    giver: Name,
    keys: Grant<'_>,
    items: &Items,
) -> Option<Refusal>
    requires live { IsLive (W.seen world.now) context }
    requires giver { IsLive (W.seen world.now) giver }
    requires valid { IsSpec (W.seen world.now).size.pages items.now }
    ensures first { result
        ≡ first_refusal
        (spec.giver_refusals (W.seen world.now) context job (giver, keys_of keys.entry) items.now) }
    ensures none { IfNone result
        (MayTake (W.seen world.now) context job (giver, keys_of keys.entry) items.now) }
{
    if !grants(keys, items, world.pages()) {
        return Some(Refusal::NotCovered);
    }
    if world.needs_group(giver, items) && world.groups_of(job) >= MOST_GROUPS_OF_JOB {
        return Some(Refusal::TooManyGroups);
    }
    if are_too_many(world.ranges_after_overlay(context, giver, items)) {
        return Some(Refusal::TooManyRanges);
    }
    None
}
