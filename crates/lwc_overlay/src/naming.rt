ghost use Rattle.std.specs.Prelude.{◌≡◌, ◌<◌, Bool, List, Some, IfErr, IfOk, slice_index};
ghost use Rattle.lwc_base.specs.Lending.{keys_of};
ghost use Rattle.lwc_base.specs.Life.{HasItsContexts};
ghost use Rattle.lwc_base.specs.Modes.{IsSpec};
ghost use Rattle.lwc_base.specs.Refusals.{first_refusal};
ghost use Rattle.lwc_types.specs.declared.key.TheConstants.{SLOTS};
ghost use Rattle.lwc_types.specs.declared.refusal.Refusal.{Refusal};
ghost use Rattle.lwc_overlay.specs.Named.{items_of, link, refusals_before};
ghost use Rattle.world_face.specs.Calls.{IsLive};

use guest_call::{context_for, items_for};
use lwc_base::{Grant, Items, Name, Refusal, Regs};
use res_spec::SpecCall;
use world_face::World;

/// The context that the slot in r1 has a descriptor of, with the keys of its capability, and the items by r2 and r3, or
/// the first refusal of these.
#[tactic(auto, unfolding(crate::specs::Named::link))]
pub(crate) fn named<'w, W: World>(
    world: &'w W,
    context: Name,
    call: SpecCall,
    regs: &Regs,
) -> Result<((Name, Grant<'w>), Items), Refusal>
    requires live { IsLive (W.seen world.now) context }
    requires named { HasItsContexts (W.seen world.now) }
    ensures refused { IfErr result (λ refusal. (rows : List (Bool × Refusal)) →
        first_refusal (refusals_before (W.seen world.now) context call regs.now rows) ≡ Some refusal) }
    ensures passed { IfOk result (λ found. (rows : List (Bool × Refusal)) →
        first_refusal (refusals_before (W.seen world.now) context call regs.now rows) ≡ first_refusal rows) }
    ensures within { IfOk result (λ found. slice_index regs.now.r 1 < SLOTS) }
    ensures link { IfOk result (λ found.
        (found.0.0, keys_of found.0.1) ≡ link (W.seen world.now) context regs.now) }
    ensures giver { IfOk result (λ found. IsLive (W.seen world.now) found.0.0) }
    ensures items { IfOk result (λ found. found.1 ≡ items_of (W.seen world.now) context call regs.now) }
    ensures valid { IfOk result (λ found. IsSpec (W.seen world.now).size.pages found.1) }
{
    let link = context_for(world, context, regs.r[1])?;
    let mut items = Items::empty();
    items_for(world, context, call, regs.r[2], regs.r[3], &mut items)?;
    Ok((link, items))
}
