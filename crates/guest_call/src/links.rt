ghost use Rattle.std.specs.Prelude.{◌≡◌, ◌<◌, ◌++◌, Bool, List, Some, IfErr, IfOk};
ghost use Rattle.guest_call.specs.Guest.{descriptor_for, link_of, slot_refusals};
ghost use Rattle.lwc_base.specs.Lending.{descriptor_of, keys_of};
ghost use Rattle.lwc_base.specs.Life.{HasItsContexts};
ghost use Rattle.lwc_base.specs.Refusals.{first_refusal};
ghost use Rattle.lwc_types.specs.declared.key.TheConstants.{SLOTS};
ghost use Rattle.lwc_types.specs.declared.refusal.Refusal.{Refusal};
ghost use Rattle.world_face.specs.Calls.{IsLive};

use lwc_base::{Grant, Lent, Name, Refusal, SLOTS, SlotNumber};
use world_face::World;

/// The context that the slot of a number has a descriptor of, with the keys of its capability. It is live.
///
/// # Errors
///
/// `BadFd` if no slot has the number or the slot is empty, else `WrongKind` if its descriptor is of no
/// context (`slot_refusals`). Rows that follow these two in a call's table decide only where neither holds.
#[tactic(auto, unfolding(crate::specs::Guest::slot_refusals))]
pub fn context_for<W: World>(
    world: &W,
    context: Name,
    number: u64,
) -> Result<(Name, Grant<'_>), Refusal>
    requires live { IsLive (W.seen world.now) context }
    requires named { HasItsContexts (W.seen world.now) }
    ensures refused { IfErr result (λ refusal. (rows : List (Bool × Refusal)) →
        first_refusal (slot_refusals (W.seen world.now) context number ++ rows) ≡ Some refusal) }
    ensures passed { IfOk result (λ link. (rows : List (Bool × Refusal)) →
        first_refusal (slot_refusals (W.seen world.now) context number ++ rows) ≡ first_refusal rows) }
    ensures within { IfOk result (λ link. number < SLOTS) }
    ensures link { IfOk result (λ link.
        link_of (descriptor_for (W.seen world.now) context number) ≡ Some (link.0, keys_of link.1)) }
    ensures target { IfOk result (λ link. IsLive (W.seen world.now) link.0) }
{
    match descriptor_for(world, context, number) {
        Lent::Empty => Err(Refusal::BadFd),
        Lent::Ctx { name, keys } => Ok((name, keys)),
        _ => Err(Refusal::WrongKind),
    }
}

/// What is in the slot of a number, lent; nothing where no slot has that number.
#[tactic(auto, unfolding(crate::specs::Guest::descriptor_for))]
pub fn descriptor_for<W: World>(world: &W, context: Name, number: u64) -> Lent<'_>
    requires live { IsLive (W.seen world.now) context }
    ensures { descriptor_of result ≡ descriptor_for (W.seen world.now) context number }
{
    if number < u64::from(SLOTS) {
        world.slot(context, number as SlotNumber)
    } else {
        Lent::Empty
    }
}
