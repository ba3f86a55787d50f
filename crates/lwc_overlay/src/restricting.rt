ghost use Rattle.std.specs.Prelude.{◌≡◌};
ghost use Rattle.lwc_base.specs.Life.{HasItsContexts};
ghost use Rattle.lwc_overlay.specs.Named.{IfRefused};
ghost use Rattle.lwc_overlay.specs.RestrictCall as spec;
ghost use Rattle.world_face.specs.Calls.{IsLive};

use crate::naming::named;
use access_cap::meet_granted;
use guest_call::with_answer;
use lwc_base::{Answer, Grant, Lent, Name, Regs, SlotNumber};
use res_spec::SpecCall;
use world_face::World;

/// Takes from the capability in the slot in r1 the keys that no item names. The items are those by r2 and
/// r3 (`restrict`). A refusal changes nothing.
#[tactic(auto, unfolding(crate::specs::RestrictCall::restrict, crate::specs::RestrictCall::refusals))]
pub fn restrict<W: World>(world: &mut W, context: Name, regs: &Regs) -> Answer
    requires live { IsLive (W.seen world.old) context }
    requires named { HasItsContexts (W.seen world.old) }
    ensures done { spec.restrict (W.seen world.old) context regs.now ≡ (result, W.seen world.new) }
    ensures refused { IfRefused result (W.seen world.new ≡ W.seen world.old) }
{
    match named(world, context, SpecCall::Restrict, regs) {
        Ok(((name, keys), items)) => {
            let cap = meet_granted(keys, &items);
            let keys = Grant::Of(&cap);
            world.set_slot(context, regs.r[1] as SlotNumber, Lent::Ctx { name, keys });
            Answer::Done(with_answer(regs, 0))
        }
        Err(refusal) => Answer::Refused(refusal),
    }
}
