ghost use Rattle.std.specs.Prelude.{◌≡◌, [], Some, true, IfErr, IfOk, IsOk, OnErr};
ghost use Rattle.lwc_base.specs.Modes.{IsSpec};
ghost use Rattle.lwc_base.specs.Refusals.{first_refusal};
ghost use Rattle.lwc_create.specs.Create as spec;
ghost use Rattle.lwc_create.specs.Create.{HasPlaces, HasRoom, IfRefused, IsAllowed};
ghost use Rattle.world_face.specs.Calls.{IsLive, MayName};

use guest_call::{are_too_many, items_for};
use lwc_base::{
    Answer, Grant, Items, Lent, MOST_CONTEXTS_OF_JOB, MOST_GROUPS_OF_JOB, Name, OutOfMemory,
    Refusal, Regs,
};
use res_spec::SpecCall;
use world_face::World;

/// In r1 and in the new context's r0: there is no caller.
const NO_CALLER: u64 = u64::MAX;

/// Makes a new context from another, for a job. The registers are those at the call: r1 has the address
/// of the items, and r2 how many there are (`create`). The only error is out of memory, and then nothing has
/// changed.
#[tactic(auto, using(crate::proofs::Table::call_is))]
pub fn create<W: World>(
    world: &mut W,
    context: Name,
    job: u32,
    regs: &Regs,
) -> Result<Answer, OutOfMemory>
    requires live { IsLive (W.seen world.old) context }
    requires may { MayName (W.seen world.old) job }
    requires places { HasPlaces (W.seen world.old) job }
    ensures done { IfOk result (λ answer.
        spec.create (W.seen world.old) context job regs.now ≡ (answer, W.seen world.new)) }
    ensures refused { IfOk result (λ answer. IfRefused answer (W.seen world.new ≡ W.seen world.old)) }
    ensures err { OnErr result (W.seen world.new ≡ W.seen world.old) }
    ensures ample { W.roomy ≡ true → IsOk result }
{
    let mut items = Items::empty();
    let slot = match allowed(world, context, job, regs, &mut items) {
        Ok(slot) => slot,
        Err(refusal) => return Ok(Answer::Refused(refusal)),
    };
    let keys = Grant::All {
        pages: world.pages(),
    };
    let name = world.clone_context(context, &items, job, &after_call(regs, NO_CALLER))?;
    world.set_slot(context, slot, Lent::Ctx { name, keys });
    Ok(Answer::Done(after_call(regs, u64::from(slot))))
}

/// The slot for the descriptor of the new context, or the first refusal; the items that it is made with are read
/// into `items`.
fn allowed<W: World>(
    world: &W,
    context: Name,
    job: u32,
    regs: &Regs,
    items: &mut Items,
) -> Result<u8, Refusal>
    requires live { IsLive (W.seen world.now) context }
    requires none { items.old ≡ [] }
    ensures refused { IfErr result (λ refusal.
        first_refusal (spec.refusals (W.seen world.now) context job regs.now) ≡ Some refusal) }
    ensures passed { IfOk result (λ slot. IsAllowed (W.seen world.now) context job regs.now items.new slot) }
{
    items_for(
        world,
        context,
        SpecCall::Create,
        regs.r[1],
        regs.r[2],
        items,
    )?;
    room_for(world, context, job, items)
}

/// The slot for the descriptor of a context that is made by these items, or the first refusal.
#[tactic(auto, unfolding(crate::specs::Create::room_refusals))]
fn room_for<W: World>(world: &W, context: Name, job: u32, items: &Items) -> Result<u8, Refusal>
    requires live { IsLive (W.seen world.now) context }
    requires valid { IsSpec (W.seen world.now).size.pages items.now }
    ensures refused { IfErr result (λ refusal.
        first_refusal (spec.room_refusals (W.seen world.now) context job items.now) ≡ Some refusal) }
    ensures room { IfOk result (λ slot. HasRoom (W.seen world.now) context job items.now slot) }
{
    if world.live_of(job) >= MOST_CONTEXTS_OF_JOB {
        return Err(Refusal::TooManyContexts);
    }
    let Some(slot) = world.lowest_empty(context) else {
        return Err(Refusal::NoSlot);
    };
    if world.needs_group(context, items) && world.groups_of(job) >= MOST_GROUPS_OF_JOB {
        return Err(Refusal::TooManyGroups);
    }
    if are_too_many(world.ranges_after_clone(context, items)) {
        return Err(Refusal::TooManyRanges);
    }
    Ok(slot)
}

/// The registers after the call, with this value in r0.
fn after_call(regs: &Regs, value: u64) -> Regs
    ensures { result ≡ spec.after_call regs.now value }
{
    let mut r = regs.r;
    r[0] = value;
    r[1] = NO_CALLER;
    r[2] = 0;
    Regs {
        r,
        pc: regs.pc.wrapping_add(1),
    }
}
