ghost use Rattle.std.specs.Prelude.{◌≡◌, ◌<◌, ◌≤◌, IfSome, is_none, length};
ghost use Rattle.guest_call.specs.Guest.{descriptor_for};
ghost use Rattle.lwc_base.specs.Channels.{Channels, HasItsFiles, IsInRange};
ghost use Rattle.lwc_base.specs.Lending.{descriptor_of};
ghost use Rattle.lwc_base.specs.Summaries.{is_empty};
ghost use Rattle.lwc_types.specs.declared.key.TheConstants.{SLOTS};
ghost use Rattle.lwc_types.specs.declared.limits.TheConstants.{MOST_FILES};
ghost use Rattle.lwc_syscall.specs.Plain as spec;
ghost use Rattle.world_face.specs.Calls.{IsLive};

use crate::answer::CallAnswer;
use crate::calls::CallContexts;
use guest_call::descriptor_for;
use lwc_base::{FileImage, Lent, Name, Refusal, SlotNumber, may_open};
use world_face::World;

/// Opens a file: the lowest empty slot gets a descriptor of it.
pub fn open<W: World>(
    world: &mut W,
    files: &[FileImage],
    targets: &CallContexts,
    file: u64,
) -> CallAnswer
    requires slots { IsLive (W.seen world.old) targets.now.slots }
    requires cred { IsLive (W.seen world.old) targets.now.cred }
    requires few { length files.now ≤ MOST_FILES }
    ensures { (io : Channels) → io.files ≡ files.now → spec.opening (W.seen world.old) io targets.now file
        ≡ record { answer = result; world = W.seen world.new; io = io } }
{
    if file >= files.len() as u64 {
        return CallAnswer::Refused(Refusal::NoFile);
    }
    let found = &files[file as usize];
    if !may_open(world.uid(targets.cred), found.owner, found.public) {
        return CallAnswer::Refused(Refusal::NotPermitted);
    }
    let file = file as u8;
    place(world, targets.slots, Lent::File { file, at: 0 })
}

/// Empties a slot.
pub fn close<W: World>(world: &mut W, slots: Name, number: u64) -> CallAnswer
    requires { IsLive (W.seen world.old) slots }
    ensures { (io : Channels) → spec.closing (W.seen world.old) io slots number
        ≡ record { answer = result; world = W.seen world.new; io = io } }
{
    let Some((slot, _)) = filled_slot(world, slots, number) else {
        return CallAnswer::Refused(Refusal::BadFd);
    };
    world.set_slot(slots, slot, Lent::Empty);
    CallAnswer::Value(0)
}

/// Copies what is in a slot into the lowest empty one.
#[tactic(auto, unfolding(guest_call::specs::Guest::descriptor_for))]
pub fn dup<W: World>(world: &mut W, slots: Name, number: u64) -> CallAnswer
    requires { IsLive (W.seen world.old) slots }
    ensures { (io : Channels) → spec.copying (W.seen world.old) io slots number
        ≡ record { answer = result; world = W.seen world.new; io = io } }
{
    let Some((from, _)) = filled_slot(world, slots, number) else {
        return CallAnswer::Refused(Refusal::BadFd);
    };
    let Some(to) = world.lowest_empty(slots) else {
        return CallAnswer::Refused(Refusal::NoSlot);
    };
    world.dup_slot(slots, from, to);
    CallAnswer::Value(u64::from(to))
}

/// The slot of a number and the descriptor in it, lent; `None` if no slot has the number or the slot is empty.
#[tactic(auto, unfolding(guest_call::specs::Guest::descriptor_for))]
pub(crate) fn filled_slot<W: World>(
    world: &W,
    slots: Name,
    number: u64,
) -> Option<(SlotNumber, Lent<'_>)>
    requires { IsLive (W.seen world.now) slots }
    ensures empty { is_none result ≡ is_empty (descriptor_for (W.seen world.now) slots number) }
    ensures slot { IfSome result (λ found. (found.0 ≡ number) × (number < SLOTS)) }
    ensures value { IfSome result
        (λ found. descriptor_of found.1 ≡ descriptor_for (W.seen world.now) slots number) }
    ensures range { IfSome result (λ found. (io : Channels) → HasItsFiles io (W.seen world.now) →
        IsInRange io (descriptor_of found.1)) }
{
    match descriptor_for(world, slots, number) {
        Lent::Empty => None,
        value => Some((number as SlotNumber, value)),
    }
}

/// Puts a descriptor into the lowest empty slot.
fn place<W: World>(world: &mut W, slots: Name, value: Lent<'_>) -> CallAnswer
    requires { IsLive (W.seen world.old) slots }
    ensures { (io : Channels) → spec.ended (W.seen world.old) io
        (spec.place_refusals (W.seen world.old) slots)
        (spec.placed (W.seen world.old) io slots (descriptor_of value.entry))
        ≡ record { answer = result; world = W.seen world.new; io = io } }
{
    let Some(n) = world.lowest_empty(slots) else {
        return CallAnswer::Refused(Refusal::NoSlot);
    };
    world.set_slot(slots, n, value);
    CallAnswer::Value(u64::from(n))
}
