ghost use Rattle.std.specs.Prelude.{◌≡◌};
ghost use Rattle.std.specs.List.{list_any};
ghost use Rattle.lwc_base.specs.Life.{HasItsContexts};
ghost use Rattle.lwc_monitor.specs.Traps as spec;
ghost use Rattle.world_face.specs.Calls.{IsLive};

use crate::traps::Traps;
use guest_call::{context_for, items_for};
use lwc_base::{Item, Items, Kind, Mode, Name, Regs};
use res_spec::SpecCall;
use world_face::World;

/// Whether the slot in r1 of a context names a context whose monitor is another one.
#[tactic(auto, unfolding(crate::specs::Traps::names_anothers))]
pub fn names_anothers<W: World>(traps: &Traps, world: &W, context: Name, regs: &Regs) -> bool
    requires live { IsLive (W.seen world.now) context }
    requires named { HasItsContexts (W.seen world.now) }
    ensures { result ≡ spec.names_anothers traps.now (W.seen world.now) context regs.now }
{
    match monitor_of_named(traps, world, context, regs) {
        Some(monitor) => monitor != context,
        None => false,
    }
}

/// Whether a trap forbids an overlay in a context: its items are in order, and the slot in r1 names a
/// context whose monitor is another one, or a trapped one of which an item shares slots.
#[tactic(auto, unfolding(crate::specs::Traps::forbids_overlay, crate::specs::Traps::names_anothers))]
pub fn forbids_overlay<W: World>(traps: &Traps, world: &W, context: Name, regs: &Regs) -> bool
    requires live { IsLive (W.seen world.now) context }
    requires named { HasItsContexts (W.seen world.now) }
    ensures { result ≡ spec.forbids_overlay traps.now (W.seen world.now) context regs.now }
{
    let Some(monitor) = monitor_of_named(traps, world, context, regs) else {
        return false;
    };
    let mut items = Items::empty();
    match items_for(
        world,
        context,
        SpecCall::Overlay,
        regs.r[2],
        regs.r[3],
        &mut items,
    ) {
        Ok(()) => monitor != context || share_slots(items.items()),
        Err(_) => false,
    }
}

/// The monitor of the context that the slot in r1 names, if it names a trapped one.
fn monitor_of_named<W: World>(traps: &Traps, world: &W, context: Name, regs: &Regs) -> Option<Name>
    requires live { IsLive (W.seen world.now) context }
    requires named { HasItsContexts (W.seen world.now) }
    ensures { result ≡ spec.monitor_of_named traps.now (W.seen world.now) context regs.now }
{
    match context_for(world, context, regs.r[1]) {
        Ok((target, _)) => traps.monitor_of(target),
        Err(_) => None,
    }
}

/// Whether one of some items shares slots.
fn share_slots(items: &[Item]) -> bool
    ensures { result ≡ list_any spec.shares_slots items.now }
{
    items.iter().any(|item| shares_slots(item))
}

/// Whether an item shares slots.
fn shares_slots(item: &Item) -> bool
    ensures { result ≡ spec.shares_slots item.now }
{
    item.kind == Kind::Slot && item.mode == Mode::Share
}
