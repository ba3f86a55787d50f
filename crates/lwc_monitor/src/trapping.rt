ghost use Rattle.std.specs.Prelude.{◌≡◌, ◌<◌, false, None, Some, IfErr, IfOk};
ghost use Rattle.lwc_base.specs.Life.{HasItsContexts};
ghost use Rattle.lwc_base.specs.Refusals.{first_refusal};
ghost use Rattle.lwc_base.specs.World.{context};
ghost use Rattle.lwc_types.specs.declared.key.TheConstants.{SLOTS};
ghost use Rattle.lwc_types.specs.declared.key.Key.TheVariants.{Slot};
ghost use Rattle.lwc_monitor.specs.Traps as spec;
ghost use Rattle.lwc_overlay.specs.Named.{link};
ghost use Rattle.world_face.specs.Calls.{IsLive};

use crate::traps::Traps;
use access_cap::{Mask, grants_kinds};
use guest_call::context_for;
use lwc_base::{Item, Items, Kind, Mode, Name, Refusal, Regs, SLOTS};
use world_face::World;

/// The bits of all kinds of keys: a context is trapped through a capability that has every key.
pub const ALL_KINDS: u64 = 7;

/// Why a context is not trapped.
#[derive(Clone, Copy, PartialEq, Eq)]
pub enum TrapRefusal {
    /// As other calls are refused.
    Plain(Refusal),
    /// The context is trapped.
    Trapped,
    /// The context is the caller's, has a slot in common with others, or is a monitor.
    NotFresh,
}

/// The context that a call in a context traps: the one that the slot in r1 has a descriptor of.
///
/// # Errors
///
/// `BadFd`, `WrongKind` and `NotCovered`, then `Trapped` and `NotFresh`: the first that holds (`trap_rows`).
pub fn trap_target<W: World>(
    traps: &Traps,
    world: &W,
    context: Name,
    regs: &Regs,
) -> Result<Name, TrapRefusal>
    requires live { IsLive (W.seen world.now) context }
    requires named { HasItsContexts (W.seen world.now) }
    ensures refused { IfErr result (λ refusal.
        first_refusal (spec.trap_rows traps.now (W.seen world.now) context regs.now) ≡ Some refusal) }
    ensures passed { IfOk result (λ d.
        first_refusal (spec.trap_rows traps.now (W.seen world.now) context regs.now) ≡ None) }
    ensures target { IfOk result (λ d. d ≡ (link (W.seen world.now) context regs.now).0) }
    ensures new { IfOk result (λ d. spec.is_trapped traps.now d ≡ false) }
{
    let (target, keys) = match context_for(world, context, regs.r[1]) {
        Ok(link) => link,
        Err(refusal) => return Err(TrapRefusal::Plain(refusal)),
    };
    let Some(all) = Mask::from_bits(ALL_KINDS) else {
        unreachable!();
    };
    if !grants_kinds(keys, all, world.pages()) {
        return Err(TrapRefusal::Plain(Refusal::NotCovered));
    }
    if traps.monitor_of(target).is_some() {
        return Err(TrapRefusal::Trapped);
    }
    if target == context || has_common_slot(world, target) || traps.has_monitor(target) {
        return Err(TrapRefusal::NotFresh);
    }
    Ok(target)
}

/// Whether a context has a slot in common with others.
fn has_common_slot<W: World>(world: &W, target: Name) -> bool
    requires { IsLive (W.seen world.now) target }
    ensures { result ≡ spec.has_common_slot (W.seen world.now) target }
{
    'slots: for n in 0..SLOTS {
        if is_common(world, target, n) {
            return true;
        }
    }
    false
}

/// Whether a slot of a context is common: then to share it needs no group.
fn is_common<W: World>(world: &W, target: Name, slot: u8) -> bool
    requires live { IsLive (W.seen world.now) target }
    requires within { slot < SLOTS }
    ensures { result ≡ spec.is_common ((context (W.seen world.now) target).cell (Slot slot)) }
{
    let mut spec = Items::empty();
    spec.push(Item {
        kind: Kind::Slot,
        mode: Mode::Share,
        from: u32::from(slot),
        to: u32::from(slot) + 1,
    });
    !world.needs_group(target, &spec)
}
