ghost use Rattle.std.specs.Prelude.{◌≡◌, ◌++◌, ◌≤◌, [], ℕ, Bool, List, Some, None, IfErr, IfOk, OnOk};
ghost use Rattle.guest_call.specs.Asked as spec;
ghost use Rattle.guest_call.specs.Asked.{item_refusals, items_of};
ghost use Rattle.lwc_base.specs.Modes.{IsSpec};
ghost use Rattle.lwc_base.specs.Refusals.{first_refusal};
ghost use Rattle.lwc_base.specs.World as worlds;
ghost use Rattle.lwc_types.specs.declared.limits.TheConstants.{MOST_ITEMS};
ghost use Rattle.lwc_types.specs.declared.name.Name as names;
ghost use Rattle.lwc_types.specs.declared.refusal.Refusal.{Refusal};
ghost use Rattle.res_spec.specs.declared.items.SpecCall as calls;
ghost use Rattle.world_face.specs.Calls.{IsLive};

use lwc_base::{Items, MOST_ITEMS, Name, Refusal};
use res_spec::{ITEM_BYTES, SpecCall, SpecFault, read_items};
use world_face::{World, bytes_for};

/// The number of bytes of the most items.
const BUFFER_BYTES: usize = MOST_ITEMS * ITEM_BYTES;

/// Reads the items that a call of a guest asks for into `items`: `count` of them, from the address `at` on. They are
/// not answered, since a specifier is copied wherever it is moved.
///
/// # Errors
///
/// `TooManyItems`, `BadAddress`, `BadMode`, `BadRange`, `Overlap`: the first that holds (`item_refusals`).
/// Rows that follow these five in a call's table decide only where none of them holds.
#[inline(always)]
#[tactic(auto, unfolding(crate::specs::Asked::item_refusals, crate::specs::Asked::items_of))]
pub fn items_for<W: World>(
    world: &W,
    context: Name,
    call: SpecCall,
    at: u64,
    count: u64,
    items: &mut Items,
) -> Result<(), Refusal>
    requires live { IsLive (W.seen world.now) context }
    requires none { items.old ≡ [] }
    ensures refused { IfErr result (λ refusal. (rows : List (Bool × Refusal)) →
        first_refusal (item_refusals (W.seen world.now) context call at count ++ rows) ≡ Some refusal) }
    ensures passed { OnOk result ((rows : List (Bool × Refusal)) →
        first_refusal (item_refusals (W.seen world.now) context call at count ++ rows) ≡ first_refusal rows) }
    ensures items { OnOk result (items.new ≡ items_of (W.seen world.now) context call at count) }
    ensures valid { OnOk result (IsSpec (W.seen world.now).size.pages items.new) }
{
    if count == 0 {
        return Ok(());
    }
    if count > MOST_ITEMS as u64 {
        return Err(Refusal::TooManyItems);
    }
    *items = some_items(world, context, call, at, count)?;
    Ok(())
}

/// The items that a call asks for, which are not too many. It is apart from `items_for` so that a call that names
/// no items does not pay for the buffer.
#[inline(never)]
fn some_items<W: World>(
    world: &W,
    context: Name,
    call: SpecCall,
    at: u64,
    count: u64,
) -> Result<Items, Refusal>
    requires live { IsLive (W.seen world.now) context }
    requires few { count ≤ MOST_ITEMS }
    ensures refused { IfErr result (λ refusal. (rows : List (Bool × Refusal)) →
        first_refusal (item_refusals (W.seen world.now) context call at count ++ rows) ≡ Some refusal) }
    ensures passed { IfOk result (λ items. (rows : List (Bool × Refusal)) →
        first_refusal (item_refusals (W.seen world.now) context call at count ++ rows) ≡ first_refusal rows) }
    ensures items { IfOk result (λ items. items ≡ items_of (W.seen world.now) context call at count) }
    ensures valid { IfOk result (λ items. IsSpec (W.seen world.now).size.pages items) }
{
    let mut buffer = [0; BUFFER_BYTES];
    let bytes = &mut buffer[..count as usize * ITEM_BYTES];
    if !bytes_for(world, context, at, bytes) {
        return Err(Refusal::BadAddress);
    }
    read_items(bytes, call, world.pages()).map_err(refusal_of)
}

/// Items that a call with these rows in its table is not refused for are a specifier, and none of the other
/// rows holds.
pub fn items_that_are_not_refused_are_a_spec()
    ensures spec { (w : worlds.World) (c : names.Name) (call : calls.SpecCall) (at count : ℕ)
        (rows : List (Bool × Refusal)) → first_refusal (item_refusals w c call at count ++ rows) ≡ None →
        IsSpec w.size.pages (items_of w c call at count) }
    ensures rest { (w : worlds.World) (c : names.Name) (call : calls.SpecCall) (at count : ℕ)
        (rows : List (Bool × Refusal)) → first_refusal (item_refusals w c call at count ++ rows) ≡ None →
        first_refusal rows ≡ None }
{}

/// The refusal of a fault of the items.
fn refusal_of(fault: SpecFault) -> Refusal
    ensures { result ≡ spec.refusal_of fault }
{
    match fault {
        SpecFault::BadMode => Refusal::BadMode,
        SpecFault::BadRange => Refusal::BadRange,
        SpecFault::Overlap => Refusal::Overlap,
    }
}
