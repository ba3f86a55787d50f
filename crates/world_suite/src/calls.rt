//! Each call of `World` once, over both worlds. What is expected is said by the definitions of the calls.

ghost use Rattle.std.specs.Prelude.{◌≡◌, ◌≤◌, ◌+◌, ◌*◌, IfOk, OnOk, length};
ghost use Rattle.lwc_base.specs.Modes.{IsSpec};
ghost use Rattle.world_face.specs.Calls.{IsLive, MayName};
ghost use Rattle.world_suite.specs.Begun.{IsBegun};

use access_cap::owned;
use lazy_world::LazyWorld;
use lwc_base::{
    Cap, Descriptor, Grant, Item, Items, Kind, Lent, Mode, Name, Range, Regs, SlotNumber,
    StoreFault, Summary, WorldSize,
};
use std::alloc::Global;
use std::test::Fail;
use whole_world::WholeWorld;
use world_face::World;

/// A world of four pages with one context, which has the first two.
fn begun<W: World>(alloc: Global, frames: u32) -> Result<(W, Name), Fail>
    requires some { 1 ≤ frames }
    requires few { frames ≤ 65536 }
    ensures { IfOk result (λ r. IsBegun frames (W.seen r.0) r.1) }
{
    let size = WorldSize {
        frames,
        contexts: 2,
        groups: 1,
        jobs: 2,
        pages: 4,
    };
    let range = Range { from: 0, to: 2 };
    let mut world = W::open(alloc, &size)?;
    let c = world.first(7, &Regs::fresh(3))?;
    if world.ranges_after_map(c, range, true) != 1 {
        return Err(Fail::new("the first two pages are no range"));
    }
    world.map(c, range)?;
    Ok((world, c))
}

/// Whether two bytes of the context are there, and what `World::bytes` leaves of a buffer of 9s.
fn two_bytes<W: World>(world: &W, context: Name, at: u32) -> (bool, [u8; 2])
    requires live { IsLive (W.seen world.now) context }
    requires within { at + 2 ≤ (W.seen world.now).size.pages * 4096 }
{
    let mut out = [9; 2];
    (world.bytes(context, at, &mut out), out)
}

/// Why a store for job 1 is refused.
fn refused<W: World>(
    world: &mut W,
    context: Name,
    at: u32,
    piece: &[u8],
) -> Result<StoreFault, Fail>
    requires live { IsLive (W.seen world.old) context }
    requires within { at + length piece.now ≤ (W.seen world.old).size.pages * 4096 }
    requires short { length piece.now ≤ 4096 }
    requires may { MayName (W.seen world.old) 1 }
    ensures { OnOk result (W.seen world.new ≡ W.seen world.old) }
{
    match world.store(context, at, piece, 1) {
        Ok(()) => Err(Fail::new("the store is done")),
        Err(fault) => Ok(fault),
    }
}

/// The frames in use before and after a store over the border of two pages, and the bytes round it.
type Stored = (u32, u32, (bool, [u8; 10]));

/// Stores over the border of two pages.
fn store_over_a_border<W: World>(world: &mut W, context: Name) -> Result<Stored, Fail>
    requires { IsBegun 2 (W.seen world.old) context }
{
    let before = world.used();
    world.store(context, 4092, &[1, 2, 3, 4, 5, 6, 7, 8], 1)?;
    let mut out = [9; 10];
    let are_there = world.bytes(context, 4091, &mut out);
    Ok((before, world.used(), (are_there, out)))
}

/// A store over the border of two pages parts both, and its bytes are read back.
fn stores_over_a_border<W: World>(alloc: Global) -> Result<bool, Fail> {
    let (mut world, c) = begun::<W>(alloc, 2)?;
    let left = store_over_a_border(&mut world, c);
    drop(world);
    Ok(left? == (0, 2, (true, [0, 1, 2, 3, 4, 5, 6, 7, 8, 0])))
}

/// Why two stores are refused, the frames in use after them, and the bytes where they were to be and before.
type Refused = ([StoreFault; 2], u32, [(bool, [u8; 2]); 2]);

/// Tries two stores that are refused.
fn refuse_stores<W: World>(world: &mut W, context: Name) -> Result<Refused, Fail>
    requires { IsBegun 1 (W.seen world.old) context }
{
    let large = refused(world, context, 4092, &[1, 2, 3, 4, 5, 6, 7, 8])?;
    let absent = refused(world, context, 8191, &[1, 2])?;
    let bytes = [
        two_bytes(world, context, 8191),
        two_bytes(world, context, 4095),
    ];
    Ok(([large, absent], world.used(), bytes))
}

/// A store that wants more frames than there are, or a page that is absent, changes nothing.
fn refuses_stores<W: World>(alloc: Global) -> Result<bool, Fail> {
    let (mut world, c) = begun::<W>(alloc, 1)?;
    let left = refuse_stores(&mut world, c);
    drop(world);
    let faults = [StoreFault::NoFrame, StoreFault::BadAddress];
    Ok(left? == (faults, 0, [(false, [9, 9]), (true, [0, 0])]))
}

/// Whether the context is the first of the world, and there is no second one.
fn is_only<W: World>(world: &W, context: Name) -> bool {
    world.nth_context(0) == Some(context) && world.nth_context(1) == None
}

/// The live contexts and groups of job 0, the live contexts, and the pages of a context.
fn counts<W: World>(world: &W) -> (u32, u32, u32, u16) {
    (
        world.live_of(0),
        world.groups_of(0),
        world.context_count(),
        world.pages(),
    )
}

/// Where the context begins, its credential, whether its last slot is empty, and its summary.
fn shown<W: World>(world: &W, context: Name) -> (u64, u32, bool, Summary)
    requires { IsLive (W.seen world.now) context }
{
    let is_empty = matches!(world.slot(context, 63), Lent::Empty);
    (
        world.entry(context).pc,
        world.uid(context),
        is_empty,
        world.summary(context),
    )
}

/// What a new context has.
fn shows_a_context<W: World>(alloc: Global) -> Result<bool, Fail> {
    let (world, c) = begun::<W>(alloc, 2)?;
    let is_only = is_only(&world, c);
    let counts = counts(&world);
    let shown = shown(&world, c);
    drop(world);
    let summary = Summary {
        pages: 2,
        slots: 0,
        uid: 7,
    };
    Ok(is_only && counts == (1, 0, 1, 4) && shown == (3, 7, true, summary))
}

/// The lowest empty slot before and after the console is put into slot 0, and whether it is there.
#[tactic(auto, using(lwc_base::proofs::Facts::changes))]
fn put_console<W: World>(world: &mut W, context: Name) -> ([Option<SlotNumber>; 2], bool)
    requires { IsLive (W.seen world.old) context }
    ensures { IsLive (W.seen world.new) context }
{
    let before = world.lowest_empty(context);
    world.set_slot(context, 0, Lent::Console);
    let after = world.lowest_empty(context);
    (
        [before, after],
        matches!(world.slot(context, 0), Lent::Console),
    )
}

/// The credential, and what is saved of threads 15 and 14, after both have been put for thread 15.
#[tactic(auto, using(lwc_base::proofs::Facts::changes))]
fn put_registers<W: World>(world: &mut W, context: Name) -> (u32, [Option<Regs>; 2])
    requires { IsLive (W.seen world.old) context }
{
    world.set_uid(context, 9);
    world.save(context, 15, &Regs::fresh(6));
    (
        world.uid(context),
        [world.saved(context, 15), world.saved(context, 14)],
    )
}

/// What is put into slots, into the credential and among the saved registers is there.
fn puts_values<W: World>(alloc: Global) -> Result<bool, Fail> {
    let (mut world, c) = begun::<W>(alloc, 2)?;
    let slots = put_console(&mut world, c);
    let registers = put_registers(&mut world, c);
    drop(world);
    let saved = [Some(Regs::fresh(6)), None];
    Ok(slots == ([Some(0), Some(1)], true) && registers == (9, saved))
}

/// Puts a link to the context into slot 1, and from there into slot 1 and slot 5.
#[tactic(auto, using(lwc_base::proofs::Facts::changes))]
fn dup_link<W: World>(world: &mut W, context: Name, cap: &Cap)
    requires { IsLive (W.seen world.old) context }
    ensures { IsLive (W.seen world.new) context }
{
    let keys = Grant::Of(cap);
    world.set_slot(
        context,
        1,
        Lent::Ctx {
            name: context,
            keys,
        },
    );
    world.dup_slot(context, 1, 1);
    world.dup_slot(context, 1, 5);
}

/// Whether a slot of the context has a link to it with these keys.
fn is_link<W: World>(world: &W, context: Name, slot: SlotNumber, cap: &Cap) -> bool
    requires live { IsLive (W.seen world.now) context }
    requires within { slot ≤ 63 }
{
    owned(world.slot(context, slot))
        == Descriptor::Ctx {
            name: context,
            cap: *cap,
        }
}

/// Puts the console into slot 1: whether slot 5 has its link still, and whether the console is there.
#[tactic(auto, using(lwc_base::proofs::Facts::changes))]
fn change_one<W: World>(world: &mut W, context: Name, cap: &Cap) -> [bool; 2]
    requires { IsLive (W.seen world.old) context }
    ensures { IsLive (W.seen world.new) context }
{
    world.set_slot(context, 1, Lent::Console);
    let stays = is_link(world, context, 5, cap);
    [stays, matches!(world.slot(context, 1), Lent::Console)]
}

/// Puts an empty slot into slot 5: whether slot 5 is empty then.
#[tactic(auto, using(lwc_base::proofs::Facts::changes))]
fn empty_other<W: World>(world: &mut W, context: Name) -> bool
    requires { IsLive (W.seen world.old) context }
{
    world.dup_slot(context, 0, 5);
    matches!(world.slot(context, 5), Lent::Empty)
}

/// Puts a descriptor into two slots and changes both: whether it was in the first, how many slots were in use, whether
/// it stayed in the second one and the first changed, and whether the second one is empty at the end.
fn dup_slots<W: World>(world: &mut W, context: Name) -> (bool, u32, [bool; 2], bool)
    requires { IsLive (W.seen world.old) context }
{
    let cap = far_page();
    dup_link(world, context, &cap);
    let is_first = is_link(world, context, 1, &cap);
    let slots = world.summary(context).slots;
    let changed = change_one(world, context, &cap);
    (is_first, slots, changed, empty_other(world, context))
}

/// A descriptor that is in two slots stays in one when the other changes, with its keys.
fn dups_a_descriptor<W: World>(alloc: Global) -> Result<bool, Fail> {
    let (mut world, c) = begun::<W>(alloc, 2)?;
    let left = dup_slots(&mut world, c);
    drop(world);
    Ok(left == (true, 2, [true; 2], true))
}

/// The capability of page 1500 alone.
fn far_page() -> Cap {
    let mut pages = [0; 256];
    pages[23] = 1 << 28;
    Cap {
        pages,
        slots: 0,
        cred: false,
    }
}

/// The ranges that the context would have with its fourth page, and without its first two.
fn would_have<W: World>(world: &W, context: Name) -> [u32; 2]
    requires { IsBegun 2 (W.seen world.now) context }
{
    [
        world.ranges_after_map(context, Range { from: 3, to: 4 }, true),
        world.ranges_after_map(context, Range { from: 0, to: 2 }, false),
    ]
}

/// The bytes over the end of the first page of four, and those behind it.
fn bytes_at_end<W: World>(world: &W, context: Name) -> [(bool, [u8; 2]); 2]
    requires live { IsLive (W.seen world.now) context }
    requires pages { (W.seen world.now).size.pages ≡ 4 }
{
    [
        two_bytes(world, context, 4095),
        two_bytes(world, context, 4096),
    ]
}

/// Unmaps the first page, which leaves one range: the bytes over its end, and those behind it.
fn unmap_first<W: World>(world: &mut W, context: Name) -> Result<[(bool, [u8; 2]); 2], Fail>
    requires { IsBegun 2 (W.seen world.old) context }
{
    let first = Range { from: 0, to: 1 };
    if world.ranges_after_map(context, first, false) != 1 {
        return Err(Fail::new("the second page is no range"));
    }
    world.unmap(context, first)?;
    Ok(bytes_at_end(world, context))
}

/// Pages are mapped and unmapped, and ranges are counted before.
fn maps_pages<W: World>(alloc: Global) -> Result<bool, Fail> {
    let (mut world, c) = begun::<W>(alloc, 2)?;
    let ranges = would_have(&world, c);
    let bytes = unmap_first(&mut world, c);
    drop(world);
    Ok(bytes? == [(false, [9, 9]), (true, [0, 0])] && ranges == [2, 0])
}

/// The specifier of one item, which gives the second page a mode.
fn second_page(mode: Mode) -> Items
    ensures { IsSpec 4 result }
{
    let mut spec = Items::empty();
    spec.push(Item {
        kind: Kind::Page,
        mode,
        from: 1,
        to: 2,
    });
    spec
}

/// Clones the context with a mode for its second page, which leaves few ranges: whether it needs a group, and the
/// name of the clone.
#[tactic(auto, using(lwc_base::proofs::Facts::changes))]
fn clone_with<W: World>(
    world: &mut W,
    context: Name,
    mode: Mode,
    ranges: (u32, u32),
) -> Result<(bool, Name), Fail>
    requires begun { IsBegun 2 (W.seen world.old) context }
    requires few { (ranges.0 ≤ 64) × (ranges.1 ≤ 64) }
    ensures old { OnOk result (IsLive (W.seen world.new) context) }
    ensures made { IfOk result (λ r. IsLive (W.seen world.new) r.1) }
    ensures may { OnOk result (MayName (W.seen world.new) 1) }
    ensures size { OnOk result ((W.seen world.new).size ≡ (W.seen world.old).size) }
{
    let spec = second_page(mode);
    if world.ranges_after_clone(context, &spec) != ranges {
        return Err(Fail::new("other numbers of ranges"));
    }
    let needs_group = world.needs_group(context, &spec);
    let made = world.clone_context(context, &spec, 1, &Regs::fresh(5))?;
    Ok((needs_group, made))
}

/// Clones the context and shares its second page: whether it needs a group, whether the clone is the second context,
/// the clones and the groups of job 1, and all groups.
fn clone_sharing<W: World>(world: &mut W, context: Name) -> Result<(bool, bool, [u32; 3]), Fail>
    requires { IsBegun 2 (W.seen world.old) context }
{
    let (needs_group, made) = clone_with(world, context, Mode::Share, (2, 2))?;
    let is_second = world.nth_context(1) == Some(made);
    let counts = [world.live_of(1), world.groups_of(1), world.group_count()];
    Ok((needs_group, is_second, counts))
}

/// A clone that shares a page makes a group.
fn clones_a_context<W: World>(alloc: Global) -> Result<bool, Fail> {
    let (mut world, c) = begun::<W>(alloc, 2)?;
    let left = clone_sharing(&mut world, c);
    drop(world);
    Ok(left? == (true, true, [1; 3]))
}

/// What a copy of the second page shows that may only be read: whether a group is needed, why stores over the borders
/// of the page are refused, and the frames in use after those, and after a store where it was.
type Copied = (bool, [StoreFault; 2], [u32; 2]);

/// Stores over the borders of the second page of a context, where it may only be read, and into it in another one.
fn store_to_both<W: World>(
    world: &mut W,
    context: Name,
    made: Name,
) -> Result<([StoreFault; 2], [u32; 2]), Fail>
    requires old { IsLive (W.seen world.old) context }
    requires made { IsLive (W.seen world.old) made }
    requires may { MayName (W.seen world.old) 1 }
    requires size { (W.seen world.old).size.pages ≡ 4 }
{
    let faults = [
        refused(world, made, 4094, &[1, 2, 3, 4])?,
        refused(world, made, 8191, &[1, 2])?,
    ];
    let before = world.used();
    world.store(context, 4096, &[1], 1)?;
    Ok((faults, [before, world.used()]))
}

/// Clones the context, where its second page may only be read in the clone, and stores to both.
fn copy_read_only<W: World>(world: &mut W, context: Name) -> Result<Copied, Fail>
    requires { IsBegun 2 (W.seen world.old) context }
{
    let (needs_group, made) = clone_with(world, context, Mode::CopyRead, (1, 2))?;
    let (faults, frames) = store_to_both(world, context, made)?;
    Ok((needs_group, faults, frames))
}

/// A page that is copied read-only may be stored to where it was, and not in the copy. A store over it and a
/// page that may be stored to changes neither.
fn copies_read_only<W: World>(alloc: Global) -> Result<bool, Fail> {
    let (mut world, c) = begun::<W>(alloc, 2)?;
    let left = copy_read_only(&mut world, c);
    drop(world);
    let faults = [StoreFault::ReadOnly, StoreFault::BadAddress];
    Ok(left? == (false, faults, [0, 1]))
}

/// An overlay of the second page onto the context itself, which shares it: the live contexts, the groups, and the bytes
/// of the page.
fn overlay_itself<W: World>(
    world: &mut W,
    context: Name,
) -> Result<(u32, u32, (bool, [u8; 2])), Fail>
    requires { IsBegun 2 (W.seen world.old) context }
{
    let spec = second_page(Mode::Share);
    if world.ranges_after_overlay(context, context, &spec) != (2, 2) {
        return Err(Fail::new("other numbers of ranges"));
    }
    world.overlay(context, context, &spec, 1)?;
    let bytes = two_bytes(world, context, 4096);
    Ok((world.context_count(), world.groups_of(1), bytes))
}

/// An overlay onto the context itself shares a page that stays.
fn overlays_itself<W: World>(alloc: Global) -> Result<bool, Fail> {
    let (mut world, c) = begun::<W>(alloc, 2)?;
    let left = overlay_itself(&mut world, c);
    drop(world);
    Ok(left? == (1, 1, (true, [0, 0])))
}

/// Whether the context is the only one where it is the one root, and how many there are where there is none.
#[tactic(auto, using(lwc_base::proofs::Facts::changes))]
fn reap<W: World>(world: &mut W, context: Name) -> (u32, bool, u32)
    requires { IsLive (W.seen world.old) context }
{
    let keys = Grant::None;
    world.set_slot(
        context,
        2,
        Lent::Ctx {
            name: context,
            keys,
        },
    );
    world.reap(&[context]);
    let kept = world.context_count();
    let is_first = world.nth_context(0) == Some(context);
    world.reap(&[]);
    (kept, is_first, world.context_count())
}

/// A context that only its own slot names is dropped once it is no root.
fn reaps_a_context<W: World>(alloc: Global) -> Result<bool, Fail> {
    let (mut world, c) = begun::<W>(alloc, 2)?;
    let left = reap(&mut world, c);
    drop(world);
    Ok(left == (1, true, 0))
}

/// Two contexts that name each other, of which the second is a copy: how many live while the first is the root and
/// names the copy, and once it names it no more, and whether the first is the one that is left.
#[tactic(auto, using(crate::proofs::Begun::kept_root, lwc_base::proofs::Facts::changes))]
fn reap_two<W: World>(world: &mut W, context: Name) -> Result<(u32, u32, bool), Fail>
    requires { IsBegun 2 (W.seen world.old) context }
{
    let (_, made) = clone_with(world, context, Mode::Copy, (1, 1))?;
    let keys = Grant::None;
    world.set_slot(context, 2, Lent::Ctx { name: made, keys });
    world.set_slot(
        made,
        2,
        Lent::Ctx {
            name: context,
            keys,
        },
    );
    world.reap(&[context]);
    let both = world.context_count();
    world.set_slot(context, 2, Lent::Empty);
    world.reap(&[context]);
    let is_first = world.nth_context(0) == Some(context);
    Ok((both, world.context_count(), is_first))
}

/// Two contexts that name each other live while one of them is reached, and no longer.
fn reaps_a_cycle<W: World>(alloc: Global) -> Result<bool, Fail> {
    let (mut world, c) = begun::<W>(alloc, 2)?;
    let left = reap_two(&mut world, c);
    drop(world);
    Ok(left? == (2, 1, true))
}

#[test]
fn bytes_are_stored_and_loaded(rt: HostRuntime) -> Result<(), Fail> {
    assert!(rt; stores_over_a_border::<WholeWorld>(rt.alloc())?);
    assert!(rt; stores_over_a_border::<LazyWorld>(rt.alloc())?);
    assert!(rt; refuses_stores::<WholeWorld>(rt.alloc())?);
    assert!(rt; refuses_stores::<LazyWorld>(rt.alloc())?);
    Ok(())
}

#[test]
fn a_context_shows_what_it_has(rt: HostRuntime) -> Result<(), Fail> {
    assert!(rt; shows_a_context::<WholeWorld>(rt.alloc())?);
    assert!(rt; shows_a_context::<LazyWorld>(rt.alloc())?);
    assert!(rt; puts_values::<WholeWorld>(rt.alloc())?);
    assert!(rt; puts_values::<LazyWorld>(rt.alloc())?);
    assert!(rt; dups_a_descriptor::<WholeWorld>(rt.alloc())?);
    assert!(rt; dups_a_descriptor::<LazyWorld>(rt.alloc())?);
    Ok(())
}

#[test]
fn pages_are_mapped_and_unmapped(rt: HostRuntime) -> Result<(), Fail> {
    assert!(rt; maps_pages::<WholeWorld>(rt.alloc())?);
    assert!(rt; maps_pages::<LazyWorld>(rt.alloc())?);
    Ok(())
}

#[test]
fn values_are_shared(rt: HostRuntime) -> Result<(), Fail> {
    assert!(rt; clones_a_context::<WholeWorld>(rt.alloc())?);
    assert!(rt; clones_a_context::<LazyWorld>(rt.alloc())?);
    assert!(rt; overlays_itself::<WholeWorld>(rt.alloc())?);
    assert!(rt; overlays_itself::<LazyWorld>(rt.alloc())?);
    Ok(())
}

#[test]
fn pages_are_copied_read_only(rt: HostRuntime) -> Result<(), Fail> {
    assert!(rt; copies_read_only::<WholeWorld>(rt.alloc())?);
    assert!(rt; copies_read_only::<LazyWorld>(rt.alloc())?);
    Ok(())
}

#[test]
fn what_nothing_reaches_is_dropped(rt: HostRuntime) -> Result<(), Fail> {
    assert!(rt; reaps_a_context::<WholeWorld>(rt.alloc())?);
    assert!(rt; reaps_a_context::<LazyWorld>(rt.alloc())?);
    assert!(rt; reaps_a_cycle::<WholeWorld>(rt.alloc())?);
    assert!(rt; reaps_a_cycle::<LazyWorld>(rt.alloc())?);
    Ok(())
}
