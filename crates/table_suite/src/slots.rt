ghost use Rattle.std.specs.Prelude.{◌≡◌, ◌<◌, length};
ghost use Rattle.fd_table.specs.Seen.{slots as seen};
ghost use Rattle.fd_table.specs.Slots.{no_slots, row_of};
ghost use Rattle.lwc_base.specs.declared.descriptor.Lent.TheVariants.{Ctx};
ghost use Rattle.lwc_types.specs.declared.key.TheConstants.{SLOTS};

use crate::checks::check_equal;
use access_cap::{empty, full, owned};
use fd_table::*;
use lwc_base::{Cap, Cell, Descriptor, Grant, Lent, Name};
use std::test::Fail;

/// A context that slots name.
const NAME: Name = Name { job: 0, k: 7 };

/// A descriptor of the context with these keys, lent.
fn link(keys: Grant<'_>) -> Lent<'_>
    ensures { result ≡ Ctx NAME keys.entry }
{
    Lent::Ctx { name: NAME, keys }
}

/// A group with common slots.
const GROUP: Name = Name { job: 1, k: 1 };

/// The capability of a slot's descriptor; none where it has no descriptor of a context of its own.
fn keys_at(slots: &Slots, index: usize, slot: u8) -> Option<Cap>
    requires place { index < length (seen slots.now) }
    requires slot { slot < SLOTS }
{
    match slots.cell(index, slot) {
        Cell::Own(value) => match owned(value) {
            Descriptor::Ctx { cap, .. } => Some(cap),
            _ => None,
        },
        Cell::Common(_) => None,
    }
}

/// The filled slots of a place and its common ones, as bits, and how many are filled.
fn bits_of(slots: &Slots, index: usize) -> (u64, u64, u32)
    requires { index < length (seen slots.now) }
{
    (
        slots.filled(index),
        slots.common(index),
        slots.count_filled(index),
    )
}

/// The lowest filled slots from 0 and from 6, the lowest from 5 that is not filled, and the lowest common one from 64.
fn lowest_bits(filled: u64, common: u64) -> [Option<u8>; 4] {
    [
        lowest_bit(filled, 0),
        lowest_bit(filled, 6),
        lowest_bit(!filled, 5),
        lowest_bit(common, 64),
    ]
}

/// Puts a context into slot 5 of the first of three places and a common cell into its slot 63, and clones the place.
fn fill_and_clone(slots: &mut Slots) -> (u64, u64, u32)
    requires places { length (seen slots.old) ≡ 3 }
    requires empty { row_of (seen slots.old) 1 ≡ no_slots }
    ensures { length (seen slots.new) ≡ 3 }
{
    slots.put(0, 5, Cell::Own(link(Grant::None)), Some(2));
    slots.put(0, 63, Cell::Common(GROUP), Some(1));
    let bits = bits_of(slots, 0);
    slots.clone_place(1, 0);
    bits
}

/// Puts another cell into slot 5 of the first place: whether each of the two has one of its own there,
/// whether context 2 is named, and the contexts that the second and the first name.
fn part_slot(slots: &mut Slots) -> ([bool; 3], [Option<Name>; 2])
    requires { length (seen slots.old) ≡ 3 }
    ensures { length (seen slots.new) ≡ 3 }
{
    slots.put(0, 5, Cell::Own(Lent::Console), None);
    let first = matches!(slots.cell(0, 5), Cell::Own(Lent::Console));
    let second = matches!(slots.cell(1, 5), Cell::Own(Lent::Ctx { .. }));
    let contexts = [slots.context(1, 5), slots.context(0, 5)];
    ([first, second, slots.is_named(2)], contexts)
}

/// Copies a slot of the second place into the third and clears the second: the context of its common slot before,
/// whether its last slot is empty after, and whether 1 and 2 are named.
fn clear_cloned(slots: &mut Slots) -> (Option<Name>, [bool; 3])
    requires { length (seen slots.old) ≡ 3 }
    ensures { length (seen slots.new) ≡ 3 }
{
    slots.copy_slot(2, 5, 1, 5);
    slots.put(1, 1, Cell::Common(GROUP), Some(2));
    let context = slots.context(1, 1);
    slots.clear_place(1);
    let empty = matches!(slots.cell(1, 63), Cell::Own(Lent::Empty));
    (context, [empty, slots.is_named(1), slots.is_named(2)])
}

#[test]
fn places_share_cells_until_they_drop_them(rt: HostRuntime) -> Result<(), Fail> {
    let mut slots = Slots::open(rt.alloc(), 3)?;
    let filled = fill_and_clone(&mut slots);
    let parted = part_slot(&mut slots);
    let cleared = clear_cloned(&mut slots);
    slots.copy_slot(2, 5, 1, 5);
    let named = [slots.is_named(1), slots.is_named(2)];
    let last = bits_of(&slots, 1);
    let lowest = lowest_bits(filled.0, filled.1);
    check_equal(&rt, lowest, [Some(5), Some(63), Some(6), None]);
    let bits = (0x8000_0000_0000_0020, 0x8000_0000_0000_0000, 2);
    check_equal(&rt, (filled, last, named), (bits, (0, 0, 0), [true, false]));
    let contexts = ([true; 3], [Some(NAME), None]);
    check_equal(&rt, (parted, cleared), (contexts, (None, [true; 3])));
    Ok(())
}

/// A capability of pages alone, which has this word of them.
fn pages_of(word: u64) -> Cap {
    let mut cap = empty();
    cap.pages[200] = word;
    cap
}

/// Puts the context into a slot of the first place, with these keys.
fn put_keys(slots: &mut Slots, slot: u8, keys: Grant<'_>)
    requires place { 0 < length (seen slots.old) }
    requires slot { slot < SLOTS }
    ensures { length (seen slots.new) ≡ length (seen slots.old) }
{
    slots.put(0, slot, Cell::Own(link(keys)), Some(2));
}

/// Whether a slot of the first place has these keys.
fn has_keys(slots: &Slots, slot: u8, keys: &Cap) -> bool
    requires place { 0 < length (seen slots.now) }
    requires slot { slot < SLOTS }
{
    keys_at(slots, 0, slot) == Some(*keys)
}

/// Puts some keys, and all of 70 pages, beside each other: whether both are kept.
fn put_both(slots: &mut Slots, some: &Cap) -> [bool; 2]
    requires { 0 < length (seen slots.old) }
    ensures { length (seen slots.new) ≡ length (seen slots.old) }
{
    put_keys(slots, 1, Grant::Of(some));
    put_keys(slots, 2, Grant::All { pages: 70 });
    [has_keys(slots, 1, some), has_keys(slots, 2, &full(70))]
}

/// Copies a slot with some keys, and empties it: whether the copy has them still, and the slot has none.
fn outlive_one(slots: &mut Slots, some: &Cap) -> [bool; 2]
    requires { 0 < length (seen slots.old) }
    ensures { length (seen slots.new) ≡ length (seen slots.old) }
{
    slots.copy_slot(0, 9, 0, 1);
    slots.put(0, 1, Cell::Own(Lent::Empty), None);
    [has_keys(slots, 9, some), keys_at(slots, 0, 1).is_none()]
}

/// Takes an object again, with no key and then with one word of them: whether it has those.
fn take_again(slots: &mut Slots) -> [bool; 2]
    requires { 0 < length (seen slots.old) }
{
    let other = pages_of(6);
    put_keys(slots, 9, Grant::None);
    let has_none = has_keys(slots, 9, &empty());
    put_keys(slots, 9, Grant::Of(&other));
    [has_none, has_keys(slots, 9, &other)]
}

#[test]
fn words_of_capabilities_are_kept_apart(rt: HostRuntime) -> Result<(), Fail> {
    let mut slots = Slots::open(rt.alloc(), 2)?;
    let some = pages_of(5);
    let both = put_both(&mut slots, &some);
    // A descriptor in two slots of a place is one object, which outlives one of them.
    let copied = outlive_one(&mut slots, &some);
    // An object that is taken again has the new keys, whatever its words were.
    let again = take_again(&mut slots);
    check_equal(&rt, [both, copied, again], [[true; 2]; 3]);
    Ok(())
}
