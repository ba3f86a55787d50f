ghost use Rattle.std.specs.Prelude.{◌≡◌, ◌≤◌, ◌%◌, length};

use crate::checks::check_equal;
use byteorder::{ByteOrder, LittleEndian};
use lwc_base::{Item, Items, Key, Kind, Mode};
use res_spec::{ITEM_BYTES, SpecCall, SpecFault, mode_of, mode_or_copy, read_items};
use std::process::Abort;

/// The fault of items that are given by their numbers, four each.
fn fault_of(call: SpecCall, numbers: &[u32]) -> Option<SpecFault>
    requires items { length numbers.now % 4 ≡ 0 }
    requires few { length numbers.now ≤ 8 }
{
    let mut bytes = [0; 2 * ITEM_BYTES];
    for (i, number) in numbers.iter().enumerate() {
        LittleEndian::write_u32(&mut bytes[4 * i..], *number);
    }
    read_items(&bytes[..4 * numbers.len()], call, 1024).err()
}

/// Stops unless each item, which is given by its numbers, has the fault beside it.
fn check_faults(rt: &impl Abort, cases: &[(SpecCall, [u32; 4], Option<SpecFault>)]) {
    for (call, numbers, fault) in cases {
        check_equal(rt, (numbers, fault_of(*call, numbers)), (numbers, *fault));
    }
}

#[test]
fn kinds_modes_and_ranges_are_tested(rt: HostRuntime) {
    check_equal(&rt, fault_of(SpecCall::Create, &[]), None);
    check_faults(
        &rt,
        &[
            (SpecCall::Create, [3, 0, 0, 1], Some(SpecFault::BadMode)),
            (SpecCall::Create, [0, 2, 0, 1024], None),
            (
                SpecCall::Restrict,
                [0, 2, 0, 1024],
                Some(SpecFault::BadMode),
            ),
            (SpecCall::Create, [0, 0, 0, 1025], Some(SpecFault::BadRange)),
            (SpecCall::Overlay, [1, 1, 0, 64], None),
            (SpecCall::Create, [2, 1, 0, 1], None),
            (SpecCall::Overlay, [2, 2, 0, 1], Some(SpecFault::BadMode)),
            (SpecCall::Create, [0, 0, 5, 5], Some(SpecFault::BadRange)),
        ],
    );
}

#[test]
fn only_pages_are_copied_read_only(rt: HostRuntime) {
    check_faults(
        &rt,
        &[
            (SpecCall::Create, [0, 3, 0, 1024], None),
            (SpecCall::Overlay, [0, 3, 0, 1024], None),
            (SpecCall::Restrict, [0, 3, 0, 1], Some(SpecFault::BadMode)),
            (SpecCall::Create, [1, 3, 0, 1], Some(SpecFault::BadMode)),
            (SpecCall::Overlay, [2, 3, 0, 1], Some(SpecFault::BadMode)),
        ],
    );
}

#[test]
fn items_are_tested_together(rt: HostRuntime) {
    let faults = [
        // apart
        fault_of(SpecCall::Create, &[0, 0, 0, 2, 1, 0, 1, 3]),
        // over one another
        fault_of(SpecCall::Create, &[0, 0, 0, 2, 0, 1, 1, 3]),
        // empty, and then a bad mode
        fault_of(SpecCall::Create, &[0, 0, 5, 5, 0, 4, 0, 1]),
        // over one another, and past the end
        fault_of(SpecCall::Create, &[0, 0, 0, 2, 0, 0, 1, 1025]),
    ];
    let overlap = Some(SpecFault::Overlap);
    let mode = Some(SpecFault::BadMode);
    let range = Some(SpecFault::BadRange);
    check_equal(&rt, faults, [None, overlap, mode, range]);
}

/// The modes of pages 0 and 2 and of slot 2, and the mode of page 3 or else a copy.
fn modes_of(spec: &Items) -> ([Option<Mode>; 3], Mode) {
    let modes = [
        mode_of(spec, Key::Page(0)),
        mode_of(spec, Key::Page(2)),
        mode_of(spec, Key::Slot(2)),
    ];
    (modes, mode_or_copy(spec, Key::Page(3)))
}

#[test]
fn a_key_has_the_mode_of_its_item(rt: HostRuntime) {
    let mut spec = Items::empty();
    spec.push(Item {
        kind: Kind::Page,
        mode: Mode::Share,
        from: 1,
        to: 3,
    });
    let modes = modes_of(&spec);
    check_equal(&rt, modes, ([None, Some(Mode::Share), None], Mode::Copy));
}
