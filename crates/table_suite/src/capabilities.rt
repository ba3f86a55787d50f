ghost use Rattle.std.specs.Prelude.{◌≡◌, ◌+◌, ◌<◌};
ghost use Rattle.lwc_base.specs.declared.item.Mode.TheVariants.{Copy};

use crate::checks::check_equal;
use access_cap::granted::{grants, grants_kinds, meet_granted, owned_keys};
use access_cap::kinds::{Mask, covers_kinds};
use access_cap::sets::{covers, meet};
use access_cap::whole::{empty, full};
use bitflags::Flags;
use lwc_base::{Cap, Grant, Item, Items, Kind, MOST_PAGES, Mode, PAGES_OF_FORM_ONE};

/// An item that copies what it names.
fn item(kind: Kind, from: u32, to: u32) -> Item
    ensures { result ≡ record { kind = kind; mode = Copy; from = from; to = to } }
{
    Item {
        kind,
        mode: Mode::Copy,
        from,
        to,
    }
}

/// Pages 62 to 65, slot 3 and the credential.
fn some_keys() -> Items {
    let mut spec = Items::empty();
    spec.push(item(Kind::Page, 62, 66));
    spec.push(item(Kind::Slot, 3, 4));
    spec.push(item(Kind::Cred, 0, 1));
    spec
}

/// A page of the second thousand.
fn far_page() -> Items {
    let mut spec = Items::empty();
    spec.push(item(Kind::Page, 1500, 1501));
    spec
}

/// Three words of the pages of a capability.
fn words_from(cap: &Cap, index: usize) -> [u64; 3]
    requires { index + 2 < 256 }
{
    [cap.pages[index], cap.pages[index + 1], cap.pages[index + 2]]
}

#[test]
fn a_capability_has_all_keys_or_none(rt: HostRuntime) {
    let all = full(MOST_PAGES);
    let none = empty();
    let first = words_from(&full(70), 0);
    let middle = words_from(&full(PAGES_OF_FORM_ONE), 14);
    let last = [all.pages[16], all.pages[255], none.pages[0]];
    let most = [u64::MAX, u64::MAX, 0];
    check_equal(&rt, [first, middle, last], [[u64::MAX, 63, 0], most, most]);
    check_equal(
        &rt,
        (all.slots, all.cred, none.slots, none.cred),
        (u64::MAX, true, 0, false),
    );
}

#[test]
fn a_restriction_has_the_keys_that_both_name(rt: HostRuntime) {
    let spec = some_keys();
    let part = meet(&full(65), &spec);
    let words = words_from(&part, 0);
    let answers = [
        meet(&full(MOST_PAGES), &Items::empty()) == empty(),
        covers(&part, &spec, 65),
        covers(&part, &spec, 66),
        covers(&empty(), &spec, 1),
        covers(&empty(), &Items::empty(), MOST_PAGES),
    ];
    check_equal(&rt, words, [3 << 62, 1, 0]);
    check_equal(&rt, (part.slots, part.cred), (8, true));
    check_equal(&rt, answers, [true, true, false, false, true]);
}

#[test]
fn a_mask_asks_for_whole_kinds(rt: HostRuntime) {
    let some = full(70);
    let answers = [
        covers_kinds(&some, Mask::from_bits_retain(0), MOST_PAGES),
        covers_kinds(&some, Mask::from_bits_retain(1), 70),
        covers_kinds(&some, Mask::from_bits_retain(1), 71),
        covers_kinds(&some, Mask::from_bits_retain(6), MOST_PAGES),
        covers_kinds(&empty(), Mask::SLOTS, 1),
        covers_kinds(&empty(), Mask::CRED, 1),
        Mask::from_bits(8).is_none(),
    ];
    check_equal(&rt, answers, [true, true, false, true, false, false, true]);
}

#[test]
fn pages_of_form_two_are_keys(rt: HostRuntime) {
    let small = full(PAGES_OF_FORM_ONE);
    let far = far_page();
    let part = meet(&full(MOST_PAGES), &far);
    let words = words_from(&part, 22);
    let answers = [
        covers(&part, &far, MOST_PAGES),
        covers(&small, &far, MOST_PAGES),
        covers(&small, &far, PAGES_OF_FORM_ONE),
        covers_kinds(&small, Mask::MEMORY, PAGES_OF_FORM_ONE),
        covers_kinds(&small, Mask::MEMORY, MOST_PAGES),
    ];
    check_equal(&rt, words, [0, 1 << 28, 0]);
    check_equal(&rt, answers, [true, false, true, true, false]);
}

/// All keys of 70 pages, lent.
const ALL: Grant<'static> = Grant::All { pages: 70 };

/// Whether lent keys are those that they stand for: all of 70 pages, none, those of a capability, and those
/// that all keys and an item of a far page have in common.
fn are_owned(part: &Cap, far: &Items) -> [bool; 4] {
    [
        owned_keys(ALL) == full(70),
        owned_keys(Grant::None) == empty(),
        owned_keys(Grant::Of(part)) == *part,
        meet_granted(Grant::All { pages: MOST_PAGES }, far) == *part,
    ]
}

/// Whether all keys of 70 pages grant some pages and a far one, and no key does, where there are so many pages.
fn are_granted(far: &Items) -> [[bool; 3]; 2] {
    let some = some_keys();
    [
        [
            grants(ALL, &some, 70),
            grants(ALL, far, 70),
            grants(ALL, far, MOST_PAGES),
        ],
        [
            grants(Grant::None, &some, 1),
            grants(Grant::None, far, PAGES_OF_FORM_ONE),
            grants(Grant::None, far, MOST_PAGES),
        ],
    ]
}

/// Whether all keys of 70 pages grant 70 pages and 71, and whether no key grants a page, none, and the credential.
fn are_kinds_granted() -> [bool; 5] {
    [
        grants_kinds(ALL, Mask::MEMORY, 70),
        grants_kinds(ALL, Mask::MEMORY, 71),
        grants_kinds(Grant::None, Mask::MEMORY, 1),
        grants_kinds(Grant::None, Mask::MEMORY, 0),
        grants_kinds(Grant::None, Mask::CRED, 0),
    ]
}

#[test]
fn lent_keys_are_those_of_their_capability(rt: HostRuntime) {
    let far = far_page();
    let part = meet(&full(MOST_PAGES), &far);
    let owned = are_owned(&part, &far);
    let granted = are_granted(&far);
    let others = [
        grants(Grant::None, &Items::empty(), MOST_PAGES),
        grants(Grant::Of(&part), &far, MOST_PAGES),
    ];
    let kinds = are_kinds_granted();
    check_equal(&rt, (owned, others), ([true; 4], [true; 2]));
    check_equal(&rt, granted, [[true, true, false], [false, true, false]]);
    check_equal(&rt, kinds, [true, false, false, true, false]);
}
