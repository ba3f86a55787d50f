ghost use Rattle.std.specs.Prelude.{◌≡◌, ◌<◌, ◌+◌, ◌-◌, ◌%◌, ◌&&◌, ◌==◌, if◌then◌else◌, ℕ, None, Some, nat_lt};

use crate::checks::check_equal;
use lwc_base::SlotNumber;
use reach::links::Links;
use reach::marks::{Marks, mark};

/// Places 0 and 1 link to each other by their last slots, and so do 2 and 3.
struct Cycles;

impl Links for Cycles {
    ghost use Rattle.std.specs.Prelude.{◌+◌, ◌-◌, ◌%◌, ◌&&◌, ◌==◌, if◌then◌else◌, None, Some, nat_lt};

    ghost link_of = { λ _ place slot. if nat_lt place 4 && slot == 63
        then Some (if place % 2 == 0 then place + 1 else place - 1) else None };

    fn link(&self, place: usize, slot: SlotNumber) -> Option<usize> {
        if place < 4 && slot == 63 {
            Some(if place % 2 == 0 { place + 1 } else { place - 1 })
        } else {
            None
        }
    }
}

/// Whether places 0 to 3 and 528 are marked.
fn marked(marks: &Marks) -> [bool; 5] {
    [
        marks.marked(0),
        marks.marked(1),
        marks.marked(2),
        marks.marked(3),
        marks.marked(528),
    ]
}

#[test]
fn a_cycle_is_reached_from_a_root_in_it(rt: HostRuntime) {
    let mut marks = Marks::new();
    mark(&Cycles, &[1], &mut marks);
    let first = marked(&marks);
    mark(&Cycles, &[3, 528], &mut marks);
    let second = marked(&marks);
    check_equal(&rt, first, [true, true, false, false, false]);
    check_equal(&rt, second, [false, false, true, true, true]);
}
