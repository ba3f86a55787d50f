ghost use Rattle.std.specs.Prelude.{◌≡◌, length};

use crate::checks::check_equal;
use late_rows::{CopyFrom, Fresh, LateRows};
use std::test::Fail;

/// A row of these tests.
#[derive(Clone, Copy, Drop)]
struct Tower {
    height: u32,
}

impl Fresh for Tower {
    ghost fresh = { record { height = 3 } };

    /// A tower that was not raised.
    fn fresh() -> Tower {
        Tower { height: 3 }
    }
}

impl CopyFrom for Tower {
    /// Makes it as high as the other one.
    fn copy_from(&mut self, other: &Tower) {
        *self = *other;
    }
}

/// The heights of four towers.
fn heights(towers: &LateRows<Tower>) -> [u32; 4]
    requires { length towers.now ≡ 4 }
{
    [
        towers[0].height,
        towers[1].height,
        towers[2].height,
        towers[3].height,
    ]
}

/// Raises two of four towers, one of them twice.
fn raise(towers: &mut LateRows<Tower>)
    requires { length towers.old ≡ 4 }
    ensures { length towers.new ≡ 4 }
{
    towers[2].height = 7;
    towers[0].height = 5;
    towers[2].height = 8;
}

/// Copies rows over rows, with those that were changed and those that were not at either side.
fn copy_some(towers: &mut LateRows<Tower>)
    requires { length towers.old ≡ 4 }
    ensures { length towers.new ≡ 4 }
{
    towers.copy(3, 0);
    towers.copy(0, 2);
    towers.copy(2, 1);
    towers.copy(3, 3);
    towers.copy(1, 1);
}

#[test]
fn a_row_is_copied_alone(rt: HostRuntime) -> Result<(), Fail> {
    let mut towers = LateRows::open(rt.alloc(), 4)?;
    raise(&mut towers);
    copy_some(&mut towers);
    let copied = heights(&towers);
    raise(&mut towers);
    let raised = heights(&towers);
    check_equal(&rt, copied, [8, 3, 3, 5]);
    check_equal(&rt, raised, [5, 3, 8, 5]);
    Ok(())
}

#[test]
fn a_change_of_a_row_leaves_the_others(rt: HostRuntime) -> Result<(), Fail> {
    let mut towers = LateRows::open(rt.alloc(), 4)?;
    let before = heights(&towers);
    raise(&mut towers);
    let after = heights(&towers);
    check_equal(&rt, before, [3; 4]);
    check_equal(&rt, after, [5, 3, 8, 3]);
    Ok(())
}
