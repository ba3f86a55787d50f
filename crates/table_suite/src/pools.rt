ghost use Rattle.std.specs.Prelude.{◌≡◌, ◌≢◌, ◌<◌, ℕ, length};
ghost use Rattle.frame_pool.specs.Frame.{frame_count};
ghost use Rattle.node_pool.specs.Nodes.{count_of};

use crate::checks::check_equal;
use frame_pool::{FrameNo, Pool};
use lwc_base::Tag;
use node_pool::{NodeNo, NodePool};
use pool_base::{HoldCounts, put_next};
use std::alloc::Global;
use std::process::Abort;
use std::test::Fail;

#[test]
fn two_places_are_taken_held_and_given_back(rt: HostRuntime) -> Result<(), Fail> {
    let mut counts = HoldCounts::open(rt.alloc(), 2)?;
    let first = counts.take().expect(&rt, "none is held");
    let second = counts.take().expect(&rt, "one is held");
    assert!(rt; counts.take().is_none());
    let taken = [counts.len(), counts.used(), counts.count(first)];
    counts.hold(first);
    let held = counts.count(first);
    counts.drop_hold(second);
    let used = counts.used();
    let again = counts.take();
    check_equal(&rt, (taken, held, used), ([2, 2, 1], 2, 1));
    check_equal(&rt, again, Some(second));
    Ok(())
}

#[test]
fn an_element_is_put_over_another_and_after_it(rt: HostRuntime) -> Result<(), Fail> {
    let mut items = Vec::with_capacity(rt.alloc(), 2)?;
    put_next(&mut items, 0, 7u8);
    put_next(&mut items, 0, 8u8);
    put_next(&mut items, 1, 9u8);
    check_equal(&rt, items.as_slice(), [8, 9].as_slice());
    Ok(())
}

/// Writes the last byte of a frame, and copies the frame: the last byte and the stamp of the other one.
fn copied(pool: &mut Pool, from: FrameNo, to: FrameNo) -> (u8, Tag)
    requires from { frame_count pool.old from.n ≡ 1 }
    requires to { frame_count pool.old to.n ≡ 1 }
    requires apart { from.n ≢ to.n }
    ensures size { length pool.new ≡ length pool.old }
    ensures counts { (n : ℕ) → frame_count pool.new n ≡ frame_count pool.old n }
{
    pool.bytes_mut(from)[4095] = 7;
    pool.copy_to(from, to);
    (pool.bytes(to)[4095], pool.stamp(to))
}

/// Holds a frame once more, gives another one back, and takes one: the holds of both and the frames in use before, the
/// frames in use after, and then the frame that is taken and its last byte.
fn given_back(
    rt: &impl Abort,
    pool: &mut Pool,
    held: FrameNo,
    dropped: FrameNo,
) -> ([u32; 4], FrameNo, u8)
    requires held { frame_count pool.old held.n ≡ 1 }
    requires dropped { frame_count pool.old dropped.n ≡ 1 }
    requires apart { held.n ≢ dropped.n }
{
    pool.hold(held);
    let first = pool.count(held);
    let second = pool.count(dropped);
    let used = pool.used();
    pool.drop_hold(dropped);
    let counts = [first, second, used, pool.used()];
    let taken = pool.take(Tag { job: 1, k: 3 }).expect(rt, "one is held");
    (counts, taken, pool.bytes(taken)[4095])
}

#[test]
fn two_frames_are_taken_and_one_comes_back_zeroed(rt: HostRuntime) -> Result<(), Fail> {
    let mut pool = Pool::open(rt.alloc(), 2)?;
    let first = pool.take(Tag { job: 1, k: 0 }).expect(&rt, "none is held");
    let second = pool.take(Tag { job: 1, k: 1 }).expect(&rt, "one is held");
    assert!(rt; pool.take(Tag { job: 1, k: 2 }).is_none());
    assert!(rt; first != second);
    let copied = copied(&mut pool, first, second);
    let given_back = given_back(&rt, &mut pool, first, second);
    let expected = ((7, Tag { job: 1, k: 1 }), ([2, 1, 2, 1], second, 0), 2);
    check_equal(&rt, (copied, given_back, pool.len()), expected);
    Ok(())
}

/// Writes an entry of the first of two nodes: that entry of both, and the levels of both.
fn entered(pool: &mut NodePool, first: NodeNo, second: NodeNo) -> ([u32; 2], [u8; 2])
    requires first { count_of pool.old.all first.n ≡ 1 × (first.n < length pool.old.all) }
    requires second { count_of pool.old.all second.n ≡ 1 × (second.n < length pool.old.all) }
    ensures size { length pool.new.all ≡ length pool.old.all }
    ensures counts { (n : ℕ) → count_of pool.new.all n ≡ count_of pool.old.all n }
{
    pool.set_entry(first, 31, 9);
    (
        [pool.entry(first, 31), pool.entry(second, 31)],
        [pool.level(first), pool.level(second)],
    )
}

/// Holds the second of two nodes once more, gives the first back, and takes one: the holds of the second, the node that
/// is taken, and the entry that was written in the first.
fn taken_again(
    rt: &impl Abort,
    pool: &mut NodePool,
    first: NodeNo,
    second: NodeNo,
) -> (u32, NodeNo, u32)
    requires first { count_of pool.old.all first.n ≡ 1 × (first.n < length pool.old.all) }
    requires second { count_of pool.old.all second.n ≡ 1 × (second.n < length pool.old.all) }
{
    pool.hold(second);
    let held = pool.count(second);
    pool.drop_hold(first);
    let taken = pool.take(2).expect(rt, "one is held");
    (held, taken, pool.entry(taken, 31))
}

/// Takes two nodes, writes an entry, and takes one of them again.
fn try_two_nodes(rt: &impl Abort, alloc: Global) -> Result<(), Fail> {
    let mut pool = NodePool::open(alloc, 2)?;
    let first = pool.take(1).expect(rt, "none is held");
    let second = pool.take(2).expect(rt, "one is held");
    assert!(rt; pool.take(1).is_none());
    let entered = entered(&mut pool, first, second);
    let again = taken_again(rt, &mut pool, first, second);
    check_equal(rt, (entered, again), (([9, 0], [1, 2]), (2, first, 0)));
    Ok(())
}

#[test]
fn two_nodes_are_taken_and_one_comes_back_empty(rt: HostRuntime) -> Result<(), Fail> {
    try_two_nodes(&rt, rt.alloc())
}
