ghost use Rattle.std.specs.Prelude.{◌<◌};
ghost use Rattle.lwc_types.specs.declared.limits.TheConstants.{MOST_THREADS};

use crate::checks::check_equal;
use ctx_table::names::Names;
use ctx_table::table::CtxTable;
use lwc_base::{Name, Regs};
use std::process::Abort;
use std::test::Fail;

const FIRST: Name = Name { job: 0, k: 0 };

const NEXT: Name = Name { job: 7, k: 3 };

/// Inserts a name that is new into a table with room.
fn insert(rt: &impl Abort, table: &mut CtxTable<char>, name: Name, value: char, pc: u64) {
    assert!(rt; table.has_room());
    assert!(rt; table.place(name).is_none());
    table.insert(name, value, &Regs::fresh(pc));
}

/// Removes the first name, which is in the table: whether there was room before, the first name, and its value.
fn remove_first(rt: &impl Abort, table: &mut CtxTable<char>) -> (bool, Option<Name>, char) {
    let had_room = table.has_room();
    let first = table.at(0);
    assert!(rt; table.place(FIRST).is_some());
    (had_room, first, table.remove(FIRST))
}

#[test]
fn a_place_that_was_given_back_is_taken_again(rt: HostRuntime) -> Result<(), Fail> {
    let mut table = CtxTable::open(rt.alloc(), 1)?;
    insert(&rt, &mut table, FIRST, 'a', 5);
    let removed = remove_first(&rt, &mut table);
    insert(&rt, &mut table, NEXT, 'c', 0);
    let place = table.place(NEXT);
    let live = (table.live_of(0), table.live_of(7));
    let named = (table.nth(0), table.nth(1));
    check_equal(&rt, removed, (false, Some(FIRST), 'a'));
    check_equal(
        &rt,
        (place, live, named),
        (Some(0), (0, 1), (Some(NEXT), None)),
    );
    Ok(())
}

/// Saves registers of a thread for the next name: what was saved before, and after.
fn saved(rt: &impl Abort, table: &mut CtxTable<char>, thread: u32, regs: &Regs) -> [Option<Regs>; 2]
    requires { thread < MOST_THREADS }
{
    assert!(rt; table.place(NEXT).is_some());
    let before = table.saved(NEXT, thread);
    table.save(NEXT, thread, regs);
    assert!(rt; table.place(NEXT).is_some());
    [before, table.saved(NEXT, thread)]
}

/// Gives the next name another value: its value and its registers after.
fn revalued(rt: &impl Abort, table: &mut CtxTable<char>, value: char) -> (char, Regs) {
    assert!(rt; table.place(NEXT).is_some());
    *table.value_mut(NEXT) = value;
    assert!(rt; table.place(NEXT).is_some());
    (*table.value(NEXT), table.entry(NEXT))
}

#[test]
fn a_context_keeps_what_it_was_given(rt: HostRuntime) -> Result<(), Fail> {
    let mut table = CtxTable::open(rt.alloc(), 2)?;
    insert(&rt, &mut table, NEXT, 'a', 5);
    let saved = saved(&rt, &mut table, 15, &Regs::fresh(6));
    let revalued = revalued(&rt, &mut table, 'b');
    check_equal(&rt, saved, [None, Some(Regs::fresh(6))]);
    check_equal(&rt, revalued, ('b', Regs::fresh(5)));
    Ok(())
}

/// Inserts the next name, which is new, into names with room: the place that it has, and the place that is found.
fn insert_next(rt: &impl Abort, names: &mut Names) -> (usize, Option<usize>) {
    assert!(rt; names.has_room());
    assert!(rt; names.place(NEXT).is_none());
    (names.insert(NEXT), names.place(NEXT))
}

/// Whether names have room, the first one by its place and by its number, how many there are, and how many of jobs 0
/// and 7.
fn seen(names: &Names) -> (bool, [Option<Name>; 2], [u32; 3]) {
    let firsts = [names.at(0), names.nth(0)];
    let counts = [names.len(), names.count_of(0), names.count_of(7)];
    (names.has_room(), firsts, counts)
}

/// Removes the next name, which is there: the place that it had, and the name there after.
fn remove_next(rt: &impl Abort, names: &mut Names) -> (usize, Option<Name>) {
    assert!(rt; names.place(NEXT).is_some());
    (names.remove(NEXT), names.at(0))
}

#[test]
fn a_name_that_was_taken_out_frees_its_place(rt: HostRuntime) -> Result<(), Fail> {
    let mut names = Names::open(rt.alloc(), 1)?;
    let inserted = insert_next(&rt, &mut names);
    let seen = seen(&names);
    let removed = remove_next(&rt, &mut names);
    check_equal(&rt, (inserted, removed), ((0, Some(0)), (0, None)));
    check_equal(&rt, seen, (false, [Some(NEXT); 2], [1, 0, 1]));
    Ok(())
}
