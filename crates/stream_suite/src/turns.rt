//! The turns that a lock gives to its passes.

ghost use Rattle.std.specs.Prelude.{◌≡◌, ◌+◌, ◌*◌, ◌<◌, ◌≤◌, ◌^◌, ◌++◌, ℕ, [], ◌∷◌, length, sum, IfOk, Some};
ghost use Rattle.std.specs.Prelude.{slice_get, All, vec_len, vec_capacity, slice_index};
ghost use Rattle.turnstile.specs.Past.{times};
ghost use Rattle.turnstile.specs.Passes.{IsPassOf, IsNewPass, AreAllOf};

use std::alloc::{AllocError, Global};
use std::sync::Wait;
use std::test::Fail;
use std::thread;
use std::thread::Threads;
use turnstile::{Pass, Passes, Turned, Turnstile};

/// How many turns each pass has.
const BUDGET: u64 = 1000;

/// The turns in order, with room for what is left to each pass.
#[derive(Drop)]
struct Log {
    turns: Vec<u64>,
    left: Vec<u64>,
    ghost room: { (vec_len turns + sum left.items ≤ vec_capacity turns) × (vec_capacity turns < 2 ^ 32) },
    ghost budgets: { (n : ℕ) → n < length left.items → slice_index left.items n + times n turns.items
        ≡ 1000 },
}

impl Turned for Log {
    type Name = u64;

    ghost use Rattle.std.specs.Prelude.{length};

    ghost name = { λ log. length log.left.items };

    ghost past = { λ log. log.turns.items };

    ghost use Rattle.std.proofs.Common.{arith};

    ghost short = { λ log. omega (arith, log.room, log.turns.ok) };
}

impl Log {
    /// The log before the first turn, of this many seats.
    fn new(alloc: Global, seats: usize) -> Result<Log, AllocError>
        requires { seats ≤ 16 }
        ensures name { IfOk result (λ log. length log.left.items ≡ seats) }
        ensures empty { IfOk result (λ log. log.turns.items ≡ []) }
    {
        let left = Vec::from_elem(alloc, BUDGET, seats)?;
        let turns = Vec::with_capacity(alloc, seats * 1000)?;
        Ok(Log { turns, left })
    }

    /// Appends a number, after the thread has yielded this many times.
    fn append(&mut self, number: u32, yields: u32)
        requires seat { number < length self.old.left.items }
        requires budget { times number self.old.turns.items < 1000 }
        ensures name { length self.new.left.items ≡ length self.old.left.items }
        ensures past { self.new.turns.items ≡ self.old.turns.items ++ number ∷ [] }
    {
        for _ in 0..yields {
            thread::yield_now();
        }
        self.left[number as usize] -= 1;
        self.turns.push_reserved(u64::from(number));
    }
}

/// Takes this many turns, each of which appends the pass's number after this many yields.
fn take_turns<R: Wait>(
    rt: &R,
    gate: &Turnstile<Log>,
    pass: Pass<Log>,
    turns: u64,
    yields: u32,
) -> Pass<Log>
    requires ours { IsPassOf gate.now pass }
    requires seat { pass.number < gate.now.name }
    requires budget { times pass.number pass.seen + turns ≤ 1000 }
    ensures ours { IsPassOf gate.now result }
    ensures number { result.number ≡ pass.number }
    ensures count { times pass.number result.seen ≡ times pass.number pass.seen + turns }
{
    let mut pass = pass;
    for _turn in 0..turns {
        let number = pass.number();
        gate.with_turn(rt, &mut pass, |log| log.append(number, yields));
    }
    pass
}

/// The number of turns so far, asked in a function that has no means to wait.
fn turns_so_far(gate: &Turnstile<Log>, pass: &mut Pass<Log>) -> u64
    requires { IsPassOf gate.now pass.old }
    ensures ours { IsPassOf gate.now pass.new }
    ensures pass { pass.new ≡ record pass.old { noted = result } }
{
    gate.served(pass)
}

/// The passes of a turnstile with two seats, and the vector that had them.
fn two_passes(mut passes: Passes<Log>) -> (Pass<Log>, Pass<Log>, Passes<Log>)
    requires { length passes.items ≡ 2 }
    ensures first { slice_get passes.items 0 ≡ Some result.0 }
    ensures second { slice_get passes.items 1 ≡ Some result.1 }
    ensures rest { result.2.items ≡ [] }
{
    let second = passes.pop().unwrap();
    let first = passes.pop().unwrap();
    (first, second, passes)
}

/// Two threads take this many turns each, with this many yields in each turn.
fn take_both<R: Threads + Wait + Sync>(
    rt: &R,
    gate: &Turnstile<Log>,
    one: Pass<Log>,
    other: Pass<Log>,
    turns: u64,
    yields: u32,
) -> (Pass<Log>, Pass<Log>)
    requires new { IsNewPass gate.now 0 one × IsNewPass gate.now 1 other }
    requires gate { gate.now.name ≡ 2 }
    requires budget { turns ≤ 1000 }
    ensures ours { IsPassOf gate.now result.0 × IsPassOf gate.now result.1 }
    ensures numbers { (result.0.number ≡ 0) × (result.1.number ≡ 1) }
    ensures count { (times 0 result.0.seen ≡ turns) × (times 1 result.1.seen ≡ turns) }
{
    thread::join(
        rt,
        || -> Pass<Log>
            requires { IsNewPass gate.now 0 one × (gate.now.name ≡ 2) × (turns ≤ 1000) }
            ensures { IsPassOf gate.entry.now result × (result.number ≡ 0) × (times 0 result.seen ≡ turns) }
        { take_turns(rt, gate, one, turns, yields) },
        || -> Pass<Log>
            requires { IsNewPass gate.now 1 other × (gate.now.name ≡ 2) × (turns ≤ 1000) }
            ensures { IsPassOf gate.entry.now result × (result.number ≡ 1) × (times 1 result.seen ≡ turns) }
        { take_turns(rt, gate, other, turns, yields) },
    )
}

/// Two threads ask how many turns there were, whatever the state is.
fn both_ask<S: Turned, R: Threads + Sync>(
    rt: &R,
    gate: &Turnstile<S>,
    one: Pass<S>,
    other: Pass<S>,
) -> (Pass<S>, Pass<S>)
    requires { IsPassOf gate.now one × IsPassOf gate.now other }
    ensures ours { IsPassOf gate.now result.0 × IsPassOf gate.now result.1 }
    ensures seen { (result.0.seen ≡ one.seen) × (result.1.seen ≡ other.seen) }
    ensures numbers { (result.0.number ≡ one.number) × (result.1.number ≡ other.number) }
{
    thread::join(
        rt,
        || -> Pass<S>
            requires { IsPassOf gate.now one }
            ensures { IsPassOf gate.entry.now result × (result.seen ≡ one.seen)
                × (result.number ≡ one.number) }
        { asked(gate, one) },
        || -> Pass<S>
            requires { IsPassOf gate.now other }
            ensures { IsPassOf gate.entry.now result × (result.seen ≡ other.seen)
                × (result.number ≡ other.number) }
        { asked(gate, other) },
    )
}

/// The pass after it asked how many turns there were.
fn asked<S: Turned>(gate: &Turnstile<S>, mut pass: Pass<S>) -> Pass<S>
    requires { IsPassOf gate.now pass }
    ensures ours { IsPassOf gate.now result }
    ensures seen { result.seen ≡ pass.seen }
    ensures number { result.number ≡ pass.number }
{
    gate.served(&mut pass);
    pass
}

/// The log at the end, in which each of the two has its turns.
fn close_both(
    gate: Turnstile<Log>,
    mut passes: Passes<Log>,
    one: Pass<Log>,
    other: Pass<Log>,
) -> Result<Log, AllocError>
    requires gate { gate.seats ≡ 2 }
    requires ours { IsPassOf gate one × IsPassOf gate other }
    requires numbers { (one.number ≡ 0) × (other.number ≡ 1) }
    requires empty { passes.items ≡ [] }
    ensures first { IfOk result (λ log. times 0 log.turns.items ≡ times 0 one.seen) }
    ensures second { IfOk result (λ log. times 1 log.turns.items ≡ times 1 other.seen) }
{
    passes.push(other)?;
    passes.push(one)?;
    Ok(gate.close(passes))
}

/// How often the number is in the log.
fn turns_of(log: &Log, number: u64) -> usize {
    log.turns.iter().filter(|turn| **turn == number).count()
}

/// Two threads take this many turns each, with this many yields in each turn. Returns the log at the end.
fn log_of_both<R: AllocGlobal + Threads + Wait + Sync>(
    rt: &R,
    turns: u64,
    yields: u32,
) -> Result<Log, Fail>
    requires { turns ≤ 1000 }
{
    let log = Log::new(rt.alloc(), 2)?;
    let (gate, passes) = Turnstile::new(rt.alloc(), log, 2)?;
    let (one, other, rest) = two_passes(passes);
    let (one, other) = take_both(rt, &gate, one, other, turns, yields);
    let (one, other) = both_ask(rt, &gate, one, other);
    Ok(close_both(gate, rest, one, other)?)
}

/// The turns of each of the two in the log, and all turns, where two threads take this many turns each.
fn counts_of_both<R: AllocGlobal + Threads + Wait + Sync>(
    rt: &R,
    turns: u64,
    yields: u32,
) -> Result<[usize; 3], Fail>
    requires { turns ≤ 1000 }
{
    let log = log_of_both(rt, turns, yields)?;
    Ok([turns_of(&log, 0), turns_of(&log, 1), log.turns.len()])
}

#[test]
fn two_threads_have_their_turns(rt: HostRuntime) -> Result<(), Fail> {
    assert_eq!(rt; counts_of_both(&rt, 1000, 0)?, [1000, 1000, 2000]);
    Ok(())
}

/// A turn takes longer than a waiting thread tries, so the other one sleeps, and has its turns all the same. Whether
/// it asked for the mutex shows only in how long it waited, which no test looks at.
#[test]
fn a_thread_that_waits_long_has_its_turns(rt: HostRuntime) -> Result<(), Fail> {
    assert_eq!(rt; counts_of_both(&rt, 20, 2000)?, [20, 20, 40]);
    Ok(())
}

/// Each pass takes one turn, and then asks how many turns there were. Returns the sum of the answers.
fn one_turn_each<R: Wait>(rt: &R, gate: &Turnstile<Log>, passes: &mut Passes<Log>) -> u64
    requires all { AreAllOf gate.now passes.old.items }
    requires new { All (λ p. (p.seen ≡ []) × (p.number < gate.now.name)) passes.old.items }
    ensures { AreAllOf gate.now passes.new.items }
{
    let mut sum = 0u64;
    for i in 0..passes.len() {
        let pass = &mut passes[i];
        let number = pass.number();
        gate.with_turn(rt, pass, |log| log.append(number, 0));
        sum = sum.wrapping_add(turns_so_far(gate, pass));
    }
    sum
}

/// The log of sixteen seats of which each has taken one turn, and the sum of what their passes saw.
fn one_turn_of_sixteen<R: Wait>(rt: &R, alloc: Global) -> Result<(u64, Log), Fail> {
    let log = Log::new(alloc, 16)?;
    let (gate, mut passes) = Turnstile::new(alloc, log, 16)?;
    let seen = one_turn_each(rt, &gate, &mut passes);
    Ok((seen, gate.close(passes)))
}

#[test]
fn sixteen_seats(rt: HostRuntime) -> Result<(), Fail> {
    let (seen, log) = one_turn_of_sixteen(&rt, rt.alloc())?;
    let seats = [0, 1, 2, 3, 4, 5, 6, 7, 8, 9, 10, 11, 12, 13, 14, 15];
    assert!(rt; seen == 136 && log.turns.as_slice() == seats.as_slice());
    Ok(())
}
