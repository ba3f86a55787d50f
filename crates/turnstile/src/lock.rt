//! The lock, as its callers see it.
ghost use Rattle.std.specs.Prelude.{◌≡◌, ◌+◌, ◌<◌, ◌≤◌, ℕ, [], ◌∷◌, ◌++◌, length, All, Contains, IfOk, map};
ghost use Rattle.std.specs.Prelude.{slice_get, Some};
ghost use Rattle.std.specs.Fn.{FnOnceTakesAtMut, FnOnceReturnsAtMut};
ghost use mathlib.Core.List.{IsPrefix};
ghost use Rattle.turnstile.specs.Past.{times, Knows};
ghost use Rattle.turnstile.specs.Passes.{IsPassOf, IsNewPass, IsDueFor};

use crate::moves::{act, end_turn, look, open_table, settle, take_turn};
use crate::passes::{HoldsPass, Pass, Passes, deal_passes, join_all, take_first};
use crate::queue::LockTable;
use crate::states::Turned;
use crate::waiting::Mutex;
use lwc_types::OutOfMemory;
use std::alloc::Global;
use std::marker::Model;
use std::sync::Wait;

/// A ticket lock round a state. Threads share it by `&`, each with a pass of its own.
///
/// Contracts see it as its table, the name of its state, and how many passes it gave (`specs/Passes.antt`,
/// `Lock`).
#[derive(Drop)]
pub struct Turnstile<S: Turned> {
    seats: u32,
    mutex: Mutex,
    table: LockTable<S>,
}

impl<S: Turned> Model for Turnstile<S> {
    ghost use Rattle.std.specs.Prelude.{◌≡◌, ◌<◌};
    ghost use Rattle.turnstile.specs.Passes.{Lock};

    ghost Value = { Lock S.Name };

    ghost view = { λ t. record {
      table = t.table.shared.table_id;
      name = S.name t.table.shared.key.value;
      seats = t.seats;
    } };

    ghost invariant = { λ t. (0 < t.seats) × (t.table.shared.table_id.words ≡ 2)
        × (t.table.shared.table_id.slots ≡ 1) };
}

impl<S: Turned> Turnstile<S> {
    ghost use Rattle.turnstile.specs.Passes.{AreAllOf, Held, HoldAllOf, IsNewPass};

    /// A turnstile round a state with an empty past, and its passes, from 1 to 16. Pass i has the number i,
    /// has seen the empty past, and has noted 0 turns.
    ///
    /// This is the only call that takes memory. It answers `OutOfMemory` where an allocation was refused, and
    /// the state is then dropped.
    pub fn new(
        alloc: Global,
        state: S,
        seats: u32,
    ) -> Result<(Turnstile<S>, Passes<S>), OutOfMemory>
        requires seats { (1 ≤ seats) × (seats ≤ 16) }
        requires empty { S.past state ≡ [] }
        ensures name { IfOk result (λ t. t.0.name ≡ S.name state) }
        ensures seats { IfOk result (λ t. (t.0.seats ≡ seats) × (length t.1.items ≡ seats)) }
        ensures all { IfOk result (λ t. AreAllOf t.0 t.1.items) }
        ensures passes { IfOk result (λ t. (i : ℕ) (p : Held S.Name) → slice_get t.1.items i ≡ Some p
            → IsNewPass t.0 i p) }
    {
        let (table, first) = open_table(alloc, state)?;
        let passes = deal_passes(alloc, &table.shared, first, seats)?;
        let mutex = Mutex::new();
        Ok((
            Turnstile {
                seats,
                mutex,
                table,
            },
            passes,
        ))
    }

    /// Has one turn: calls the action once on the state, and answers what it answered. It may wait. Threads
    /// that wait have their turns in no particular order.
    ///
    /// The state is due for the pass (`IsDueFor`): it has the turnstile's name, and its past begins with
    /// what the pass has seen and has no further turn of the pass. On each such state the action must be
    /// callable, keep the name, and add exactly the pass's number to the past. Afterwards the pass has seen
    /// the past that the action left.
    pub fn with_turn<H: Wait, R, A: FnOnce(&mut S) -> R>(
        &self,
        rt: &H,
        pass: &mut Pass<S>,
        action: A,
    ) -> R
        requires ours { IsPassOf self.now pass.old }
        requires callable { (x : S) → IsDueFor S.name S.past self.now pass.old x
            → FnOnceTakesAtMut A.FnOnce action x }
        requires moves { (x y : S) (r : R) → IsDueFor S.name S.past self.now pass.old x
            → FnOnceReturnsAtMut A.FnOnce action x r y → (S.name y ≡ S.name x)
            × (S.past y ≡ S.past x ++ pass.old.number ∷ []) }
        ensures called { (x : S) × (y : S) × IsDueFor S.name S.past self.now pass.old x
            × FnOnceReturnsAtMut A.FnOnce action x result y × (pass.new.seen ≡ S.past y) }
        ensures front { IsPrefix pass.old.seen pass.new.seen }
        ensures count { times pass.old.number pass.new.seen ≡ times pass.old.number pass.old.seen + 1 }
        ensures later { pass.old.noted < length pass.new.seen }
        ensures ours { IsPassOf self.now pass.new }
        ensures number { pass.new.number ≡ pass.old.number }
        ensures noted { pass.old.noted ≤ pass.new.noted }
    {
        self.mutex.lock(rt);
        let answer = self.turn_inside(rt, pass, action);
        self.mutex.unlock();
        answer
    }

    /// The mutex that threads lock before their turns. Who holds it has several turns in one stay by `turn_inside`;
    /// those of others wait meanwhile.
    pub fn mutex(&self) -> &Mutex {
        &self.mutex
    }

    /// Has one turn as `with_turn` does, for a thread that holds the mutex. One that does not may wait longer,
    /// and the same holds of it.
    #[inline(always)]
    pub fn turn_inside<H: Wait, R, A: FnOnce(&mut S) -> R>(
        &self,
        rt: &H,
        pass: &mut Pass<S>,
        action: A,
    ) -> R
        requires ours { IsPassOf self.now pass.old }
        requires callable { (x : S) → IsDueFor S.name S.past self.now pass.old x
            → FnOnceTakesAtMut A.FnOnce action x }
        requires moves { (x y : S) (r : R) → IsDueFor S.name S.past self.now pass.old x
            → FnOnceReturnsAtMut A.FnOnce action x r y → (S.name y ≡ S.name x)
            × (S.past y ≡ S.past x ++ pass.old.number ∷ []) }
        ensures called { (x : S) × (y : S) × IsDueFor S.name S.past self.now pass.old x
            × FnOnceReturnsAtMut A.FnOnce action x result y × (pass.new.seen ≡ S.past y) }
        ensures front { IsPrefix pass.old.seen pass.new.seen }
        ensures count { times pass.old.number pass.new.seen ≡ times pass.old.number pass.old.seen + 1 }
        ensures later { pass.old.noted < length pass.new.seen }
        ensures ours { IsPassOf self.now pass.new }
        ensures number { pass.new.number ≡ pass.old.number }
        ensures noted { pass.old.noted ≤ pass.new.noted }
    {
        let shared = &self.table.shared;
        let state = take_turn(rt, shared, &mut pass.seat);
        let (state, answer) = act(state, action);
        end_turn(shared, &mut pass.seat, state);
        answer
    }

    /// How many turns were passed on. The pass notes the answer, which is below neither the number of turns
    /// that it has seen nor what it had noted. It needs no means to wait.
    pub fn served(&self, pass: &mut Pass<S>) -> u64
        requires ours { IsPassOf self.now pass.old }
        ensures seen { length pass.old.seen ≤ result }
        ensures noted { pass.old.noted ≤ result }
        ensures pass { pass.new ≡ record pass.old { noted = result } }
        ensures ours { IsPassOf self.now pass.new }
    {
        look(&self.table.shared, &mut pass.seat)
    }

    /// Ends the turnstile, and gives its state back. What is handed in holds all the passes that `new`
    /// gave, in any order; passes hold themselves. It takes no memory.
    ///
    /// The past of the state begins with what each pass had seen, has no further turn of that pass, and
    /// has at least as many turns as the pass had noted.
    pub fn close<P: HoldsPass<S>>(self, mut passes: Vec<P>) -> S
        requires { HoldAllOf P.held self passes.items }
        ensures name { S.name result ≡ self.name }
        ensures seen { All (λ p. Knows (S.past result) (P.held p).number (P.held p).seen) passes.items }
        ensures noted { All (λ p. (P.held p).noted ≤ length (S.past result)) passes.items }
    {
        let Turnstile {
            seats: _,
            mutex: _,
            table,
        } = self;
        let first = take_first(&mut passes);
        let first = join_all(&table.shared, first, passes);
        settle(table, first)
    }
}
