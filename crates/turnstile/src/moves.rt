//! What a seat does, one step at a time.
ghost use Rattle.std.specs.Prelude.{◌≡◌, ◌<◌, ◌≤◌, ℕ, [], ◌∷◌, length, map, Contains, IfOk, Some, None};
ghost use Rattle.std.specs.Fn.{FnOnceTakesAtMut, FnOnceReturnsAtMut};
ghost use Rattle.turnstile.specs.declared.views.Stage.TheVariants.{Idle, Waiting, Serving};
ghost use Rattle.turnstile.specs.Moves.{IsSeatAt, IsSameSeat, CanLook, TakesTurn, MayEnd, Settles};
ghost use Rattle.turnstile.specs.Passes.{IsAtRest};
ghost use Rattle.turnstile.specs.Rule.{first_view};
ghost use Rattle.turnstile.specs.Steps.{staged, Looks, TakesState, MovesState, PassesOn, kept_view, new_view};
ghost use Rattle.turnstile.specs.Steps.{joined_view, rested};

use crate::queue::{
    DrawTicket, JoinSeat, LockSeat, LockShared, LockTable, Look, NEXT, PassOn, SERVING, STATE,
    SplitSeat,
};
use crate::states::Turned;
use atomic_table::Table;
use std::alloc::{AllocError, Global};
use std::snapshot::Snapshot;
use std::sync::Wait;
use std::thread::yield_now;

/// Draws a ticket.
pub(crate) fn draw_ticket<S: Turned>(shared: &LockShared<S>, seat: &mut LockSeat<S>) -> u64
    requires seat { IsSeatAt shared.now.table_id seat.old }
    requires idle { seat.old.me.0.stage ≡ Idle }
    ensures seat { IsSameSeat seat.old seat.new }
    ensures drawn { seat.new.me ≡ (staged (Waiting result) seat.old.me.0, seat.old.me.1) }
{
    shared.fetch_add::<DrawTicket>(seat, NEXT, 1)
}

/// Looks at the number of turns passed on. Where it is the seat's ticket, the seat's turn has come.
pub(crate) fn look<S: Turned>(shared: &LockShared<S>, seat: &mut LockSeat<S>) -> u64
    requires seat { IsSeatAt shared.now.table_id seat.old }
    requires before { CanLook seat.old.me.0.stage }
    ensures seat { IsSameSeat seat.old seat.new }
    ensures looked { Looks S.name S.past seat.old.me result seat.new.me }
{
    shared.load::<Look>(seat, SERVING)
}

/// Takes the state out of the slot.
pub(crate) fn move_out<S: Turned>(shared: &LockShared<S>, seat: &mut LockSeat<S>) -> S
    requires seat { seat.old.table_id ≡ shared.now.table_id }
    requires holds { (state : S) × (seat.old.me.1 ≡ (0, Some state) ∷ []) }
    ensures seat { IsSameSeat seat.old seat.new }
    ensures moved { MovesState seat.old.me (Some result) None seat.new.me }
{
    let state = shared.exchange(seat, STATE, None);
    state.unwrap()
}

/// Puts a state into the slot.
pub(crate) fn move_in<S: Turned>(shared: &LockShared<S>, seat: &mut LockSeat<S>, state: S)
    requires seat { seat.old.table_id ≡ shared.now.table_id }
    requires holds { seat.old.me.1 ≡ (0, None) ∷ [] }
    ensures seat { IsSameSeat seat.old seat.new }
    ensures moved { MovesState seat.old.me None (Some state) seat.new.me }
{
    shared.exchange(seat, STATE, Some(state));
}

/// Gives the slot back, and ends the turn.
pub(crate) fn pass_on<S: Turned>(shared: &LockShared<S>, seat: &mut LockSeat<S>)
    requires seat { IsSeatAt shared.now.table_id seat.old }
    requires turn { (state : S) × (seat.old.me.1 ≡ (0, Some state) ∷ [])
        × MayEnd S.name S.past seat.old.me.0 state }
    ensures seat { IsSameSeat seat.old seat.new }
    ensures passed { PassesOn S.past seat.old.me seat.new.me }
{
    shared.fetch_add::<PassOn>(seat, SERVING, 1);
}

/// Calls the action on the state.
pub(crate) fn act<S, R, A: FnOnce(&mut S) -> R>(mut state: S, action: A) -> (S, R)
    requires { FnOnceTakesAtMut A.FnOnce action state }
    ensures { FnOnceReturnsAtMut A.FnOnce action state result.1 result.0 }
{
    let answer = action(&mut state);
    (state, answer)
}

/// Waits until the seat's turn has come. For a seat whose thread holds the mutex the first look finds it.
pub(crate) fn wait<S: Turned, H: Wait>(
    rt: &H,
    shared: &LockShared<S>,
    seat: &mut LockSeat<S>,
    ticket: u64,
)
    requires seat { IsSeatAt shared.now.table_id seat.old }
    requires waiting { seat.old.me ≡ (staged (Waiting ticket) seat.old.me.0, []) }
    ensures seat { IsSameSeat seat.old seat.new }
    ensures noted { seat.old.me.0.noted ≤ ticket }
    ensures turn { TakesState S.name S.past seat.old.me ticket seat.new.me }
{
    for _ in rt.forever() {
        let serving = look(shared, seat);
        if serving == ticket {
            return;
        }
        yield_now();
    }
    unreachable!()
}

/// Makes one more seat.
pub(crate) fn split_seat<S: Turned>(shared: &LockShared<S>, first: &mut LockSeat<S>) -> LockSeat<S>
    requires seat { IsSeatAt shared.now.table_id first.old }
    requires first { first.old.me.0.number ≡ 0 }
    requires idle { first.old.me.0.stage ≡ Idle }
    requires room { first.old.me.0.made < 16 }
    ensures seat { IsSameSeat first.old first.new }
    ensures kept { first.new.me ≡ (kept_view first.old.me.0, first.old.me.1) }
    ensures new { (result.table_id ≡ first.old.table_id) × (result.me ≡ (new_view first.old.me.0, [])) }
{
    shared.split_seat::<SplitSeat>(first)
}

/// Takes a seat in. The first one keeps what it knew.
pub(crate) fn join_seat<S: Turned>(
    shared: &LockShared<S>,
    first: &mut LockSeat<S>,
    other: LockSeat<S>,
)
    requires seat { IsSeatAt shared.now.table_id first.old }
    requires first { first.old.me.0.number ≡ 0 }
    requires idle { first.old.me.0.stage ≡ Idle }
    requires other { (other.table_id ≡ shared.now.table_id) × (other.me.0.stage ≡ Idle) × (other.me.1 ≡ []) }
    ensures seat { IsSameSeat first.old first.new }
    ensures joined { first.new.me ≡ (joined_view first.old.me.0 other.me.0, first.old.me.1) }
{
    shared.join_seat::<JoinSeat>(first, other);
}

/// Draws a ticket, waits until it is served, and takes the state.
pub(crate) fn take_turn<S: Turned, H: Wait>(
    rt: &H,
    shared: &LockShared<S>,
    seat: &mut LockSeat<S>,
) -> S
    requires seat { IsSeatAt shared.now.table_id seat.old }
    requires rest { (seat.old.me.0.stage ≡ Idle) × (seat.old.me.1 ≡ []) }
    ensures seat { IsSameSeat seat.old seat.new }
    ensures turn { TakesTurn S.name S.past seat.old.me result seat.new.me }
{
    let ticket = draw_ticket(shared, seat);
    wait(rt, shared, seat, ticket);
    move_out(shared, seat)
}

/// Puts the state back, and ends the turn.
pub(crate) fn end_turn<S: Turned>(shared: &LockShared<S>, seat: &mut LockSeat<S>, state: S)
    requires seat { IsSeatAt shared.now.table_id seat.old }
    requires holds { seat.old.me.1 ≡ (0, None) ∷ [] }
    requires turn { MayEnd S.name S.past seat.old.me.0 state }
    ensures seat { IsSameSeat seat.old seat.new }
    ensures ended { seat.new.me ≡ (rested (S.past state) seat.old.me.0, []) }
{
    move_in(shared, seat, state);
    pass_on(shared, seat);
}

/// Makes the table, with the state in its slot, and the first seat.
pub(crate) fn open_table<S: Turned>(
    alloc: Global,
    state: S,
) -> Result<(LockTable<S>, LockSeat<S>), AllocError>
    requires { S.past state ≡ [] }
    ensures name { IfOk result (λ t. S.name t.0.shared.key.value ≡ S.name state) }
    ensures seat { IfOk result (λ t. IsSeatAt t.0.shared.table_id t.1) }
    ensures view { IfOk result (λ t. t.1.me ≡ (first_view (S.name state), [])) }
{
    let key = Snapshot::of(&state);
    let mut slots = Vec::new(alloc);
    slots.push(Some(state))?;
    match Table::new(alloc, &[0, 0], slots, &key) {
        Ok(opened) => Ok(opened),
        Err(_) => Err(AllocError),
    }
}

/// Takes the state out of a table whose seats were all joined to the first.
pub(crate) fn settle<S: Turned>(table: LockTable<S>, first: LockSeat<S>) -> S
    requires seat { IsSeatAt table.shared.table_id first }
    requires rest { IsAtRest 0 first }
    requires all { (n : ℕ) → 0 < n → n < first.me.0.made
        → Contains (map (λ j. j.number) first.me.0.joined) n }
    ensures { Settles S.name S.past (S.name table.shared.key.value) first.me.0 result }
{
    let mut closed = table.close_with(first);
    let state = closed.take(STATE);
    closed.free();
    state.unwrap()
}
