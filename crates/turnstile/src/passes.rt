//! The passes of a turnstile.
ghost use Rattle.std.specs.Prelude.{◌≡◌, ◌+◌, ◌<◌, ◌≤◌, ◌==◌, ◌++◌, ℕ, [], ◌∷◌, length, map, All, Contains};
ghost use Rattle.std.specs.Prelude.{IfOk, Some, slice_get};
ghost use Rattle.std.specs.List.{position};
ghost use Rattle.std.specs.List.Sorted.{IsPermutation};
ghost use Rattle.turnstile.specs.Rule.{first_view};
ghost use Rattle.turnstile.specs.Moves.{IsSeatAt, IsSameSeat};

use crate::moves::{join_seat, split_seat};
use crate::queue::{LockSeat, LockShared};
use crate::states::Turned;
use std::alloc::{AllocError, Global};
use std::marker::Model;

/// The right to have turns at a turnstile. It may go from thread to thread.
///
/// Contracts see it as what its holder knows (`specs/Passes.antt`, `Held`): whose pass it is, its number, the
/// longest past that it has seen, and the greatest number of turns that it noted.
#[derive(Drop)]
pub struct Pass<S: Turned> {
    number: u32,
    pub(crate) seat: LockSeat<S>,
}

/// The passes of a turnstile, at `new` in the order of their numbers.
pub type Passes<S> = Vec<Pass<S>>;

impl<S: Turned> Model for Pass<S> {
    ghost use Rattle.turnstile.specs.Passes.{Held, held_of, IsAtRest};

    ghost Value = { Held S.Name };

    ghost view = { λ p. held_of p.seat };

    ghost invariant = { λ p. IsAtRest p.number p.seat };
}

/// What holds a pass of a turnstile, and gives it up when the turnstile ends.
pub trait HoldsPass<S: Turned>: Drop {
    ghost use Rattle.turnstile.specs.Passes.{Held};

    // The pass, as contracts see it.
    ghost held: { Self → Held S.Name };

    /// The pass.
    fn pass(&self) -> &Pass<S>
        ensures { result.now ≡ held self.now };

    /// The pass alone.
    fn into_pass(self) -> Pass<S>
        ensures { result ≡ held self };
}

impl<S: Turned> HoldsPass<S> for Pass<S> {
    ghost held = { λ p. p };

    fn pass(&self) -> &Pass<S> {
        self
    }

    fn into_pass(self) -> Pass<S> {
        self
    }
}

impl<S: Turned> Pass<S> {
    ghost use Rattle.turnstile.specs.Passes.{held_of, IsAtRest};

    /// The pass's number, from 0 on.
    pub fn number(&self) -> u32
        ensures { result ≡ self.now.number }
    {
        self.number
    }

    fn into_seat(self) -> LockSeat<S>
        ensures view { held_of result ≡ self }
        ensures rest { IsAtRest self.number result }
    {
        let Pass { number: _, seat } = self;
        seat
    }
}

ghost use Rattle.turnstile.specs.Passes.{Held, held_of, joined_of, fresh_pass, IsAtRest};
ghost use Rattle.turnstile.specs.Past.{Knows};

/// Splits the first seat, and gives each seat to a pass.
pub(crate) fn deal_passes<S: Turned>(
    alloc: Global,
    shared: &LockShared<S>,
    mut first: LockSeat<S>,
    seats: u32,
) -> Result<Passes<S>, AllocError>
    requires seat { IsSeatAt shared.now.table_id first }
    requires first { first.me ≡ (first_view (S.name shared.now.key.value), []) }
    requires few { (1 ≤ seats) × (seats ≤ 16) }
    ensures count { IfOk result (λ passes. length passes.items ≡ seats) }
    ensures first { IfOk result (λ passes. slice_get passes.items 0
        ≡ Some (record (fresh_pass shared.now.table_id (S.name shared.now.key.value) 0) { made = seats })) }
    ensures others { IfOk result (λ passes. (i : ℕ) (p : Held S.Name) → 0 < i → slice_get passes.items i
        ≡ Some p → p ≡ fresh_pass shared.now.table_id (S.name shared.now.key.value) i) }
{
    let mut passes = Vec::with_capacity(alloc, seats as usize)?;
    for number in 1..seats {
        let seat = split_seat(shared, &mut first);
        passes.push(Pass { number, seat })?;
    }
    passes.insert(
        0,
        Pass {
            number: 0,
            seat: first,
        },
    )?;
    Ok(passes)
}

/// The place of the pass with number 0.
fn place_of_first<S: Turned, P: HoldsPass<S>>(passes: &[P]) -> Option<usize>
    ensures { result ≡ position (λ p. (P.held p).number == 0) passes.now }
{
    passes.iter().position(
        |holder| -> bool
            ensures { result ≡ ((P.held holder.now).number == 0) }
        { holder.pass().number() == 0 },
    )
}

/// Takes the pass with number 0 out.
pub(crate) fn take_first<S: Turned, P: HoldsPass<S>>(passes: &mut Vec<P>) -> P
    requires { Contains (map (λ p. (P.held p).number) passes.old.items) 0 }
    ensures first { (P.held result).number ≡ 0 }
    ensures others { IsPermutation passes.old.items (result ∷ passes.new.items) }
{
    let place = place_of_first(passes.as_slice());
    passes.swap_remove(place.unwrap())
}

/// Joins the seats of all other passes to that of the first.
pub(crate) fn join_all<S: Turned, P: HoldsPass<S>>(
    shared: &LockShared<S>,
    first: P,
    others: Vec<P>,
) -> LockSeat<S>
    requires shared { ((P.held first).table ≡ shared.now.table_id) × (shared.now.table_id.words ≡ 2)
        × (shared.now.table_id.slots ≡ 1) }
    requires first { (P.held first).number ≡ 0 }
    requires others { All (λ p. (P.held p).table ≡ shared.now.table_id) others.items }
    ensures seat { held_of result ≡ P.held first }
    ensures rest { IsAtRest 0 result }
    ensures joined { All (λ p. Contains result.me.0.joined (joined_of (P.held p))) others.items }
{
    let mut seat = first.into_pass().into_seat();
    for other in others {
        join_seat(shared, &mut seat, other.into_pass().into_seat());
    }
    seat
}
