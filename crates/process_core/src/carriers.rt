//! Passes that go to carriers, and come back from them.
ghost use Rattle.std.specs.Prelude.{◌≡◌, ◌≤◌, [], length, map, vec_capacity};

use crate::carrier::{Carrier, CountsTurns};
use crate::passes::ProcessPasses;
use world_face::World;

/// Carriers of these passes, each with what counts its turns, in a vector that has room for them.
pub fn carriers_of<W: World, T: CountsTurns>(
    mut carriers: Vec<Carrier<W, T>>,
    mut passes: ProcessPasses<W>,
    mut turns: Vec<T>,
) -> Vec<Carrier<W, T>>
    requires empty { carriers.items ≡ [] }
    requires room { length passes.items ≤ vec_capacity carriers }
    requires turns { length turns.items ≡ length passes.items }
    ensures passes { map (λ c. c.pass) result.items ≡ passes.items }
    ensures turns { map (λ c. c.turns) result.items ≡ turns.items }
{
    'passes: while !passes.is_empty() {
        let pass = passes.remove(0);
        let turns = turns.remove(0);
        carriers.push_reserved(Carrier { pass, turns });
    }
    carriers
}

/// The passes of carriers, and what counted their turns, in their order, in vectors that have room for them.
pub fn parts_of<W: World, T: CountsTurns>(
    mut carriers: Vec<Carrier<W, T>>,
    mut passes: ProcessPasses<W>,
    mut turns: Vec<T>,
) -> (ProcessPasses<W>, Vec<T>)
    requires passes { passes.items ≡ [] }
    requires turns { turns.items ≡ [] }
    requires passes_room { length carriers.items ≤ vec_capacity passes }
    requires turns_room { length carriers.items ≤ vec_capacity turns }
    ensures passes { result.0.items ≡ map (λ c. c.pass) carriers.items }
    ensures turns { result.1.items ≡ map (λ c. c.turns) carriers.items }
{
    'carriers: while !carriers.is_empty() {
        let Carrier {
            pass,
            turns: counted,
        } = carriers.remove(0);
        passes.push_reserved(pass);
        turns.push_reserved(counted);
    }
    (passes, turns)
}
