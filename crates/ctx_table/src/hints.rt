ghost use Rattle.std.specs.Prelude.{◌≡◌, ◌<◌, if◌then◌else◌, IfOk, replicate, slice_index_or, slice_set};
ghost use Rattle.ctx_table.specs.Hints.{number_of, shares_hint};
ghost use Rattle.ctx_table.specs.declared.hints.TheConstants.{HINTS};

use lwc_types::{Name, OutOfMemory};
use std::alloc::Global;
use std::marker::Model;

/// How many hints there are.
pub(crate) const HINTS: u32 = 2048;

/// For each number of a name, the place to look at first. Names of one number share a hint, so it may be
/// wrong.
#[derive(Drop)]
pub(crate) struct Hints {
    places: Vec<usize>,
}

impl Model for Hints {
    ghost use Rattle.std.specs.Prelude.{◌≡◌, ℕ, List, length};
    ghost use Rattle.ctx_table.specs.declared.hints.TheConstants.{HINTS};

    ghost Value = { List ℕ };

    ghost view = { λ hints. hints.places.items };

    ghost invariant = { λ hints. length hints.places.items ≡ HINTS };
}

/// The number of a name. Other names may have it too.
#[tactic(auto, unfolding(crate::specs::Hints::number_of))]
fn number_of(name: Name) -> usize
    ensures number { result ≡ number_of name }
    ensures within { result < HINTS }
{
    ((u64::from(name.job) * 67 + u64::from(name.k)) % u64::from(HINTS)) as usize
}

impl Hints {
    /// Hints at place 0 for all names. The only error is out of memory.
    pub(crate) fn open(alloc: Global) -> Result<Hints, OutOfMemory>
        ensures { IfOk result (λ hints. hints ≡ replicate HINTS 0) }
    {
        let places = vec![in alloc; 0usize; HINTS as usize]?;
        Ok(Hints { places })
    }

    /// The place to look at first for a name.
    pub(crate) fn place(&self, name: Name) -> usize
        ensures { result ≡ slice_index_or self.now (number_of name) 0 }
    {
        self.places[number_of(name)]
    }

    /// Makes a place the hint for a name. `hinted` is the live name at the place that the hint gives now, if
    /// there is one. If it shares the hint, the hint stays, so that a name that lives long keeps its hint.
    pub(crate) fn offer(&mut self, name: Name, place: usize, hinted: Option<Name>)
        ensures { self.new
            ≡ (if shares_hint hinted name then self.old else slice_set self.old (number_of name) place) }
    {
        match hinted {
            Some(other) if number_of(other) == number_of(name) => {}
            _ => self.places[number_of(name)] = place,
        }
    }
}
