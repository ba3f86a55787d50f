ghost use Rattle.std.specs.Prelude.{◌≡◌, ◌<◌, ◌↔◌, ℕ, All, false, length, replicate, true};
ghost use Rattle.lwc_types.specs.declared.limits.TheConstants.{MOST_CONTEXTS};
ghost use Rattle.reach.specs.Reach as spec;
ghost use Rattle.reach.specs.Reach.{Reaches};

use crate::links::Links;
use crate::search::Search;
use std::marker::Model;

/// A mark for each of 529 places, seen as a list of truth values.
#[derive(Drop)]
pub struct Marks {
    pub(crate) marks: [bool; 529],
}

impl Model for Marks {
    ghost use Rattle.std.specs.Prelude.{Bool, List};

    ghost Value = { List Bool };

    ghost view = { λ marks. marks.marks };
}

impl Marks {
    /// No place is marked.
    pub fn new() -> Marks
        ensures none { (place : ℕ) → spec.is_marked result place ≡ false }
    {
        Marks {
            marks: [false; 529],
        }
    }

    /// All marks, in the order of places.
    pub fn as_slice(&self) -> &[bool]
        ensures same { result.now ≡ self.now }
        ensures all { length result.now ≡ MOST_CONTEXTS }
    {
        &self.marks
    }

    /// Whether a place is marked.
    pub fn marked(&self, place: usize) -> bool
        requires { place < MOST_CONTEXTS }
        ensures { result ≡ spec.is_marked self.now place }
    {
        self.marks[place]
    }
}

/// Marks exactly the places that are reached from the roots by links (`Reaches`), whatever was marked before.
pub fn mark<K: Links>(links: &K, roots: &[usize], marks: &mut Marks)
    requires { All (λ root. root < MOST_CONTEXTS) roots.now }
    ensures { (place : ℕ) → place < MOST_CONTEXTS →
        (spec.is_marked marks.new place ≡ true) ↔ Reaches (K.link_of links.now) roots.now place }
{
    let mut search = Search::new();
    'roots: for i in 0..roots.len() {
        search.visit(roots[i]);
    }
    let mut i = 0;
    'places: while i < search.len() {
        search.expand(links, i);
        i += 1;
    }
    *marks = search.into_marks();
}
