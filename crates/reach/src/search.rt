ghost use Rattle.std.specs.Prelude.{◌≡◌, ◌<◌, [], IfSome, length, replicate, slice_index};
ghost use Rattle.lwc_types.specs.declared.key.TheConstants.{SLOTS};
ghost use Rattle.lwc_types.specs.declared.limits.TheConstants.{MOST_CONTEXTS};
ghost use Rattle.reach.specs.Search as spec;

use crate::links::Links;
use crate::marks::Marks;
use arrayvec::ArrayVec;
use lwc_types::SLOTS;
use std::marker::Model;

/// A search: the places that are marked, and the same places in the order in which they were found.
#[derive(Drop)]
pub(crate) struct Search {
    marks: [bool; 529],
    order: ArrayVec<usize, 529>,
}

impl Model for Search {
    ghost use Rattle.reach.specs.Search.{Found, IsWhole};

    ghost Value = { Found };

    ghost view = { λ search. record { marks = search.marks; order = search.order.items } };

    ghost invariant = { λ search. IsWhole (record { marks = search.marks; order = search.order.items }) };
}

impl Search {
    /// A search that has found no place.
    pub(crate) fn new() -> Search
        ensures { result ≡ spec.nothing_found }
    {
        Search {
            marks: [false; 529],
            order: ArrayVec::new(),
        }
    }

    /// Finds a place, if it was not found before.
    pub(crate) fn visit(&mut self, place: usize)
        requires { place < MOST_CONTEXTS }
        ensures { self.new ≡ spec.visited self.old place }
    {
        if !self.marks[place] {
            self.marks[place] = true;
            self.order.push(place);
        }
    }

    /// Finds the place of a link, if there is one.
    fn visit_link(&mut self, link: Option<usize>)
        requires { IfSome link (λ place. place < MOST_CONTEXTS) }
        ensures { self.new ≡ spec.visited_link self.old link }
    {
        if let Some(place) = link {
            self.visit(place);
        }
    }

    /// Finds the places that a place links to. Slots that cannot link to one are passed over.
    fn visit_links<K: Links>(&mut self, links: &K, place: usize)
        requires { place < MOST_CONTEXTS }
        ensures found { self.new ≡ spec.with_links (K.link_of links.now) place self.old SLOTS }
        ensures within { spec.LinksWithin (K.link_of links.now) place SLOTS }
    {
        let mut from = 0;
        'slots: while let Some(slot) = links.next_slot(place, from) {
            self.visit_link(links.link(place, slot));
            from = slot + 1;
        }
    }

    /// Finds the places that the i-th place of the order links to, if the order has one there.
    pub(crate) fn expand<K: Links>(&mut self, links: &K, index: usize)
        requires { index < length self.old.order → slice_index self.old.order index < MOST_CONTEXTS }
        ensures found { self.new ≡ spec.expanded (K.link_of links.now) self.old index }
        ensures within { index < length self.old.order →
            spec.LinksWithin (K.link_of links.now) (slice_index self.old.order index) SLOTS }
    {
        let place = self.order.as_slice().get(index).copied();
        if let Some(place) = place {
            self.visit_links(links, place);
        }
    }

    /// How many places were found.
    pub(crate) fn len(&self) -> usize
        ensures { result ≡ length self.now.order }
    {
        self.order.len()
    }

    /// The marks of the places that were found.
    pub(crate) fn into_marks(self) -> Marks
        ensures { result ≡ self.marks }
    {
        let marks = self.marks;
        Marks { marks }
    }
}
