ghost use Rattle.std.specs.Prelude.{◌≡◌, ◌≤◌, ℕ, ◌+◌, ◌-◌, ◌<◌, ◌^◌, ◌↔◌, List, IfOk, IfSome, IfNone, IsNone, length};
ghost use Rattle.std.specs.Prelude.{max, replicate, slice_index, slice_set, vec_capacity};
ghost use Rattle.pool_base.specs.HoldCounts.{free_count, held_count};
ghost use Rattle.pool_base.specs.Padded.{padded};

use std::alloc::{AllocError, Global};
use std::marker::Model;

/// How often each of a fixed number of places is held. Places that were given back are kept on a stack, and
/// the others are taken in order, so that no call searches for a free one, and opening writes none.
#[derive(Drop)]
pub struct HoldCounts {
    counts: Vec<u32>,
    free: Vec<u32>,
    places: u32,
}

impl Model for HoldCounts {
    ghost use Rattle.pool_base.specs.HoldCounts.{Places, IsStack};

    ghost Value = { Places };

    ghost use Rattle.std.specs.Prelude.{length};
    ghost use Rattle.pool_base.specs.Padded.{padded};

    ghost view = { λ c. record { counts = padded c.places 0 c.counts.items; taken = length c.counts.items } };

    ghost use Rattle.std.specs.Prelude.{◌^◌, ◌<◌, ◌≤◌, vec_len, vec_capacity};

    ghost invariant = { λ c. record {
      stack : IsStack c.counts.items c.free.items;
      few : vec_len c.counts ≤ c.places;
      small : c.places < 2 ^ 32;
      room : c.places ≤ vec_capacity c.counts;
      free_room : c.places ≤ vec_capacity c.free;
    } };
}

impl HoldCounts {
    /// This number of places, none of them held. The error says that memory ran out.
    pub fn open(alloc: Global, places: u32) -> Result<HoldCounts, AllocError>
        ensures { IfOk result (λ counts. counts ≡ record { counts = replicate places 0; taken = 0 }) }
    {
        let counts = Vec::with_capacity(alloc, places as usize)?;
        let free = Vec::with_capacity(alloc, places as usize)?;
        Ok(HoldCounts {
            counts,
            free,
            places,
        })
    }

    /// Takes a free place and holds it once. `None` exactly where every place is held. A place that was never
    /// taken is the next one.
    pub fn take(&mut self) -> Option<u32>
        ensures full { IsNone result ↔ (free_count self.old.counts ≡ 0) }
        ensures full_same { IfNone result (self.new ≡ self.old) }
        ensures inside { IfSome result (λ place. place < length self.old.counts) }
        ensures was_free { IfSome result (λ place. slice_index self.old.counts place ≡ 0) }
        ensures held { IfSome result (λ place. self.new.counts ≡ slice_set self.old.counts place 1) }
        ensures next { IfSome result (λ place. place ≤ self.old.taken) }
        ensures taken { IfSome result (λ place. self.new.taken ≡ max self.old.taken (place + 1)) }
    {
        if let Some(place) = self.free.pop() {
            self.counts[place as usize] = 1;
            return Some(place);
        }
        let place = self.counts.len() as u32;
        if place == self.places {
            return None;
        }
        self.counts.push_reserved(1);
        Some(place)
    }

    /// Holds a held place once more.
    pub fn hold(&mut self, place: u32)
        requires held { 0 < slice_index self.old.counts place }
        requires fits { slice_index self.old.counts place + 1 < 2 ^ 32 }
        ensures counts { self.new.counts
            ≡ slice_set self.old.counts place (slice_index self.old.counts place + 1) }
        ensures taken { self.new.taken ≡ self.old.taken }
    {
        self.counts[place as usize] += 1;
    }

    /// Gives one hold of a held place back. A place without a hold is free.
    pub fn drop_hold(&mut self, place: u32)
        requires { 0 < slice_index self.old.counts place }
        ensures counts { self.new.counts
            ≡ slice_set self.old.counts place (slice_index self.old.counts place - 1) }
        ensures taken { self.new.taken ≡ self.old.taken }
    {
        let count = self.counts[place as usize] - 1;
        self.counts[place as usize] = count;
        if count == 0 {
            self.free.push_reserved(place);
        }
    }

    /// How often a place is held.
    pub fn count(&self, place: u32) -> u32
        requires { place < length self.now.counts }
        ensures { result ≡ slice_index self.now.counts place }
    {
        let place = place as usize;
        if place < self.counts.len() {
            self.counts[place]
        } else {
            0
        }
    }

    /// How many places are held.
    pub fn used(&self) -> u32
        ensures held { result ≡ held_count self.now.counts }
        ensures all { result + free_count self.now.counts ≡ length self.now.counts }
    {
        (self.counts.len() - self.free.len()) as u32
    }

    /// How many places there are.
    pub fn len(&self) -> u32
        ensures { result ≡ length self.now.counts }
    {
        self.places
    }
}

/// Puts an element at a place of a list, or after its last one, where memory is reserved.
pub fn put_next<T: Copy + Drop>(items: &mut Vec<T>, place: usize, item: T)
    requires next { place ≤ length items.old.items }
    requires room { place < vec_capacity items.old }
    ensures padded { (size : ℕ) (fill : T) → place < size →
        padded size fill items.new.items ≡ slice_set (padded size fill items.old.items) place item }
    ensures len { length items.new.items ≡ max (length items.old.items) (place + 1) }
    ensures capacity { vec_capacity items.old ≤ vec_capacity items.new }
{
    if place < items.len() {
        items[place] = item;
    } else {
        items.push_reserved(item);
    }
}
