ghost use Rattle.std.specs.Prelude.{◌≡◌, ◌<◌, ◌≤◌, ℕ, Option, IfNone, IfSome, None};
ghost use Rattle.lwc_types.specs.declared.key.TheConstants.{SLOTS};
ghost use Rattle.lwc_types.specs.declared.limits.TheConstants.{MOST_CONTEXTS};

use lwc_types::{SLOTS, SlotNumber};

/// Places that are linked: each has 64 slots, and a slot may link to a place.
pub trait Links {
    /// The place that a slot of a place links to, if it links to one.
    ghost link_of: { Self → ℕ → ℕ → Option ℕ };

    /// The place that a slot of a place links to; `None` if it links to none.
    fn link(&self, place: usize, slot: SlotNumber) -> Option<usize>
        requires place { place < MOST_CONTEXTS }
        requires slot { slot < SLOTS }
        ensures link { result ≡ link_of self.now place slot }
        ensures within { IfSome result (λ next. next < MOST_CONTEXTS) };

    /// A slot of a place, from one on, such that those passed over link to no place; `None` if none of those
    /// from there on does. The nearer it is to the next slot with a link, the fewer slots a search looks at.
    fn next_slot(&self, place: usize, from: SlotNumber) -> Option<SlotNumber>
        requires { place < MOST_CONTEXTS }
        ensures none { IfNone result ((slot : ℕ) → from ≤ slot → slot < SLOTS
            → link_of self.now place slot ≡ None) }
        ensures after { IfSome result (λ next. from ≤ next) }
        ensures slot { IfSome result (λ next. next < SLOTS) }
        ensures passed { IfSome result (λ next. (slot : ℕ) → from ≤ slot → slot < next
            → link_of self.now place slot ≡ None) }
    {
        if from < SLOTS { Some(from) } else { None }
    }
}
