ghost use Rattle.std.specs.Prelude.{◌≡◌, ◌<◌, ◌≤◌, ◌++◌, ◌∷◌, [], All, length};
ghost use Rattle.lwc_base.specs.Modes.{AreApart, IsItem, IsSpec};
ghost use Rattle.lwc_types.specs.declared.limits.TheConstants.{MOST_ITEMS, MOST_PAGES};

use crate::item::Item;
use arrayvec::ArrayVec;
use lwc_types::{MOST_ITEMS, MOST_PAGES};
use std::marker::Model;

/// A resource specifier: at most 32 items, each within the limit of its kind, no two with a key in common. It
/// is seen as the list of its items.
#[derive(Drop)]
pub struct Items {
    items: ArrayVec<Item, 32>,
}

impl Model for Items {
    ghost use Rattle.std.specs.Prelude.{List};
    ghost use Rattle.lwc_base.specs.Modes.{IsSpec};
    ghost use Rattle.lwc_base.specs.declared.item.Item.{Item};
    ghost use Rattle.lwc_types.specs.declared.limits.TheConstants.{MOST_PAGES};

    ghost Value = { List Item };

    ghost view = { λ spec. spec.items.items };

    ghost invariant = { λ spec. IsSpec MOST_PAGES spec.items.items };
}

impl Items {
    /// No items.
    pub fn empty() -> Items
        ensures { result ≡ [] }
    {
        Items {
            items: ArrayVec::new(),
        }
    }

    /// Appends an item that is within the limit of its kind and has no key in common with another.
    pub fn push(&mut self, item: Item)
        requires few { length self.old < MOST_ITEMS }
        requires within { IsItem MOST_PAGES item }
        requires apart { All (λ other. AreApart other item) self.old }
        ensures { self.new ≡ self.old ++ item ∷ [] }
    {
        self.items.push(item);
    }

    /// The items, in order.
    pub fn items(&self) -> &[Item]
        ensures items { result.now ≡ self.now }
        ensures valid { IsSpec MOST_PAGES self.now }
    {
        self.items.as_slice()
    }
}
