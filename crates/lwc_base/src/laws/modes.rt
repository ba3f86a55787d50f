ghost use Rattle.std.specs.Prelude.{◌≡◌, ℕ, List, None, Some, All, true, false};
ghost use Rattle.std.specs.List.{Contains};
ghost use Rattle.lwc_base.specs.Modes.{IsSpec, mode, names};
ghost use Rattle.lwc_base.specs.declared.item.Item.{Item};
ghost use Rattle.lwc_types.specs.declared.key.Key.{Key};

/// The item of a specifier that names a key gives the key its mode, and a key that no item names has none.
pub fn an_item_gives_its_mode()
    ensures named { (pages : ℕ) (items : List Item) (item : Item) (key : Key) → IsSpec pages items →
        Contains items item → names item key ≡ true → mode items key ≡ Some item.mode }
    ensures not_named { (items : List Item) (key : Key) →
        All (λ item. names item key ≡ false) items → mode items key ≡ None }
{}
