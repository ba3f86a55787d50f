ghost use Rattle.std.specs.Prelude.{◌≡◌, ◌≢◌, List, None, Some, true};
ghost use Rattle.lwc_base.specs.Cells.{value_at};
ghost use Rattle.lwc_base.specs.Clones.{AreApart, HaveInCommon};
ghost use Rattle.lwc_base.specs.Keys.{is_there};
ghost use Rattle.lwc_base.specs.Modes.{IsKey, copies, mode};
ghost use Rattle.lwc_base.specs.Overlay.{IsOverlay};
ghost use Rattle.lwc_base.specs.World.{World, context, is_live};
ghost use Rattle.lwc_base.specs.declared.cell.Cell.TheVariants.{Own};
ghost use Rattle.lwc_base.specs.declared.item.Item.{Item};
ghost use Rattle.lwc_base.specs.declared.item.Mode.{Mode};
ghost use Rattle.lwc_base.specs.declared.item.Mode.TheVariants.{Share};
ghost use Rattle.lwc_types.specs.declared.key.Key.{Key};
ghost use Rattle.lwc_types.specs.declared.name.Name.{Name};

/// An overlay changes what the context that gets it has under the keys that items name. Under each other key
/// it reads as before, and so does each other context under every key, the one that is taken from among them.
pub fn an_overlay_changes_what_it_names()
    ensures unnamed { (w v : World) (c d : Name) (items : List Item) → IsOverlay w v c d items →
        (k : Key) → mode items k ≡ None → value_at v c k ≡ value_at w c k }
    ensures others { (w v : World) (c d : Name) (items : List Item) → IsOverlay w v c d items →
        (e : Name) (k : Key) → is_live w e ≡ true → e ≢ c → value_at v e k ≡ value_at w e k }
{}

/// What is copied, the context has of its own, as the other one had it, and apart from each other context.
/// What is shared reads as in the other one, and if something is there, both have it in common. In both ways
/// a page that is absent in the other context becomes absent.
pub fn an_overlay_copies_or_shares()
    ensures copied { (w v : World) (c d : Name) (items : List Item) → IsOverlay w v c d items →
        (k : Key) (m : Mode) → mode items k ≡ Some m → copies m ≡ true →
        (context v c).cell k ≡ Own (value_at w d k) }
    ensures apart { (w v : World) (c d : Name) (items : List Item) → IsOverlay w v c d items →
        (k : Key) (m : Mode) → mode items k ≡ Some m → copies m ≡ true →
        (e : Name) → is_live w e ≡ true → e ≢ c → AreApart v e c k }
    ensures copied_value { (w v : World) (c d : Name) (items : List Item) → IsOverlay w v c d items →
        (k : Key) (m : Mode) → mode items k ≡ Some m → copies m ≡ true → value_at v c k ≡ value_at w d k }
    ensures shared_value { (w v : World) (c d : Name) (items : List Item) → IsOverlay w v c d items →
        (k : Key) → mode items k ≡ Some Share → value_at v c k ≡ value_at w d k }
    ensures common { (w v : World) (c d : Name) (items : List Item) → IsOverlay w v c d items →
        (k : Key) → mode items k ≡ Some Share → IsKey w.size.pages k → is_there k (value_at w d k) ≡ true →
        HaveInCommon v d c k }
{}
