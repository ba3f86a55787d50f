ghost use Rattle.std.specs.Prelude.{◌≡◌, ◌&&◌, ◌↔◌, ℕ, ◌≤◌, Bool, List, not, true};
ghost use Rattle.lwc_base.specs.Capabilities.{IsCap, cap_of, covers, empty_cap, full_cap, has_key, is_named};
ghost use Rattle.lwc_base.specs.Capabilities.{restricted};
ghost use Rattle.lwc_base.specs.Modes.{IsKey};
ghost use Rattle.lwc_base.specs.declared.descriptor.Cap.{Cap};
ghost use Rattle.lwc_base.specs.declared.item.Item.{Item};
ghost use Rattle.lwc_types.specs.declared.key.Key.{Key};
ghost use Rattle.lwc_types.specs.declared.limits.TheConstants.{MOST_PAGES};

/// A capability is the set of its keys: each set of keys has one, and two with the same keys are equal.
pub fn capabilities_are_sets_of_keys()
    ensures has { (test : Key → Bool) (k : Key) → IsKey MOST_PAGES k → has_key (cap_of test) k ≡ test k }
    ensures valid { (test : Key → Bool) → IsCap (cap_of test) }
    ensures equal { (a b : Cap) → IsCap a → IsCap b →
        ((k : Key) → IsKey MOST_PAGES k → has_key a k ≡ has_key b k) → a ≡ b }
{}

/// A restriction keeps the keys that items name, and adds none. A restriction of a restriction has the keys
/// that both name.
pub fn a_restriction_adds_no_key()
    ensures has { (cap : Cap) (items : List Item) (k : Key) → IsKey MOST_PAGES k →
        has_key (restricted cap items) k ≡ (has_key cap k && is_named items k) }
    ensures twice { (cap : Cap) (items others : List Item) (k : Key) → IsKey MOST_PAGES k →
        has_key (restricted (restricted cap items) others) k
        ≡ (has_key cap k && is_named items k && is_named others k) }
{}

/// A capability covers items exactly if it has each key that they name.
pub fn a_capability_covers_what_it_has()
    ensures { (pages : ℕ) (cap : Cap) (items : List Item) → (covers pages cap items ≡ true)
        ↔ ((k : Key) → IsKey pages k → is_named items k ≡ true → has_key cap k ≡ true) }
{}
