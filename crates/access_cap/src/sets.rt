ghost use Rattle.std.specs.Prelude.{◌≡◌, ◌↔◌, ◌≤◌, true};
ghost use Rattle.lwc_base.specs.Capabilities as caps;
ghost use Rattle.lwc_base.specs.Capabilities.{has_key, restricted};
ghost use Rattle.lwc_base.specs.Modes.{IsKey};
ghost use Rattle.lwc_types.specs.declared.key.Key.{Key};
ghost use Rattle.lwc_types.specs.declared.limits.TheConstants.{MOST_PAGES};

use crate::whole::full;
use crate::words::{has_bits_of, named_word};
use lwc_base::{Cap, Items, Kind, PageNumber};

/// The capability of the keys that a capability has and a specifier names (`restricted`).
pub fn meet(cap: &Cap, spec: &Items) -> Cap
    ensures { result ≡ restricted cap.now spec.now }
{
    let items = spec.items();
    let mut words = [0; 256];
    'words: for i in 0..256usize {
        words[i] = cap.pages[i] & named_word(items, Kind::Page, i);
    }
    Cap {
        pages: words,
        slots: cap.slots & named_word(items, Kind::Slot, 0),
        cred: cap.cred && named_word(items, Kind::Cred, 0) & 1 == 1,
    }
}

/// Whether a capability has every key of a context with this number of pages that a specifier names
/// (`covers`).
pub fn covers(cap: &Cap, spec: &Items, pages: PageNumber) -> bool
    requires { pages ≤ MOST_PAGES }
    ensures { result ≡ caps.covers pages cap.now spec.now }
{
    includes(cap, &meet(&full(pages), spec))
}

/// Whether a capability has each key of another.
pub fn includes(cap: &Cap, part: &Cap) -> bool
    ensures { (result ≡ true) ↔ ((k : Key) → IsKey MOST_PAGES k →
        has_key part.now k ≡ true → has_key cap.now k ≡ true) }
{
    'parts: for i in 0..256usize {
        if !has_bits_of(cap.pages[i], part.pages[i]) {
            return false;
        }
    }
    has_bits_of(cap.slots, part.slots) && (cap.cred || !part.cred)
}
