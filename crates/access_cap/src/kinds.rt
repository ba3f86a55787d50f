ghost use Rattle.std.specs.Prelude.{⊤, ◌≡◌, ◌≤◌, ◌&&◌, [], ◌∷◌, IfSome, codes, is_none, nat_lt};
ghost use Rattle.access_cap.specs.Kinds.{has_kinds, is_chosen};
ghost use Rattle.lwc_base.specs.Capabilities.{has_key};
ghost use Rattle.lwc_base.specs.Modes.{IsKey, kind_of, limit, number_of};
ghost use Rattle.lwc_types.specs.declared.key.Key.{Key};
ghost use Rattle.lwc_types.specs.declared.limits.TheConstants.{MOST_PAGES};

use crate::sets::includes;
use crate::whole::full;
use bitflags::{Flag, Flags, bitflag_items};
use lwc_base::{Cap, Kind, PageNumber};

/// Kinds of keys: the pages of the memory, the slots, the credential.
#[derive(Clone, Copy, PartialEq, Eq)]
pub struct Mask(u8);

bitflag_items! {
    impl Mask: u8 {
        const MEMORY = 1;
        const SLOTS = 2;
        const CRED = 4;
    }
}

impl Flags for Mask {
    type Bits = u8;

    ghost exact = { ⊤ };

    ghost table = { (codes "MEMORY", 1) ∷ (codes "SLOTS", 2) ∷ (codes "CRED", 4) ∷ [] };

    ghost set_of = { λ mask. mask.0 };

    fn flags<'a>() -> &'a [Flag<Mask>] {
        Mask::FLAGS
    }

    fn bits(&self) -> u8 {
        self.0
    }

    fn from_bits_retain(bits: u8) -> Mask {
        Mask(bits)
    }
}

impl Mask {
    /// The mask of a number; `None` if it is above 7, so that it has a bit of no kind.
    pub fn from_bits(bits: u64) -> Option<Mask>
        ensures none { is_none result ≡ nat_lt 7 bits }
        ensures mask { IfSome result (λ mask. mask.0 ≡ bits) }
    {
        if bits > 7 {
            None
        } else {
            Some(Mask(bits as u8))
        }
    }

    /// Whether the mask chooses a kind of keys.
    pub fn chooses(self, kind: Kind) -> bool
        ensures { result ≡ is_chosen self.0 kind }
    {
        match kind {
            Kind::Page => self.contains(Mask::MEMORY),
            Kind::Slot => self.contains(Mask::SLOTS),
            Kind::Cred => self.contains(Mask::CRED),
        }
    }
}

/// Whether a capability has every key of each chosen kind, of a context with this number of pages
/// (`has_kinds`).
pub fn covers_kinds(cap: &Cap, mask: Mask, pages: PageNumber) -> bool
    requires { pages ≤ MOST_PAGES }
    ensures { result ≡ has_kinds pages cap.now mask.0 }
{
    includes(cap, &of_kinds(mask, pages))
}

/// The capability of each key of the chosen kinds, of a context with this number of pages.
fn of_kinds(mask: Mask, pages: PageNumber) -> Cap
    requires { pages ≤ MOST_PAGES }
    ensures { (k : Key) → IsKey MOST_PAGES k → has_key result k
        ≡ (nat_lt (number_of k) (limit pages (kind_of k)) && is_chosen mask.0 (kind_of k)) }
{
    let all = full(pages);
    Cap {
        pages: if mask.contains(Mask::MEMORY) {
            all.pages
        } else {
            [0; 256]
        },
        slots: if mask.contains(Mask::SLOTS) {
            all.slots
        } else {
            0
        },
        cred: mask.contains(Mask::CRED),
    }
}
