//! The names of labels, as keys of a map.

ghost use Rattle.std.specs.Prelude.{◌≡◌, [], ◌∷◌, nat_eq};
ghost use Rattle.std.specs.Cmp.{partial_equiv_from_equiv, on_per, on_equiv};
ghost use Rattle.std.specs.Cmp.Lexicographic.{bytes_decides, pointwise, nat_list_eq_equiv};
ghost use Rattle.guest_asm.specs.Views.{name_in};
ghost use mathlib.Core.Path.{ap};

use std::hash::{Hash, Hasher};

/// A name. All its bytes are hashed in one call, where those of a slice as a key take one call each.
#[derive(Clone, Copy)]
pub(crate) struct Name<'a> {
    pub(crate) bytes: &'a [u8],
}

impl<'a> PartialEq for Name<'a> {
    ghost eq = { λ x y. pointwise nat_eq (name_in x) (name_in y) };

    ghost laws = { on_per name_in (partial_equiv_from_equiv nat_list_eq_equiv) };

    fn eq(&self, other: &Self) -> bool {
        same_bytes(self.bytes, other.bytes)
    }
}

/// Whether two names have the same bytes. They are short: a loop takes less than many bytes at a time.
fn same_bytes(left: &[u8], right: &[u8]) -> bool
    ensures { result ≡ pointwise nat_eq left.now right.now }
{
    if left.len() != right.len() {
        return false;
    }
    for place in 0..left.len() {
        if left[place] != right[place] {
            return false;
        }
    }
    true
}

impl<'a> Eq for Name<'a> {
    ghost laws = { on_equiv name_in nat_list_eq_equiv };
}

impl<'a> Hash for Name<'a> {
    ghost hash_input = { λ s. name_in s ∷ [] };

    ghost respects_eq = { λ x y same. ap (λ bytes. bytes ∷ [])
        ((bytes_decides (name_in x) (name_in y)).0 same) };

    fn hash<H: Hasher>(&self, state: &mut H) {
        state.write(self.bytes);
    }
}
