ghost use Rattle.std.specs.Prelude.{◌≡◌, ◌≢◌, ℕ, None, Some, false, true};
ghost use Rattle.lwc_base.specs.declared.item.Mode.TheVariants.{Share};
ghost use Rattle.lwc_base.specs.Modes.{mode, same_kind};
ghost use Rattle.lwc_types.specs.declared.key.Key.{Key};
ghost use Rattle.lwc_types.specs.declared.key.Key.TheVariants.{Slot};
ghost use Rattle.lwc_types.specs.declared.key.Kind.TheVariants as kind;

use lwc_base::{Item, Items, Kind, Mode};

/// Whether an item names slots.
fn is_of_slots(item: &Item) -> bool
    ensures { result ≡ same_kind item.now.kind kind.Slot }
{
    match item.kind {
        Kind::Slot => true,
        Kind::Page | Kind::Cred => false,
    }
}

/// Whether some item names slots.
pub fn names_slots(spec: &Items) -> bool
    ensures { result ≡ false → (n : ℕ) → mode spec.now (Slot n) ≡ None }
{
    for item in spec.items() {
        if is_of_slots(item) {
            return true;
        }
    }
    false
}

/// Whether an item shares what it names.
pub fn is_share(item: &Item) -> bool
    ensures is { result ≡ true → item.now.mode ≡ Share }
    ensures other { result ≡ false → item.now.mode ≢ Share }
{
    item.mode == Mode::Share
}

/// Whether no item shares what it names, so that no value moves.
pub fn shares_nothing(spec: &Items) -> bool
    ensures { result ≡ true → (k : Key) → mode spec.now k ≢ Some Share }
{
    for item in spec.items() {
        if is_share(item) {
            return false;
        }
    }
    true
}
