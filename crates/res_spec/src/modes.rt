ghost use Rattle.std.specs.Prelude.{◌≡◌};
ghost use Rattle.lwc_base.specs.Modes as modes;
ghost use Rattle.lwc_base.specs.Modes.{kind_of, names, number_of};

use lwc_base::{Item, Items, Key, Kind, Mode};

/// The mode of the item that names a key (`mode`); `None` exactly where no item names it.
#[tactic(auto, unfolding(lwc_base::specs::Modes::mode))]
pub fn mode_of(spec: &Items, key: Key) -> Option<Mode>
    ensures { result ≡ modes.mode spec.now key }
{
    spec.items()
        .iter()
        .find(|item| names(item, key))
        .map(|item| item.mode)
}

/// What becomes of a key in a new context: its mode, and a copy where no item names it (`mode_or_copy`).
#[tactic(auto, unfolding(lwc_base::specs::Modes::mode_or_copy))]
pub fn mode_or_copy(spec: &Items, key: Key) -> Mode
    ensures { result ≡ modes.mode_or_copy spec.now key }
{
    mode_of(spec, key).unwrap_or(Mode::Copy)
}

/// The kind of a key.
fn kind_of(key: Key) -> Kind
    ensures { result ≡ kind_of key }
{
    match key {
        Key::Page(_) => Kind::Page,
        Key::Slot(_) => Kind::Slot,
        Key::Cred => Kind::Cred,
    }
}

/// The number of a key among those of its kind.
fn number_of(key: Key) -> u32
    ensures { result ≡ number_of key }
{
    match key {
        Key::Page(p) => u32::from(p),
        Key::Slot(n) => u32::from(n),
        Key::Cred => 0,
    }
}

/// Whether an item names a key.
fn names(item: &Item, key: Key) -> bool
    ensures { result ≡ names item.now key }
{
    let number = number_of(key);
    item.kind == kind_of(key) && item.from <= number && number < item.to
}
