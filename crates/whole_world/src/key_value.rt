ghost use Rattle.std.specs.Prelude.{◌≡◌};
ghost use Rattle.lwc_base.specs.Keys.{nothing};
ghost use Rattle.whole_world.specs.KeyValues.{key_in, value_in};

use lwc_base::{Descriptor, Key, NOBODY, PageNumber, PageValue, SlotNumber};

/// A key, and a value that is put under it.
#[derive(Drop)]
pub enum KeyValue {
    Page(PageNumber, Option<PageValue>),
    Slot(SlotNumber, Descriptor),
    Cred(u32),
}

impl KeyValue {
    /// The key.
    pub fn key(&self) -> Key
        ensures { result ≡ key_in self.now }
    {
        match self {
            KeyValue::Page(p, _) => Key::Page(*p),
            KeyValue::Slot(n, _) => Key::Slot(*n),
            KeyValue::Cred(_) => Key::Cred,
        }
    }

    /// The value under a key that is left out: an absent page, an empty slot, or the uid of nobody.
    pub fn nothing(key: Key) -> KeyValue
        ensures key { key_in result ≡ key }
        ensures value { value_in result ≡ nothing (key_in result) }
    {
        match key {
            Key::Page(p) => KeyValue::Page(p, None),
            Key::Slot(n) => KeyValue::Slot(n, Descriptor::Empty),
            Key::Cred => KeyValue::Cred(NOBODY),
        }
    }
}
