ghost use Rattle.std.specs.Prelude.{◌≡◌, ◌↔◌, ◌<◌, ◌+◌, ◌*◌, ℕ, nat_lt, true};
ghost use Rattle.lwc_base.specs.Capabilities.{has_bit, is_named};
ghost use Rattle.lwc_base.specs.Capabilities as spec;
ghost use Rattle.lwc_base.specs.Modes.{kind_of, names, number_of};
ghost use Rattle.lwc_types.specs.declared.key.Key.{Key};

use lwc_base::{Item, Kind};

/// The word of the 64 numbers from 64 i on: a bit for each that is below `end`.
pub fn low_word(end: u32, index: usize) -> u64
    requires { index < 256 }
    ensures word { result ≡ spec.full_word end index }
    ensures has { (b : ℕ) → b < 64 → has_bit result b ≡ nat_lt (64 * index + b) end }
{
    let count = end.saturating_sub(64 * index as u32).min(64);
    if count == 64 {
        u64::MAX
    } else {
        2u64.pow(count) - 1
    }
}

/// The word of the 64 keys of a kind from number 64 i on: a bit for each that an item names.
fn item_word(item: &Item, kind: Kind, index: usize) -> u64
    requires { index < 256 }
    ensures { (k : Key) (b : ℕ) → kind_of k ≡ kind → number_of k ≡ 64 * index + b → b < 64 →
        has_bit result b ≡ names item.now k }
{
    if item.kind == kind {
        low_word(item.to, index) & !low_word(item.from, index)
    } else {
        0
    }
}

/// The word of the 64 keys of a kind from number 64 i on: a bit for each that items name.
pub fn named_word(items: &[Item], kind: Kind, index: usize) -> u64
    requires { index < 256 }
    ensures { (k : Key) (b : ℕ) → kind_of k ≡ kind → number_of k ≡ 64 * index + b → b < 64 →
        has_bit result b ≡ is_named items.now k }
{
    let mut word = 0;
    for item in items {
        word |= item_word(item, kind, index);
    }
    word
}

/// Whether a word has each bit of another.
pub fn has_bits_of(word: u64, part: u64) -> bool
    ensures { (result ≡ true) ↔ ((b : ℕ) → b < 64 → has_bit part b ≡ true → has_bit word b ≡ true) }
{
    part & !word == 0
}
