ghost use Rattle.std.specs.Prelude.{◌≡◌, ℕ, ◌<◌, ◌≤◌, ◌==◌, if◌then◌else◌, false, IfNone, IfSome};
ghost use Rattle.lwc_base.specs.Capabilities.{has_bit};
ghost use Rattle.fd_table.specs.Bits.{IsLowestBit};

/// A word with the bit of a number on or off.
pub(crate) fn with_bit(word: u64, number: u8, on: bool) -> u64
    requires { number < 64 }
    ensures { (m : ℕ) → m < 64 → has_bit result m ≡ (if m == number then on else has_bit word m) }
{
    let bit = 1u64 << number;
    if on { word | bit } else { word & !bit }
}

/// The lowest bit from one on that a word has; `None` if it has none there. So a caller goes over the filled
/// slots of a place, or finds the lowest that is not filled, without a look at the others.
pub fn lowest_bit(word: u64, from: u8) -> Option<u8>
    ensures none { IfNone result ((n : ℕ) → from ≤ n → n < 64 → has_bit word n ≡ false) }
    ensures some { IfSome result (λ n. IsLowestBit word from n) }
{
    if from >= 64 {
        return None;
    }
    let rest = word >> from;
    if rest == 0 {
        return None;
    }
    Some(from + rest.trailing_zeros() as u8)
}
