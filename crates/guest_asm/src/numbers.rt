//! Words that are numbers or registers.

ghost use Rattle.std.specs.Prelude.{◌≡◌, ◌<◌, ◌≤◌, if◌then◌else◌, Some, None};
ghost use Rattle.std.specs.Char.{digit_value, is_digit};
ghost use Rattle.guest_asm.specs.Numbers as spec;

/// The number that a word is: a decimal, `0x` and hexadecimal digits, or `-` and a decimal.
#[tactic(auto, unfolding(crate::specs::Numbers::number_of))]
pub(crate) fn number_of(word: &[u8]) -> Option<u32>
    ensures { result ≡ spec.number_of word.now }
{
    match word {
        [b'-', digits @ ..] => {
            let number = decimal_of(digits)?;
            if 1 <= number && number <= 0x8000_0000 {
                Some((0x1_0000_0000 - u64::from(number)) as u32)
            } else {
                None
            }
        }
        [b'0', b'x', digits @ ..] => hexadecimal_of(digits),
        _ => decimal_of(word),
    }
}

/// The number of a register, 0 to 15.
#[tactic(auto, unfolding(crate::specs::Numbers::register_of))]
pub(crate) fn register_of(word: &[u8]) -> Option<u8>
    ensures { result ≡ spec.register_of word.now }
{
    match word {
        [b'r', digits @ ..] => {
            let number = decimal_of(digits)?;
            if number < 16 {
                Some(number as u8)
            } else {
                None
            }
        }
        _ => None,
    }
}

/// The number of a decimal without leading zeros.
fn decimal_of(word: &[u8]) -> Option<u32>
    ensures { result ≡ spec.decimal_of word.now }
{
    if is_led(word) {
        digits_of(10, word)
    } else {
        None
    }
}

/// The number of one to eight hexadecimal digits.
fn hexadecimal_of(word: &[u8]) -> Option<u32>
    ensures { result ≡ spec.hexadecimal_of word.now }
{
    if !word.is_empty() && word.len() <= 8 {
        digits_of(16, word)
    } else {
        None
    }
}

/// Whether a word is not empty and has no zero in front of other bytes.
fn is_led(word: &[u8]) -> bool
    ensures { result ≡ spec.is_led word.now }
{
    !word.is_empty() && (word.len() == 1 || word[0] != b'0')
}

/// The number below 2^32 that digits write.
fn digits_of(radix: u32, word: &[u8]) -> Option<u32>
    requires some { 2 ≤ radix }
    requires few { radix ≤ 16 }
    ensures { result ≡ spec.digits_of radix word.now }
{
    let mut value = 0;
    for byte in word {
        let digit = digit_of(radix, *byte)?;
        value = value * u64::from(radix) + u64::from(digit);
        if value > 0xffff_ffff {
            return None;
        }
    }
    Some(value as u32)
}

/// The value of a digit.
fn digit_of(radix: u32, byte: u8) -> Option<u32>
    requires some { 2 ≤ radix }
    requires few { radix ≤ 16 }
    ensures { result ≡ (if is_digit byte radix then Some (digit_value byte) else None) }
{
    char::from(byte).to_digit(radix)
}
