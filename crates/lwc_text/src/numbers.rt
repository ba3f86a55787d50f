//! Decimal numbers.

ghost use Rattle.std.specs.Prelude.{◌≡◌, ◌≤◌, true, length};
ghost use Rattle.std.specs.List.{list_all};
ghost use Rattle.lwc_text.specs.Numbers.{is_digit, is_number, decimal_value, number_of};

/// The most digits of a number.
const MOST_DIGITS: usize = 9;

/// The number that a word spells, if it is one: one to nine decimal digits, and nothing else (`number_of`).
#[tactic(auto, unfolding(crate::specs::Numbers::number_of))]
pub fn number_of(word: &[u8]) -> Option<u32>
    ensures { result ≡ number_of word.now }
{
    if is_number(word) {
        Some(decimal_value(word))
    } else {
        None
    }
}

/// Whether the word is a number.
fn is_number(word: &[u8]) -> bool
    ensures { result ≡ is_number word.now }
{
    1 <= word.len() && word.len() <= MOST_DIGITS && are_digits(word)
}

/// Whether each byte is a decimal digit.
fn are_digits(word: &[u8]) -> bool
    ensures { result ≡ list_all is_digit word.now }
{
    word.iter().all(|&byte| b'0' <= byte && byte <= b'9')
}

/// The number that the digits spell, the highest first.
#[tactic(auto, unfolding(crate::specs::Numbers::decimal_value))]
fn decimal_value(digits: &[u8]) -> u32
    requires short { length digits.now ≤ 9 }
    requires digits { list_all is_digit digits.now ≡ true }
    ensures { result ≡ decimal_value digits.now }
{
    let mut value = 0;
    for &digit in digits {
        value = 10 * value + u32::from(digit - b'0');
    }
    value
}
