//! The operands of a line.

ghost use Rattle.std.specs.Prelude.{◌≡◌, ◌==◌, length};
ghost use Rattle.std.specs.List.{list_all};
ghost use Rattle.hex.specs.Hex.{is_hex_digit};
ghost use Rattle.guest_asm.specs.Lexis.{words};
ghost use Rattle.guest_asm.specs.Numbers as numbers;
ghost use Rattle.guest_asm.specs.Statements as spec;
ghost use Rattle.guest_asm.specs.Views.{Gives, bytes_in, immediate_in, only, one, two, three};

use crate::error::SourceRule;
use crate::numbers::{number_of, register_of};
use crate::words::{is_name, next_word};

/// A number, or the label that stands for one.
#[derive(Clone, Copy)]
pub(crate) enum Immediate<'a> {
    Value(u32),
    Label(&'a [u8]),
}

/// Reads a number or a label.
pub(crate) fn read_immediate(word: &[u8]) -> Result<Immediate<'_>, SourceRule>
    ensures { Gives immediate_in result (spec.immediate_of word.now) }
{
    match number_of(word) {
        Some(number) => Ok(Immediate::Value(number)),
        None => {
            if is_name(word) {
                Ok(Immediate::Label(word))
            } else {
                Err(SourceRule::BadOperand)
            }
        }
    }
}

/// Reads a number.
pub(crate) fn read_number(word: &[u8]) -> Result<u32, SourceRule>
    ensures { Gives (λ n. n) result (spec.operand (numbers.number_of word.now)) }
{
    match number_of(word) {
        Some(number) => Ok(number),
        None => Err(SourceRule::BadOperand),
    }
}

/// Reads the number of a register.
pub(crate) fn read_register(word: &[u8]) -> Result<u8, SourceRule>
    ensures { Gives (λ n. n) result (spec.operand (numbers.register_of word.now)) }
{
    match register_of(word) {
        Some(number) => Ok(number),
        None => Err(SourceRule::BadOperand),
    }
}

/// Whether a word is `-`, or hexadecimal of at most this many digits.
pub(crate) fn is_bytes_text(most: usize, word: &[u8]) -> bool
    ensures { result ≡ spec.is_bytes_text most word.now }
{
    word == b"-".as_slice() || (word.len() % 2 == 0 && all_hex(word) && word.len() <= most)
}

/// Whether every byte is a hexadecimal digit.
fn all_hex(word: &[u8]) -> bool
    ensures { result ≡ list_all is_hex_digit word.now }
{
    word.iter().all(|b| is_hex_digit(*b))
}

/// Whether a byte is a hexadecimal digit.
fn is_hex_digit(byte: u8) -> bool
    ensures { result ≡ is_hex_digit byte }
{
    matches!(byte, b'0'..=b'9' | b'a'..=b'f' | b'A'..=b'F')
}

/// Whether a text has this number of words.
pub(crate) fn has_words(text: &[u8], count: usize) -> bool
    ensures { result ≡ (length (words text.now) == count) }
{
    let mut rest = text;
    for _ in 0..count {
        match next_word(rest) {
            None => return false,
            Some((_, after)) => rest = after,
        }
    }
    next_word(rest).is_none()
}

/// The one word of a text.
pub(crate) fn one_word(text: &[u8]) -> Result<&[u8], SourceRule>
    ensures { Gives bytes_in result (only (one (words text.now))) }
{
    let Some((word, rest)) = next_word(text) else {
        return Err(SourceRule::BadLine);
    };
    if next_word(rest).is_some() {
        return Err(SourceRule::BadLine);
    }
    Ok(word)
}

/// The two words of a text.
pub(crate) fn two_words(text: &[u8]) -> Result<(&[u8], &[u8]), SourceRule>
    ensures { Gives (λ x. (x.0.now, x.1.now)) result (only (two (words text.now))) }
{
    let Some((first, rest)) = next_word(text) else {
        return Err(SourceRule::BadLine);
    };
    let second = match one_word(rest) {
        Ok(word) => word,
        Err(rule) => return Err(rule),
    };
    Ok((first, second))
}

/// The three words of a text.
pub(crate) fn three_words(text: &[u8]) -> Result<(&[u8], &[u8], &[u8]), SourceRule>
    ensures { Gives (λ x. (x.0.now, x.1.now, x.2.now)) result (only (three (words text.now))) }
{
    let Some((first, rest)) = next_word(text) else {
        return Err(SourceRule::BadLine);
    };
    let (second, third) = match two_words(rest) {
        Ok(two) => two,
        Err(rule) => return Err(rule),
    };
    Ok((first, second, third))
}
