//! Hexadecimal digits: of numbers below 16, and two for each byte.

ghost use Rattle.std.specs.Prelude.{◌≡◌, ◌<◌, ◌≤◌, ◌+◌, ◌*◌, ◌++◌, All, IfOk, length, map, string_bytes};
ghost use Rattle.std.specs.Prelude.{vec_capacity};
ghost use Rattle.hex.specs.Hex.{encode_lower};
ghost use Rattle.lwc_text.specs.Glyphs.{glyph};

use lwc_base::OutOfMemory;
use std::alloc::Global;

/// The hexadecimal digits of numbers below 16, one for each.
pub fn digits_of(alloc: Global, numbers: &[u8]) -> Result<String, OutOfMemory>
    requires { All (λ n. n < 16) numbers.now }
    ensures { IfOk result (λ text. string_bytes text ≡ map glyph numbers.now) }
{
    let mut text = Vec::with_capacity(alloc, numbers.len())?;
    'numbers: for number in numbers {
        text.push_reserved(digit(*number));
    }
    match String::from_utf8(text) {
        Ok(text) => Ok(text),
        Err(_) => unreachable!(),
    }
}

/// The hexadecimal digit of a number below 16. The sum is no choice of two, so that many are made at once.
#[inline(always)]
fn digit(number: u8) -> u8
    requires { number < 16 }
    ensures { result ≡ glyph number }
{
    b'0' + number + if number < 10 { 0 } else { 39 }
}

/// Appends the lower-case digits of bytes, two for each, for which there is room.
pub fn append_digits(out: &mut Vec<u8>, bytes: &[u8])
    requires { length out.old.items + 2 * length bytes.now ≤ vec_capacity out.old }
    ensures digits { out.new.items ≡ out.old.items ++ encode_lower bytes.now }
    ensures capacity { vec_capacity out.old ≤ vec_capacity out.new }
{
    let before = out.len();
    match out.resize(before + 2 * bytes.len(), 0) {
        Ok(()) => put_digits(&mut out.as_mut_slice()[before..], bytes),
        Err(_) => unreachable!(),
    }
}

/// Puts the lower-case digits of bytes, two for each, into a place of their number.
fn put_digits(digits: &mut [u8], bytes: &[u8])
    requires { length digits.old ≡ 2 * length bytes.now }
    ensures { digits.new ≡ encode_lower bytes.now }
{
    'bytes: for i in 0..bytes.len() {
        digits[2 * i] = digit(bytes[i] / 16);
        digits[2 * i + 1] = digit(bytes[i] % 16);
    }
}
