//! Requests: the bytes of each, one a line.

ghost use Rattle.std.specs.Prelude.{◌≡◌, ◌<◌, ◌≤◌, ◌+◌, ◌^◌, ◌∷◌, ◌==◌, ℕ, List, length, IfErr, IfOk, IfSome};
ghost use Rattle.std.specs.Prelude.{OnOk, None, Some, Ok, ◌*◌, ◌%◌, IsTrue, true, slice_index};
ghost use Rattle.std.specs.List.{AllPass};
ghost use Rattle.hex.specs.Hex as digits;
ghost use Rattle.lwc_types.specs.Outcomes.{Answers, Fails, IsFound, unless_refused};
ghost use Rattle.lwc_types.specs.declared.reading.ReadError.TheVariants.{OutOfMemory};
ghost use Rattle.lwc_text.specs.Requests as spec;

use crate::fault::{InputFault, InputRule};
use crate::file_lines::next_line;
use lwc_base::{
    MOST_REQUEST_BYTES, MOST_REQUEST_FILE_BYTES, MOST_REQUESTS, ReadError, Requests, Sequence,
};
use std::alloc::Global;

/// Reads requests, one a line: hexadecimal digits in either case, two for each byte (`IsRequestFile`). A line
/// feed ends a line, and a carriage return directly before it is skipped; a last line without a line feed
/// counts if it has a byte.
///
/// # Errors
///
/// Out of memory, or the first refusal (`requests_at`): `TooLong` at `MOST_REQUEST_FILE_BYTES` if there are
/// more bytes; else, in the first line that breaks a rule, `TooManyRequests` at its first byte if it comes
/// after `MOST_REQUESTS` others, `BadHex` at a byte that is no digit, `RequestTooLong` at the digit after
/// `2 * MOST_REQUEST_BYTES` others, or `OddLength` at the end of an odd number of digits.
#[tactic(auto, using(crate::proofs::RequestLines::request_reading), unfolding(crate::specs::Requests::requests_at))]
pub fn read_requests(alloc: Global, bytes: &[u8]) -> Result<Requests, InputFault>
    ensures exact { Answers (λ requests. requests) result (spec.requests_at bytes.now) }
    ensures found { IfOk result (λ requests. spec.IsRequestFile bytes.now requests) }
    ensures only { (requests : List (List ℕ)) → spec.IsRequestFile bytes.now requests
        → IfErr result (λ e. e ≡ OutOfMemory) }
{
    if bytes.len() > MOST_REQUEST_FILE_BYTES {
        return Err(ReadError::Refused {
            rule: InputRule::TooLong,
            at: MOST_REQUEST_FILE_BYTES as u64,
        });
    }
    Ok(Sequence::of(read_lines(alloc, bytes)?))
}

/// Reads the requests of all lines.
fn read_lines(alloc: Global, bytes: &[u8]) -> Result<Vec<Sequence<u8>>, InputFault>
    ensures read { IfOk result (λ requests. unless_refused (spec.requests_in bytes.now)
        (spec.line_refusals bytes.now) ≡ Ok requests.items) }
    ensures refused { IfErr result (λ e. Fails e
        (unless_refused (spec.requests_in bytes.now) (spec.line_refusals bytes.now))) }
{
    let mut requests = Vec::new(alloc);
    let mut rest = bytes;
    while !rest.is_empty() {
        let start = (bytes.len() - rest.len()) as u64;
        let (line, after) = next_line(rest);
        let request = read_line(alloc, requests.len(), start, line)?;
        requests.push(request)?;
        rest = after;
    }
    Ok(requests)
}

/// Reads the line at an offset, after this number of others.
#[tactic(auto, using(crate::proofs::RequestLines::kept_is_digits), unfolding(crate::specs::Requests::line_refusal),)]
fn read_line(
    alloc: Global,
    before: usize,
    start: u64,
    line: &[u8],
) -> Result<Sequence<u8>, InputFault>
    requires { start + length line.now < 2 ^ 63 }
    ensures read { IfOk result (λ request. spec.request_of line.now ≡ Some request) }
    ensures kept { OnOk result (spec.line_refusal before start line.now ≡ None) }
    ensures refused { IfErr result (λ e. IsFound e (spec.line_refusal before start line.now)) }
{
    if before >= MOST_REQUESTS as usize {
        return Err(ReadError::Refused {
            rule: InputRule::TooManyRequests,
            at: start,
        });
    }
    if let Some((rule, place)) = rule_in(line) {
        return Err(ReadError::Refused {
            rule,
            at: start + place,
        });
    }
    Ok(Sequence::of(bytes_of(alloc, line)?))
}

/// The rule that a line breaks first, and the place in the line.
fn rule_in(line: &[u8]) -> Option<(InputRule, u64)>
    ensures rule { result ≡ spec.rule_in line.now }
    ensures within { IfSome result (λ broken. broken.1 ≤ length line.now) }
{
    let end = digits_end(line);
    if end > 2 * MOST_REQUEST_BYTES {
        return Some((InputRule::RequestTooLong, 2 * MOST_REQUEST_BYTES as u64));
    }
    if end < line.len() {
        return Some((InputRule::BadHex, end as u64));
    }
    if line.len() % 2 == 1 {
        return Some((InputRule::OddLength, line.len() as u64));
    }
    None
}

/// The place of the first byte that is no digit, or the length.
fn digits_end(line: &[u8]) -> usize
    ensures place { result ≡ spec.digits_end line.now }
    ensures within { result ≤ length line.now }
{
    if are_digits(line) {
        return line.len();
    }
    line.iter()
        .position(|b| !is_hex_digit(*b))
        .unwrap_or(line.len())
}

/// Whether all bytes are digits. It looks at all of them, so that many are compared at once.
fn are_digits(line: &[u8]) -> bool
    ensures { IsTrue result → AllPass digits.is_hex_digit line.now }
{
    let mut all = true;
    'bytes: for byte in line {
        all = all & is_hex_digit(*byte);
    }
    all
}

/// Whether a byte is a hexadecimal digit, in either case.
#[inline(always)]
fn is_hex_digit(byte: u8) -> bool
    ensures { result ≡ digits.is_hex_digit byte }
{
    let decimal = (b'0' <= byte) & (byte <= b'9');
    let lower = (b'a' <= byte) & (byte <= b'f');
    let upper = (b'A' <= byte) & (byte <= b'F');
    decimal | lower | upper
}

/// The bytes of pairs of digits. The only error is out of memory.
fn bytes_of(alloc: Global, line: &[u8]) -> Result<Vec<u8>, InputFault>
    requires digits { AllPass digits.is_hex_digit line.now }
    requires even { length line.now % 2 ≡ 0 }
    ensures read { IfOk result (λ bytes. spec.request_of line.now ≡ Some bytes.items) }
    ensures refused { IfErr result (λ e. e ≡ OutOfMemory) }
{
    let mut bytes = vec![in alloc; 0u8; line.len() / 2]?;
    decode(line, bytes.as_mut_slice());
    Ok(bytes)
}

/// Puts the bytes of pairs of digits into a place of their number.
fn decode(line: &[u8], bytes: &mut [u8])
    requires digits { AllPass digits.is_hex_digit line.now }
    requires room { length line.now ≡ 2 * length bytes.old }
    ensures { digits.decode_of line.now ≡ Ok bytes.new }
{
    let (pairs, _) = line.as_chunks::<2>();
    'bytes: for i in 0..bytes.len() {
        bytes[i] = byte_of(pairs[i]);
    }
}

/// The byte of two digits, which are taken as one number, so that many pairs are read at once.
#[inline(always)]
fn byte_of(pair: [u8; 2]) -> u8
    requires high { digits.is_hex_digit (slice_index pair 0) ≡ true }
    requires low { digits.is_hex_digit (slice_index pair 1) ≡ true }
    ensures { (at : ℕ) → digits.pair_value (slice_index pair 0) (slice_index pair 1) at ≡ Ok result }
{
    let both = u16::from_le_bytes(pair);
    (digit_value(both % 256) * 16 + digit_value(both / 256)) as u8
}

/// The value of a digit, in either case, which is computed without a test.
#[inline(always)]
fn digit_value(digit: u16) -> u16
    requires { digits.is_hex_digit digit ≡ true }
    ensures value { digits.hex_digit_value digit ≡ Some result }
    ensures small { result < 16 }
{
    digit % 16 + 9 * (digit / 64)
}
