//! The lines of a file.

ghost use Rattle.std.specs.Prelude.{◌≡◌, ◌<◌, ◌≤◌, ◌∷◌, ◌==◌, length};
ghost use Rattle.std.specs.List.{after_first, position_or_len};
ghost use Rattle.std.specs.Str.Lines.{lines, strip_carriage_return};

use memchr::memchr;

/// The first line, without its end, and what follows it. A line feed ends a line, and a carriage return
/// directly before it is no part of the line; the last line may have no end.
pub fn next_line(bytes: &[u8]) -> (&[u8], &[u8])
    requires { 0 < length bytes.now }
    ensures lines { lines bytes.now ≡ result.0.now ∷ lines result.1.now }
    ensures rest { result.1.now ≡ after_first (λ b. b == 0x0a) bytes.now }
    ensures within { length result.0.now ≤ length bytes.now }
    ensures fewer { length result.1.now < length bytes.now }
{
    let end = line_end(bytes);
    if end < bytes.len() {
        (without_return(&bytes[..end]), &bytes[end + 1..])
    } else {
        (bytes, &[])
    }
}

/// The place of the first line feed, or the length.
fn line_end(bytes: &[u8]) -> usize
    ensures place { result ≡ position_or_len (λ b. b == 0x0a) bytes.now }
    ensures within { result ≤ length bytes.now }
{
    memchr(b'\n', bytes).unwrap_or(bytes.len())
}

/// A line without the carriage return at its end.
fn without_return(line: &[u8]) -> &[u8]
    ensures stripped { result.now ≡ strip_carriage_return line.now }
    ensures within { length result.now ≤ length line.now }
{
    let count = line.len();
    if count > 0 && line[count - 1] == b'\r' {
        &line[..count - 1]
    } else {
        line
    }
}
