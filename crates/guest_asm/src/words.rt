//! Lines and words.

ghost use Rattle.std.specs.Prelude.{◌≡◌, ◌++◌, ◌∷◌, [], ◌<◌, ◌≤◌, ◌==◌, length, slice_index, IfSome, IfNone, true};
ghost use Rattle.std.specs.List.{list_all, position_or_len, prefix_len};
ghost use Rattle.std.specs.Option.{option_map};
ghost use Rattle.std.specs.Str.Lines.{strip_carriage_return};
ghost use Rattle.guest_asm.specs.Lexis as spec;
ghost use Rattle.guest_asm.specs.Views.{bytes_in, ends_part, ends_text, is_clean, short_name};

use memchr::memchr2;

/// The first line of a source.
#[derive(Clone, Copy)]
pub(crate) struct FirstLine<'a> {
    /// The line, with its line feed.
    pub(crate) line: &'a [u8],
    /// The line up to its comment.
    pub(crate) text: &'a [u8],
    /// What follows the line.
    pub(crate) after: &'a [u8],
}

/// The first line. Most lines have no comment, so the line feed and the `;` of a comment are looked for at once.
pub(crate) fn next_line(bytes: &[u8]) -> FirstLine<'_>
    requires { 0 < length bytes.now }
    ensures first { spec.lines bytes.now ≡ result.line.now ∷ spec.lines result.after.now }
    ensures whole { bytes.now ≡ result.line.now ++ result.after.now }
    ensures some { 0 < length result.line.now }
    ensures text { result.text.now ≡ spec.text_of result.line.now }
    ensures plain { list_all is_clean bytes.now ≡ true
        → list_all spec.is_plain (spec.text_of result.line.now) ≡ true }
{
    let end = text_end(bytes);
    if end < bytes.len() && bytes[end] == b'\n' {
        let (line, after) = bytes.split_at(end + 1);
        let text = without_return(&bytes[..end]);
        return FirstLine { line, text, after };
    }
    let (line, after) = cut_line(bytes);
    FirstLine {
        line,
        text: text_of(line),
        after,
    }
}

/// The first place of a line feed or a `;`, or the length.
fn text_end(bytes: &[u8]) -> usize
    ensures place { result ≡ position_or_len ends_text bytes.now }
    ensures within { result ≤ length bytes.now }
{
    memchr2(b'\n', b';', bytes).unwrap_or(bytes.len())
}

/// The first line, with its line feed, and what follows it.
fn cut_line(bytes: &[u8]) -> (&[u8], &[u8])
    requires { 0 < length bytes.now }
    ensures first { spec.lines bytes.now ≡ result.0.now ∷ spec.lines result.1.now }
    ensures whole { bytes.now ≡ result.0.now ++ result.1.now }
    ensures some { 0 < length result.0.now }
    ensures plain { list_all is_clean bytes.now ≡ true
        → list_all spec.is_plain (spec.text_of result.0.now) ≡ true }
{
    let place = place_of(bytes, b'\n');
    if place < bytes.len() {
        bytes.split_at(place + 1)
    } else {
        (bytes, &[])
    }
}

/// Whether every byte of a source may come outside a comment, or is a line feed. It looks at all of them, so
/// that many are tested at once.
pub(crate) fn all_clean(bytes: &[u8]) -> bool
    ensures { result ≡ list_all is_clean bytes.now }
{
    let mut clean = true;
    'bytes: for byte in bytes {
        clean = clean & (is_plain(*byte) | (*byte == b'\n'));
    }
    clean
}

/// A line up to its comment.
fn text_of(line: &[u8]) -> &[u8]
    ensures { result.now ≡ spec.text_of line.now }
{
    let line = without_end(line);
    &line[..place_of(line, b';')]
}

/// Whether every byte of a text may come outside a comment.
pub(crate) fn all_plain(text: &[u8]) -> bool
    ensures { result ≡ list_all spec.is_plain text.now }
{
    text.iter().all(|b| is_plain(*b))
}

/// The label that a text begins with, and the first word after it with what follows.
pub(crate) fn first_parts(text: &[u8]) -> (Option<&[u8]>, Option<(&[u8], &[u8])>)
    ensures label { option_map bytes_in result.0 ≡ (spec.labelled text.now).0 }
    ensures some { IfSome result.1
        (λ x. spec.words (spec.labelled text.now).1 ≡ x.0.now ∷ spec.words x.1.now) }
    ensures none { IfNone result.1 (spec.words (spec.labelled text.now).1 ≡ []) }
{
    let from = from_first_word(text);
    let end = part_end(from);
    if has_colon(from, end) {
        let (label, rest) = labelled(text);
        return (label, next_word(rest));
    }
    if end == 0 {
        return (None, None);
    }
    (None, Some(from.split_at(end)))
}

/// Whether a text has a colon at a place.
fn has_colon(text: &[u8], place: usize) -> bool
    ensures { result ≡ (slice_index text.now place == 58) }
{
    place < text.len() && text[place] == b':'
}

/// The first place of a separator or a colon, or the length.
fn part_end(text: &[u8]) -> usize
    ensures place { result ≡ position_or_len ends_part text.now }
    ensures within { result ≤ length text.now }
{
    text.iter()
        .position(|b| is_separator(*b) || *b == b':')
        .unwrap_or(text.len())
}

/// The label that a text begins with, and what follows it.
#[tactic(auto, unfolding(crate::specs::Lexis::labelled))]
fn labelled(text: &[u8]) -> (Option<&[u8]>, &[u8])
    ensures label { option_map bytes_in result.0 ≡ (spec.labelled text.now).0 }
    ensures rest { result.1.now ≡ (spec.labelled text.now).1 }
{
    let text = from_first_word(text);
    let colon = place_of(text, b':');
    if colon < text.len() && is_name(&text[..colon]) {
        (Some(&text[..colon]), &text[colon + 1..])
    } else {
        (None, text)
    }
}

/// The first word of a text, and what follows it.
pub(crate) fn next_word(text: &[u8]) -> Option<(&[u8], &[u8])>
    ensures some { IfSome result (λ x. spec.words text.now ≡ x.0.now ∷ spec.words x.1.now) }
    ensures none { IfNone result (spec.words text.now ≡ []) }
{
    let text = from_first_word(text);
    if text.is_empty() {
        return None;
    }
    Some(text.split_at(word_end(text)))
}

/// A register of one digit that a text begins with, and what follows it.
pub(crate) fn short_register(text: &[u8]) -> Option<(u8, &[u8])>
    ensures word { IfSome result (λ x. spec.words text.now ≡ short_name x.0 ∷ spec.words x.1.now) }
    ensures digit { IfSome result (λ x. x.0 < 10) }
{
    let from = from_first_word(text);
    if from.len() < 2 || from[0] != b'r' {
        return None;
    }
    let (digit, after) = (from[1], &from[2..]);
    if digit < b'0' || b'9' < digit || !ends_word(after) {
        return None;
    }
    Some((digit - b'0', after))
}

/// Whether a word ends where these bytes follow it.
fn ends_word(after: &[u8]) -> bool
    ensures { result ≡ (position_or_len spec.is_separator after.now == 0) }
{
    match after {
        [] => true,
        [byte, ..] => is_separator(*byte),
    }
}

/// Whether a word is a name: a letter or `_`, and up to 31 letters, digits or `_`.
pub(crate) fn is_name(word: &[u8]) -> bool
    ensures { result ≡ spec.is_name word.now }
{
    match word {
        [] => false,
        [first, rest @ ..] => begins_name(*first) && all_in_name(rest) && rest.len() <= 31,
    }
}

/// A line without the line feed that ends it, and the carriage return before that.
fn without_end(line: &[u8]) -> &[u8]
    ensures { result.now ≡ spec.without_end line.now }
{
    let count = line.len();
    if count == 0 || line[count - 1] != b'\n' {
        return line;
    }
    without_return(&line[..count - 1])
}

/// Bytes without the carriage return that ends them.
fn without_return(bytes: &[u8]) -> &[u8]
    ensures { result.now ≡ strip_carriage_return bytes.now }
{
    let count = bytes.len();
    if count > 0 && bytes[count - 1] == b'\r' {
        &bytes[..count - 1]
    } else {
        bytes
    }
}

/// A text from its first word on.
fn from_first_word(text: &[u8]) -> &[u8]
    ensures { result.now ≡ spec.from_first_word text.now }
{
    &text[word_start(text)..]
}

/// The first place of a byte, or the length.
fn place_of(bytes: &[u8], wanted: u8) -> usize
    ensures place { result ≡ position_or_len (λ b. b == wanted) bytes.now }
    ensures within { result ≤ length bytes.now }
{
    bytes
        .iter()
        .position(|b| *b == wanted)
        .unwrap_or(bytes.len())
}

/// The first place of a separator, or the length.
fn word_end(text: &[u8]) -> usize
    ensures place { result ≡ position_or_len spec.is_separator text.now }
    ensures within { result ≤ length text.now }
{
    text.iter()
        .position(|b| is_separator(*b))
        .unwrap_or(text.len())
}

/// The first place of another byte than a separator, or the length.
fn word_start(text: &[u8]) -> usize
    ensures place { result ≡ prefix_len spec.is_separator text.now }
    ensures within { result ≤ length text.now }
{
    text.iter()
        .position(|b| !is_separator(*b))
        .unwrap_or(text.len())
}

/// Whether a byte separates words.
fn is_separator(byte: u8) -> bool
    ensures { result ≡ spec.is_separator byte }
{
    matches!(byte, b' ' | b'\t' | b',')
}

/// Whether a byte may come outside a comment.
fn is_plain(byte: u8) -> bool
    ensures { result ≡ spec.is_plain byte }
{
    ((0x20 <= byte) & (byte <= 0x7e)) | (byte == b'\t')
}

/// Whether a name may begin with this byte.
fn begins_name(byte: u8) -> bool
    ensures { result ≡ spec.begins_name byte }
{
    byte.is_ascii_alphabetic() || byte == b'_'
}

/// Whether a name may have this byte.
fn is_in_name(byte: u8) -> bool
    ensures { result ≡ spec.is_in_name byte }
{
    begins_name(byte) || byte.is_ascii_digit()
}

/// Whether a name may go on with these bytes.
fn all_in_name(bytes: &[u8]) -> bool
    ensures { result ≡ list_all spec.is_in_name bytes.now }
{
    bytes.iter().all(|b| is_in_name(*b))
}
