//! What crosses to C and back: numbers, and slices of bytes.

ghost use Rattle.std.specs.Prelude.{◌≡◌, ◌≢◌, All, Err, IfErr, IfOk, IsUtf8, map, string_bytes};
ghost use Rattle.memory_lines.specs.Border.{error_number, line_of, named};
ghost use Rattle.memory_lines.specs.declared.border.LineError.TheVariants.{OutOfMemory};

use lwc_io::NamedFile;
use std::alloc::{AllocError, AllocFailed, Global};

/// The bytes of a word.
#[repr(C)]
#[derive(Clone, Copy)]
pub struct Bytes<'a> {
    pub bytes: &'a [u8],
}

/// A file: its name and its bytes.
#[repr(C)]
#[derive(Clone, Copy)]
pub struct FileBytes<'a> {
    pub name: &'a [u8],
    pub bytes: &'a [u8],
}

/// Why a line was not carried out.
#[derive(Clone, Copy, PartialEq, Eq)]
pub enum LineError {
    OutOfMemory,
    /// The line runs threads, which a library has not.
    NeedsThreads,
    /// A word, or the name of a file, is not UTF-8.
    NotText,
}

impl LineError {
    /// The number that the caller gets: out of memory has that of the exit status, and the others come behind those.
    pub fn number(self) -> u32
        ensures { result ≡ error_number self }
    {
        match self {
            LineError::OutOfMemory => 1,
            LineError::NeedsThreads => 8,
            LineError::NotText => 9,
        }
    }
}

impl From<AllocError> for LineError {
    ghost from_gives = { λ _ error. error ≡ OutOfMemory };

    /// Memory ran out.
    fn from(_error: AllocError) -> LineError {
        LineError::OutOfMemory
    }
}

impl<T: Drop> From<AllocFailed<T>> for LineError {
    ghost from_gives = { λ _ error. error ≡ OutOfMemory };

    /// Memory ran out.
    fn from(_failed: AllocFailed<T>) -> LineError {
        LineError::OutOfMemory
    }
}

/// The words of a line as texts, behind the program's name.
///
/// # Errors
///
/// `NotText` only where a word is not UTF-8; or out of memory.
pub fn words_from(alloc: Global, words: &[Bytes<'_>]) -> Result<Vec<String>, LineError>
    ensures words { IfOk result (λ texts. map string_bytes texts.items ≡ line_of words.now) }
    ensures threads { result ≢ Err LineError.NeedsThreads }
    ensures text { result ≡ Err LineError.NotText → All (λ word. IsUtf8 word.bytes.now) words.now → ⊥ }
{
    let mut texts = Vec::new(alloc);
    texts.push(String::from_str(alloc, "lwcrun")?)?;
    'words: for word in words {
        texts.push(String::from_str(alloc, text_in(word.bytes)?)?)?;
    }
    Ok(texts)
}

/// The files, each with its name as a text.
///
/// # Errors
///
/// `NotText` only where a name is not UTF-8; or out of memory.
pub fn files_from(alloc: Global, files: &[FileBytes<'_>]) -> Result<Vec<NamedFile>, LineError>
    ensures files { IfOk result (λ taken. taken.items ≡ map named files.now) }
    ensures threads { result ≢ Err LineError.NeedsThreads }
    ensures text { result ≡ Err LineError.NotText → All (λ file. IsUtf8 file.name.now) files.now → ⊥ }
{
    let mut taken = Vec::new(alloc);
    'files: for file in files {
        taken.push(NamedFile::new(alloc, text_in(file.name)?, file.bytes)?)?;
    }
    Ok(taken)
}

/// The bytes as a text.
///
/// # Errors
///
/// `NotText` where they are not UTF-8.
fn text_in(bytes: &[u8]) -> Result<&str, LineError>
    ensures text { IfOk result (λ text. text.now ≡ bytes.entry.now) }
    ensures error { IfErr result (λ error. (error ≡ LineError.NotText) × (IsUtf8 bytes.entry.now → ⊥)) }
{
    match str::from_utf8(bytes) {
        Ok(text) => Ok(text),
        Err(_) => Err(LineError::NotText),
    }
}

/// The bytes, which the caller has from now on: it frees them by C's `free` if there are any.
pub fn left_to_caller<'a>(bytes: Vec<u8>) -> &'a [u8]
    ensures { result.now ≡ bytes.items }
{
    if bytes.is_empty() {
        return &[];
    }
    bytes.leak()
}
