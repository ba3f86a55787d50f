ghost use Rattle.std.specs.Prelude.{◌≡◌, ◌≢◌, ◌<◌, ◌≤◌, ◌^◌, ◌+◌, ◌++◌, ◌∷◌, [], ℕ, Option, Some, All};
ghost use Rattle.std.specs.Prelude.{◌-◌, length, min, IfOk, IfErr, OnOk, vec_len};
ghost use Rattle.lwcrun_inputs.specs.declared.reading.TheConstants.{CHUNK};
ghost use Rattle.lwc_io.specs.Outside.{CountsOneFault, MayBeContents};
ghost use Rattle.lwcrun_inputs.specs.Reading.{Fetched, MayBeginWith, MayExceed, ReadsOnward, ReadsToTheEnd};

use lwc_io::Files;
use std::alloc::Global;

/// The number of bytes to ask for at once.
const CHUNK: usize = 65536;

/// Why a file was not read whole.
#[derive(Clone, Copy, PartialEq, Eq)]
pub enum FetchError {
    OutOfMemory,
    /// A fetch of it failed.
    Failed,
    /// It has more bytes than the limit.
    TooLong,
}

/// Reads a file of at most `limit` bytes whole; of a longer one, at most one byte past the limit. Each fetch
/// asks for what is left up to there behind those that were given, and at most for a chunk. After one that
/// fails, or that is at the end of the file, there is no other.
///
/// # Errors
///
/// `Failed` if a fetch of the file failed, `TooLong` if it has more bytes than the limit, or out of memory.
pub fn read_whole<F: Files>(
    alloc: Global,
    files: &mut F,
    name: &str,
    limit: usize,
) -> Result<Vec<u8>, FetchError>
    requires { limit < 2 ^ 32 }
    ensures bytes { IfOk result (λ bytes. MayBeContents ((F.seen files.old).contents name.now) bytes.items) }
    ensures are_bytes { IfOk result (λ bytes. All (λ b. b < 256) bytes.items) }
    ensures short { IfOk result (λ bytes. vec_len bytes ≤ limit) }
    ensures too_long { (result ≡ Err FetchError.TooLong)
        → MayExceed limit ((F.seen files.old).contents name.now) }
    ensures cause { (result ≡ Err FetchError.Failed) → CountsOneFault
        ((F.seen files.old).faults name.now) ((F.seen files.new).faults name.now) }
    ensures same { (F.seen files.new).contents ≡ (F.seen files.old).contents }
    ensures no_fault { result ≢ Err FetchError.Failed
        → (F.seen files.new).faults ≡ (F.seen files.old).faults }
    ensures fetches { Fetched (ReadsOnward name.now limit)
        (F.seen files.old).fetches (F.seen files.new).fetches }
    ensures whole { OnOk result (Fetched (ReadsToTheEnd name.now limit)
        (F.seen files.old).fetches (F.seen files.new).fetches) }
{
    let mut bytes = Vec::new(alloc);
    let mut buffer = buffer_of(alloc, CHUNK)?;
    while bytes.len() <= limit {
        let most = next_count(limit, bytes.len());
        let count = read_piece(files, name, &mut bytes, &mut buffer, most)?;
        if count == 0 {
            return Ok(bytes);
        }
    }
    Err(FetchError::TooLong)
}

/// A buffer of zeros.
fn buffer_of(alloc: Global, count: usize) -> Result<Vec<u8>, FetchError>
    ensures bytes { IfOk result (λ buffer. vec_len buffer ≡ count) }
    ensures only { IfErr result (λ error. error ≡ FetchError.OutOfMemory) }
{
    match Vec::from_elem(alloc, 0, count) {
        Ok(buffer) => Ok(buffer),
        Err(_) => Err(FetchError::OutOfMemory),
    }
}

/// The number of bytes to ask for next, after `read` bytes of at most `limit`: one more than the limit
/// leaves, and at most a chunk.
fn next_count(limit: usize, read: usize) -> usize
    requires within { read ≤ limit }
    requires bounded { limit < 2 ^ 32 }
    ensures some { 0 < result }
    ensures chunk { result ≤ CHUNK }
    ensures within { read + result ≤ limit + 1 }
    ensures exact { result ≡ min (limit + 1 - read) CHUNK }
{
    (limit + 1 - read).min(CHUNK)
}

/// Reads a piece of at most `most` bytes behind those that were read so far, and returns its length: 0 at
/// the end.
fn read_piece<F: Files>(
    files: &mut F,
    name: &str,
    bytes: &mut Vec<u8>,
    buffer: &mut [u8],
    most: usize,
) -> Result<usize, FetchError>
    requires some { 0 < most }
    requires room { most ≤ length buffer.old }
    requires front { MayBeginWith ((F.seen files.old).contents name.now) bytes.old.items }
    ensures are_bytes { All (λ b. b < 256) bytes.new.items }
    ensures front { OnOk result (MayBeginWith ((F.seen files.old).contents name.now) bytes.new.items) }
    ensures longer { IfOk result (λ count. vec_len bytes.new ≡ vec_len bytes.old + count) }
    ensures count { IfOk result (λ count. count ≤ most) }
    ensures whole { IfOk result (λ count. count ≡ 0
        → MayBeContents ((F.seen files.old).contents name.now) bytes.new.items) }
    ensures in_range { IfErr result (λ error. (error ≡ FetchError.TooLong) → ⊥) }
    ensures cause { (result ≡ Err FetchError.Failed) → CountsOneFault
        ((F.seen files.old).faults name.now) ((F.seen files.new).faults name.now) }
    ensures same { (F.seen files.new).contents ≡ (F.seen files.old).contents }
    ensures no_fault { result ≢ Err FetchError.Failed
        → (F.seen files.new).faults ≡ (F.seen files.old).faults }
    ensures logged { (given : Option ℕ) × ((F.seen files.new).fetches ≡ (F.seen files.old).fetches ++ record {
      name = name.now;
      at = vec_len bytes.old;
      most = most;
      given = given;
    } ∷ []) × IfOk result (λ count. given ≡ Some count) }
{
    let piece = &mut buffer[..most];
    let Ok(count) = files.fetch(name, bytes.len() as u64, piece) else {
        return Err(FetchError::Failed);
    };
    match bytes.extend_from_slice(&piece[..count]) {
        Ok(()) => Ok(count),
        Err(_) => Err(FetchError::OutOfMemory),
    }
}
