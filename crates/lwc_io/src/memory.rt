ghost use Rattle.std.specs.Prelude.{◌≡◌, ℕ, ◌+◌, ◌-◌, ◌<◌, ◌≤◌, ◌↔◌, min, ◌⊎◌, List, [], length, take};
ghost use Rattle.std.specs.Prelude.{replicate, Some, None, option_copied, IfOk, IfSome, OnOk, OnErr, IsErr};
ghost use Rattle.std.specs.Prelude.{IsTrue, bytes_eq, position};
ghost use Rattle.lwc_io.specs.Outside.{CountsOneFault, IsPiece, fetch_into, given_by};
ghost use Rattle.lwc_io.specs.Memory.{place_of, bytes_of, faults_of, fetch_fails, after_fetch, with_fault};
ghost use Rattle.lwc_io.specs.Memory.{write_fails, after_write, after_failed_write};

use crate::log::{Asked, FetchLog};
use crate::outside::{Failed, Files, Sink};
use std::alloc::{AllocError, Global};
use std::marker::Model;

/// A name, and the bytes of its file.
#[derive(Drop)]
pub struct NamedFile {
    name: String,
    bytes: Vec<u8>,
}

impl Model for NamedFile {
    ghost use Rattle.std.specs.Prelude.{string_bytes};
    ghost use Rattle.lwc_io.specs.Memory.{Named};

    ghost Value = { Named };

    ghost view = { λ f. record { name = string_bytes f.name; bytes = f.bytes.items } };
}

impl NamedFile {
    /// A file of that name with those bytes.
    ///
    /// # Errors
    ///
    /// `AllocError` if memory runs out.
    pub fn new(alloc: Global, name: &str, bytes: &[u8]) -> Result<Self, AllocError>
        ensures { IfOk result (λ file. file ≡ record { name = name.now; bytes = bytes.now }) }
    {
        let name = String::from_str(alloc, name)?;
        let bytes = Vec::from_slice(alloc, bytes)?;
        Ok(NamedFile { name, bytes })
    }

    /// Whether that is its name.
    pub fn is_named(&self, name: &str) -> bool
        ensures { result ≡ bytes_eq self.now.name name.now }
    {
        self.name.as_str() == name
    }
}

/// The place of the first file of that name.
fn position_named(files: &[NamedFile], name: &str) -> Option<usize>
    ensures { result ≡ position (λ file. bytes_eq file.name name.now) files.now }
{
    files.iter().position(|file| file.is_named(name))
}

/// The place of the first file of that name, or the number of files.
fn place_named(files: &[NamedFile], name: &str) -> usize
    ensures place { result ≡ place_of files.now name.now }
    ensures within { result ≤ length files.now }
{
    position_named(files, name).unwrap_or(files.len())
}

/// The bytes of the first file of that name.
pub(crate) fn bytes_named<'a>(files: &'a [NamedFile], name: &str) -> Option<&'a [u8]>
    ensures { option_copied result ≡ bytes_of files.now name.now }
{
    files
        .get(place_named(files, name))
        .map(|file| file.bytes.as_slice())
}

/// Copies the bytes from the offset `at` on into the front of the buffer, as many as there are and fit.
pub(crate) fn copy_piece(bytes: &[u8], at: u64, buffer: &mut [u8]) -> usize
    ensures count { result ≡ min (length buffer.new) (length bytes.now - at) }
    ensures piece { IsPiece bytes.now at result buffer.new }
{
    let start = bytes.len().min(at as usize);
    let count = buffer.len().min(bytes.len() - start);
    buffer[..count].copy_from_slice(&bytes[start..start + count]);
    count
}

/// Files in memory, whose contents are known. A fetch fails if no file has the name, and at the calls
/// that were chosen to fail.
#[derive(Drop)]
pub struct MemoryFiles {
    files: Vec<NamedFile>,
    // Of each file's name, and last of every other name.
    faults: Vec<u64>,
    calls: u64,
    failing: Vec<u64>,
    log: FetchLog,
}

impl Model for MemoryFiles {
    ghost use Rattle.std.specs.Prelude.{◌≡◌, ◌+◌, length};
    ghost use Rattle.lwc_io.specs.Memory.{FilesInMemory};

    ghost Value = { FilesInMemory };

    ghost view = { λ m. record {
      files = m.files.items;
      faults = m.faults.items;
      calls = m.calls;
      failing = m.failing.items;
      fetches = m.log.fetches;
    } };

    ghost invariant = { λ m. length m.faults.items ≡ length m.files.items + 1 };
}

impl MemoryFiles {
    /// These files; where two have one name, the first counts. Of the fetches, numbered from 0 on, those in
    /// `failing` fail.
    ///
    /// # Errors
    ///
    /// `AllocError` if there is no memory for the counts of faults.
    pub fn new(alloc: Global, files: Vec<NamedFile>, failing: Vec<u64>) -> Result<Self, AllocError>
        ensures { IfOk result (λ state. state ≡ record {
          files = files.items;
          faults = replicate (length files.items + 1) 0;
          calls = 0;
          failing = failing.items;
          fetches = [];
        }) }
    {
        let faults = Vec::from_elem(alloc, 0, files.len() + 1)?;
        Ok(MemoryFiles {
            files,
            faults,
            calls: 0,
            failing,
            log: FetchLog::new(),
        })
    }

    /// How often a fetch of that name failed. All names that no file has share one count.
    pub fn fault_count(&self, name: &str) -> u64
        ensures { result ≡ faults_of self.now name.now }
    {
        self.faults[place_named(&self.files, name)]
    }

    /// Counts a call.
    fn count_call(&mut self, asked: &Asked<'_>)
        ensures { self.new ≡ after_fetch self.old (record {
          name = asked.now.name.now;
          at = asked.now.at;
          most = asked.now.most;
          given = asked.now.given;
        }) }
    {
        self.calls = self.calls.saturating_add(1);
        self.log = self.log.then(asked);
    }

    /// Counts a fault of that name.
    fn count_fault(&mut self, name: &str)
        ensures counted { self.new ≡ with_fault self.old name.now }
        ensures never_decreases { (q : List ℕ) → faults_of self.old q ≤ faults_of self.new q }
        ensures one { CountsOneFault (faults_of self.old name.now) (faults_of self.new name.now) }
    {
        let place = place_named(&self.files, name);
        self.faults[place] = self.faults[place].saturating_add(1);
    }
}

impl Files for MemoryFiles {
    ghost seen = { λ state. record {
      contents = bytes_of state.files;
      faults = faults_of state;
      fetches = state.fetches;
    } };

    /// Reads as many bytes as the file has and the buffer takes.
    ///
    /// # Errors
    ///
    /// `Failed` exactly if the call is one of those that fail, or no file has the name. It increments the
    /// count of that name alone; all names that no file has share one count.
    fn fetch(&mut self, name: &str, at: u64, buffer: &mut [u8]) -> Result<usize, Failed>
        ensures fails { IsErr result ↔ IsTrue (fetch_fails self.old name.now) }
        ensures count { IfOk result (λ n. IfSome (bytes_of self.old.files name.now)
            (λ bytes. n ≡ min (length buffer.new) (length bytes - at))) }
        ensures piece { IfOk result (λ n. IfSome (bytes_of self.old.files name.now)
            (λ bytes. IsPiece bytes at n buffer.new)) }
        ensures ok { OnOk result
            (self.new ≡ after_fetch self.old (fetch_into name.now at buffer.old (given_by result))) }
        ensures err { OnErr result
            (self.new ≡ with_fault (after_fetch self.old (fetch_into name.now at buffer.old None)) name.now) }
        ensures never_decreases { (q : List ℕ) → faults_of self.old q ≤ faults_of self.new q }
        ensures cause { OnErr result
            (CountsOneFault (faults_of self.old name.now) (faults_of self.new name.now)) }
    {
        let most = buffer.len();
        let given = match bytes_named(&self.files, name) {
            Some(bytes) if !self.failing.contains(&self.calls) => Some(copy_piece(
                bytes, at, buffer,
            )),
            _ => None,
        };
        self.count_call(&Asked {
            name,
            at,
            most,
            given,
        });
        match given {
            Some(count) => Ok(count),
            None => {
                self.count_fault(name);
                Err(Failed)
            }
        }
    }
}

/// A sink in memory, whose bytes are known. A write fails at the calls that were chosen to fail, and if
/// memory runs out.
#[derive(Drop)]
pub struct MemorySink {
    bytes: Vec<u8>,
    most: usize,
    faults: u64,
    calls: u64,
    failing: Vec<u64>,
}

impl Model for MemorySink {
    ghost use Rattle.std.specs.Prelude.{vec_capacity};
    ghost use Rattle.lwc_io.specs.Memory.{SinkInMemory};

    ghost Value = { SinkInMemory };

    ghost view = { λ s. record {
      bytes = s.bytes.items;
      capacity = vec_capacity s.bytes;
      most = s.most;
      faults = s.faults;
      calls = s.calls;
      failing = s.failing.items;
    } };
}

impl MemorySink {
    /// An empty sink that takes at most `most` bytes a call. Of the writes, numbered from 0 on, those
    /// in `failing` fail.
    pub fn new(alloc: Global, most: usize, failing: Vec<u64>) -> Self
        ensures { result ≡ record {
          bytes = [];
          capacity = result.capacity;
          most = most;
          faults = 0;
          calls = 0;
          failing = failing.items;
        } }
    {
        MemorySink {
            bytes: Vec::new(alloc),
            most,
            faults: 0,
            calls: 0,
            failing,
        }
    }

    /// Makes room for `additional` more bytes, so that no write runs out of memory before they are taken.
    ///
    /// # Errors
    ///
    /// `AllocError` if there is no memory for them. The sink is as before.
    pub fn reserve(&mut self, additional: usize) -> Result<(), AllocError>
        ensures ok { OnOk result (length self.new.bytes + additional ≤ self.new.capacity) }
        ensures same { self.new ≡ record self.old { capacity = self.new.capacity } }
    {
        self.bytes.reserve(additional)
    }

    /// All the bytes that it took, in order.
    pub fn bytes(&self) -> &[u8]
        ensures { result.now ≡ self.now.bytes }
    {
        self.bytes.as_slice()
    }

    /// How often a write failed.
    pub fn fault_count(&self) -> u64
        ensures { result ≡ self.now.faults }
    {
        self.faults
    }

    /// Whether a write of that piece fails though there is memory.
    fn fails_next(&self, piece: &[u8]) -> bool
        ensures { result ≡ write_fails self.now piece.now }
    {
        self.failing.contains(&self.calls) || self.most == 0 && !piece.is_empty()
    }

    /// Counts a call that failed.
    fn count_fault(&mut self)
        ensures counted { self.new ≡ after_failed_write self.old }
        ensures never_decreases { self.old.faults ≤ self.new.faults }
    {
        self.calls = self.calls.saturating_add(1);
        self.faults = self.faults.saturating_add(1);
    }

    /// Counts a call and keeps the piece, or neither.
    fn keep(&mut self, piece: &[u8]) -> Result<(), AllocError>
        ensures ok { OnOk result
            (self.new ≡ record (after_write self.old piece.now) { capacity = self.new.capacity }) }
        ensures err { OnErr result (self.new ≡ record self.old { capacity = self.new.capacity }) }
        ensures full { OnErr result (self.old.capacity < length self.old.bytes + length piece.now) }
    {
        self.bytes.extend_from_slice(piece)?;
        self.calls = self.calls.saturating_add(1);
        Ok(())
    }
}

impl Sink for MemorySink {
    ghost seen = { λ state. record { taken = Some state.bytes; faults = state.faults } };

    /// Takes the whole piece, or the most that the sink takes a call.
    ///
    /// # Errors
    ///
    /// `Failed` if the call is one of those that fail, if the sink takes no bytes and the piece is not
    /// empty, and if memory runs out. It increments the count of faults.
    fn write(&mut self, piece: &[u8]) -> Result<usize, Failed>
        ensures fails { IsTrue (write_fails self.old piece.now) → IsErr result }
        ensures fails_only { OnErr result (IsTrue (write_fails self.old piece.now)
            ⊎ (self.old.capacity < length self.old.bytes + min self.old.most (length piece.now))) }
        ensures count { IfOk result (λ n. n ≡ min self.old.most (length piece.now)) }
        ensures ok { IfOk result (λ n.
            self.new ≡ record (after_write self.old (take n piece.now)) { capacity = self.new.capacity }) }
        ensures err { OnErr result
            (self.new ≡ record (after_failed_write self.old) { capacity = self.new.capacity }) }
        ensures never_decreases { self.old.faults ≤ self.new.faults }
    {
        let count = self.most.min(piece.len());
        if self.fails_next(piece) || self.keep(&piece[..count]).is_err() {
            self.count_fault();
            return Err(Failed);
        }
        Ok(count)
    }
}
