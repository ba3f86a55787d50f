ghost use Rattle.std.specs.Prelude.{◌≡◌, ℕ, ◌<◌, ◌≤◌, List, length, take, IfOk, IfSome, OnErr, OnOk};
ghost use Rattle.lwc_io.specs.Outside.{CountsOneFault, FilesView, IsPiece, SinkView, appended, given_by};
ghost use Rattle.lwc_io.specs.Outside.{with_fetch};

use thiserror::Error;

/// A call to the outside failed, and was counted there as a fault.
#[derive(Clone, Copy, Debug, PartialEq, Eq, Error)]
#[error("a call to the outside failed")]
pub struct Failed;

/// Files that are fetched piece by piece, by their names.
pub trait Files {
    /// The contents of each file by its name, where they are known, how often a fetch of each name failed,
    /// and all fetches so far.
    ghost seen: { Self → FilesView };

    /// Reads bytes of the file from the offset `at` on into the front of the buffer, and returns their
    /// number. With a buffer that is not empty, 0 says that the file ends at `at` or before it. No contents
    /// change, and no count of faults does unless it fails.
    ///
    /// # Errors
    ///
    /// `Failed` if the file cannot be read; then the count of faults of that name is one more. Nothing is
    /// said of the buffer then.
    fn fetch(&mut self, name: &str, at: u64, buffer: &mut [u8]) -> Result<usize, Failed>
        ensures count { IfOk result (λ n. n ≤ length buffer.new) }
        ensures piece { IfOk result (λ n. IfSome ((seen self.old).contents name.now)
            (λ bytes. IsPiece bytes at n buffer.new)) }
        ensures same { (seen self.new).contents ≡ (seen self.old).contents }
        ensures never_decreases { (q : List ℕ) → (seen self.old).faults q ≤ (seen self.new).faults q }
        ensures cause { OnErr result
            (CountsOneFault ((seen self.old).faults name.now) ((seen self.new).faults name.now)) }
        ensures no_fault { OnOk result ((seen self.new).faults ≡ (seen self.old).faults) }
        ensures logged { (seen self.new).fetches
            ≡ with_fetch (seen self.old).fetches name.now at buffer.old (given_by result) };
}

/// What takes bytes, piece by piece.
pub trait Sink {
    /// All the bytes that it took so far, where they are known, and how often a write failed.
    ghost seen: { Self → SinkView };

    /// Takes bytes from the front of the piece and returns their number, which is at least one if the piece
    /// is not empty. Then the count of faults is as before.
    ///
    /// # Errors
    ///
    /// `Failed` if it takes nothing; then the count of faults is one more.
    fn write(&mut self, piece: &[u8]) -> Result<usize, Failed>
        ensures count { IfOk result (λ n. n ≤ length piece.now) }
        ensures some { IfOk result (λ n. 0 < length piece.now → 0 < n) }
        ensures appended { IfOk result (λ n.
            (seen self.new).taken ≡ appended (seen self.old).taken (take n piece.now)) }
        ensures kept { OnErr result ((seen self.new).taken ≡ (seen self.old).taken) }
        ensures never_decreases { (seen self.old).faults ≤ (seen self.new).faults }
        ensures cause { OnErr result (CountsOneFault (seen self.old).faults (seen self.new).faults) }
        ensures no_fault { OnOk result ((seen self.new).faults ≡ (seen self.old).faults) };
}
