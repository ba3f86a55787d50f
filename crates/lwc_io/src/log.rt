ghost use Rattle.std.specs.Prelude.{◌≡◌, List, [], ◌∷◌, ◌++◌};
ghost use Rattle.std.specs.Borrow.{ftrue};
ghost use Rattle.lwc_io.specs.Coding.{fetches_code};
ghost use Rattle.lwc_io.specs.Outside.{Fetch};

use std::marker::Model;

/// A fetch of the file of that name, from the offset `at` on, into a buffer of `most` bytes, which gave this
/// number of them, or failed.
#[derive(Clone, Copy, Drop)]
pub(crate) struct Asked<'a> {
    pub name: &'a str,
    pub at: u64,
    pub most: usize,
    pub given: Option<usize>,
}

/// The fetches so far, in their order. Only proofs see them: a log has no bytes and takes no memory.
#[derive(Drop)]
pub(crate) struct FetchLog {
    pub ghost fetches: { List Fetch } by { fetches_code },
}

impl Model for FetchLog {
    ghost also_owns = { λ _. ftrue };
}

impl FetchLog {
    /// The log before the first fetch.
    pub(crate) fn new() -> Self
        ensures { result.fetches ≡ [] }
    {
        FetchLog {}
    }

    /// The log with one more fetch.
    pub(crate) fn then(&self, _asked: &Asked<'_>) -> Self
        ensures { result.fetches ≡ self.now.fetches ++ record {
          name = _asked.now.name.now;
          at = _asked.now.at;
          most = _asked.now.most;
          given = _asked.now.given;
        } ∷ [] }
    {
        FetchLog {}
    }
}
